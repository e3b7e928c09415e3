ghost use Rattle.std.specs.Prelude.{◌≡◌, slice_get};
ghost use Rattle.std.specs.Option.{option_map};
ghost use Rattle.nss_tree.specs.Reading.{plain_expr, plain_exprs, plain_item, plain_name};
ghost use Rattle.nss_tree.specs.Reading.{plain_names, plain_stmt, plain_stmts, plain_tree};
ghost use Rattle.nss_tree.specs.Places.{of_constant, places, places_declared, places_each};
ghost use Rattle.nss_tree.specs.Places.{places_expr, places_exprs, places_identifier, places_if};
ghost use Rattle.nss_tree.specs.Places.{places_item, places_line, places_parameter, places_stmt};
ghost use Rattle.nss_tree.specs.Places.{places_stmts};
ghost use Rattle.nss_tree.specs.Seeking.{passed, sought, token_found};

use crate::constants::Constant;
use crate::expressions::Expr;
use crate::statements::{DeclaredName, Stmt};
use crate::units::{FieldLine, Identifier, Item, Parameter, Tree};

/// The way to a node in preorder.
#[derive(Clone, Copy)]
enum Seek {
    /// So many nodes are to be passed first.
    Ahead(u32),
    /// The node was met; it has this token.
    Found(u32),
}

/// The way after one node.
fn pass(token: u32, seek: Seek) -> Seek
    ensures { result ≡ passed token seek }
{
    match seek {
        Seek::Ahead(0) => Seek::Found(token),
        Seek::Ahead(left) => Seek::Ahead(left - 1),
        Seek::Found(found) => Seek::Found(found),
    }
}

/// The token of the node that was met.
fn token_of(seek: Seek) -> Option<u32>
    ensures { result ≡ token_found seek }
{
    match seek {
        Seek::Ahead(_) => None,
        Seek::Found(token) => Some(token),
    }
}

fn seek_constant(constant: &Constant, seek: Seek) -> Seek
    ensures { result ≡ sought (of_constant constant.now) seek }
{
    match constant {
        Constant::Int { token, .. } => pass(*token, seek),
        Constant::Float { token, .. } => pass(*token, seek),
        Constant::Text { token, .. } => pass(*token, seek),
        Constant::Name { token, .. } => pass(*token, seek),
        Constant::ObjectSelf { token } => pass(*token, seek),
        Constant::ObjectInvalid { token } => pass(*token, seek),
    }
}

#[cycle(expressions)]
fn seek_expr(expr: &Expr, seek: Seek) -> Seek
    ensures { result ≡ sought (places_expr (plain_expr expr.now)) seek }
{
    match expr {
        Expr::Int { token, .. } => pass(*token, seek),
        Expr::Float { token } => pass(*token, seek),
        Expr::Text { token, .. } => pass(*token, seek),
        Expr::ObjectSelf { token } => pass(*token, seek),
        Expr::ObjectInvalid { token } => pass(*token, seek),
        Expr::Name { token, .. } => pass(*token, seek),
        Expr::Call {
            token,
            arguments,
            ..
        } => seek_exprs(arguments.as_slice(), pass(*token, seek)),
        Expr::Member { token, of, .. } => seek_expr(of, pass(*token, seek)),
        Expr::Prefix { token, of, .. } => seek_expr(of, pass(*token, seek)),
        Expr::Postfix { token, of, .. } => seek_expr(of, pass(*token, seek)),
        Expr::Binary {
            token,
            left,
            right,
            ..
        } => seek_expr(right, seek_expr(left, pass(*token, seek))),
        Expr::Assign {
            token,
            place,
            value,
            ..
        } => seek_expr(value, seek_expr(place, pass(*token, seek))),
    }
}

#[cycle(expressions)]
#[tactic(auto, using(crate::proofs::SeekLaws::each_end, crate::proofs::SeekLaws::exprs_each))]
fn seek_exprs(exprs: &[Expr], mut seek: Seek) -> Seek
    ensures { result ≡ sought (places_exprs (plain_exprs exprs.now)) seek }
{
    for expr in exprs {
        seek = seek_expr(expr, seek);
    }
    seek
}

fn seek_optional(expr: &Option<Expr>, seek: Seek) -> Seek
    ensures { result ≡ sought (places_if places_expr (option_map plain_expr expr.now)) seek }
{
    match expr {
        None => seek,
        Some(expr) => seek_expr(expr, seek),
    }
}

#[tactic(auto, using(crate::proofs::SeekLaws::each_end, crate::proofs::SeekLaws::names_each))]
fn seek_names(names: &[DeclaredName], mut seek: Seek) -> Seek
    ensures { result ≡ sought (places_each places_declared (plain_names names.now)) seek }
{
    for name in names {
        seek = seek_optional(&name.value, pass(name.token, seek));
    }
    seek
}

#[cycle(statements)]
fn seek_stmt(stmt: &Stmt, seek: Seek) -> Seek
    ensures { result ≡ sought (places_stmt (plain_stmt stmt.now)) seek }
{
    match stmt {
        Stmt::Block { token, items } => seek_stmts(items.as_slice(), pass(*token, seek)),
        Stmt::Empty { token } => pass(*token, seek),
        Stmt::Expression { token, value } => seek_expr(value, pass(*token, seek)),
        Stmt::If {
            token,
            condition,
            then,
        } => seek_stmt(then, seek_expr(condition, pass(*token, seek))),
        Stmt::IfElse {
            token,
            condition,
            then,
            otherwise,
        } => seek_stmt(
            otherwise,
            seek_stmt(then, seek_expr(condition, pass(*token, seek))),
        ),
        Stmt::While {
            token,
            condition,
            body,
        } => seek_stmt(body, seek_expr(condition, pass(*token, seek))),
        Stmt::Do {
            token,
            body,
            condition,
        } => seek_expr(condition, seek_stmt(body, pass(*token, seek))),
        Stmt::For {
            token,
            start,
            condition,
            step,
            body,
        } => {
            let seek = seek_optional(start, pass(*token, seek));
            let seek = seek_optional(step, seek_optional(condition, seek));
            seek_stmt(body, seek)
        }
        Stmt::Switch { token, value, body } => {
            seek_stmts(body.as_slice(), seek_expr(value, pass(*token, seek)))
        }
        Stmt::Break { token } => pass(*token, seek),
        Stmt::Continue { token } => pass(*token, seek),
        Stmt::Return { token, value } => seek_optional(value, pass(*token, seek)),
        Stmt::Declaration { token, names, .. } => {
            seek_names(names.as_slice(), pass(*token, seek))
        }
        Stmt::Case { token, value } => seek_constant(value, pass(*token, seek)),
        Stmt::Default { token } => pass(*token, seek),
    }
}

#[cycle(statements)]
#[tactic(auto, using(crate::proofs::SeekLaws::each_end, crate::proofs::SeekLaws::stmts_each))]
fn seek_stmts(stmts: &[Stmt], mut seek: Seek) -> Seek
    ensures { result ≡ sought (places_stmts (plain_stmts stmts.now)) seek }
{
    for stmt in stmts {
        seek = seek_stmt(stmt, seek);
    }
    seek
}

#[tactic(auto, using(crate::proofs::SeekLaws::seek_laws, crate::proofs::SeekLaws::each_end))]
fn seek_identifiers(names: &[Identifier], mut seek: Seek) -> Seek
    ensures { result ≡ sought (places_each places_identifier names.now) seek }
{
    for name in names {
        seek = pass(name.token, seek);
    }
    seek
}

#[tactic(auto, using(crate::proofs::SeekLaws::seek_laws, crate::proofs::SeekLaws::each_end))]
fn seek_lines(lines: &[FieldLine], mut seek: Seek) -> Seek
    ensures { result ≡ sought (places_each places_line lines.now) seek }
{
    for line in lines {
        seek = seek_identifiers(line.names.as_slice(), pass(line.token, seek));
    }
    seek
}

fn seek_default(default: &Option<Constant>, seek: Seek) -> Seek
    ensures { result ≡ sought (places_if of_constant default.now) seek }
{
    match default {
        None => seek,
        Some(constant) => seek_constant(constant, seek),
    }
}

#[tactic(auto, using(crate::proofs::SeekLaws::seek_laws, crate::proofs::SeekLaws::each_end))]
fn seek_parameters(parameters: &[Parameter], mut seek: Seek) -> Seek
    ensures { result ≡ sought (places_each places_parameter parameters.now) seek }
{
    for parameter in parameters {
        seek = seek_default(&parameter.default, pass(parameter.token, seek));
    }
    seek
}

fn seek_item(item: &Item, seek: Seek) -> Seek
    ensures { result ≡ sought (places_item (plain_item item.now)) seek }
{
    match item {
        Item::Struct { token, fields, .. } => seek_lines(fields.as_slice(), pass(*token, seek)),
        Item::Const {
            token,
            name,
            value,
            ..
        } => seek_constant(value, pass(name.token, pass(*token, seek))),
        Item::Global { token, names, .. } => seek_names(names.as_slice(), pass(*token, seek)),
        Item::Function {
            token,
            parameters,
            body,
            ..
        } => {
            let seek = seek_parameters(parameters.as_slice(), pass(*token, seek));
            match body {
                None => seek,
                Some(body) => seek_stmts(body.as_slice(), seek),
            }
        }
    }
}

impl Tree {
    /// The token number of a node, nodes numbered from 0 in preorder over the whole tree; None from
    /// their count on.
    #[tactic(auto, using(crate::proofs::SeekLaws::place_is))]
    pub fn place(&self, node: u32) -> Option<u32>
        ensures token { result ≡ slice_get (places (plain_tree self.now)) node }
    {
        let mut seek = Seek::Ahead(node);
        for item in self.items.as_slice() {
            seek = seek_item(item, seek);
        }
        token_of(seek)
    }
}
