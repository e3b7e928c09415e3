ghost use Rattle.std.specs.Prelude.{◌≡◌, IfOk, OnErr, OnOk, ◌++◌, ◌∷◌, []};
ghost use Rattle.nss_tree.specs.Statements as tree;
ghost use Rattle.nss_tree.specs.Reading.{tree_of_stmt, tree_of_stmts};

use crate::constants::{Constant, TypeName};
use crate::expressions::Expr;
use nwq_value::{Items, NoMemory, Text};
use std::alloc::Global;

/// A name that a declaration declares, with its first value where one is written. The token is the
/// name.
#[derive(Drop)]
pub struct DeclaredName<E = Expr, N = Text> {
    pub token: u32,
    pub name: N,
    pub value: Option<E>,
}

/// What stands in a block or in the body of a switch: a statement, a declaration or a label, with
/// its expressions `E`, constants `C`, types `T` and declared names `N`.
///
/// The token of a statement or a label is its first token, of a declaration the first token of its
/// type.
#[derive(Drop)]
pub enum Stmt<E = Expr, C = Constant, T = TypeName, N = Text> {
    Block {
        token: u32,
        items: Vec<Stmt<E, C, T, N>>,
    },
    Empty {
        token: u32,
    },
    Expression {
        token: u32,
        value: E,
    },
    If {
        token: u32,
        condition: E,
        then: Box<Stmt<E, C, T, N>>,
    },
    IfElse {
        token: u32,
        condition: E,
        then: Box<Stmt<E, C, T, N>>,
        otherwise: Box<Stmt<E, C, T, N>>,
    },
    While {
        token: u32,
        condition: E,
        body: Box<Stmt<E, C, T, N>>,
    },
    Do {
        token: u32,
        body: Box<Stmt<E, C, T, N>>,
        condition: E,
    },
    For {
        token: u32,
        start: Option<E>,
        condition: Option<E>,
        step: Option<E>,
        body: Box<Stmt<E, C, T, N>>,
    },
    Switch {
        token: u32,
        value: E,
        body: Vec<Stmt<E, C, T, N>>,
    },
    Break {
        token: u32,
    },
    Continue {
        token: u32,
    },
    Return {
        token: u32,
        value: Option<E>,
    },
    Declaration {
        token: u32,
        ty: T,
        names: Items<DeclaredName<E, N>>,
    },
    Case {
        token: u32,
        value: C,
    },
    Default {
        token: u32,
    },
}

#[tactic(auto, using(crate::specs::Readings::plain_laws))]
impl<E: Drop, C: Drop, T: Drop, N: Drop> Stmt<E, C, T, N> {
    pub fn block(token: u32, items: Items<Stmt<E, C, T, N>>) -> Stmt<E, C, T, N>
        ensures made { tree_of_stmt result ≡ tree.block token (tree_of_stmts items) }
    {
        Stmt::Block {
            token,
            items: items.into_vec(),
        }
    }

    pub fn empty(token: u32) -> Stmt<E, C, T, N>
        ensures made { tree_of_stmt result ≡ tree.empty token }
    {
        Stmt::Empty { token }
    }

    pub fn expression(token: u32, value: E) -> Stmt<E, C, T, N>
        ensures made { tree_of_stmt result ≡ tree.expression token value }
    {
        Stmt::Expression { token, value }
    }

    pub fn if_only(
        alloc: Global,
        token: u32,
        condition: E,
        then: Stmt<E, C, T, N>,
    ) -> Result<Stmt<E, C, T, N>, NoMemory>
        ensures made { IfOk result
            (λ s. tree_of_stmt s ≡ tree.if_only token condition (tree_of_stmt then)) }
    {
        Ok(Stmt::If {
            token,
            condition,
            then: Box::new(alloc, then)?,
        })
    }

    pub fn if_else(
        alloc: Global,
        token: u32,
        condition: E,
        then: Stmt<E, C, T, N>,
        otherwise: Stmt<E, C, T, N>,
    ) -> Result<Stmt<E, C, T, N>, NoMemory>
        ensures made { IfOk result
            (λ s. tree_of_stmt s ≡ tree.if_else token condition (tree_of_stmt then)
            (tree_of_stmt otherwise)) }
    {
        match Box::new(alloc, then) {
            Err(error) => {
                drop(otherwise);
                Err(NoMemory::from(error))
            }
            Ok(then) => Ok(Stmt::IfElse {
                token,
                condition,
                then,
                otherwise: Box::new(alloc, otherwise)?,
            }),
        }
    }

    pub fn while_loop(
        alloc: Global,
        token: u32,
        condition: E,
        body: Stmt<E, C, T, N>,
    ) -> Result<Stmt<E, C, T, N>, NoMemory>
        ensures made { IfOk result
            (λ s. tree_of_stmt s ≡ tree.while_loop token condition (tree_of_stmt body)) }
    {
        Ok(Stmt::While {
            token,
            condition,
            body: Box::new(alloc, body)?,
        })
    }

    pub fn do_loop(
        alloc: Global,
        token: u32,
        body: Stmt<E, C, T, N>,
        condition: E,
    ) -> Result<Stmt<E, C, T, N>, NoMemory>
        ensures made { IfOk result
            (λ s. tree_of_stmt s ≡ tree.do_loop token (tree_of_stmt body) condition) }
    {
        Ok(Stmt::Do {
            token,
            body: Box::new(alloc, body)?,
            condition,
        })
    }

    pub fn for_loop(
        alloc: Global,
        token: u32,
        start: Option<E>,
        condition: Option<E>,
        step: Option<E>,
        body: Stmt<E, C, T, N>,
    ) -> Result<Stmt<E, C, T, N>, NoMemory>
        ensures made { IfOk result
            (λ s. tree_of_stmt s ≡ tree.for_loop token start condition step (tree_of_stmt body)) }
    {
        Ok(Stmt::For {
            token,
            start,
            condition,
            step,
            body: Box::new(alloc, body)?,
        })
    }

    pub fn switch(token: u32, value: E, body: Items<Stmt<E, C, T, N>>) -> Stmt<E, C, T, N>
        ensures made { tree_of_stmt result ≡ tree.switch token value (tree_of_stmts body) }
    {
        Stmt::Switch {
            token,
            value,
            body: body.into_vec(),
        }
    }

    pub fn break_off(token: u32) -> Stmt<E, C, T, N>
        ensures made { tree_of_stmt result ≡ tree.break_off token }
    {
        Stmt::Break { token }
    }

    pub fn continue_on(token: u32) -> Stmt<E, C, T, N>
        ensures made { tree_of_stmt result ≡ tree.continue_on token }
    {
        Stmt::Continue { token }
    }

    pub fn return_from(token: u32, value: Option<E>) -> Stmt<E, C, T, N>
        ensures made { tree_of_stmt result ≡ tree.return_from token value }
    {
        Stmt::Return { token, value }
    }

    pub fn declaration(token: u32, ty: T, names: Items<DeclaredName<E, N>>) -> Stmt<E, C, T, N>
        ensures made { tree_of_stmt result ≡ tree.declaration token ty names }
    {
        Stmt::Declaration { token, ty, names }
    }

    pub fn case_label(token: u32, value: C) -> Stmt<E, C, T, N>
        ensures made { tree_of_stmt result ≡ tree.case_label token value }
    {
        Stmt::Case { token, value }
    }

    pub fn default_label(token: u32) -> Stmt<E, C, T, N>
        ensures made { tree_of_stmt result ≡ tree.default_label token }
    {
        Stmt::Default { token }
    }
}
