//! Functions, with their heads and bodies.

ghost use Rattle.std.specs.Prelude.{◌≡◌, ◌++◌, ◌∷◌, ◌&&◌, [], false, not, IfOk, OnOk, Some};
ghost use Rattle.std.specs.Prelude.{is_some};
ghost use Rattle.std.specs.Option.{option_map};
ghost use Rattle.nss_tree.specs.Reading.{plain_stmts};
ghost use Rattle.nss_tree.specs.Units as unit;
ghost use Rattle.typing_rules.specs.declared.fault.FaultKind.TheVariants as kind;
ghost use Rattle.typing_rules.specs.Nodes.{asked, at, faults_there, fine, first_kind, if_there};
ghost use Rattle.typing_rules.specs.Nodes.{kept};
ghost use Rattle.typing_rules.specs.Nodes.{only, row, three, two};
ghost use Rattle.typing_rules.specs.Rules.{agrees, function_rows, function_rule, gives, head_rows};
ghost use Rattle.typing_rules.specs.Rules.{head_rule, is_missing, is_refused, may_declare};
ghost use Rattle.typing_rules.specs.Rules.{params_of, same_types};
ghost use Rattle.typing_rules.specs.Rules as rules;
ghost use Rattle.typing_rules.specs.Sight.{first_types, has_body};
ghost use Rattle.typing_rules.specs.Types.{is_void};
ghost use Rattle.typing_rules.specs.UnitReading.{typed_item, typed_stmts};
ghost use Rattle.typing_rules.specs.Verdicts.{after_body, after_params, body_faults, body_fine};
ghost use Rattle.typing_rules.specs.Verdicts.{params_faults, params_fine};
ghost use Rattle.typing_rules.specs.Verdicts.{after_item, item_faults, item_fine};
ghost use Rattle.nss_scopes.specs.Entries.{head_of, meant_of, signature_of};
ghost use Rattle.nss_scopes.specs.Views.{in_sight};
ghost use Rattle.nss_types.specs.Heads.{head_rule_by};
ghost use Rattle.nss_expressions.specs.Views.{heads_in, sight_in};
ghost use Rattle.nss_types.specs.Heads.{typed_head};

use crate::parameter::parameters;
use nss_expressions::given::Given;
use nss_expressions::line::{any_type, result_type, type_means};
use nss_expressions::note::note;
use nss_expressions::rules::is_void;
use nss_scopes::laws::scopes_are_left;
use nss_scopes::{Head, Heads, Meant, Sight, Signature};
use nss_statements::returns::some_returns;
use nss_statements::statement::statements;
use nss_tree::{Item, Parameter, Stmt, TypeName};
use nwq_value::{Const, Items, NoMemory, Param, Params, Text, Ty};
use std::alloc::Global;
use typing_rules::laws::scopes_only_add;
use typing_rules::rules::same_type;
use typing_rules::{Fault, FaultKind, TypedItem, TypedParameter, TypedStmt};

/// The typed parameters and the result of a function.
#[derive(Drop)]
pub struct TypedHead {
    pub params: Items<TypedParameter>,
    pub result: Ty,
}

/// Whether parameters have the same types as others.
fn same_types(params: &[Param], others: &[TypedParameter]) -> bool
    ensures { result ≡ same_types params.now (params_of others.now) }
{
    if params.len() != others.len() {
        return false;
    }
    let mut at = 0;
    while at < params.len() {
        if !same_type(params[at].ty, others[at].ty) {
            return false;
        }
        at += 1;
    }
    true
}

/// Whether a declaration agrees with the first one, where there is one.
fn agrees(first: Option<&Signature>, head: &TypedHead) -> bool
    ensures { result ≡ agrees (option_map (λ s. signature_of s.now) first.entry)
        (rules.signature_of (typed_head head.now)) }
{
    match first {
        None => true,
        Some(first) => {
            same_types(first.params.as_slice(), head.params.as_slice())
                && same_type(first.result, head.result)
        }
    }
}

/// The types of the first declaration of a function, maybe no declaration; `None` where it isn't
/// typed.
pub fn first_types<'a>(seen: &'a Heads, name: &[u8]) -> Option<Option<&'a Signature>>
    ensures signature { option_map (option_map (λ s. signature_of s.now)) result
        ≡ first_types name.now seen.now }
{
    match seen.find(name) {
        None => Some(None),
        Some(head) => match &head.types {
            Some(types) => Some(Some(types)),
            None => None,
        },
    }
}

/// The kind of fault of a function's head.
fn head_kind(meant: Meant) -> FaultKind
    ensures { result ≡ first_kind (row kind.RefusedType (is_refused (meant_of meant))
        (row kind.Unknown (is_missing (meant_of meant)) (only kind.Redeclared))) }
{
    match meant {
        Meant::Refused => FaultKind::RefusedType,
        Meant::Missing => FaultKind::Unknown,
        Meant::Is(_) => FaultKind::Redeclared,
    }
}

/// A head with these parameters and this result; `is_taken` says that its name stood before as
/// another thing's, `is_second` that it has a second body.
fn judge_typed_head(
    least: &mut Option<Fault>,
    token: u32,
    params: Items<TypedParameter>,
    meant: Meant,
    first: Option<&Signature>,
    is_taken: bool,
    is_second: bool,
) -> Option<TypedHead>
    ensures value { option_map typed_head result ≡ fine (asked head_rows
        (head_rule_by is_taken is_second)
        (Some (params, meant_of meant, option_map (λ s. signature_of s.now) first.entry))) }
    ensures least { least.new ≡ kept least.old (at token (asked head_rows
        (head_rule_by is_taken is_second)
        (Some (params, meant_of meant, option_map (λ s. signature_of s.now) first.entry)))) }
{
    match any_type(meant) {
        Some(result) => {
            let head = TypedHead { params, result };
            if may_declare(is_taken, agrees(first, &head), is_second) {
                return Some(head);
            }
            drop(head);
            note(least, head_kind(meant), token);
            None
        }
        None => {
            drop(params);
            note(least, head_kind(meant), token);
            None
        }
    }
}

fn may_declare(is_taken: bool, agrees: bool, is_second: bool) -> bool
    ensures { result ≡ (not is_taken && (agrees && not is_second)) }
{
    !is_taken && agrees && !is_second
}

/// A head by what is known of its parameters, its result and the first declaration.
fn judge_head(
    least: &mut Option<Fault>,
    token: u32,
    params: Option<Items<TypedParameter>>,
    meant: Option<Meant>,
    first: Option<Option<&Signature>>,
    is_taken: bool,
    is_second: bool,
) -> Option<TypedHead>
    ensures value { option_map typed_head result ≡ fine (asked head_rows
        (head_rule_by is_taken is_second) (three params (option_map meant_of meant)
        (option_map (option_map (λ s. signature_of s.now)) first.entry))) }
    ensures least { least.new ≡ kept least.old (at token (asked head_rows
        (head_rule_by is_taken is_second) (three params (option_map meant_of meant)
        (option_map (option_map (λ s. signature_of s.now)) first.entry)))) }
{
    match params {
        None => None,
        Some(params) => match meant {
            None => {
                drop(params);
                None
            }
            Some(meant) => match first {
                None => {
                    drop(params);
                    None
                }
                Some(first) => {
                    judge_typed_head(least, token, params, meant, first, is_taken, is_second)
                }
            },
        },
    }
}

/// The types and the defaults of parameters.
fn params_of(alloc: Global, params: &[TypedParameter]) -> Result<Params, NoMemory>
    ensures { IfOk result (λ ps. ps ≡ params_of params.now) }
{
    let mut all = Params::new(alloc);
    for param in params {
        let default = default_of(alloc, &param.default)?;
        all.push(Param {
            ty: param.ty,
            default,
        })?;
    }
    Ok(all)
}

fn default_of(alloc: Global, default: &Option<Const>) -> Result<Option<Const>, NoMemory>
    ensures { IfOk result (λ d. d ≡ default.now) }
{
    match default {
        Some(value) => Ok(Some(value.copy(alloc)?)),
        None => Ok(None),
    }
}

fn signature(alloc: Global, head: &Option<TypedHead>) -> Result<Option<Signature>, NoMemory>
    ensures { IfOk result (λ s. option_map signature_of s
        ≡ option_map rules.signature_of (option_map typed_head head.now)) }
{
    match head {
        Some(head) => {
            let params = params_of(alloc, head.params.as_slice())?;
            Ok(Some(Signature {
                params,
                result: head.result,
            }))
        }
        None => Ok(None),
    }
}

/// A declaration of a function with this head.
fn declaration(
    alloc: Global,
    name: &Text,
    head: &Option<TypedHead>,
    has_body: bool,
) -> Result<Head, NoMemory>
    ensures { IfOk result (λ h. head_of h ≡ record {
      called = name.now;
      types = option_map rules.signature_of (option_map typed_head head.now);
      has_body = has_body;
    }) }
{
    let called = name.copy(alloc)?;
    let types = signature(alloc, head)?;
    Ok(Head {
        called,
        types,
        has_body,
    })
}

/// Whether a function gives its result, or has none, or no body.
fn gives(ty: Ty, body: &Option<Items<TypedStmt>>) -> bool
    ensures { result ≡ gives ty (option_map typed_stmts body.now) }
{
    match body {
        None => true,
        Some(body) => is_void(ty) || some_returns(body.as_slice()),
    }
}

/// A function of this head and this body.
fn judge_function(
    least: &mut Option<Fault>,
    token: u32,
    name: Text,
    head: Option<TypedHead>,
    body: Option<Option<Items<TypedStmt>>>,
) -> Option<TypedItem>
    ensures value { option_map typed_item result
        ≡ fine (asked function_rows (function_rule token name)
        (two (option_map typed_head head) (option_map (option_map typed_stmts) body))) }
    ensures least { least.new ≡ kept least.old (at token
        (asked function_rows (function_rule token name)
        (two (option_map typed_head head) (option_map (option_map typed_stmts) body)))) }
{
    match head {
        None => {
            drop(body);
            None
        }
        Some(head) => match body {
            None => None,
            Some(body) => {
                if gives(head.result, &body) {
                    let TypedHead { params, result } = head;
                    return Some(Item::function(token, result, name, params, body));
                }
                drop(body);
                note(least, FaultKind::NoReturn, token);
                None
            }
        },
    }
}

/// The body of a function, where there is one.
fn body_there(
    given: &Given<'_>,
    c: &mut Sight,
    least: &mut Option<Fault>,
    body: &Option<Items<Stmt>>,
) -> Result<Option<Option<Items<TypedStmt>>>, NoMemory>
    ensures value { IfOk result (λ r. option_map (option_map typed_stmts) r
        ≡ body_fine (heads_in given.now) (sight_in given.now c.old)
        (option_map plain_stmts body.now)) }
    ensures least { OnOk result (least.new ≡ kept least.old
        (body_faults (heads_in given.now) (sight_in given.now c.old)
        (option_map plain_stmts body.now))) }
    ensures sight { OnOk result (sight_in given.now c.new
        ≡ after_body (sight_in given.now c.old) (option_map plain_stmts body.now)) }
{
    match body {
        None => Ok(Some(None)),
        Some(xs) => match statements(given, c, least, xs.as_slice())? {
            Some(xs) => Ok(Some(Some(xs))),
            None => Ok(None),
        },
    }
}

/// What a function is walked to, while its scope is still there.
#[derive(Drop)]
pub struct FunctionParts {
    pub head: Option<TypedHead>,
    pub declared: Head,
    pub body: Option<Option<Items<TypedStmt>>>,
}

/// What is known of a function before its scope begins.
#[derive(Clone, Copy)]
pub struct Outside {
    pub meant: Option<Meant>,
    pub is_taken: bool,
    pub is_second: bool,
}

/// The parameters, the head and the body of a function, in the scope that begins with them.
fn parts(
    given: &Given<'_>,
    c: &mut Sight,
    least: &mut Option<Fault>,
    token: u32,
    name: &Text,
    outside: Outside,
    ps: &[Parameter],
    body: &Option<Items<Stmt>>,
) -> Result<FunctionParts, NoMemory>
    ensures head { IfOk result (λ r. option_map typed_head r.head ≡ fine (asked head_rows
        (head_rule_by outside.is_taken outside.is_second)
        (three (params_fine (sight_in given.now c.old) false ps.now)
        (option_map meant_of outside.meant) (first_types name.now c.old.seen)))) }
    ensures declared { IfOk result (λ r. head_of r.declared ≡ record {
      called = name.now;
      types = option_map rules.signature_of (option_map typed_head r.head);
      has_body = is_some body.now;
    }) }
    ensures body { IfOk result (λ r. option_map (option_map typed_stmts) r.body
        ≡ body_fine (heads_in given.now) (after_params (sight_in given.now c.old) ps.now)
        (option_map plain_stmts body.now)) }
    ensures least { OnOk result (least.new ≡ kept (kept (kept least.old
        (params_faults (sight_in given.now c.old) false ps.now)) (at token (asked head_rows
        (head_rule_by outside.is_taken outside.is_second)
        (three (params_fine (sight_in given.now c.old) false ps.now)
        (option_map meant_of outside.meant) (first_types name.now c.old.seen)))))
        (body_faults (heads_in given.now) (after_params (sight_in given.now c.old) ps.now)
        (option_map plain_stmts body.now))) }
    ensures sight { OnOk result (sight_in given.now c.new
        ≡ after_body (after_params (sight_in given.now c.old) ps.now)
        (option_map plain_stmts body.now)) }
{
    scopes_only_add();
    let alloc = given.alloc;
    let params = parameters(alloc, given.table, c, least, ps)?;
    let first = first_types(&c.seen, name.bytes());
    let (is_taken, is_second) = (outside.is_taken, outside.is_second);
    let head = judge_head(
        least,
        token,
        params,
        outside.meant,
        first,
        is_taken,
        is_second,
    );
    match declaration(alloc, name, &head, body.is_some()) {
        Ok(declared) => match body_there(given, c, least, body) {
            Ok(body) => Ok(FunctionParts {
                head,
                declared,
                body,
            }),
            Err(error) => {
                drop(head);
                drop(declared);
                Err(error)
            }
        },
        Err(error) => {
            drop(head);
            Err(error)
        }
    }
}

/// Whether a body is the second one of its function.
fn is_second(with_body: bool, seen: &Heads, name: &[u8]) -> bool
    ensures { result ≡ (with_body && has_body name.now seen.now) }
{
    if with_body {
        seen.has_body(name)
    } else {
        false
    }
}

/// A function; its declaration is seen behind it.
pub fn function(
    given: &Given<'_>,
    c: &mut Sight,
    least: &mut Option<Fault>,
    token: u32,
    ty: &TypeName,
    name: &Text,
    ps: &[Parameter],
    body: &Option<Items<Stmt>>,
) -> Result<Option<TypedItem>, NoMemory>
    ensures value { IfOk result (λ r. option_map typed_item r
        ≡ item_fine (heads_in given.now) (sight_in given.now c.old)
        (unit.function token ty.now name.now ps.now (option_map plain_stmts body.now))) }
    ensures least { OnOk result (least.new ≡ kept least.old
        (item_faults (heads_in given.now) (sight_in given.now c.old)
        (unit.function token ty.now name.now ps.now (option_map plain_stmts body.now)))) }
    ensures sight { OnOk result (sight_in given.now c.new ≡ after_item (sight_in given.now c.old)
        (unit.function token ty.now name.now ps.now (option_map plain_stmts body.now))) }
{
    scopes_only_add();
    scopes_are_left();
    let alloc = given.alloc;
    let outside = Outside {
        meant: type_means(&c.structs, ty),
        is_taken: c.is_taken_by_other(given.table, name.bytes()),
        is_second: is_second(body.is_some(), &c.seen, name.bytes()),
    };
    let copied = name.copy(alloc)?;
    let ty = result_type(&c.structs, ty);
    let mark = c.begin(ty);
    let walked = parts(given, c, least, token, name, outside, ps, body);
    c.leave(mark);
    match walked {
        Ok(walked) => close(alloc, c, least, token, copied, walked),
        Err(error) => {
            drop(copied);
            Err(error)
        }
    }
}

/// A function whose scope is left.
fn close(
    alloc: Global,
    c: &mut Sight,
    least: &mut Option<Fault>,
    token: u32,
    name: Text,
    walked: FunctionParts,
) -> Result<Option<TypedItem>, NoMemory>
    ensures value { IfOk result (λ r. option_map typed_item r
        ≡ fine (asked function_rows (function_rule token name)
        (two (option_map typed_head walked.head)
        (option_map (option_map typed_stmts) walked.body)))) }
    ensures least { OnOk result (least.new ≡ kept least.old (at token
        (asked function_rows (function_rule token name)
        (two (option_map typed_head walked.head)
        (option_map (option_map typed_stmts) walked.body))))) }
    ensures sight { OnOk result (c.new ≡ record c.old {
      seen = c.old.seen ++ head_of walked.declared ∷ [];
    }) }
{
    let FunctionParts {
        head,
        declared,
        body,
    } = walked;
    match c.seen.push(alloc, declared) {
        Ok(()) => Ok(judge_function(least, token, name, head, body)),
        Err(error) => {
            drop(name);
            drop(head);
            drop(body);
            Err(error)
        }
    }
}
