//! The way through the code of an expression.

ghost use Rattle.std.specs.Prelude.{◌≡◌, ◌&&◌};
ghost use Rattle.typing_rules.specs.Cells.{is_captured};
ghost use Rattle.typing_rules.specs.Reading.{plain, plain_all};
ghost use Rattle.code_places.specs.Marks as marks;
ghost use Rattle.code_places.specs.Seeking.{sought};

use crate::lines::{
    before_prefix, behind_prefix, between, is_set, operation_size, pass_call, pass_constants,
    pass_name, pass_room,
};
use crate::numbers::{behind, behind_all, next};
use crate::seek::{Seek, pass, pass_constant, pass_if};
use nss_layout::Layout;
use nwq_value::Ty;
use typing_rules::Expression;

/// Whether an argument is an action.
fn is_action(argument: &Expression) -> bool
    ensures { result ≡ is_captured (plain argument.now) }
{
    match argument.ty() {
        Ty::Void => true,
        Ty::Int
        | Ty::Text
        | Ty::Object
        | Ty::Effect
        | Ty::Event
        | Ty::Action
        | Ty::Struct(_)
        | Ty::Refused => false,
    }
}

fn both(a: bool, b: bool) -> bool
    ensures { result ≡ (a && b) }
{
    if a { b } else { false }
}

/// The way behind the code of an expression.
#[cycle(expressions)]
#[tactic(auto, using(typing_rules::specs::Readings::known))]
pub(crate) fn seek_expr(layout: &Layout, e: &Expression, node: Option<u32>, seek: Seek) -> Seek
    ensures { result ≡ sought (marks.marks layout.now node (plain e.now)) seek }
{
    let part = next(node);
    match e {
        Expression::Literal { value } => pass_constant(seek, value, node),
        Expression::Name { place, .. } => pass_name(seek, place, node),
        Expression::Call {
            ty,
            callee,
            arguments,
            filled,
        } => {
            let seek = pass_room(seek, layout, *callee, *ty, node);
            let seek = pass_constants(seek, filled.as_slice(), node);
            let seek = seek_arguments(layout, arguments.as_slice(), node, part, seek);
            pass_call(seek, *callee, node)
        }
        Expression::Member { of, .. } => {
            if of.is_place() {
                return pass(seek, 8, node);
            }
            let seek = seek_expr(layout, of, part, seek);
            pass(seek, 8, node)
        }
        Expression::Prefix { operator, of, .. } => {
            let seek = before_prefix(seek, *operator, of.is_place(), node);
            let seek = seek_expr(layout, of, part, seek);
            behind_prefix(seek, *operator, node)
        }
        Expression::Postfix { of, .. } => {
            let seek = seek_expr(layout, of, part, seek);
            pass_if(seek, of.is_place(), 6, node)
        }
        Expression::Binary {
            operator,
            left,
            right,
            ..
        } => {
            let size = operation_size(*operator, left.ty());
            let seek = seek_expr(layout, left, part, seek);
            let seek = between(seek, *operator, size, node);
            let seek = seek_expr(layout, right, behind(part, left), seek);
            pass(seek, size, node)
        }
        Expression::Assign {
            operator,
            place,
            value,
            ..
        } => {
            let set = is_set(*operator);
            let there = place.is_place();
            let seek = pass_if(seek, both(!set, there), 8, node);
            let seek = seek_expr(layout, value, behind(part, place), seek);
            let seek = pass_if(seek, !set, 2, node);
            pass_if(seek, there, 8, node)
        }
    }
}

/// The way behind the arguments of the call `of`, the last one first, where the first one has the
/// number `node`.
#[cycle(expressions)]
fn seek_arguments(
    layout: &Layout,
    arguments: &[Expression],
    of: Option<u32>,
    node: Option<u32>,
    mut seek: Seek,
) -> Seek
    ensures { result ≡ sought (marks.marks_all layout.now of node (plain_all arguments.now)) seek }
{
    let mut i = arguments.len();
    while i > 0 {
        i -= 1;
        let number = behind_all(node, &arguments[..i]);
        let argument = &arguments[i];
        let captured = is_action(argument);
        seek = pass_if(seek, captured, 10, of);
        seek = pass_if(seek, captured, 6, of);
        seek = seek_expr(layout, argument, number, seek);
        seek = pass_if(seek, captured, 2, of);
    }
    seek
}
