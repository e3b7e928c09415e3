ghost use Rattle.std.specs.Prelude.{◌≡◌, ◌≤◌, length, slice_get};
ghost use Rattle.ncs_code.specs.Plain.{plain};
ghost use Rattle.stack_shape.specs.Calls.{argument_types};
ghost use Rattle.stack_shape.specs.Reach.{beneath_bp, call_reach, compared_reach, counted_cells};
ghost use Rattle.stack_shape.specs.Reach.{in_cells, range_count, range_end, reach};
ghost use Rattle.stack_shape.specs.Ranges.{cell_count, depth_of, range_at};

use crate::call::is_action;
use crate::range::{cell_count, depth_of, range_at};
use ncs_code::Op;
use nwq_value::{Param, Table};

/// How many of the topmost slots an instruction looks at, whatever they are.
#[derive(Clone, Copy)]
pub struct Reach {
    /// Of the cells.
    pub cells: usize,
    /// Of the list beneath BP.
    pub under: usize,
}

fn in_cells(cells: usize) -> Reach
    ensures { result ≡ in_cells cells }
{
    Reach { cells, under: 0 }
}

fn counted_cells(count: Option<usize>) -> usize
    ensures { result ≡ counted_cells count }
{
    count.unwrap_or(0)
}

/// The cells of so many bytes, where they are whole cells.
fn cells_of(bytes: u32) -> usize
    ensures count { result ≡ counted_cells (cell_count bytes) }
    ensures bound { result ≤ bytes }
{
    match cell_count(bytes) {
        None => 0,
        Some(count) => count,
    }
}

/// Down to the end of the range at an offset.
fn range_end(offset: i32, size: u16) -> usize
    ensures { result ≡ range_end (range_at offset size) }
{
    match range_at(offset, size) {
        None => 0,
        Some(range) => range.above + range.count,
    }
}

fn range_count(offset: i32, size: u16) -> usize
    ensures { result ≡ range_count (range_at offset size) }
{
    match range_at(offset, size) {
        None => 0,
        Some(range) => range.count,
    }
}

fn beneath_bp(cells: usize, offset: i32, size: u16) -> Reach
    ensures { result ≡ beneath_bp cells (range_at offset size) }
{
    Reach {
        cells,
        under: range_end(offset, size),
    }
}

/// How many cells a call with these parameters takes.
fn argument_count(params: &[Param]) -> usize
    ensures count { result ≡ length (argument_types params.now) }
    ensures bound { result ≤ length params.now }
{
    match params {
        [] => 0,
        [first, rest @ ..] => {
            let count = argument_count(rest);
            if is_action(first.ty) {
                count
            } else {
                count + 1
            }
        }
    }
}

fn call_reach(table: &Table, routine: u16) -> Reach
    ensures { result ≡ call_reach (slice_get table.now.routines routine) }
{
    match table.routine(routine) {
        None => in_cells(0),
        Some(routine) => in_cells(argument_count(routine.params.as_slice())),
    }
}

fn compared_reach(kind: u8, size: u16) -> Reach
    ensures { result ≡ compared_reach kind size }
{
    if kind == 0x24 {
        let count = cells_of(size as u32);
        in_cells(count + count)
    } else {
        in_cells(2)
    }
}

/// How deep an instruction looks that is neither JSR nor RETN. Its rule asks nothing of what lies
/// beneath, and leaves it (`rules_look_no_deeper`).
#[tactic(auto, unfolding(crate::specs::Reach::reach))]
pub fn reach_of(op: &Op<'_>, table: &Table) -> Reach
    ensures reach { result ≡ reach table.now (plain op.now) }
{
    match op {
        Op::CpDownSp { offset, size } | Op::CpTopSp { offset, size } => {
            in_cells(range_end(*offset, *size))
        }
        Op::DecISp { offset } | Op::IncISp { offset } => in_cells(range_end(*offset, 4)),
        Op::CpDownBp { offset, size } => { beneath_bp(range_count(*offset, *size), *offset, *size) }
        Op::CpTopBp { offset, size } => beneath_bp(0, *offset, *size),
        Op::DecIBp { offset } | Op::IncIBp { offset } => beneath_bp(0, *offset, 4),
        Op::Action { routine, count: _ } => call_reach(table, *routine),
        Op::Equal { kind, size } | Op::Nequal { kind, size } => compared_reach(*kind, *size),
        Op::MovSp { offset } => in_cells(counted_cells(depth_of(*offset))),
        Op::Destruct {
            total,
            offset: _,
            size: _,
        } => in_cells(cells_of(*total as u32)),
        Op::StoreState { globals, locals } => Reach {
            cells: cells_of(*locals),
            under: cells_of(*globals),
        },
        Op::Neg { .. } | Op::Comp | Op::Not | Op::Jz { .. } | Op::Jnz { .. } | Op::RestoreBp => {
            in_cells(1)
        }
        Op::RsAdd { .. } | Op::Const(_) | Op::Jmp { .. } | Op::SaveBp | Op::Nop => in_cells(0),
        Op::Jsr { .. } | Op::Retn => in_cells(0),
        _ => in_cells(2),
    }
}
