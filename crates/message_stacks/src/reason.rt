use crate::calls::put_call;
use crate::cells::{
    put_counted, put_kept, put_one, put_range, put_removed, put_runs, put_taken, put_two,
    put_written,
};
use crate::naming::{left_out, put_name};
use crate::words::{put, put_size, slot_at, slot_word};
use ncs_code::{Lit, Op};
use ncs_file::Code;
use nwq_text::put_count;
use nwq_value::{NoMemory, Table};
use stack_reasons::{Reason, Trouble, first_difference};
use stack_shape::{Entry, Shape, Slot, cell_count, range_at, type_of_both};

/// RESTOREBP.
fn put_restored(out: &mut Vec<u8>, shape: &Shape) -> Result<(), NoMemory> {
    match slot_at(shape.cells.as_slice(), 0) {
        None => put(out, "it takes a base, and no cell is there"),
        Some(Slot::Base) => put(out, "the base on top is none that this routine has pushed"),
        Some(slot) => {
            put(out, "it takes a base, and the top cell is ")?;
            put(out, slot_word(slot))
        }
    }
}

/// STORE_STATE.
fn put_stored(out: &mut Vec<u8>, globals: u32, locals: u32, shape: &Shape) -> Result<(), NoMemory> {
    let under = shape.under.as_slice();
    if let Some(count) = cell_count(globals) {
        if under.len() < count {
            put(out, "it stores ")?;
            put_size(out, count)?;
            put(out, " beneath BP, and there are ")?;
            return put_size(out, under.len());
        }
    }
    put_taken(out, cell_count(locals), shape.cells.as_slice())
}

/// An instruction on the stack's own cells that has no rule there.
fn put_on_cells(out: &mut Vec<u8>, op: &Op<'_>, cells: &[Slot]) -> Result<(), NoMemory> {
    match op {
        Op::CpTopSp { offset, size } => put_range(out, range_at(*offset, *size), cells, false),
        Op::CpDownSp { offset, size } => {
            put_written(out, range_at(*offset, *size), cells, cells, false)
        }
        Op::DecISp { offset } | Op::IncISp { offset } => {
            put_counted(out, range_at(*offset, 4), cells, false)
        }
        Op::Equal { kind, size } | Op::Nequal { kind, size } => {
            if *kind == 0x24 {
                put_runs(out, *size, cells)
            } else {
                put_two(out, type_of_both(*kind).is_some(), *kind, cells)
            }
        }
        Op::Geq { kind } | Op::Gt { kind } | Op::Lt { kind } | Op::Leq { kind } => {
            put_two(out, *kind == 0x20, *kind, cells)
        }
        Op::Sub { kind } | Op::Mul { kind } | Op::Div { kind } => {
            put_two(out, *kind == 0x20, *kind, cells)
        }
        Op::Add { kind } => put_two(out, *kind == 0x20 || *kind == 0x23, *kind, cells),
        Op::Neg { kind } => {
            if *kind == 0x03 {
                put_one(out, cells)
            } else {
                put(out, left_out(*kind))
            }
        }
        Op::Comp | Op::Not | Op::Jz { .. } | Op::Jnz { .. } => put_one(out, cells),
        Op::MovSp { offset } => put_removed(out, *offset, cells),
        Op::Destruct { total, .. } => put_kept(out, *total, cells),
        Op::RsAdd { kind } => put(out, left_out(*kind)),
        Op::Const(Lit::Float(_)) => put(out, left_out(0x04)),
        _ => put_two(out, true, 0x20, cells),
    }
}

/// An instruction that has no rule on the shape.
fn put_no_rule(
    out: &mut Vec<u8>,
    op: &Op<'_>,
    table: &Table,
    shape: &Shape,
) -> Result<(), NoMemory> {
    let (cells, under) = (shape.cells.as_slice(), shape.under.as_slice());
    match op {
        Op::CpTopBp { offset, size } => put_range(out, range_at(*offset, *size), under, true),
        Op::CpDownBp { offset, size } => {
            put_written(out, range_at(*offset, *size), cells, under, true)
        }
        Op::DecIBp { offset } | Op::IncIBp { offset } => {
            put_counted(out, range_at(*offset, 4), under, true)
        }
        Op::Action { routine, count } => put_call(out, table, *routine, *count, shape),
        Op::RestoreBp => put_restored(out, shape),
        Op::StoreState { globals, locals } => put_stored(out, *globals, *locals, shape),
        _ => put_on_cells(out, op, cells),
    }
}

/// What a list has at a depth.
fn put_slot(out: &mut Vec<u8>, slots: &[Slot], depth: usize) -> Result<(), NoMemory> {
    match slot_at(slots, depth) {
        None => put(out, "isn't there"),
        Some(slot) => {
            put(out, "is ")?;
            put(out, slot_word(slot))
        }
    }
}

/// Where two lists differ first.
fn put_lists(out: &mut Vec<u8>, a: &[Slot], b: &[Slot], depth: usize) -> Result<(), NoMemory> {
    put(out, "cell ")?;
    put_size(out, depth.saturating_add(1))?;
    put(out, " from the top ")?;
    put_slot(out, a, depth)?;
    put(out, " on one and ")?;
    put_slot(out, b, depth)?;
    put(out, " on the other")
}

/// Where two shapes differ first.
fn put_difference(out: &mut Vec<u8>, a: &Shape, b: &Shape) -> Result<(), NoMemory> {
    let (cells, others) = (a.cells.as_slice(), b.cells.as_slice());
    if let Some(depth) = first_difference(cells, others) {
        return put_lists(out, cells, others, depth);
    }
    let (under, others) = (a.under.as_slice(), b.under.as_slice());
    if let Some(depth) = first_difference(under, others) {
        put(out, "beneath BP, ")?;
        return put_lists(out, under, others, depth);
    }
    put_count(out, a.pending as u64)?;
    put(out, " stored states wait on one and ")?;
    put_count(out, b.pending as u64)?;
    put(out, " on the other")
}

/// What is wrong at the place.
fn put_trouble(
    out: &mut Vec<u8>,
    op: &Op<'_>,
    table: &Table,
    reason: &Reason,
) -> Result<(), NoMemory> {
    let shape = &reason.shape;
    match &reason.trouble {
        Trouble::NothingThere => put(out, "no instruction begins there"),
        Trouble::NoRule => put_no_rule(out, op, table, shape),
        Trouble::NotEnded => {
            if shape.saved.is_empty() {
                put(
                    out,
                    "the routine ends with a stored state that no ACTION has taken",
                )
            } else {
                put(
                    out,
                    "the routine ends with a base that no RESTOREBP has taken off",
                )
            }
        }
        Trouble::OtherCells(other) => {
            put(out, "two ways come here with other cells: ")?;
            put_difference(out, other, shape)
        }
        Trouble::OtherResult(place, other) => {
            put(out, "it leaves other cells than the RETN at ")?;
            put_count(out, *place as u64)?;
            put(out, ": ")?;
            put_difference(out, shape, other)
        }
    }
}

/// The routine, and the place from which it was called.
fn put_routine(out: &mut Vec<u8>, reason: &Reason) -> Result<(), NoMemory> {
    match reason.entry {
        Entry::Start => put(out, "; in the script's start"),
        Entry::Stored(site) => {
            put(out, "; in what the STORE_STATE at ")?;
            put_count(out, site as u64)?;
            put(out, " stores")
        }
        Entry::Called(target) => {
            put(out, "; in the routine at ")?;
            put_count(out, target as u64)?;
            match reason.called_at {
                None => Ok(()),
                Some(place) => {
                    put(out, ", called at ")?;
                    put_count(out, place as u64)
                }
            }
        }
    }
}

/// Puts a reason in words.
pub(crate) fn put_reason(
    out: &mut Vec<u8>,
    code: &Code,
    table: &Table,
    reason: &Reason,
) -> Result<(), NoMemory> {
    put(out, "at offset ")?;
    put_count(out, reason.place as u64)?;
    match code.op_at(reason.place) {
        None => put(
            out,
            ", behind the last instruction: no instruction begins there",
        )?,
        Some((op, _size)) => {
            put(out, ", ")?;
            put_name(out, &op)?;
            put(out, ": ")?;
            put_trouble(out, &op, table, reason)?;
        }
    }
    put_routine(out, reason)
}
