use crate::naming::left_out;
use crate::words::{put, put_many, put_size, put_there, put_top, slot_at, slot_word};
use nwq_value::NoMemory;
use stack_shape::{CellRange, Slot, cell_count, depth_of};

/// Too few cells are there.
fn put_few(out: &mut Vec<u8>, count: usize, there: usize) -> Result<(), NoMemory> {
    put(out, "it takes ")?;
    put_many(out, count, "cell")?;
    put_there(out, there)
}

/// Two operands, whose types have rules or not.
pub(crate) fn put_two(
    out: &mut Vec<u8>,
    has_rule: bool,
    kind: u8,
    cells: &[Slot],
) -> Result<(), NoMemory> {
    if !has_rule {
        return put(out, left_out(kind));
    }
    if cells.len() < 2 {
        return put_few(out, 2, cells.len());
    }
    put(out, "the top two cells are ")?;
    put_top(out, cells, 2)
}

/// One operand, which is to be an int.
pub(crate) fn put_one(out: &mut Vec<u8>, cells: &[Slot]) -> Result<(), NoMemory> {
    if cells.is_empty() {
        return put_few(out, 1, 0);
    }
    put(out, "it takes an int, and the top cell is ")?;
    put_top(out, cells, 1)
}

/// The depth of the topmost base among the topmost cells, if there is one.
fn base_in(cells: &[Slot], from: usize, count: usize) -> Option<usize> {
    for depth in from..from.saturating_add(count) {
        if matches!(slot_at(cells, depth), Some(Slot::Base)) {
            return Some(depth);
        }
    }
    None
}

/// The cell at a depth is a base.
fn put_base(out: &mut Vec<u8>, depth: usize) -> Result<(), NoMemory> {
    put(out, "cell ")?;
    put_size(out, depth.saturating_add(1))?;
    put(out, " from the top is a base")
}

/// So many cells are taken, none of them a base.
pub(crate) fn put_taken(
    out: &mut Vec<u8>,
    count: Option<usize>,
    cells: &[Slot],
) -> Result<(), NoMemory> {
    match count {
        None => put(out, "its number of bytes is no number of cells"),
        Some(count) => {
            if cells.len() < count {
                return put_few(out, count, cells.len());
            }
            match base_in(cells, 0, count) {
                Some(depth) => put_base(out, depth),
                None => put(out, "what it keeps isn't inside the cells that it takes"),
            }
        }
    }
}

/// MOVSP.
pub(crate) fn put_removed(out: &mut Vec<u8>, offset: i32, cells: &[Slot]) -> Result<(), NoMemory> {
    if offset > 0 {
        return put(out, "its offset is above the stack");
    }
    put_taken(out, depth_of(offset), cells)
}

/// DESTRUCT.
pub(crate) fn put_kept(out: &mut Vec<u8>, total: u16, cells: &[Slot]) -> Result<(), NoMemory> {
    put_taken(out, cell_count(total as u32), cells)
}

/// The cells of a range are read, on the stack or beneath BP.
pub(crate) fn put_range(
    out: &mut Vec<u8>,
    range: Option<CellRange>,
    slots: &[Slot],
    is_beneath: bool,
) -> Result<(), NoMemory> {
    let Some(range) = range else {
        return put(out, "its offset and size name no cells");
    };
    let deep = range.above.saturating_add(range.count);
    if slots.len() < deep {
        put(out, "it reaches ")?;
        put_many(out, deep, "cell")?;
        put(out, if is_beneath { " down from BP" } else { " down" })?;
        return put_there(out, slots.len());
    }
    match base_in(slots, range.above, range.count) {
        Some(depth) => put_base(out, depth),
        None => put(out, "it has no rule on the cells that it reaches"),
    }
}

/// The top cells are written over those of a range.
pub(crate) fn put_written(
    out: &mut Vec<u8>,
    range: Option<CellRange>,
    cells: &[Slot],
    slots: &[Slot],
    is_beneath: bool,
) -> Result<(), NoMemory> {
    let Some(found) = range else {
        return put_range(out, range, slots, is_beneath);
    };
    if cells.len() < found.count {
        return put_few(out, found.count, cells.len());
    }
    for i in 0..found.count {
        let depth = found.above.saturating_add(i);
        if let (Some(from), Some(to)) = (slot_at(cells, i), slot_at(slots, depth)) {
            if from != to {
                return put_over(out, from, to, depth, is_beneath);
            }
        }
    }
    put_range(out, range, slots, is_beneath)
}

/// A cell is written over one of another type.
fn put_over(
    out: &mut Vec<u8>,
    from: Slot,
    to: Slot,
    depth: usize,
    is_beneath: bool,
) -> Result<(), NoMemory> {
    put(out, "it writes ")?;
    put(out, slot_word(from))?;
    put(out, " over ")?;
    put(out, slot_word(to))?;
    put(out, ", cell ")?;
    put_size(out, depth.saturating_add(1))?;
    put(
        out,
        if is_beneath {
            " down from BP"
        } else {
            " from the top"
        },
    )
}

/// An int changes where it lies.
pub(crate) fn put_counted(
    out: &mut Vec<u8>,
    range: Option<CellRange>,
    slots: &[Slot],
    is_beneath: bool,
) -> Result<(), NoMemory> {
    if let Some(found) = range {
        if let Some(slot) = slot_at(slots, found.above) {
            put(out, "it changes an int, and cell ")?;
            put_size(out, found.above.saturating_add(1))?;
            put(
                out,
                if is_beneath {
                    " down from BP is "
                } else {
                    " from the top is "
                },
            )?;
            return put(out, slot_word(slot));
        }
    }
    put_range(out, range, slots, is_beneath)
}

/// Two runs of cells that are compared.
pub(crate) fn put_runs(out: &mut Vec<u8>, size: u16, cells: &[Slot]) -> Result<(), NoMemory> {
    let Some(count) = cell_count(size as u32) else {
        return put(out, "its number of bytes is no number of cells");
    };
    let both = count.saturating_mul(2);
    if cells.len() < both {
        return put_few(out, both, cells.len());
    }
    for i in 0..count {
        if let (Some(a), Some(b)) = (slot_at(cells, i), slot_at(cells, i.saturating_add(count))) {
            if a != b {
                put(out, "cell ")?;
                put_size(out, i.saturating_add(1))?;
                put(out, " from the top of each is ")?;
                put(out, slot_word(a))?;
                put(out, " and ")?;
                return put(out, slot_word(b));
            }
        }
    }
    put_taken(out, Some(both), cells)
}
