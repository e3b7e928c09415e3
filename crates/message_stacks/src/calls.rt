use crate::words::{put, put_many, put_there, put_top, type_word};
use nwq_text::put_count;
use nwq_value::{NoMemory, Param, Routine, Table, Ty};
use stack_shape::{Shape, Slot, action_count, is_callable};

/// What a call takes from the cells, from the top.
fn put_taken_types(out: &mut Vec<u8>, params: &[Param]) -> Result<(), NoMemory> {
    let mut is_first = true;
    for param in params {
        if !matches!(param.ty, Ty::Action) {
            if !is_first {
                put(out, ", ")?;
            }
            is_first = false;
            put(out, type_word(param.ty))?;
        }
    }
    Ok(())
}

/// Arguments of other types.
fn put_types(out: &mut Vec<u8>, params: &[Param], cells: &[Slot]) -> Result<(), NoMemory> {
    let count = params.len().saturating_sub(action_count(params));
    put(out, " takes ")?;
    put_taken_types(out, params)?;
    if cells.len() < count {
        return put_there(out, cells.len());
    }
    put(out, ", and the code gives ")?;
    put_top(out, cells, count)
}

/// A routine that isn't called as the header says.
fn put_routine(
    out: &mut Vec<u8>,
    routine: &Routine,
    count: u8,
    shape: &Shape,
) -> Result<(), NoMemory> {
    out.extend_from_slice(routine.name.bytes())?;
    if !is_callable(routine) {
        return put(out, " can't be called");
    }
    let params = routine.params.as_slice();
    if params.len() != count as usize {
        put(out, " takes ")?;
        put_many(out, params.len(), "argument")?;
        put(out, ", and the code gives ")?;
        return put_count(out, count as u64);
    }
    if (shape.pending as usize) < action_count(params) {
        return put(out, " takes an action, and no STORE_STATE has stored one");
    }
    put_types(out, params, shape.cells.as_slice())
}

/// ACTION.
pub(crate) fn put_call(
    out: &mut Vec<u8>,
    table: &Table,
    number: u16,
    count: u8,
    shape: &Shape,
) -> Result<(), NoMemory> {
    match table.routine(number) {
        None => {
            put(out, "the header has no routine ")?;
            put_count(out, number as u64)
        }
        Some(routine) => put_routine(out, routine, count, shape),
    }
}
