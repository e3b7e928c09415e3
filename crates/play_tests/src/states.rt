use nwq_value::{NoMemory, Value};
use saved_state::*;
use std::alloc::Global;
use std::test::*;

/// Puts the ints from `first` up to, and without, `end` on a stack.
fn push_ints(stack: &mut Stack, first: i32, end: i32) -> Result<(), NoMemory> {
    for i in first..end {
        stack.push(Cell::Value(Value::Int(i)))?;
    }
    Ok(())
}

/// The int at a place.
fn int_at(cells: &Cells, i: usize) -> Option<i32> {
    match cells.get(i) {
        Some(Cell::Value(Value::Int(n))) => Some(*n),
        _ => None,
    }
}

/// Whether the cells are the first `count` ints.
fn are_first_ints(cells: &Cells, count: i32) -> bool {
    for i in 0..count {
        if int_at(cells, i.unsigned_abs() as usize) != Some(i) {
            return false;
        }
    }
    cells.len() == count.unsigned_abs() as usize
}

/// A stack of so many ints from 0 on.
fn ints(alloc: Global, count: i32) -> Result<Stack, NoMemory> {
    let mut stack = Stack::new(alloc);
    push_ints(&mut stack, 0, count)?;
    Ok(stack)
}

/// Puts a value into a cell, where there is one.
fn write(stack: &mut Stack, place: usize, value: i32) -> Result<bool, NoMemory> {
    if place >= stack.len() {
        return Ok(false);
    }
    match stack.at(place) {
        Cell::Base(_) => return Ok(false),
        Cell::Value(_) => {}
    }
    stack.set(place, Value::Int(value))?;
    Ok(true)
}

#[test]
fn a_captured_state_keeps_its_values(rt: HostRuntime) -> Result<(), Fail> {
    let mut stack = ints(rt.alloc(), 200)?;
    assert!(rt; stack.len() == 200 && stack.bp() == 0);
    let first = stack.capture(3, 45, 0, 200)?;
    assert!(rt; write(&mut stack, 100, -1)?);
    assert!(rt; stack.len() == 200 && stack.bp() == 0);
    let written = stack.capture(3, 45, 0, 200)?;
    assert_eq!(rt; int_at(&written.locals, 100), Some(-1));
    stack.drop_top(190);
    push_ints(&mut stack, 500, 510)?;
    assert!(rt; are_first_ints(&first.locals, 200) && first.globals.len() == 0);
    let mut resumed = resume(first)?;
    assert!(rt; resumed.len() == 201 && resumed.bp() == 0);
    let second = resumed.capture(3, 45, 0, 200)?;
    assert!(rt; are_first_ints(&second.locals, 200));
    Ok(())
}
