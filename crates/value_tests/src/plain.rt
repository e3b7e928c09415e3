//! Values as plain data.

use nwq_value::{Args, Effect, Ints, NoMemory, Text, Ty, Value, start_of};
use std::alloc::Global;

/// A value. An effect is the number of its routine, and that routine's ints.
#[derive(Clone, Copy)]
pub(crate) enum Plain {
    Int(i32),
    Text(&'static [u8]),
    Object(u32),
    Event(i32),
    Effect(u16, &'static [i32]),
    EmptyText,
    EmptyEffect,
    /// Those that variables start with.
    StartText,
    StartEffect,
    StartEvent,
}

pub(crate) fn value_of(alloc: Global, plain: Plain) -> Result<Value, NoMemory> {
    match plain {
        Plain::Int(n) => Ok(Value::Int(n)),
        Plain::Text(bytes) => Ok(Value::Text(Text::of(alloc, bytes)?)),
        Plain::Object(object) => Ok(Value::Object(object)),
        Plain::Event(n) => Ok(Value::Event(n)),
        Plain::Effect(routine, ints) => {
            let ints = Ints::of_slice(alloc, ints)?;
            Ok(Value::Effect(Effect::new(alloc, routine, ints)?))
        }
        Plain::EmptyText => Ok(Value::Text(Text::empty(alloc)?)),
        Plain::EmptyEffect => Ok(Value::Effect(Effect::empty(alloc)?)),
        Plain::StartText => start_of(alloc, Ty::Text),
        Plain::StartEffect => start_of(alloc, Ty::Effect),
        Plain::StartEvent => start_of(alloc, Ty::Event),
    }
}

pub(crate) fn values_of(alloc: Global, plains: &[Plain]) -> Result<Args, NoMemory> {
    let mut values = Args::new(alloc);
    for plain in plains {
        values.push(value_of(alloc, *plain)?)?;
    }
    Ok(values)
}
