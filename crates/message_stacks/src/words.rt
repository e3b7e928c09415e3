use nwq_text::put_count;
use nwq_value::{NoMemory, Ty};
use stack_shape::Slot;

/// Puts words as they are.
pub(crate) fn put(out: &mut Vec<u8>, words: &str) -> Result<(), NoMemory> {
    out.extend_from_slice(words.as_bytes())?;
    Ok(())
}

pub(crate) fn put_size(out: &mut Vec<u8>, n: usize) -> Result<(), NoMemory> {
    put_count(out, n as u64)
}

/// So many of something, as `1 cell` or `2 cells`.
pub(crate) fn put_many(out: &mut Vec<u8>, n: usize, thing: &str) -> Result<(), NoMemory> {
    put_size(out, n)?;
    put(out, " ")?;
    put(out, thing)?;
    if n == 1 { Ok(()) } else { put(out, "s") }
}

/// What is there, as `and 1 is there`.
pub(crate) fn put_there(out: &mut Vec<u8>, n: usize) -> Result<(), NoMemory> {
    put(out, ", and ")?;
    put_size(out, n)?;
    put(out, if n == 1 { " is there" } else { " are there" })
}

pub(crate) fn type_word(ty: Ty) -> &'static str {
    match ty {
        Ty::Void => "void",
        Ty::Int => "int",
        Ty::Text => "string",
        Ty::Object => "object",
        Ty::Effect => "effect",
        Ty::Event => "event",
        Ty::Action => "action",
        Ty::Struct(_) => "struct",
        Ty::Refused => "a type that is left out of this profile",
    }
}

pub(crate) fn slot_word(slot: Slot) -> &'static str {
    match slot {
        Slot::Of(ty) => type_word(ty),
        Slot::Base => "base",
    }
}

/// The slot at a depth, counted from 0 at the top.
pub(crate) fn slot_at(slots: &[Slot], depth: usize) -> Option<Slot> {
    if depth < slots.len() {
        Some(slots[slots.len() - 1 - depth])
    } else {
        None
    }
}

/// The topmost slots, from the top: `string, int`.
pub(crate) fn put_top(out: &mut Vec<u8>, slots: &[Slot], count: usize) -> Result<(), NoMemory> {
    for depth in 0..count {
        if let Some(slot) = slot_at(slots, depth) {
            if depth > 0 {
                put(out, ", ")?;
            }
            put(out, slot_word(slot))?;
        }
    }
    Ok(())
}
