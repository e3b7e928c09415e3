//! Effects, cells and captured states, read from the front of bytes.

ghost use Rattle.std.specs.Prelude.{◌≡◌};
ghost use Rattle.state_format.specs.Reading.{Gives, signed_at, effect_at, cell_at, captured_at};

use crate::fault::Stop;
use crate::parts::{Captured, Cell, Effect};
use crate::stored::{Stored, blob, byte, list, short, word};
use std::alloc::Global;

/// A signed number.
pub(crate) fn signed(bytes: &[u8]) -> Result<(i32, &[u8]), Stop>
    ensures read { Gives (λ x. (x.0, x.1.now)) result (signed_at bytes.now) }
{
    let (n, rest) = word(bytes)?;
    Ok((n.cast_signed(), rest))
}

impl Stored for i32 {
    ghost use Rattle.state_format.specs.Reading.{signed_at};

    ghost read_at = { signed_at };

    fn take(_alloc: Global, bytes: &[u8]) -> Result<(i32, &[u8]), Stop> {
        signed(bytes)
    }
}

#[tactic(auto, unfolding(crate::specs::Reading::effect_at))]
pub(crate) fn effect(alloc: Global, bytes: &[u8]) -> Result<(Effect, &[u8]), Stop>
    ensures read { Gives (λ x. (x.0, x.1.now)) result (effect_at bytes.now) }
{
    let (routine, rest) = short(bytes)?;
    let (ints, rest) = list(alloc, rest)?;
    Ok((Effect { routine, ints }, rest))
}

#[tactic(auto, unfolding(crate::specs::Reading::cell_at))]
fn cell(alloc: Global, bytes: &[u8]) -> Result<(Cell, &[u8]), Stop>
    ensures read { Gives (λ x. (x.0, x.1.now)) result (cell_at bytes.now) }
{
    let (form, rest) = byte(bytes)?;
    match form {
        0x03 => {
            let (n, rest) = signed(rest)?;
            Ok((Cell::Int(n), rest))
        }
        0x05 => {
            let (text, rest) = blob(alloc, rest)?;
            Ok((Cell::Text(text), rest))
        }
        0x06 => {
            let (object, rest) = word(rest)?;
            Ok((Cell::Object(object), rest))
        }
        0x10 => {
            let (effect, rest) = effect(alloc, rest)?;
            Ok((Cell::Effect(effect), rest))
        }
        0x11 => {
            let (user, rest) = signed(rest)?;
            Ok((Cell::Event(user), rest))
        }
        _ => Err(Stop::Left(bytes.len())),
    }
}

impl Stored for Cell {
    ghost use Rattle.state_format.specs.Reading.{cell_at};

    ghost read_at = { cell_at };

    fn take(alloc: Global, bytes: &[u8]) -> Result<(Cell, &[u8]), Stop> {
        cell(alloc, bytes)
    }
}

#[tactic(auto, unfolding(crate::specs::Reading::captured_at))]
pub(crate) fn captured(alloc: Global, bytes: &[u8]) -> Result<(Captured, &[u8]), Stop>
    ensures read { Gives (λ x. (x.0, x.1.now)) result (captured_at bytes.now) }
{
    let (script, rest) = word(bytes)?;
    let (place, rest) = word(rest)?;
    let (globals, rest) = list(alloc, rest)?;
    let (locals, rest) = list(alloc, rest)?;
    Ok((
        Captured {
            script,
            place,
            globals,
            locals,
        },
        rest,
    ))
}
