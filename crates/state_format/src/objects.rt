//! Objects and the entries of the agenda, read from the front of bytes.

ghost use Rattle.std.specs.Prelude.{◌≡◌};
ghost use Rattle.state_format.specs.Reading.{Gives, variable_at, maybe_at, number_at, standing_at};
ghost use Rattle.state_format.specs.Reading.{item_at, busy_at, object_at, kind_at, entry_at};

use crate::cells::{captured, effect, signed};
use crate::fault::Stop;
use crate::parts::{Entry, Item, KindPart, Object, Standing, Variable};
use crate::stored::{Stored, blob, byte, list, wide, word};
use std::alloc::Global;

#[tactic(auto, unfolding(crate::specs::Reading::variable_at))]
fn variable(alloc: Global, bytes: &[u8]) -> Result<(Variable, &[u8]), Stop>
    ensures read { Gives (λ x. (x.0, x.1.now)) result (variable_at bytes.now) }
{
    let (form, rest) = byte(bytes)?;
    match form {
        1 => {
            let (name, rest) = blob(alloc, rest)?;
            let (n, rest) = signed(rest)?;
            Ok((Variable::Int(name, n), rest))
        }
        3 => {
            let (name, rest) = blob(alloc, rest)?;
            let (text, rest) = blob(alloc, rest)?;
            Ok((Variable::Text(name, text), rest))
        }
        _ => Err(Stop::Left(bytes.len())),
    }
}

impl Stored for Variable {
    ghost use Rattle.state_format.specs.Reading.{variable_at};

    ghost read_at = { variable_at };

    fn take(alloc: Global, bytes: &[u8]) -> Result<(Variable, &[u8]), Stop> {
        variable(alloc, bytes)
    }
}

/// The number of an effect that ends, where it has one.
#[tactic(auto, unfolding(crate::specs::Reading::maybe_at))]
fn number(bytes: &[u8]) -> Result<(Option<u64>, &[u8]), Stop>
    ensures read { Gives (λ x. (x.0, x.1.now)) result (maybe_at (number_at 8) bytes.now) }
{
    let (form, rest) = byte(bytes)?;
    match form {
        0 => Ok((None, rest)),
        1 => {
            let (n, rest) = wide(rest)?;
            Ok((Some(n), rest))
        }
        _ => Err(Stop::Left(bytes.len())),
    }
}

#[tactic(auto, unfolding(crate::specs::Reading::standing_at))]
fn standing(alloc: Global, bytes: &[u8]) -> Result<(Standing, &[u8]), Stop>
    ensures read { Gives (λ x. (x.0, x.1.now)) result (standing_at bytes.now) }
{
    let (number, rest) = number(bytes)?;
    let (effect, rest) = effect(alloc, rest)?;
    Ok((Standing { number, effect }, rest))
}

impl Stored for Standing {
    ghost use Rattle.state_format.specs.Reading.{standing_at};

    ghost read_at = { standing_at };

    fn take(alloc: Global, bytes: &[u8]) -> Result<(Standing, &[u8]), Stop> {
        standing(alloc, bytes)
    }
}

#[tactic(auto, unfolding(crate::specs::Reading::item_at))]
fn item(alloc: Global, bytes: &[u8]) -> Result<(Item, &[u8]), Stop>
    ensures read { Gives (λ x. (x.0, x.1.now)) result (item_at bytes.now) }
{
    let (form, rest) = byte(bytes)?;
    match form {
        0 => {
            let (state, rest) = captured(alloc, rest)?;
            Ok((Item::Do(state), rest))
        }
        1 => {
            let (ms, rest) = signed(rest)?;
            Ok((Item::Wait(ms), rest))
        }
        2 => {
            let (text, rest) = blob(alloc, rest)?;
            Ok((Item::Speak(text), rest))
        }
        _ => Err(Stop::Left(bytes.len())),
    }
}

impl Stored for Item {
    ghost use Rattle.state_format.specs.Reading.{item_at};

    ghost read_at = { item_at };

    fn take(alloc: Global, bytes: &[u8]) -> Result<(Item, &[u8]), Stop> {
        item(alloc, bytes)
    }
}

#[tactic(auto, unfolding(crate::specs::Reading::busy_at))]
fn busy(bytes: &[u8]) -> Result<(bool, &[u8]), Stop>
    ensures read { Gives (λ x. (x.0, x.1.now)) result (busy_at bytes.now) }
{
    let (form, rest) = byte(bytes)?;
    match form {
        0 => Ok((false, rest)),
        1 => Ok((true, rest)),
        _ => Err(Stop::Left(bytes.len())),
    }
}

#[tactic(auto, unfolding(crate::specs::Reading::object_at))]
fn object(alloc: Global, bytes: &[u8]) -> Result<(Object, &[u8]), Stop>
    ensures read { Gives (λ x. (x.0, x.1.now)) result (object_at bytes.now) }
{
    let (busy, rest) = busy(bytes)?;
    let (variables, rest) = list(alloc, rest)?;
    let (effects, rest) = list(alloc, rest)?;
    let (items, rest) = list(alloc, rest)?;
    Ok((
        Object {
            busy,
            variables,
            effects,
            items,
        },
        rest,
    ))
}

impl Stored for Object {
    ghost use Rattle.state_format.specs.Reading.{object_at};

    ghost read_at = { object_at };

    fn take(alloc: Global, bytes: &[u8]) -> Result<(Object, &[u8]), Stop> {
        object(alloc, bytes)
    }
}

#[tactic(auto, unfolding(crate::specs::Reading::kind_at))]
fn kind(alloc: Global, bytes: &[u8]) -> Result<(KindPart, &[u8]), Stop>
    ensures read { Gives (λ x. (x.0, x.1.now)) result (kind_at bytes.now) }
{
    let (form, rest) = byte(bytes)?;
    match form {
        0 => {
            let (object, rest) = word(rest)?;
            let (script, rest) = blob(alloc, rest)?;
            let (user, rest) = signed(rest)?;
            Ok((
                KindPart::Event {
                    object,
                    script,
                    user,
                },
                rest,
            ))
        }
        1 => {
            let (object, rest) = word(rest)?;
            let (state, rest) = captured(alloc, rest)?;
            Ok((KindPart::Stored { object, state }, rest))
        }
        2 => {
            let (object, rest) = word(rest)?;
            Ok((KindPart::Turn { object }, rest))
        }
        3 => {
            let (object, rest) = word(rest)?;
            Ok((KindPart::Unapply { object }, rest))
        }
        _ => Err(Stop::Left(bytes.len())),
    }
}

#[tactic(auto, unfolding(crate::specs::Reading::entry_at))]
fn entry(alloc: Global, bytes: &[u8]) -> Result<(Entry, &[u8]), Stop>
    ensures read { Gives (λ x. (x.0, x.1.now)) result (entry_at bytes.now) }
{
    let (due, rest) = wide(bytes)?;
    let (number, rest) = wide(rest)?;
    let (kind, rest) = kind(alloc, rest)?;
    Ok((Entry { due, number, kind }, rest))
}

impl Stored for Entry {
    ghost use Rattle.state_format.specs.Reading.{entry_at};

    ghost read_at = { entry_at };

    fn take(alloc: Global, bytes: &[u8]) -> Result<(Entry, &[u8]), Stop> {
        entry(alloc, bytes)
    }
}
