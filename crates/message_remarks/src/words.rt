//! What the notes say.

ghost use Rattle.std.specs.Prelude.{◌≡◌, ◌++◌, OnOk};
ghost use Rattle.std.specs.Option.{option_map};
ghost use Rattle.message_remarks.specs.There.{function_text};

use crate::callers::Tally;
use message_sentences::{put_sentence, put_words};
use nwq_text::{put_count, put_number};
use nwq_value::NoMemory;
use play_remarks::Ending;

/// Appends why an entry ended, and when.
pub(crate) fn put_ending(out: &mut Vec<u8>, ending: Ending, time: u32) -> Result<(), NoMemory> {
    match ending {
        Ending::Divide => put_words(out, "a division by 0 ended the entry at ")?,
        Ending::Limit => put_words(out, "the limit of instructions ended the entry at ")?,
    }
    put_count(out, u64::from(time))
}

/// Appends the word for why an entry ended.
pub(crate) fn put_kind(out: &mut Vec<u8>, ending: Ending) -> Result<(), NoMemory> {
    match ending {
        Ending::Divide => put_words(out, " [divide]"),
        Ending::Limit => put_words(out, " [limit]"),
    }
}

/// Appends in which function a place lies, or in which one's action.
pub(crate) fn put_function(
    out: &mut Vec<u8>,
    name: Option<&[u8]>,
    in_action: bool,
) -> Result<(), NoMemory>
    ensures appends { OnOk result (out.new.items ≡ out.old.items
        ++ function_text in_action (option_map (λ name. name.now) name.entry)) }
{
    match name {
        None => put_words(out, "the first values of globals"),
        Some(name) => {
            if in_action {
                put_sentence(out, "an action of `%`", name)
            } else {
                put_sentence(out, "`%`", name)
            }
        }
    }
}

/// Appends how many calls of the function are under way that has most.
pub(crate) fn put_most(out: &mut Vec<u8>, most: Option<Tally<'_>>) -> Result<(), NoMemory> {
    match most {
        None => Ok(()),
        Some(tally) => {
            put_words(out, "; ")?;
            put_count(out, tally.count)?;
            put_sentence(out, " calls of `%` are under way", tally.name)
        }
    }
}

/// Appends how many calls go on at one place, where there are more than one.
pub(crate) fn put_times(out: &mut Vec<u8>, count: u64) -> Result<(), NoMemory> {
    if count == 1 {
        return Ok(());
    }
    put_words(out, ", ")?;
    put_count(out, count)?;
    put_words(out, " times")
}

/// Appends the integers that a deferred action captured.
pub(crate) fn put_values(out: &mut Vec<u8>, values: &[i32]) -> Result<(), NoMemory> {
    for (i, value) in values.iter().enumerate() {
        put_words(out, if i == 0 { "; it captured " } else { ", " })?;
        put_number(out, i64::from(*value))?;
    }
    Ok(())
}

/// Appends an offset in a file of bytecode.
pub(crate) fn put_offset(out: &mut Vec<u8>, text: &str, place: u32) -> Result<(), NoMemory> {
    put_words(out, text)?;
    put_count(out, u64::from(place))
}
