ghost use Rattle.std.specs.Prelude.{◌≡◌, ◌≤◌, ◌⊎◌, IfOk, IfSome};
ghost use Rattle.std.specs.Option.{option_map};
ghost use Rattle.plan_text.specs.Plans.{IsEvent, IsStart, IsFreeStart};
ghost use Rattle.plan_text.specs.Steps.{Found, number_field, four_fields, dash_fields};

use crate::fields::{is_label, number_in};
use crate::plan::Line;
use nwq_text::{cut, is_script_name, read_text};
use nwq_value::{NoMemory, Text};
use std::alloc::Global;

/// The last time of a plan, in milliseconds.
pub const LAST_TIME: u64 = 4_294_967_295;

/// The largest number of an object among those of its tag.
const LAST_NTH: u64 = 2_147_483_647;

/// The number up to `high` in the first field, and what follows the space.
#[tactic(auto, unfolding(crate::specs::Steps::number_field))]
fn number_first(bytes: &[u8], high: u64) -> Option<(u64, &[u8])>
    ensures front { option_map (λ p. (p.0, p.1.now)) result ≡ number_field high bytes.now }
    ensures bound { IfSome result (λ p. p.0 ≤ high) }
{
    let (digits, rest) = cut(bytes, b' ')?;
    let number = number_in(digits, 0, high)?;
    Some((number, rest))
}

/// The time, the number, the name and the tag's spelling of a line with four fields.
#[tactic(auto, unfolding(crate::specs::Steps::four_fields))]
fn fields(rest: &[u8]) -> Option<(u64, u32, &[u8], &[u8])>
    ensures { option_map (λ p. (p.0, p.1, p.2.now, p.3.now)) result ≡ four_fields rest.now }
{
    let (due, rest) = number_first(rest, LAST_TIME)?;
    let (nth, rest) = number_first(rest, LAST_NTH)?;
    let (name, tag) = cut(rest, b' ')?;
    Some((due, nth as u32, name, tag))
}

/// The time and what follows a dash in the second field.
#[tactic(auto, unfolding(crate::specs::Steps::dash_fields))]
fn fields_with_dash(rest: &[u8]) -> Option<(u64, &[u8])>
    ensures { option_map (λ p. (p.0, p.1.now)) result ≡ dash_fields rest.now }
{
    let (due, rest) = number_first(rest, LAST_TIME)?;
    let (dash, name) = cut(rest, b' ')?;
    if dash == b"-".as_slice() {
        Some((due, name))
    } else {
        None
    }
}

/// The event of a line behind its word.
pub fn event_of(alloc: Global, rest: &[u8]) -> Result<Option<Line>, NoMemory>
    ensures { IfOk result (λ read. Found (IsEvent rest.now) read) }
{
    let Some((due, nth, label, tag)) = fields(rest) else {
        return Ok(None);
    };
    if !is_label(label) {
        return Ok(None);
    }
    let Some(tag) = read_text(alloc, tag)? else {
        return Ok(None);
    };
    let label = Text::of(alloc, label)?;
    Ok(Some(Line::Event {
        due,
        nth,
        label,
        tag,
    }))
}

/// The start of a line behind its word, for an object.
fn aimed_start_of(alloc: Global, rest: &[u8]) -> Result<Option<Line>, NoMemory>
    ensures { IfOk result (λ read. Found (IsStart rest.now) read) }
{
    let Some((due, nth, name, tag)) = fields(rest) else {
        return Ok(None);
    };
    if !is_script_name(name) {
        return Ok(None);
    }
    let Some(tag) = read_text(alloc, tag)? else {
        return Ok(None);
    };
    let name = Text::of(alloc, name)?;
    Ok(Some(Line::Start {
        due,
        nth,
        name,
        tag,
    }))
}

/// The start of a line behind its word, for no object.
fn free_start_of(alloc: Global, rest: &[u8]) -> Result<Option<Line>, NoMemory>
    ensures { IfOk result (λ read. Found (IsFreeStart rest.now) read) }
{
    let Some((due, name)) = fields_with_dash(rest) else {
        return Ok(None);
    };
    if !is_script_name(name) {
        return Ok(None);
    }
    let name = Text::of(alloc, name)?;
    Ok(Some(Line::Free { due, name }))
}

/// The start of a line behind its word.
pub fn start_of(alloc: Global, rest: &[u8]) -> Result<Option<Line>, NoMemory>
    ensures { IfOk result (λ read. Found (λ line. IsStart rest.now line ⊎ IsFreeStart rest.now line)
        read) }
{
    match free_start_of(alloc, rest)? {
        Some(line) => Ok(Some(line)),
        None => aimed_start_of(alloc, rest),
    }
}
