//! The limits of a state's numbers, names and texts.
ghost use Rattle.std.specs.Prelude.{◌≡◌, ◌↔◌, ◌<◌, ◌&&◌, nat_lt, not, IfOk, IsTrue, MatchResult};
ghost use Rattle.std.specs.List.{list_all, AllByRecursion, IsDistinct};
ghost use Rattle.std.specs.Str.{bytes_eq};
ghost use Rattle.local_variables.specs.Variables.{same_variable};
ghost use Rattle.state_parts.specs.World.{variables_of};
ghost use Rattle.state_parts.specs.ShortTexts.{are_short_cells, are_short_items, has_short_cells};
ghost use Rattle.state_parts.specs.ShortTexts.{has_short_items, is_short, is_short_cell};
ghost use Rattle.state_parts.specs.ShortTexts.{is_short_entry, is_short_item, is_short_kind};
ghost use Rattle.play_save.specs.Rules.{count_limit, AreNamed, HasBounds, HasCounts, KeepsLimits};
ghost use Rattle.play_save.specs.Breaking.{Breaks};

use crate::fault::StateFault;
use nwq_text::is_script_name;
use nwq_value::text::TEXT_BYTES;
use nwq_value::{Items, NoMemory};
use state_format::{Captured, Cell, Entry, Item, KindPart, Object, Parts, Script};
use state_objects::are_distinct;
use std::alloc::Global;

/// Numbers below this one leave room to go on counting.
const COUNT_LIMIT: u64 = 1 << 61;

fn is_short(text: &Items<u8>) -> bool
    ensures test { result ≡ is_short text.now }
{
    text.len() <= TEXT_BYTES
}

fn is_short_cell(cell: &Cell) -> bool
    ensures test { result ≡ is_short_cell cell.now }
{
    match cell {
        Cell::Text(text) => is_short(text),
        Cell::Int(_) | Cell::Object(_) | Cell::Effect(_) | Cell::Event(_) => true,
    }
}

fn are_short_cells(cells: &[Cell]) -> bool
    ensures test { result ≡ are_short_cells cells.now }
{
    cells.iter().all(|cell| is_short_cell(cell))
}

fn has_short_cells(state: &Captured) -> bool
    ensures test { result ≡ has_short_cells state.now }
{
    are_short_cells(state.globals.as_slice()) && are_short_cells(state.locals.as_slice())
}

fn is_short_item(item: &Item) -> bool
    ensures test { result ≡ is_short_item item.now }
{
    match item {
        Item::Do(state) => has_short_cells(state),
        Item::Wait(_) => true,
        Item::Speak(text) => is_short(text),
    }
}

fn has_short_items(object: &Object) -> bool
    ensures test { result ≡ has_short_items object.now }
{
    object
        .items
        .as_slice()
        .iter()
        .all(|item| is_short_item(item))
}

fn is_short_entry(entry: &Entry) -> bool
    ensures test { result ≡ is_short_entry entry.now }
{
    match &entry.kind {
        KindPart::Event { script, .. } => is_short(script),
        KindPart::Stored { state, .. } => has_short_cells(state),
        KindPart::Turn { .. } | KindPart::Unapply { .. } => true,
    }
}

fn have_short_items(objects: &[Object]) -> bool
    ensures test { result ≡ list_all has_short_items objects.now }
{
    objects.iter().all(|object| has_short_items(object))
}

fn are_short_entries(entries: &[Entry]) -> bool
    ensures test { result ≡ list_all is_short_entry entries.now }
{
    entries.iter().all(|entry| is_short_entry(entry))
}

/// Whether texts that are no variables' are short.
fn has_short_texts(parts: &Parts) -> bool
    ensures items { result ≡ (list_all has_short_items parts.now.objects
        && list_all is_short_entry parts.now.agenda) }
{
    have_short_items(parts.objects.as_slice()) && are_short_entries(parts.agenda.as_slice())
}

/// Whether no two variables of an object have one type and name.
fn have_distinct(alloc: Global, objects: &[Object]) -> Result<bool, NoMemory>
    ensures test { IfOk result (λ all. IsTrue all
        ↔ AllByRecursion (λ o. IsDistinct same_variable (variables_of o)) objects.now) }
{
    for object in objects {
        if !are_distinct(alloc, object.variables.as_slice())? {
            return Ok(false);
        }
    }
    Ok(true)
}

/// Whether a name is none of those of these scripts.
fn is_new(name: &[u8], scripts: &[Script]) -> bool
    ensures test { result ≡ list_all (λ x. not (bytes_eq name.now x.name)) scripts.now }
{
    scripts.iter().all(|script| script.name.as_slice() != name)
}

/// Whether each script has the name of one, and no two have the same.
fn has_names(scripts: &[Script]) -> bool
    ensures test { IsTrue result ↔ AreNamed scripts.now }
{
    let mut left = scripts.len();
    while left > 0 {
        left -= 1;
        let name = scripts[left].name.as_slice();
        if !is_script_name(name) || !is_new(name, &scripts[left + 1..]) {
            return false;
        }
    }
    true
}

/// Whether the limits are those that a plan may set.
fn has_bounds(parts: &Parts) -> bool
    ensures test { IsTrue result ↔ HasBounds parts.now }
{
    (parts.version == 1 || parts.version == 2)
        && 1 <= parts.limit
        && parts.limit <= 16_777_216
        && 1 <= parts.entries
        && parts.entries <= 1_000_000
        && parts.until <= 4_294_967_295
        && parts.scripts.len() <= 256
        && parts.random.len() <= 65_536
}

/// Whether the play has come no further than it may.
fn has_counts(parts: &Parts) -> bool
    ensures test { IsTrue result ↔ HasCounts parts.now }
{
    parts.taken <= parts.entries
        && parts.clock <= parts.until
        && parts.done < COUNT_LIMIT
        && parts.next < COUNT_LIMIT
        && are_soon(parts.agenda.as_slice())
}

/// Whether all is due below the limit of counts.
fn are_soon(entries: &[Entry]) -> bool
    ensures test { IsTrue result ↔ AllByRecursion (λ e. e.due < count_limit) entries.now }
{
    test_dues(entries)
}

fn test_dues(entries: &[Entry]) -> bool
    ensures test { result ≡ list_all (λ e. nat_lt e.due count_limit) entries.now }
{
    entries.iter().all(|entry| entry.due < COUNT_LIMIT)
}

/// Whether a state's numbers, names and texts are inside their limits.
pub(crate) fn test_limits(alloc: Global, parts: &Parts) -> Result<(), StateFault>
    ensures kept { MatchResult result (λ _. KeepsLimits parts.now)
        (Breaks 4 (KeepsLimits parts.now)) }
{
    if !has_bounds(parts) || !has_counts(parts) {
        return Err(StateFault::Unfit(4));
    }
    if !has_names(parts.scripts.as_slice()) || !has_short_texts(parts) {
        return Err(StateFault::Unfit(4));
    }
    if !have_distinct(alloc, parts.objects.as_slice())? {
        return Err(StateFault::Unfit(4));
    }
    Ok(())
}
