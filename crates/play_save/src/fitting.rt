//! Whether captured states fit the code of their scripts.
ghost use Rattle.std.specs.Prelude.{◌≡◌, ◌↔◌, IfOk, IsTrue};
ghost use Rattle.std.specs.List.{list_all, AllByRecursion};
ghost use Rattle.state_parts.specs.ShortTexts.{are_short_items, has_short_cells, has_short_items};
ghost use Rattle.state_parts.specs.ShortTexts.{is_short_entry, is_short_item};
ghost use Rattle.play_save.specs.Rules.{ItemHolds, KindHolds};
ghost use Rattle.play_save.specs.Breaking.{IsFitting};

use ncs_machine::Scripts;
use nwq_value::NoMemory;
use state_format::{Captured, Entry, Item, KindPart, Object};
use state_objects::saved;
use std::alloc::Global;

/// Whether a captured state is one of a script that is there, and fits the table kept for it.
fn is_fitting(alloc: Global, scripts: &Scripts, part: &Captured) -> Result<bool, NoMemory>
    requires short { IsTrue (has_short_cells part.now) }
    ensures test { IfOk result (λ fits. IsTrue fits ↔ IsFitting scripts.now part.now) }
{
    match scripts.get(part.script as usize) {
        None => Ok(false),
        Some(script) => {
            let saved = saved(alloc, part)?;
            Ok(script.code.checked().fits(&saved))
        }
    }
}

fn item_fits(alloc: Global, scripts: &Scripts, item: &Item) -> Result<bool, NoMemory>
    requires short { IsTrue (is_short_item item.now) }
    ensures test { IfOk result (λ fits. IsTrue fits
        ↔ ItemHolds (IsFitting scripts.now) item.now) }
{
    match item {
        Item::Do(part) => is_fitting(alloc, scripts, part),
        Item::Wait(_) | Item::Speak(_) => Ok(true),
    }
}

fn items_fit(alloc: Global, scripts: &Scripts, items: &[Item]) -> Result<bool, NoMemory>
    requires short { IsTrue (are_short_items items.now) }
    ensures test { IfOk result (λ fit. IsTrue fit
        ↔ AllByRecursion (ItemHolds (IsFitting scripts.now)) items.now) }
{
    for item in items {
        if !item_fits(alloc, scripts, item)? {
            return Ok(false);
        }
    }
    Ok(true)
}

/// Whether each captured state of an object's actions fits.
pub(crate) fn objects_fit(
    alloc: Global,
    scripts: &Scripts,
    objects: &[Object],
) -> Result<bool, NoMemory>
    requires short { IsTrue (list_all has_short_items objects.now) }
    ensures test { IfOk result (λ fit. IsTrue fit
        ↔ AllByRecursion (λ o. AllByRecursion (ItemHolds (IsFitting scripts.now)) o.items)
        objects.now) }
{
    for object in objects {
        if !items_fit(alloc, scripts, object.items.as_slice())? {
            return Ok(false);
        }
    }
    Ok(true)
}

fn entry_fits(alloc: Global, scripts: &Scripts, entry: &Entry) -> Result<bool, NoMemory>
    requires short { IsTrue (is_short_entry entry.now) }
    ensures test { IfOk result (λ fits. IsTrue fits
        ↔ KindHolds (IsFitting scripts.now) entry.now.kind) }
{
    match &entry.kind {
        KindPart::Stored { state, .. } => is_fitting(alloc, scripts, state),
        KindPart::Event { .. } | KindPart::Turn { .. } | KindPart::Unapply { .. } => Ok(true),
    }
}

/// Whether each captured state of the agenda fits.
pub(crate) fn entries_fit(
    alloc: Global,
    scripts: &Scripts,
    entries: &[Entry],
) -> Result<bool, NoMemory>
    requires short { IsTrue (list_all is_short_entry entries.now) }
    ensures test { IfOk result (λ fit. IsTrue fit
        ↔ AllByRecursion (λ e. KindHolds (IsFitting scripts.now) e.kind) entries.now) }
{
    for entry in entries {
        if !entry_fits(alloc, scripts, entry)? {
            return Ok(false);
        }
    }
    Ok(true)
}
