//! The entries of an agenda, put as the fields of their parts.
ghost use Rattle.std.specs.Prelude.{◌≡◌, ◌++◌, length, map, IfOk, OnOk};
ghost use Rattle.std.specs.List.{flat_map, AllByRecursion};
ghost use Rattle.state_format.specs.Fields.{entry_fields, joined, kind_fields, list_of};
ghost use Rattle.state_format.specs.Parts.{IsEntry, IsKind, IsNumber};
ghost use Rattle.state_parts.specs.World.{entry_of, kind_of};
ghost use Rattle.state_parts.specs.Told.{entry_part, kind_part};
ghost use Rattle.state_parts.specs.ShortTexts.{is_short_entry, is_short_kind};
ghost use Rattle.state_parts.specs.Keeping.{ArePartsOf, IsPartOf, KindHasValues};

use crate::values::{MOST, fits_int, fits_long, fits_word, put_saved, put_text};
use delay_agenda::{Agenda, Entry, Kind};
use nwq_value::{Items, NoMemory};
use saved_state::Saved;
use state_format::{Writer, put_count, put_signed, put_tag, put_wide, put_word};
use std::alloc::Global;

fn put_kind<W: Writer>(out: &mut W, kind: &Kind<Saved>) -> Result<(), NoMemory>
    requires values { KindHasValues kind.now }
    ensures put { OnOk result
        (W.taken out.new ≡ W.taken out.old ++ joined (kind_fields (kind_part kind.now))) }
    ensures part { OnOk result
        (IsPartOf kind_of IsKind is_short_kind kind.now (kind_part kind.now)) }
{
    match kind {
        Kind::Event {
            object,
            script,
            user,
        } => {
            fits_word(*object);
            fits_int(*user);
            put_tag(out, 0)?;
            put_word(out, *object)?;
            put_text(out, script)?;
            put_signed(out, *user)
        }
        Kind::Stored { object, action } => {
            fits_word(*object);
            put_tag(out, 1)?;
            put_word(out, *object)?;
            put_saved(out, action)
        }
        Kind::Turn { object } => {
            fits_word(*object);
            put_tag(out, 2)?;
            put_word(out, *object)
        }
        Kind::Unapply { object } => {
            fits_word(*object);
            put_tag(out, 3)?;
            put_word(out, *object)
        }
    }
}

fn put_entry<W: Writer>(out: &mut W, entry: &Entry<Saved>) -> Result<(), NoMemory>
    requires values { KindHasValues entry.now.kind }
    ensures put { OnOk result
        (W.taken out.new ≡ W.taken out.old ++ joined (entry_fields (entry_part entry.now))) }
    ensures part { OnOk result
        (IsPartOf entry_of IsEntry is_short_entry entry.now (entry_part entry.now)) }
{
    fits_long(entry.due);
    fits_long(entry.number);
    put_wide(out, entry.due)?;
    put_wide(out, entry.number)?;
    put_kind(out, &entry.kind)
}

/// All entries of an agenda, in the order in which they are taken. None is copied.
pub fn entries(alloc: Global, agenda: Agenda<Saved>) -> Result<Items<Entry<Saved>>, NoMemory>
    ensures entries { IfOk result (λ all. all ≡ agenda.waiting.entries) }
    ensures few { IfOk result (λ all. IsNumber 4 (length all)) }
{
    let mut agenda = agenda;
    let mut all = Items::new(alloc);
    for _done in 0..MOST {
        match agenda.take() {
            None => return Ok(all),
            Some(next) => all.push(next)?,
        }
    }
    drop(agenda);
    drop(all);
    Err(NoMemory)
}

/// Puts entries in a row.
fn put_row<W: Writer>(out: &mut W, entries: &[Entry<Saved>]) -> Result<(), NoMemory>
    requires values { AllByRecursion (λ e. KindHasValues e.kind) entries.now }
    ensures put { OnOk result (W.taken out.new
        ≡ W.taken out.old ++ joined (flat_map entry_fields (map entry_part entries.now))) }
    ensures parts { OnOk result
        (ArePartsOf entry_of IsEntry is_short_entry entries.now (map entry_part entries.now)) }
{
    for entry in entries {
        put_entry(out, entry)?;
    }
    Ok(())
}

/// Puts entries of an agenda behind their count; their texts are short. `NoMemory` comes also where
/// they, or a list of one, are more than 4,294,967,295.
pub fn put_entries<W: Writer>(out: &mut W, entries: &[Entry<Saved>]) -> Result<(), NoMemory>
    requires values { AllByRecursion (λ e. KindHasValues e.kind) entries.now }
    ensures put { OnOk result (W.taken out.new
        ≡ W.taken out.old ++ joined (list_of entry_fields (map entry_part entries.now))) }
    ensures parts { OnOk result
        (ArePartsOf entry_of IsEntry is_short_entry entries.now (map entry_part entries.now)) }
    ensures few { OnOk result (IsNumber 4 (length (map entry_part entries.now))) }
{
    if entries.len() > MOST {
        return Err(NoMemory);
    }
    put_count(out, entries.len())?;
    put_row(out, entries)
}
