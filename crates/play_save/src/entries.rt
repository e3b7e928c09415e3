//! The agenda of a state's parts.
ghost use Rattle.std.specs.Prelude.{◌≡◌, map, IfOk, IsTrue};
ghost use Rattle.std.specs.List.{list_all};
ghost use Rattle.delay_agenda.specs.Waiting.{IsAgenda};
ghost use Rattle.state_parts.specs.World.{entry_of, kind_of};
ghost use Rattle.state_parts.specs.ShortTexts.{is_short_entry, is_short_kind};

use delay_agenda::{Agenda, Entry, Kind};
use nwq_value::NoMemory;
use saved_state::Saved;
use state_format::{Entry as EntryPart, KindPart};
use state_objects::{saved, text};
use std::alloc::Global;

/// What an entry does.
fn kind(alloc: Global, part: &KindPart) -> Result<Kind<Saved>, NoMemory>
    requires short { IsTrue (is_short_kind part.now) }
    ensures tells { IfOk result (λ kind. kind ≡ kind_of part.now) }
{
    match part {
        KindPart::Event {
            object,
            script,
            user,
        } => {
            let script = text(alloc, script)?;
            Ok(Kind::Event {
                object: *object,
                script,
                user: *user,
            })
        }
        KindPart::Stored { object, state } => {
            let action = saved(alloc, state)?;
            Ok(Kind::Stored {
                object: *object,
                action,
            })
        }
        KindPart::Turn { object } => Ok(Kind::Turn { object: *object }),
        KindPart::Unapply { object } => Ok(Kind::Unapply { object: *object }),
    }
}

fn entry(alloc: Global, part: &EntryPart) -> Result<Entry<Saved>, NoMemory>
    requires short { IsTrue (is_short_entry part.now) }
    ensures tells { IfOk result (λ entry. entry ≡ entry_of part.now) }
{
    let kind = kind(alloc, &part.kind)?;
    Ok(Entry {
        due: part.due,
        number: part.number,
        kind,
    })
}

/// The agenda of entries that are in order.
pub(crate) fn agenda(
    alloc: Global,
    next: u64,
    parts: &[EntryPart],
) -> Result<Agenda<Saved>, NoMemory>
    requires ordered { IsAgenda (record { entries = map entry_of parts.now; next = next }) }
    requires short { IsTrue (list_all is_short_entry parts.now) }
    ensures tells { IfOk result (λ agenda. agenda.waiting
        ≡ record { entries = map entry_of parts.now; next = next }) }
{
    let mut agenda = Agenda::start_at(alloc, next);
    for part in parts {
        let held = entry(alloc, part)?;
        agenda.put(held)?;
    }
    Ok(agenda)
}
