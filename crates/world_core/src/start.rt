//! The events and starts of a plan.
ghost use Rattle.std.specs.Prelude.{◌≡◌, ◌<◌, ◌+◌, ◌^◌, drop, length, map, pos, OnOk};
ghost use Rattle.std.specs.List.{fold};
ghost use Rattle.delay_agenda.specs.declared.entry.Kind.TheVariants as kind;
ghost use Rattle.world_rules.specs.Changes.{post};
ghost use Rattle.world_rules.specs.Turns.{with_planned};
ghost use Rattle.world_core.specs.Calls.{planned};

use delay_agenda::Kind;
use nwq_value::{Items, NoMemory, Text};
use world_parts::Parts;

/// An event or a start of a plan: when it is due, its object, and the name of its script.
#[derive(Drop)]
pub struct Start {
    pub due: u64,
    pub object: u32,
    pub script: Text,
}

/// The events and starts of a plan, in order.
pub type Events = Items<Start>;

/// Posts an event.
fn post_start<X: Drop>(parts: &mut Parts<X>, start: &Start) -> Result<(), NoMemory>
    requires few { parts.old.world.agenda.next < 2 ^ 63 }
    ensures posted { OnOk result (parts.new.world
        ≡ with_planned parts.old.world (planned start.now)) }
{
    parts.room_for_posts(1)?;
    let script = start.script.copy(parts.alloc())?;
    let object = start.object;
    let user = 0;
    parts.post(
        start.due,
        Kind::Event {
            object,
            script,
            user,
        },
    );
    Ok(())
}

/// Posts events, one after the other.
#[tactic(auto, using(crate::proofs::StartLemmas::posted_all))]
pub(crate) fn post_all<X: Drop>(parts: &mut Parts<X>, starts: &[Start]) -> Result<(), NoMemory>
    requires first { parts.old.world.agenda.next ≡ 0 }
    ensures posted { OnOk result
        (parts.new.world ≡ fold with_planned parts.old.world (map planned starts.now)) }
{
    for start in starts {
        post_start(parts, start)?;
    }
    Ok(())
}
