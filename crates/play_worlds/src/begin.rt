//! What the lines of a plan begin.
ghost use Rattle.std.specs.Prelude.{◌≡◌, ◌≤◌, List, length, map, IfOk};
ghost use Rattle.std.specs.List.{AllByRecursion};
ghost use Rattle.plan_text.specs.Fields.{greatest_nth};
ghost use Rattle.plan_text.specs.Plans.{IsLine};
ghost use Rattle.plan_text.specs.declared.plan.Line.TheVariants as plan_line;
ghost use Rattle.world_core.specs.Calls.{planned};
ghost use Rattle.play_worlds.specs.Worlds.{object_named, script_at, begun_by};

use area_tree::Area;
use nwq_value::{Items, NoMemory, Text};
use plan_text::Line;
use std::alloc::Global;
use world_core::{Events, Start};

/// The object with a tag before which so many others with it stand; 0 where there is none.
#[tactic(auto, using(crate::proofs::ObjectLemmas::named_within))]
fn object_named(area: &Area, nth: u32, tag: &[u8]) -> u32
    requires number { nth ≤ greatest_nth }
    ensures object { result ≡ object_named area.now nth tag.now }
    ensures within { result ≤ length area.now.objects }
{
    area.by_tag(tag, nth as i32)
}

/// The script in an object's field of this label; no name where there is no such object.
fn script_at<'a>(area: &'a Area, label: &[u8], object: u32) -> &'a [u8]
    requires within { object ≤ length area.now.objects }
    ensures script { result.now ≡ script_at area.now label.now object }
{
    if object == 0 {
        &[]
    } else {
        area.script_of(object, label)
    }
}

/// The event of an object.
fn event_of(
    alloc: Global,
    area: &Area,
    due: u64,
    nth: u32,
    label: &[u8],
    tag: &[u8],
) -> Result<Start, NoMemory>
    requires number { nth ≤ greatest_nth }
    ensures begun { IfOk result (λ start. planned start
        ≡ begun_by area.now (plan_line.Event due nth label.now tag.now)) }
{
    let object = object_named(area, nth, tag);
    let script = Text::of(alloc, script_at(area, label, object))?;
    Ok(Start {
        due,
        object,
        script,
    })
}

/// What a line of a plan begins in an area.
fn begun_by(alloc: Global, area: &Area, line: &Line) -> Result<Start, NoMemory>
    requires line { IsLine line.now }
    ensures begun { IfOk result (λ start. planned start ≡ begun_by area.now line.now) }
{
    match line {
        Line::Event {
            due,
            nth,
            label,
            tag,
        } => event_of(alloc, area, *due, *nth, label.bytes(), tag.bytes()),
        Line::Start {
            due,
            nth,
            name,
            tag,
        } => Ok(Start {
            due: *due,
            object: object_named(area, *nth, tag.bytes()),
            script: name.copy(alloc)?,
        }),
        Line::Free { due, name } => Ok(Start {
            due: *due,
            object: 0,
            script: name.copy(alloc)?,
        }),
    }
}

/// What the lines of a plan begin, in order.
#[tactic(auto, using(crate::proofs::BeginLemmas::begins))]
pub(crate) fn begun_by_all(alloc: Global, area: &Area, lines: &[Line]) -> Result<Events, NoMemory>
    requires lines { AllByRecursion IsLine lines.now }
    ensures begun { IfOk result
        (λ events. map planned events ≡ map (begun_by area.now) lines.now) }
{
    let mut events = Items::new(alloc);
    for line in lines {
        events.push(begun_by(alloc, area, line)?)?;
    }
    Ok(events)
}
