//! The world that a state's parts tell.
ghost use Rattle.std.specs.Prelude.{◌≡◌, length, IfOk};
ghost use Rattle.std.specs.List.{AllByRecursion, IsDistinct};
ghost use Rattle.local_variables.specs.Variables.{same_variable};
ghost use Rattle.area_rules.specs.Area.{area_of};
ghost use Rattle.gff_tree.specs.Whole.{PlainGff};
ghost use Rattle.state_parts.specs.World.{variables_of, with_variables, world_of};
ghost use Rattle.play_save.specs.Rules.{HasAgenda, HasTexts, HasTurns};
ghost use Rattle.play_save.specs.Breaking.{IsReadFrom};

use crate::entries::agenda;
use area_tree::Area;
use nwq_value::{NoMemory, Randoms};
use saved_state::Saved;
use state_format::{Object, Parts};
use state_objects::{objects, variables};
use std::alloc::Global;
use world_core::{World, WorldParts};

/// The area whose objects have these variables in the place of their own.
fn give(alloc: Global, area: Area, objects: &[Object]) -> Result<Area, NoMemory>
    requires counted { length objects.now ≡ length area.objects }
    requires distinct { AllByRecursion (λ o. IsDistinct same_variable (variables_of o))
        objects.now }
    ensures given { IfOk result (λ given. given
        ≡ record area { objects = with_variables area.objects objects.now }) }
{
    let mut area = area;
    for i in 0..objects.len() {
        let vars = variables(alloc, objects[i].variables.as_slice())?;
        area.put_vars(i as u32 + 1, vars);
    }
    Ok(area)
}

/// The world of a state, over the area that its bytes tell.
pub(crate) fn world(alloc: Global, area: Area, parts: &Parts) -> Result<World<Saved>, NoMemory>
    requires read { IsReadFrom parts.now.area (length parts.now.objects) area }
    requires texts { HasTexts parts.now }
    requires agenda { HasAgenda parts.now }
    requires turns { HasTurns parts.now }
    ensures world { IfOk result (λ w. w.world ≡ world_of area.tree parts.now) }
{
    let objects = objects(alloc, parts.objects.as_slice())?;
    let agenda = agenda(alloc, parts.next, parts.agenda.as_slice())?;
    let random = Randoms::of_slice(alloc, parts.random.as_slice())?;
    let area = give(alloc, area, parts.objects.as_slice())?;
    Ok(World::from_parts(
        alloc,
        area,
        WorldParts {
            clock: parts.clock,
            objects,
            agenda,
            random,
            version: parts.version,
        },
    ))
}
