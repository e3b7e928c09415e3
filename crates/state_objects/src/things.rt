//! The objects of a state's parts: what they are to do, what stands on them, and their variables.
ghost use Rattle.std.specs.Prelude.{◌≡◌, map, IfOk, IsTrue};
ghost use Rattle.std.specs.List.{list_all, IsDistinct};
ghost use Rattle.local_variables.specs.Variables.{same_variable};
ghost use Rattle.local_variables.specs.Variables.{variable_of as variable_seen};
ghost use Rattle.state_parts.specs.World.{item_of, stood_of, things_of, variable_of};
ghost use Rattle.state_parts.specs.ShortTexts.{are_short_items, has_short_items, is_short_item};

use crate::values::{effect, saved, text};
use action_queue::{Item, Queue};
use local_variables::{Var, Vars, variables_tell};
use nwq_value::{Items, NoMemory};
use saved_state::Saved;
use state_format::{Item as ItemPart, Object, Standing as StandingPart, Variable};
use std::alloc::Global;
use world_rules::{Objects, Standing, Stood, Things};

/// The action of a part.
fn item(alloc: Global, part: &ItemPart) -> Result<Item<Saved>, NoMemory>
    requires short { IsTrue (is_short_item part.now) }
    ensures tells { IfOk result (λ item. item ≡ item_of part.now) }
{
    match part {
        ItemPart::Do(part) => Ok(Item::Do(saved(alloc, part)?)),
        ItemPart::Wait(ms) => Ok(Item::Wait(*ms)),
        ItemPart::Speak(bytes) => Ok(Item::Speak(text(alloc, bytes)?)),
    }
}

/// What an object is to do, with its mark.
fn queue(alloc: Global, busy: bool, parts: &[ItemPart]) -> Result<Queue<Saved>, NoMemory>
    requires short { IsTrue (are_short_items parts.now) }
    ensures tells { IfOk result
        (λ queue. queue ≡ record { actions = map item_of parts.now; busy = busy }) }
{
    let mut queue = Queue::new(alloc);
    queue.set_busy(busy);
    for part in parts {
        let next = item(alloc, part)?;
        queue.append(next)?;
    }
    Ok(queue)
}

fn standing(alloc: Global, parts: &[StandingPart]) -> Result<Standing, NoMemory>
    ensures tells { IfOk result (λ standing. standing ≡ map stood_of parts.now) }
{
    let mut all = Standing::new(alloc);
    for part in parts {
        let effect = effect(alloc, &part.effect)?;
        all.push(Stood {
            number: part.number,
            effect,
        })?;
    }
    Ok(all)
}

/// What is kept of an object beside the area.
fn things(alloc: Global, part: &Object) -> Result<Things<Saved>, NoMemory>
    requires short { IsTrue (has_short_items part.now) }
    ensures tells { IfOk result (λ things. things ≡ things_of part.now) }
{
    let queue = queue(alloc, part.busy, part.items.as_slice())?;
    let effects = standing(alloc, part.effects.as_slice())?;
    Ok(Things { queue, effects })
}

/// What is kept of all objects beside the area.
pub fn objects(alloc: Global, parts: &[Object]) -> Result<Objects<Saved>, NoMemory>
    requires short { IsTrue (list_all has_short_items parts.now) }
    ensures tells { IfOk result (λ objects. objects ≡ map things_of parts.now) }
{
    let mut all = Items::new(alloc);
    for part in parts {
        let kept = things(alloc, part)?;
        all.push(kept)?;
    }
    Ok(all)
}

/// A variable, borrowed.
pub fn variable(part: &Variable) -> Var<'_>
    ensures tells { variable_seen result ≡ variable_of part.now }
{
    match part {
        Variable::Int(name, n) => Var::Int(name.as_slice(), *n),
        Variable::Text(name, text) => Var::Text(name.as_slice(), text.as_slice()),
    }
}

/// The variables of an object.
pub fn variables(alloc: Global, parts: &[Variable]) -> Result<Vars, NoMemory>
    requires distinct { IsDistinct same_variable (map variable_of parts.now) }
    ensures tells { IfOk result (λ vars. vars ≡ map variable_of parts.now) }
{
    variables_tell();
    let mut vars = Vars::new(alloc);
    for part in parts {
        vars.push(variable(part))?;
    }
    Ok(vars)
}
