//! Objects, put as the fields of their parts.
ghost use Rattle.std.specs.Prelude.{◌≡◌, ◌++◌, length, map, IfOk, IsTrue, OnOk};
ghost use Rattle.std.specs.List.{flat_map, AllByRecursion};
ghost use Rattle.local_variables.specs.Variables.{variable_of as variable_seen};
ghost use Rattle.state_format.specs.Fields.{busy_fields, item_fields, joined, list_of};
ghost use Rattle.state_format.specs.Fields.{maybe_fields, number_fields, object_fields};
ghost use Rattle.state_format.specs.Fields.{standing_fields, variable_fields};
ghost use Rattle.state_format.specs.Parts.{IsItem, IsMaybe, IsNumber, IsObject, IsStanding};
ghost use Rattle.state_format.specs.Parts.{IsVariable};
ghost use Rattle.state_parts.specs.World.{item_of, stood_of, things_of, variable_of, variables_of};
ghost use Rattle.state_parts.specs.Told.{item_part, object_with, stood_part, variable_part};
ghost use Rattle.state_parts.specs.ShortTexts.{has_short_items, is_short_item};
ghost use Rattle.state_parts.specs.Keeping.{any_text, ArePartsOf, HasValues, IsPartOf};

use crate::values::{MOST, fits_int, fits_long, put_bytes, put_effect, put_saved, put_text};
use action_queue::{Item, Queue};
use local_variables::{Var, Vars};
use nwq_value::NoMemory;
use saved_state::Saved;
use state_format::{Writer, put_count, put_signed, put_tag, put_wide};
use world_rules::{Standing, Stood, Things};

fn put_item<W: Writer>(out: &mut W, item: &Item<Saved>) -> Result<(), NoMemory>
    requires values { HasValues item.now }
    ensures put { OnOk result
        (W.taken out.new ≡ W.taken out.old ++ joined (item_fields (item_part item.now))) }
    ensures part { OnOk result
        (IsPartOf item_of IsItem is_short_item item.now (item_part item.now)) }
{
    match item {
        Item::Do(state) => {
            put_tag(out, 0)?;
            put_saved(out, state)
        }
        Item::Wait(ms) => {
            fits_int(*ms);
            put_tag(out, 1)?;
            put_signed(out, *ms)
        }
        Item::Speak(said) => {
            put_tag(out, 2)?;
            put_text(out, said)
        }
    }
}

/// How many actions wait, at most [`MOST`].
fn count_items(queue: &Queue<Saved>) -> Result<usize, NoMemory>
    ensures count { IfOk result (λ n. n ≡ length queue.now.actions) }
    ensures few { IfOk result (IsNumber 4) }
{
    for i in 0..MOST {
        match queue.at(i) {
            None => return Ok(i),
            Some(_) => {}
        }
    }
    Err(NoMemory)
}

/// Puts actions in a row, so many as there are.
fn put_actions<W: Writer>(out: &mut W, queue: &Queue<Saved>, count: usize) -> Result<(), NoMemory>
    requires count { count ≡ length queue.now.actions }
    requires values { AllByRecursion HasValues queue.now.actions }
    ensures put { OnOk result (W.taken out.new
        ≡ W.taken out.old ++ joined (flat_map item_fields (map item_part queue.now.actions))) }
    ensures parts { OnOk result (ArePartsOf item_of IsItem is_short_item queue.now.actions
        (map item_part queue.now.actions)) }
{
    for i in 0..count {
        match queue.at(i) {
            None => unreachable!(),
            Some(next) => put_item(out, next)?,
        }
    }
    Ok(())
}

fn put_items<W: Writer>(out: &mut W, queue: &Queue<Saved>) -> Result<(), NoMemory>
    requires values { AllByRecursion HasValues queue.now.actions }
    ensures put { OnOk result (W.taken out.new
        ≡ W.taken out.old ++ joined (list_of item_fields (map item_part queue.now.actions))) }
    ensures parts { OnOk result (ArePartsOf item_of IsItem is_short_item queue.now.actions
        (map item_part queue.now.actions)) }
    ensures few { OnOk result (IsNumber 4 (length (map item_part queue.now.actions))) }
{
    let count = count_items(queue)?;
    put_count(out, count)?;
    put_actions(out, queue, count)
}

/// Puts the number of an effect, where it has one.
fn put_number<W: Writer>(out: &mut W, number: Option<u64>) -> Result<(), NoMemory>
    ensures put { OnOk result
        (W.taken out.new ≡ W.taken out.old ++ joined (maybe_fields (number_fields 8) number)) }
    ensures form { IsMaybe (IsNumber 8) number }
{
    match number {
        None => put_tag(out, 0),
        Some(n) => {
            fits_long(n);
            put_tag(out, 1)?;
            put_wide(out, n)
        }
    }
}

fn put_stood<W: Writer>(out: &mut W, stood: &Stood) -> Result<(), NoMemory>
    ensures put { OnOk result
        (W.taken out.new ≡ W.taken out.old ++ joined (standing_fields (stood_part stood.now))) }
    ensures part { OnOk result
        (IsPartOf stood_of IsStanding any_text stood.now (stood_part stood.now)) }
{
    put_number(out, stood.number)?;
    put_effect(out, &stood.effect)
}

/// Puts effects in a row.
fn put_effects<W: Writer>(out: &mut W, effects: &Standing) -> Result<(), NoMemory>
    ensures put { OnOk result (W.taken out.new
        ≡ W.taken out.old ++ joined (flat_map standing_fields (map stood_part effects.now))) }
    ensures parts { OnOk result
        (ArePartsOf stood_of IsStanding any_text effects.now (map stood_part effects.now)) }
{
    let mut walk = effects.walk();
    for _done in 0..effects.len() {
        match walk.next() {
            None => unreachable!(),
            Some(effect) => put_stood(out, effect)?,
        }
    }
    Ok(())
}

fn put_standing<W: Writer>(out: &mut W, effects: &Standing) -> Result<(), NoMemory>
    ensures put { OnOk result (W.taken out.new
        ≡ W.taken out.old ++ joined (list_of standing_fields (map stood_part effects.now))) }
    ensures parts { OnOk result
        (ArePartsOf stood_of IsStanding any_text effects.now (map stood_part effects.now)) }
    ensures few { OnOk result (IsNumber 4 (length (map stood_part effects.now))) }
{
    if effects.len() > MOST {
        return Err(NoMemory);
    }
    put_count(out, effects.len())?;
    put_effects(out, effects)
}

fn put_variable<W: Writer>(out: &mut W, v: Var<'_>) -> Result<(), NoMemory>
    ensures put { OnOk result (W.taken out.new ≡ W.taken out.old
        ++ joined (variable_fields (variable_part (variable_seen v.entry)))) }
    ensures part { OnOk result (IsPartOf variable_of IsVariable any_text (variable_seen v.entry)
        (variable_part (variable_seen v.entry))) }
{
    match v {
        Var::Int(name, n) => {
            fits_int(n);
            put_tag(out, 1)?;
            put_bytes(out, name)?;
            put_signed(out, n)
        }
        Var::Text(name, text) => {
            put_tag(out, 3)?;
            put_bytes(out, name)?;
            put_bytes(out, text)
        }
    }
}

/// Puts variables in a row.
fn put_walk<W: Writer>(out: &mut W, vars: &Vars) -> Result<(), NoMemory>
    ensures put { OnOk result (W.taken out.new
        ≡ W.taken out.old ++ joined (flat_map variable_fields (map variable_part vars.now))) }
    ensures parts { OnOk result
        (ArePartsOf variable_of IsVariable any_text vars.now (map variable_part vars.now)) }
{
    let mut walk = vars.walk();
    for _done in 0..vars.len() {
        match walk.next() {
            None => unreachable!(),
            Some(v) => put_variable(out, v)?,
        }
    }
    Ok(())
}

fn put_variables<W: Writer>(out: &mut W, vars: &Vars) -> Result<(), NoMemory>
    ensures put { OnOk result (W.taken out.new
        ≡ W.taken out.old ++ joined (list_of variable_fields (map variable_part vars.now))) }
    ensures parts { OnOk result
        (ArePartsOf variable_of IsVariable any_text vars.now (map variable_part vars.now)) }
    ensures few { OnOk result (IsNumber 4 (length (map variable_part vars.now))) }
{
    if vars.len() > MOST {
        return Err(NoMemory);
    }
    put_count(out, vars.len())?;
    put_walk(out, vars)
}

fn put_busy<W: Writer>(out: &mut W, busy: bool) -> Result<(), NoMemory>
    ensures put { OnOk result
        (W.taken out.new ≡ W.taken out.old ++ joined (busy_fields busy)) }
{
    if busy {
        put_tag(out, 1)
    } else {
        put_tag(out, 0)
    }
}

/// Puts an object of a world, with its variables in the area; its texts are short. `NoMemory` comes
/// also where a list of it has more than 4,294,967,295 members.
pub fn put_object<W: Writer>(
    out: &mut W,
    vars: &Vars,
    things: &Things<Saved>,
) -> Result<(), NoMemory>
    requires values { AllByRecursion HasValues things.now.queue.actions }
    ensures put { OnOk result (W.taken out.new
        ≡ W.taken out.old ++ joined (object_fields (object_with vars.now things.now))) }
    ensures things { OnOk result (things_of (object_with vars.now things.now) ≡ things.now) }
    ensures variables { OnOk result (variables_of (object_with vars.now things.now) ≡ vars.now) }
    ensures form { OnOk result (IsObject (object_with vars.now things.now)) }
    ensures short { OnOk result (IsTrue (has_short_items (object_with vars.now things.now))) }
{
    put_busy(out, things.queue.is_busy())?;
    put_variables(out, vars)?;
    put_standing(out, &things.effects)?;
    put_items(out, &things.queue)
}
