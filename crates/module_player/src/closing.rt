//! The text at a play's end.
ghost use Rattle.std.specs.Prelude.{◌≡◌, ◌≤◌, ◌++◌, ◌∷◌, [], codes, IfOk, OnOk};
ghost use Rattle.std.specs.List.{flat_map};
ghost use Rattle.nwq_text.specs.Values.{object_text};
ghost use Rattle.world_rules.specs.World.{count as object_count, effects_of, queue_of};
ghost use Rattle.saved_state.specs.declared.saved.Saved.{Saved as SavedView};
ghost use Rattle.world_rules.specs.EndText.{by_object, due_line, end_line, end_word, item_line};
ghost use Rattle.world_rules.specs.EndText.{item_text, kind_text, queue_lines, script_text};
ghost use Rattle.world_rules.specs.EndText.{standing_lines};
ghost use Rattle.world_rules.specs.Plays.{PlayEnd, Played as PlayedView};
ghost use Rattle.ncs_machine.specs.Host.{scripts_of};
ghost use Rattle.module_player.specs.Answers.{EndsAs};
ghost use Rattle.module_player.specs.CodePlays.{code_end_text, script_name};
ghost use Rattle.module_player.specs.EndTexts.{HasText, IsEnding, actions_text, closing_line};
ghost use Rattle.module_player.specs.EndTexts.{effects_text, standing_text};

use crate::played::{How, Played};
use action_queue::Item;
use area_tree::Area;
use delay_agenda::{Entry, Kind};
use ncs_machine::Scripts;
use nwq_text::{put_count, put_effect, put_number, put_object, put_text};
use nwq_value::{Effect, NoMemory};
use saved_state::Saved;
use std::alloc::Global;
use world_core::World;

/// The name of the script that stored a state; none where it isn't listed.
fn name_of<'a>(scripts: &'a Scripts, saved: &Saved) -> &'a [u8]
    ensures name { result.now ≡ script_name (scripts_of scripts.now) saved.now }
{
    match scripts.get(saved.script as usize) {
        None => &[],
        Some(script) => script.name.bytes(),
    }
}

/// Appends the line of an effect that stands on an object.
fn put_standing(out: &mut Vec<u8>, object: u32, effect: &Effect) -> Result<(), NoMemory>
    ensures line { OnOk result (out.new.items ≡ out.old.items ++ standing_text object effect.now) }
{
    out.extend_from_slice(b"effect ")?;
    put_object(out, object)?;
    out.push(b' ')?;
    put_effect(out, effect)?;
    out.push(b'\n')?;
    Ok(())
}

/// Appends an action of a queue.
fn put_action(out: &mut Vec<u8>, scripts: &Scripts, item: &Item<Saved>) -> Result<(), NoMemory>
    ensures text { OnOk result (out.new.items ≡ out.old.items
        ++ item_text (script_name (scripts_of scripts.now)) item.now) }
{
    match item {
        Item::Do(saved) => {
            out.extend_from_slice(b"do ")?;
            put_text(out, name_of(scripts, saved))
        }
        Item::Wait(ms) => {
            out.extend_from_slice(b"wait ")?;
            put_number(out, i64::from(*ms))
        }
        Item::Speak(text) => {
            out.extend_from_slice(b"speak ")?;
            put_text(out, text.bytes())
        }
    }
}

/// Appends the line of an action in an object's queue.
fn put_item(
    out: &mut Vec<u8>,
    scripts: &Scripts,
    object: u32,
    item: &Item<Saved>,
) -> Result<(), NoMemory>
    ensures line { OnOk result (out.new.items ≡ out.old.items
        ++ item_line (script_name (scripts_of scripts.now)) object item.now) }
{
    out.extend_from_slice(b"queue ")?;
    put_object(out, object)?;
    out.push(b' ')?;
    put_action(out, scripts, item)?;
    out.push(b'\n')?;
    Ok(())
}

/// Appends a word and an object.
fn put_of_object(out: &mut Vec<u8>, word: &[u8], object: u32) -> Result<(), NoMemory>
    ensures text { OnOk result (out.new.items
        ≡ out.old.items ++ word.now ++ object_text object) }
{
    out.extend_from_slice(word)?;
    put_object(out, object)
}

/// Appends the name of an event's script; `-` where it has none.
fn put_script(out: &mut Vec<u8>, name: &[u8]) -> Result<(), NoMemory>
    ensures text { OnOk result (out.new.items ≡ out.old.items ++ script_text name.now) }
{
    match name {
        [] => {
            out.push(b'-')?;
            Ok(())
        }
        [_, ..] => put_text(out, name),
    }
}

/// Appends what an entry is to do.
fn put_kind(out: &mut Vec<u8>, scripts: &Scripts, kind: &Kind<Saved>) -> Result<(), NoMemory>
    ensures text { OnOk result (out.new.items ≡ out.old.items
        ++ kind_text (script_name (scripts_of scripts.now)) kind.now) }
{
    match kind {
        Kind::Event {
            object,
            script,
            user: _,
        } => {
            put_of_object(out, b"event ", *object)?;
            out.push(b' ')?;
            put_script(out, script.bytes())
        }
        Kind::Stored { object, action } => {
            put_of_object(out, b"stored ", *object)?;
            out.push(b' ')?;
            put_text(out, name_of(scripts, action))
        }
        Kind::Turn { object } => put_of_object(out, b"turn ", *object),
        Kind::Unapply { object } => put_of_object(out, b"unapply ", *object),
    }
}

/// Appends the line of an entry that waits.
fn put_due(out: &mut Vec<u8>, scripts: &Scripts, entry: &Entry<Saved>) -> Result<(), NoMemory>
    ensures line { OnOk result (out.new.items ≡ out.old.items
        ++ due_line (script_name (scripts_of scripts.now)) entry.now) }
{
    out.extend_from_slice(b"due ")?;
    put_count(out, entry.due)?;
    out.push(b' ')?;
    put_count(out, entry.number)?;
    out.push(b' ')?;
    put_kind(out, scripts, &entry.kind)?;
    out.push(b'\n')?;
    Ok(())
}

/// Appends the lines of the effects that stand on an object.
#[tactic(auto, using(crate::proofs::EndLemmas::effect_lemmas))]
fn put_effects_of(out: &mut Vec<u8>, world: &World<Saved>, object: u32) -> Result<(), NoMemory>
    requires first { 1 ≤ object }
    requires within { object ≤ object_count world.now.world }
    ensures lines { OnOk result (out.new.items
        ≡ out.old.items ++ effects_text object (effects_of object world.now.world)) }
{
    let mut effects = world.effects(object);
    while let Some(stood) = effects.next() {
        put_standing(out, object, &stood.effect)?;
    }
    Ok(())
}

/// Appends the lines of an object's queue.
#[tactic(auto, using(crate::proofs::EndLemmas::queue_lemmas))]
fn put_queue_of(
    out: &mut Vec<u8>,
    world: &World<Saved>,
    scripts: &Scripts,
    object: u32,
) -> Result<(), NoMemory>
    requires first { 1 ≤ object }
    requires within { object ≤ object_count world.now.world }
    ensures lines { OnOk result (out.new.items ≡ out.old.items ++ actions_text
        (script_name (scripts_of scripts.now)) object (queue_of object world.now.world).actions) }
{
    for i in 0..usize::MAX {
        match world.item_at(object, i) {
            None => return Ok(()),
            Some(item) => put_item(out, scripts, object, item)?,
        }
    }
    let _length = out.len();
    unreachable!()
}

/// Appends the lines of all effects that stand.
#[tactic(auto, using(crate::proofs::EndLemmas::object_lemmas))]
fn put_effects(out: &mut Vec<u8>, world: &World<Saved>) -> Result<(), NoMemory>
    ensures lines { OnOk result (out.new.items
        ≡ out.old.items ++ by_object standing_lines 1 world.now.world.things) }
{
    world.keeps();
    for i in 0..world.count() {
        put_effects_of(out, world, i + 1)?;
    }
    Ok(())
}

/// Appends the lines of all queues.
#[tactic(auto, using(crate::proofs::EndLemmas::object_lemmas))]
fn put_queues(out: &mut Vec<u8>, world: &World<Saved>, scripts: &Scripts) -> Result<(), NoMemory>
    ensures lines { OnOk result (out.new.items ≡ out.old.items ++ by_object
        (queue_lines (script_name (scripts_of scripts.now))) 1 world.now.world.things) }
{
    world.keeps();
    for i in 0..world.count() {
        put_queue_of(out, world, scripts, i + 1)?;
    }
    Ok(())
}

/// Takes all entries off the agenda, and appends their lines.
#[tactic(auto, using(crate::proofs::EndLemmas::agenda_lemmas))]
fn put_agenda(
    out: &mut Vec<u8>,
    world: &mut World<Saved>,
    scripts: &Scripts,
) -> Result<(), NoMemory>
    ensures lines { OnOk result (out.new.items ≡ out.old.items ++ flat_map
        (due_line (script_name (scripts_of scripts.now))) world.old.world.agenda.entries) }
    ensures area { OnOk result (world.new.world.area ≡ world.old.world.area) }
{
    while let Some(entry) = world.take_entry() {
        put_due(out, scripts, &entry)?;
    }
    Ok(())
}

/// The word for how a play ended.
fn end_word(how: How) -> &'static [u8]
    requires told { HasText how }
    ensures word { (ending : PlayEnd) → EndsAs how ending → result.now ≡ end_word ending }
{
    match how {
        How::Done => b"done",
        How::InstrStop => b"instructions",
        How::EntryStop => b"entries",
        How::Pause => unreachable!(),
        How::Fault => unreachable!(),
        How::NoMemory => unreachable!(),
    }
}

/// Appends the last line: how the play ended, when, and after how much.
fn put_end(
    out: &mut Vec<u8>,
    word: &[u8],
    clock: u64,
    entries: u64,
    instructions: u64,
) -> Result<(), NoMemory>
    ensures line { OnOk result (out.new.items
        ≡ out.old.items ++ closing_line word.now clock entries instructions) }
{
    out.extend_from_slice(b"end ")?;
    out.extend_from_slice(word)?;
    out.extend_from_slice(b" clock ")?;
    put_count(out, clock)?;
    out.extend_from_slice(b" entries ")?;
    put_count(out, entries)?;
    out.extend_from_slice(b" instructions ")?;
    put_count(out, instructions)?;
    out.push(b'\n')?;
    Ok(())
}

/// Appends the last line of a play's text, which is told at this time.
pub fn put_end_line(out: &mut Vec<u8>, played: &Played, clock: u64) -> Result<(), NoMemory>
    requires told { HasText played.now.how }
    ensures line { OnOk result ((ending : PlayEnd) → EndsAs played.now.how ending → out.new.items
        ≡ out.old.items ++ end_line ending clock played.now.entries played.now.instructions) }
{
    let word = end_word(played.how);
    put_end(out, word, clock, played.entries, played.instructions)
}

/// The text of a play's end. The agenda's entries are taken off.
#[tactic(auto, using(crate::proofs::EndLemmas::text_is))]
fn text_of(
    alloc: Global,
    world: &mut World<Saved>,
    scripts: &Scripts,
    played: &Played,
) -> Result<Vec<u8>, NoMemory>
    requires told { HasText played.now.how }
    ensures text { IfOk result (λ text. (p : PlayedView SavedView)
        → IsEnding played.now p world.old.world
        → text.items ≡ code_end_text (scripts_of scripts.now) p) }
    ensures area { OnOk result (world.new.world.area ≡ world.old.world.area) }
{
    let mut out = Vec::new(alloc);
    let clock = world.clock();
    put_effects(&mut out, world)?;
    put_queues(&mut out, world, scripts)?;
    put_agenda(&mut out, world, scripts)?;
    let word = end_word(played.how);
    put_end(&mut out, word, clock, played.entries, played.instructions)?;
    Ok(out)
}

/// The area of the world in which a play ended, and the text of its end: what stands on objects,
/// what is in their queues, what waits on the agenda, and how the play ended. After `NoMemory` the
/// world is dropped.
pub fn end_text(
    alloc: Global,
    world: World<Saved>,
    scripts: &Scripts,
    played: &Played,
) -> Result<(Area, Vec<u8>), NoMemory>
    requires told { HasText played.now.how }
    ensures text { IfOk result (λ r. (p : PlayedView SavedView)
        → IsEnding played.now p world.world
        → r.1.items ≡ code_end_text (scripts_of scripts.now) p) }
    ensures area { IfOk result (λ r. r.0 ≡ world.world.area) }
{
    let mut world = world;
    match text_of(alloc, &mut world, scripts, played) {
        Err(_) => {
            drop(world);
            Err(NoMemory)
        }
        Ok(text) => Ok((world.into_area(), text)),
    }
}
