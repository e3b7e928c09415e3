//! The parts of a state, written as its bytes.

ghost use Rattle.std.specs.Prelude.{◌≡◌, ◌++◌, ◌<◌, ◌≤◌, length, OnOk, IfOk, MatchResult};
ghost use Rattle.nwq_value.specs.Limits.{file_limit};
ghost use Rattle.state_format.specs.Fields.{magic, joined, blob_fields, number_fields};
ghost use Rattle.state_format.specs.Fields.{maybe_fields, effect_fields, cell_fields};
ghost use Rattle.state_format.specs.Fields.{captured_fields};
ghost use Rattle.state_format.specs.Fields.{variable_fields, standing_fields, item_fields};
ghost use Rattle.state_format.specs.Fields.{busy_fields, object_fields, kind_fields, entry_fields};
ghost use Rattle.state_format.specs.Fields.{script_fields, count_fields, parts_fields, parts_bytes};
ghost use Rattle.state_format.specs.Fields.{first_fields, last_fields};
ghost use Rattle.state_format.specs.Place.{IsTooLarge};

use crate::fault::SaveFault;
use crate::magic::MAGIC;
use crate::parts::{
    Captured, Cell, Effect, Entry, Item, KindPart, Object, Parts, Script, Standing, Variable,
};
use crate::tally::Tally;
use crate::written::{
    Writer, Written, put_blob, put_list, put_short, put_signed, put_small, put_tag, put_wide,
    put_word, roomy,
};
use nwq_value::{FILE_BYTES, Items, NoMemory};
use std::alloc::Global;

impl Written for i32 {
    ghost use Rattle.state_format.specs.Fields.{signed_fields};

    ghost laid_out = { signed_fields };

    fn put<W: Writer>(&self, out: &mut W) -> Result<(), NoMemory> {
        put_signed(out, *self)
    }
}

fn put_effect<W: Writer>(out: &mut W, effect: &Effect) -> Result<(), NoMemory>
    ensures put { OnOk result (W.taken out.new ≡ W.taken out.old
        ++ joined (effect_fields effect.now)) }
{
    put_short(out, effect.routine)?;
    put_list(out, &effect.ints)
}

fn put_cell<W: Writer>(out: &mut W, cell: &Cell) -> Result<(), NoMemory>
    ensures put { OnOk result (W.taken out.new ≡ W.taken out.old ++ joined (cell_fields cell.now)) }
{
    match cell {
        Cell::Int(n) => {
            put_tag(out, 0x03)?;
            put_signed(out, *n)
        }
        Cell::Text(text) => {
            put_tag(out, 0x05)?;
            put_blob(out, text.as_slice())
        }
        Cell::Object(object) => {
            put_tag(out, 0x06)?;
            put_word(out, *object)
        }
        Cell::Effect(effect) => {
            put_tag(out, 0x10)?;
            put_effect(out, effect)
        }
        Cell::Event(user) => {
            put_tag(out, 0x11)?;
            put_signed(out, *user)
        }
    }
}

impl Written for Cell {
    ghost use Rattle.state_format.specs.Fields.{cell_fields};

    ghost laid_out = { cell_fields };

    fn put<W: Writer>(&self, out: &mut W) -> Result<(), NoMemory> {
        put_cell(out, self)
    }
}

fn put_captured<W: Writer>(out: &mut W, state: &Captured) -> Result<(), NoMemory>
    ensures put { OnOk result (W.taken out.new ≡ W.taken out.old
        ++ joined (captured_fields state.now)) }
{
    put_word(out, state.script)?;
    put_word(out, state.place)?;
    put_list(out, &state.globals)?;
    put_list(out, &state.locals)
}

fn put_variable<W: Writer>(out: &mut W, variable: &Variable) -> Result<(), NoMemory>
    ensures put { OnOk result (W.taken out.new ≡ W.taken out.old
        ++ joined (variable_fields variable.now)) }
{
    match variable {
        Variable::Int(name, n) => {
            put_tag(out, 1)?;
            put_blob(out, name.as_slice())?;
            put_signed(out, *n)
        }
        Variable::Text(name, text) => {
            put_tag(out, 3)?;
            put_blob(out, name.as_slice())?;
            put_blob(out, text.as_slice())
        }
    }
}

impl Written for Variable {
    ghost use Rattle.state_format.specs.Fields.{variable_fields};

    ghost laid_out = { variable_fields };

    fn put<W: Writer>(&self, out: &mut W) -> Result<(), NoMemory> {
        put_variable(out, self)
    }
}

fn put_number<W: Writer>(out: &mut W, number: Option<u64>) -> Result<(), NoMemory>
    ensures put { OnOk result
        (W.taken out.new ≡ W.taken out.old ++ joined (maybe_fields (number_fields 8) number)) }
{
    match number {
        None => put_tag(out, 0),
        Some(n) => {
            put_tag(out, 1)?;
            put_wide(out, n)
        }
    }
}

fn put_standing<W: Writer>(out: &mut W, standing: &Standing) -> Result<(), NoMemory>
    ensures put { OnOk result (W.taken out.new ≡ W.taken out.old
        ++ joined (standing_fields standing.now)) }
{
    put_number(out, standing.number)?;
    put_effect(out, &standing.effect)
}

impl Written for Standing {
    ghost use Rattle.state_format.specs.Fields.{standing_fields};

    ghost laid_out = { standing_fields };

    fn put<W: Writer>(&self, out: &mut W) -> Result<(), NoMemory> {
        put_standing(out, self)
    }
}

fn put_item<W: Writer>(out: &mut W, item: &Item) -> Result<(), NoMemory>
    ensures put { OnOk result (W.taken out.new ≡ W.taken out.old ++ joined (item_fields item.now)) }
{
    match item {
        Item::Do(state) => {
            put_tag(out, 0)?;
            put_captured(out, state)
        }
        Item::Wait(ms) => {
            put_tag(out, 1)?;
            put_signed(out, *ms)
        }
        Item::Speak(text) => {
            put_tag(out, 2)?;
            put_blob(out, text.as_slice())
        }
    }
}

impl Written for Item {
    ghost use Rattle.state_format.specs.Fields.{item_fields};

    ghost laid_out = { item_fields };

    fn put<W: Writer>(&self, out: &mut W) -> Result<(), NoMemory> {
        put_item(out, self)
    }
}

fn put_busy<W: Writer>(out: &mut W, busy: bool) -> Result<(), NoMemory>
    ensures put { OnOk result (W.taken out.new ≡ W.taken out.old ++ joined (busy_fields busy)) }
{
    if busy {
        put_tag(out, 1)
    } else {
        put_tag(out, 0)
    }
}

fn put_object<W: Writer>(out: &mut W, object: &Object) -> Result<(), NoMemory>
    ensures put { OnOk result (W.taken out.new ≡ W.taken out.old
        ++ joined (object_fields object.now)) }
{
    put_busy(out, object.busy)?;
    put_list(out, &object.variables)?;
    put_list(out, &object.effects)?;
    put_list(out, &object.items)
}

impl Written for Object {
    ghost use Rattle.state_format.specs.Fields.{object_fields};

    ghost laid_out = { object_fields };

    fn put<W: Writer>(&self, out: &mut W) -> Result<(), NoMemory> {
        put_object(out, self)
    }
}

fn put_kind<W: Writer>(out: &mut W, kind: &KindPart) -> Result<(), NoMemory>
    ensures put { OnOk result (W.taken out.new ≡ W.taken out.old ++ joined (kind_fields kind.now)) }
{
    match kind {
        KindPart::Event {
            object,
            script,
            user,
        } => {
            put_tag(out, 0)?;
            put_word(out, *object)?;
            put_blob(out, script.as_slice())?;
            put_signed(out, *user)
        }
        KindPart::Stored { object, state } => {
            put_tag(out, 1)?;
            put_word(out, *object)?;
            put_captured(out, state)
        }
        KindPart::Turn { object } => {
            put_tag(out, 2)?;
            put_word(out, *object)
        }
        KindPart::Unapply { object } => {
            put_tag(out, 3)?;
            put_word(out, *object)
        }
    }
}

fn put_entry<W: Writer>(out: &mut W, entry: &Entry) -> Result<(), NoMemory>
    ensures put { OnOk result (W.taken out.new ≡ W.taken out.old
        ++ joined (entry_fields entry.now)) }
{
    put_wide(out, entry.due)?;
    put_wide(out, entry.number)?;
    put_kind(out, &entry.kind)
}

impl Written for Entry {
    ghost use Rattle.state_format.specs.Fields.{entry_fields};

    ghost laid_out = { entry_fields };

    fn put<W: Writer>(&self, out: &mut W) -> Result<(), NoMemory> {
        put_entry(out, self)
    }
}

fn put_script<W: Writer>(out: &mut W, script: &Script) -> Result<(), NoMemory>
    ensures put { OnOk result (W.taken out.new ≡ W.taken out.old
        ++ joined (script_fields script.now)) }
{
    put_blob(out, script.name.as_slice())?;
    put_blob(out, script.code.as_slice())
}

impl Written for Script {
    ghost use Rattle.state_format.specs.Fields.{script_fields};

    ghost laid_out = { script_fields };

    fn put<W: Writer>(&self, out: &mut W) -> Result<(), NoMemory> {
        put_script(out, self)
    }
}

impl Written for u32 {
    ghost use Rattle.state_format.specs.Fields.{number_fields};

    ghost laid_out = { number_fields 4 };

    fn put<W: Writer>(&self, out: &mut W) -> Result<(), NoMemory> {
        put_word(out, *self)
    }
}

fn put_header<W: Writer>(out: &mut W, header: &Option<Items<u8>>) -> Result<(), NoMemory>
    ensures put { OnOk result
        (W.taken out.new ≡ W.taken out.old ++ joined (maybe_fields blob_fields header.now)) }
{
    match header {
        None => put_tag(out, 0),
        Some(text) => {
            put_tag(out, 1)?;
            put_blob(out, text.as_slice())
        }
    }
}

/// The limits, clock and counts behind the version.
fn put_counts<W: Writer>(out: &mut W, parts: &Parts) -> Result<(), NoMemory>
    ensures put { OnOk result (W.taken out.new ≡ W.taken out.old
        ++ joined (count_fields parts.now)) }
{
    put_small(out, parts.version)?;
    put_wide(out, parts.limit)?;
    put_wide(out, parts.entries)?;
    put_wide(out, parts.until)?;
    put_wide(out, parts.clock)?;
    put_wide(out, parts.taken)?;
    put_wide(out, parts.done)?;
    put_wide(out, parts.next)
}

/// Puts the format's name.
pub fn put_magic<W: Writer>(out: &mut W) -> Result<(), NoMemory>
    ensures put { OnOk result (W.taken out.new ≡ W.taken out.old ++ magic) }
{
    out.put(MAGIC.as_slice())
}

/// Puts what stands in front of the random numbers.
fn put_first<W: Writer>(out: &mut W, parts: &Parts) -> Result<(), NoMemory>
    ensures put { OnOk result (W.taken out.new ≡ W.taken out.old
        ++ joined (first_fields parts.now)) }
{
    put_magic(out)?;
    put_header(out, &parts.header)?;
    put_list(out, &parts.scripts)?;
    put_blob(out, parts.area.as_slice())?;
    put_counts(out, parts)
}

/// Puts the random numbers, the objects and the agenda.
fn put_last<W: Writer>(out: &mut W, parts: &Parts) -> Result<(), NoMemory>
    ensures put { OnOk result (W.taken out.new ≡ W.taken out.old
        ++ joined (last_fields parts.now)) }
{
    put_list(out, &parts.random)?;
    put_list(out, &parts.objects)?;
    put_list(out, &parts.agenda)
}

fn put_fields<W: Writer>(out: &mut W, parts: &Parts) -> Result<(), NoMemory>
    ensures put { OnOk result (W.taken out.new ≡ W.taken out.old
        ++ joined (parts_fields parts.now)) }
{
    put_first(out, parts)?;
    put_last(out, parts)
}

/// How many bytes a state's parts have.
#[tactic(auto, unfolding(crate::specs::Fields::parts_bytes))]
fn parts_size(parts: &Parts) -> Result<u64, NoMemory>
    ensures size { IfOk result (λ size. size ≡ length (parts_bytes parts.now)) }
{
    let mut tally = Tally::new();
    put_fields(&mut tally, parts)?;
    Ok(tally.size())
}

/// The bytes of a state's parts, which are so many, in a list with room for these.
#[tactic(auto, unfolding(crate::specs::Fields::parts_bytes))]
fn written_parts(alloc: Global, parts: &Parts, size: u64) -> Result<Vec<u8>, NoMemory>
    ensures bytes { IfOk result (λ v. v.items ≡ parts_bytes parts.now) }
{
    let mut out = roomy(alloc, size)?;
    put_fields(&mut out, parts)?;
    Ok(out.into_vec())
}

/// The bytes of a state's parts, where these aren't more than a file may have: that is decided
/// before any is made.
pub fn put_parts(alloc: Global, parts: &Parts) -> Result<Vec<u8>, SaveFault>
    ensures exact { MatchResult result
        (λ v. (v.items ≡ parts_bytes parts.now) × (length v.items ≤ file_limit))
        (λ e. IsTooLarge (parts_bytes parts.now) e) }
{
    let size = parts_size(parts)?;
    if size > FILE_BYTES as u64 {
        return Err(SaveFault::Large(size));
    }
    let bytes = written_parts(alloc, parts, size)?;
    Ok(bytes)
}
