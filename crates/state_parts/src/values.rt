//! Values, put as the fields of their parts.
ghost use Rattle.std.specs.Prelude.{◌≡◌, ◌++◌, length, map, OnOk};
ghost use Rattle.std.specs.List.{flat_map, AllByRecursion};
ghost use Rattle.saved_state.specs.declared.cell.Cell.TheVariants.{Value as Holds};
ghost use Rattle.state_format.specs.Fields.{blob, captured_fields, cell_fields, effect_fields};
ghost use Rattle.state_format.specs.Fields.{joined, list_of, signed_fields};
ghost use Rattle.state_format.specs.Parts.{IsBlob, IsCaptured, IsCell, IsEffect, IsList, IsNumber};
ghost use Rattle.state_format.specs.Parts.{IsSigned};
ghost use Rattle.state_parts.specs.World.{cell_of, effect_of, saved_of};
ghost use Rattle.state_parts.specs.Told.{cell_part, effect_part, saved_part};
ghost use Rattle.state_parts.specs.ShortTexts.{has_short_cells, is_short, is_short_cell};
ghost use Rattle.state_parts.specs.Keeping.{any_text, HasCells, HoldsValue, IsPartOf, ArePartsOf};

use nwq_value::{Effect, NoMemory, Text, Value};
use saved_state::{Cell, Cells, Saved};
use state_format::{Writer, put_blob, put_count, put_short, put_signed, put_tag, put_word};

/// How many members a list of a state has at most, and how many bytes a blob.
pub const MOST: usize = 4_294_967_295;

/// A field of 4 bytes with a sign holds the number.
pub(crate) fn fits_int(n: i32)
    ensures form { IsSigned n }
{}

/// A field of one byte holds the number.
pub fn fits_octet(n: u8)
    ensures form { IsNumber 1 n }
{}

/// A field of 2 bytes holds the number.
pub(crate) fn fits_half(n: u16)
    ensures form { IsNumber 2 n }
{}

/// A field of 4 bytes holds the number.
pub fn fits_word(n: u32)
    ensures form { IsNumber 4 n }
{}

/// A field of 8 bytes holds the number.
pub fn fits_long(n: u64)
    ensures form { IsNumber 8 n }
{}

/// Puts bytes behind their count. `NoMemory` comes also for more than [`MOST`].
pub fn put_bytes<W: Writer>(out: &mut W, bytes: &[u8]) -> Result<(), NoMemory>
    ensures put { OnOk result (W.taken out.new ≡ W.taken out.old ++ blob bytes.now) }
    ensures form { OnOk result (IsBlob bytes.now) }
{
    if bytes.len() > MOST {
        return Err(NoMemory);
    }
    put_blob(out, bytes)
}

/// Puts the bytes of a string, which is short.
pub(crate) fn put_text<W: Writer>(out: &mut W, text: &Text) -> Result<(), NoMemory>
    ensures put { OnOk result (W.taken out.new ≡ W.taken out.old ++ blob text.now) }
    ensures part { OnOk result (IsPartOf (λ bytes. bytes) IsBlob is_short text.now text.now) }
{
    put_bytes(out, text.bytes())
}

/// Puts a number of a list.
fn put_listed<W: Writer>(out: &mut W, n: &i32) -> Result<(), NoMemory>
    ensures put { OnOk result
        (W.taken out.new ≡ W.taken out.old ++ joined (signed_fields n.now)) }
    ensures form { OnOk result (IsSigned n.now) }
{
    fits_int(*n);
    put_signed(out, *n)
}

/// Puts numbers in a row.
fn put_numbers<W: Writer>(out: &mut W, ints: &[i32]) -> Result<(), NoMemory>
    ensures put { OnOk result (W.taken out.new
        ≡ W.taken out.old ++ joined (flat_map signed_fields ints.now)) }
    ensures form { OnOk result (AllByRecursion IsSigned ints.now) }
{
    for n in ints {
        put_listed(out, n)?;
    }
    Ok(())
}

fn put_ints<W: Writer>(out: &mut W, ints: &[i32]) -> Result<(), NoMemory>
    ensures put { OnOk result
        (W.taken out.new ≡ W.taken out.old ++ joined (list_of signed_fields ints.now)) }
    ensures form { OnOk result (IsList IsSigned ints.now) }
{
    if ints.len() > MOST {
        return Err(NoMemory);
    }
    put_count(out, ints.len())?;
    put_numbers(out, ints)
}

/// Puts an effect. `NoMemory` comes also for more than [`MOST`] numbers.
pub(crate) fn put_effect<W: Writer>(out: &mut W, effect: &Effect) -> Result<(), NoMemory>
    ensures put { OnOk result
        (W.taken out.new ≡ W.taken out.old ++ joined (effect_fields (effect_part effect.now))) }
    ensures part { OnOk result
        (IsPartOf effect_of IsEffect any_text effect.now (effect_part effect.now)) }
{
    fits_half(effect.routine());
    put_short(out, effect.routine())?;
    put_ints(out, effect.ints())
}

fn put_value<W: Writer>(out: &mut W, value: &Value) -> Result<(), NoMemory>
    ensures put { OnOk result (W.taken out.new
        ≡ W.taken out.old ++ joined (cell_fields (cell_part (Holds value.now)))) }
    ensures part { OnOk result
        (IsPartOf cell_of IsCell is_short_cell (Holds value.now) (cell_part (Holds value.now))) }
{
    match value {
        Value::Int(n) => {
            fits_int(*n);
            put_tag(out, 0x03)?;
            put_signed(out, *n)
        }
        Value::Text(held) => {
            put_tag(out, 0x05)?;
            put_text(out, held)
        }
        Value::Object(o) => {
            fits_word(*o);
            put_tag(out, 0x06)?;
            put_word(out, *o)
        }
        Value::Effect(held) => {
            put_tag(out, 0x10)?;
            put_effect(out, held)
        }
        Value::Event(n) => {
            fits_int(*n);
            put_tag(out, 0x11)?;
            put_signed(out, *n)
        }
    }
}

/// Puts a cell, which is no base.
fn put_cell<W: Writer>(out: &mut W, cell: &Cell) -> Result<(), NoMemory>
    requires holds { HoldsValue cell.now }
    ensures put { OnOk result
        (W.taken out.new ≡ W.taken out.old ++ joined (cell_fields (cell_part cell.now))) }
    ensures part { OnOk result
        (IsPartOf cell_of IsCell is_short_cell cell.now (cell_part cell.now)) }
{
    match cell {
        Cell::Value(held) => put_value(out, held),
        Cell::Base(_) => unreachable!(),
    }
}

/// Puts cells in a row.
fn put_row<W: Writer>(out: &mut W, cells: &Cells) -> Result<(), NoMemory>
    requires hold { AllByRecursion HoldsValue cells.now }
    ensures put { OnOk result (W.taken out.new
        ≡ W.taken out.old ++ joined (flat_map cell_fields (map cell_part cells.now))) }
    ensures parts { OnOk result
        (ArePartsOf cell_of IsCell is_short_cell cells.now (map cell_part cells.now)) }
{
    for i in 0..cells.len() {
        match cells.get(i) {
            None => unreachable!(),
            Some(held) => put_cell(out, held)?,
        }
    }
    Ok(())
}

fn put_cells<W: Writer>(out: &mut W, cells: &Cells) -> Result<(), NoMemory>
    requires hold { AllByRecursion HoldsValue cells.now }
    ensures put { OnOk result (W.taken out.new
        ≡ W.taken out.old ++ joined (list_of cell_fields (map cell_part cells.now))) }
    ensures parts { OnOk result
        (ArePartsOf cell_of IsCell is_short_cell cells.now (map cell_part cells.now)) }
    ensures few { OnOk result (IsNumber 4 (length (map cell_part cells.now))) }
{
    if cells.len() > MOST {
        return Err(NoMemory);
    }
    put_count(out, cells.len())?;
    put_row(out, cells)
}

/// Puts a captured state without base cells. `NoMemory` comes also for more than [`MOST`] cells of
/// either kind.
pub(crate) fn put_saved<W: Writer>(out: &mut W, saved: &Saved) -> Result<(), NoMemory>
    requires values { HasCells saved.now }
    ensures put { OnOk result
        (W.taken out.new ≡ W.taken out.old ++ joined (captured_fields (saved_part saved.now))) }
    ensures part { OnOk result
        (IsPartOf saved_of IsCaptured has_short_cells saved.now (saved_part saved.now)) }
{
    fits_word(saved.script);
    fits_word(saved.place);
    put_word(out, saved.script)?;
    put_word(out, saved.place)?;
    put_cells(out, &saved.globals)?;
    put_cells(out, &saved.locals)
}
