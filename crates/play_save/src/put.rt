//! A play's state, put right from what the play would go on with.
ghost use Rattle.std.specs.Prelude.{◌≡◌, ◌++◌, length, map, OnOk};
ghost use Rattle.std.specs.List.{flat_map, AllByRecursion};
ghost use Rattle.std.specs.Option.{option_map};
ghost use Rattle.ncs_code.specs.File.{IsCode};
ghost use Rattle.state_format.specs.Fields.{blob_fields, joined, list_of};
ghost use Rattle.state_format.specs.Fields.{maybe_fields, number_fields, object_fields};
ghost use Rattle.state_format.specs.Fields.{parts_fields, script_fields};
ghost use Rattle.state_format.specs.Parts.{IsBlob, IsList, IsMaybe, IsNumber, IsScript};
ghost use Rattle.state_parts.specs.Told.{object_parts};
ghost use Rattle.state_parts.specs.Keeping.{KindHasValues};
ghost use Rattle.play_save.specs.Scripts.{script_part, script_parts};
ghost use Rattle.play_save.specs.Keeping.{AreObjectsOf, QueuesHaveValues};
ghost use Rattle.play_save.specs.Telling.{back_fields, front_fields, number_row, resting_parts};
ghost use Rattle.play_save.specs.Telling.{FitNumbers, IsBackTold, IsFrontTold, IsTold};

use crate::told::{Numbers, Resting};
use area_tree::Area;
use delay_agenda::Entry;
use ncs_file::store;
use ncs_machine::Loaded;
use nwq_value::NoMemory;
use saved_state::Saved;
use state_format::{Writer, put_count, put_magic, put_small, put_tag, put_wide, put_word};
use state_parts::{MOST, fits_long, fits_octet, fits_word, put_bytes, put_entries, put_object};
use world_rules::Things;

/// Puts the header's bytes, where there are any.
fn put_header<W: Writer>(out: &mut W, header: &Option<Vec<u8>>) -> Result<(), NoMemory>
    ensures put { OnOk result (W.taken out.new ≡ W.taken out.old
        ++ joined (maybe_fields blob_fields (option_map (λ text. text.items) header.now))) }
    ensures form { OnOk result (IsMaybe IsBlob (option_map (λ text. text.items) header.now)) }
{
    match header {
        None => put_tag(out, 0),
        Some(text) => {
            put_tag(out, 1)?;
            put_bytes(out, text.as_slice())
        }
    }
}

fn put_script<W: Writer>(out: &mut W, loaded: &Loaded) -> Result<(), NoMemory>
    ensures put { OnOk result
        (W.taken out.new ≡ W.taken out.old ++ joined (script_fields (script_part loaded.now))) }
    ensures form { OnOk result (IsScript (script_part loaded.now)) }
    ensures code { IsCode loaded.now.code.code }
{
    loaded.code.checked().code().sound();
    put_bytes(out, loaded.name.bytes())?;
    put_bytes(out, store(loaded.code.checked().code()))
}

/// Puts scripts in a row.
fn put_loaded<W: Writer>(out: &mut W, scripts: &[Loaded]) -> Result<(), NoMemory>
    ensures put { OnOk result (W.taken out.new
        ≡ W.taken out.old ++ joined (flat_map script_fields (script_parts scripts.now))) }
    ensures form { OnOk result (AllByRecursion IsScript (script_parts scripts.now)) }
    ensures code { OnOk result (AllByRecursion (λ l. IsCode l.code.code) scripts.now) }
{
    for loaded in scripts {
        put_script(out, loaded)?;
    }
    Ok(())
}

/// Puts the names and the files of scripts, in their order, whose code can be written.
fn put_scripts<W: Writer>(out: &mut W, scripts: &[Loaded]) -> Result<(), NoMemory>
    ensures put { OnOk result (W.taken out.new
        ≡ W.taken out.old ++ joined (list_of script_fields (script_parts scripts.now))) }
    ensures form { OnOk result (IsList IsScript (script_parts scripts.now)) }
    ensures code { OnOk result (AllByRecursion (λ l. IsCode l.code.code) scripts.now) }
{
    if scripts.len() > MOST {
        return Err(NoMemory);
    }
    put_count(out, scripts.len())?;
    put_loaded(out, scripts)
}

/// Each has a field that holds it.
fn fit_numbers(numbers: Numbers)
    ensures form { FitNumbers numbers }
{
    fits_octet(numbers.version);
    fits_long(numbers.limit);
    fits_long(numbers.entries);
    fits_long(numbers.until);
    fits_long(numbers.clock);
    fits_long(numbers.taken);
    fits_long(numbers.done);
    fits_long(numbers.next);
}

fn put_numbers<W: Writer>(out: &mut W, numbers: Numbers) -> Result<(), NoMemory>
    ensures put { OnOk result
        (W.taken out.new ≡ W.taken out.old ++ joined (number_row numbers)) }
{
    put_small(out, numbers.version)?;
    put_wide(out, numbers.limit)?;
    put_wide(out, numbers.entries)?;
    put_wide(out, numbers.until)?;
    put_wide(out, numbers.clock)?;
    put_wide(out, numbers.taken)?;
    put_wide(out, numbers.done)?;
    put_wide(out, numbers.next)
}

/// Puts what stands in front of the random numbers.
fn put_front<W: Writer>(
    out: &mut W,
    header: &Option<Vec<u8>>,
    scripts: &[Loaded],
    file: &[u8],
    numbers: Numbers,
) -> Result<(), NoMemory>
    ensures put { OnOk result (W.taken out.new ≡ W.taken out.old
        ++ joined (front_fields (option_map (λ text. text.items) header.now)
        (script_parts scripts.now) file.now numbers)) }
    ensures told { OnOk result (IsFrontTold (option_map (λ text. text.items) header.now)
        scripts.now file.now numbers) }
{
    fit_numbers(numbers);
    put_magic(out)?;
    put_header(out, header)?;
    put_scripts(out, scripts)?;
    put_bytes(out, file)?;
    put_numbers(out, numbers)
}

fn put_random<W: Writer>(out: &mut W, n: &u32) -> Result<(), NoMemory>
    ensures put { OnOk result
        (W.taken out.new ≡ W.taken out.old ++ joined (number_fields 4 n.now)) }
    ensures form { OnOk result (IsNumber 4 n.now) }
{
    fits_word(*n);
    put_word(out, *n)
}

/// Puts numbers in a row.
fn put_words<W: Writer>(out: &mut W, words: &[u32]) -> Result<(), NoMemory>
    ensures put { OnOk result (W.taken out.new
        ≡ W.taken out.old ++ joined (flat_map (number_fields 4) words.now)) }
    ensures form { OnOk result (AllByRecursion (IsNumber 4) words.now) }
{
    for n in words {
        put_random(out, n)?;
    }
    Ok(())
}

/// Puts the random numbers that are left.
fn put_randoms<W: Writer>(out: &mut W, random: &[u32]) -> Result<(), NoMemory>
    ensures put { OnOk result (W.taken out.new
        ≡ W.taken out.old ++ joined (list_of (number_fields 4) random.now)) }
    ensures form { OnOk result (IsList (IsNumber 4) random.now) }
{
    if random.len() > MOST {
        return Err(NoMemory);
    }
    put_count(out, random.len())?;
    put_words(out, random)
}

/// Puts the objects of a world in a row, with their variables in its area.
fn put_beside<W: Writer>(out: &mut W, area: &Area, things: &[Things<Saved>]) -> Result<(), NoMemory>
    requires counted { length things.now ≡ length area.now.objects }
    requires values { QueuesHaveValues things.now }
    ensures put { OnOk result (W.taken out.new ≡ W.taken out.old
        ++ joined (flat_map object_fields (object_parts area.now.objects things.now))) }
    ensures objects { OnOk result (AreObjectsOf area.now.objects things.now
        (object_parts area.now.objects things.now)) }
{
    area.keeps();
    for i in 0..things.len() {
        put_object(out, area.vars(i as u32 + 1), &things[i])?;
    }
    Ok(())
}

/// Puts the objects of a world behind their count.
fn put_objects<W: Writer>(
    out: &mut W,
    area: &Area,
    things: &[Things<Saved>],
) -> Result<(), NoMemory>
    requires counted { length things.now ≡ length area.now.objects }
    requires values { QueuesHaveValues things.now }
    ensures put { OnOk result (W.taken out.new ≡ W.taken out.old
        ++ joined (list_of object_fields (object_parts area.now.objects things.now))) }
    ensures objects { OnOk result (AreObjectsOf area.now.objects things.now
        (object_parts area.now.objects things.now)) }
    ensures few { OnOk result
        (IsNumber 4 (length (object_parts area.now.objects things.now))) }
{
    area.keeps();
    put_count(out, things.len())?;
    put_beside(out, area, things)
}

/// Puts the random numbers, the objects and the agenda.
fn put_back<W: Writer>(
    out: &mut W,
    random: &[u32],
    area: &Area,
    things: &[Things<Saved>],
    entries: &[Entry<Saved>],
) -> Result<(), NoMemory>
    requires counted { length things.now ≡ length area.now.objects }
    requires queues { QueuesHaveValues things.now }
    requires entries { AllByRecursion (λ e. KindHasValues e.kind) entries.now }
    ensures put { OnOk result (W.taken out.new ≡ W.taken out.old
        ++ joined (back_fields random.now area.now.objects things.now entries.now)) }
    ensures told { OnOk result
        (IsBackTold random.now area.now.objects things.now entries.now) }
{
    put_randoms(out, random)?;
    put_objects(out, area, things)?;
    put_entries(out, entries)
}

/// Puts a play's state.
pub(crate) fn put_resting<W: Writer>(out: &mut W, play: &Resting<'_>) -> Result<(), NoMemory>
    requires counted { length play.now.things.now ≡ length play.now.area.now.objects }
    requires queues { QueuesHaveValues play.now.things.now }
    requires entries { AllByRecursion (λ e. KindHasValues e.kind) play.now.entries.now }
    ensures put { OnOk result (W.taken out.new
        ≡ W.taken out.old ++ joined (parts_fields (resting_parts play.now))) }
    ensures told { OnOk result (IsTold play.now) }
{
    put_front(out, play.header, play.scripts, play.file, play.numbers)?;
    put_back(out, play.random, play.area, play.things, play.entries)
}
