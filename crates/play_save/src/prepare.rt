//! What a state's bytes are of: its header's table, its checked scripts, and its area.
ghost use Rattle.std.specs.Prelude.{◌≡◌, ◌≢◌, ◌≤◌, ◌<◌, List, length, IfOk, IfErr, Some};
ghost use Rattle.nwq_value.specs.Limits.{file_limit};
ghost use Rattle.nwq_value.specs.Engine.{EngineTable};
ghost use Rattle.engine_table.specs.declared.fault.HeaderFault.TheVariants as header;
ghost use Rattle.ncs_code.specs.Plain.{PlainOp};
ghost use Rattle.gff_tree.specs.Whole.{PlainGff, plain_gff};
ghost use Rattle.gff_tree.specs.Count.{node_count};
ghost use Rattle.gff_read.specs.Stands.{Stands};
ghost use Rattle.area_rules.specs.Area.{PlainArea};
ghost use Rattle.play_save.specs.Rules.{IsAreaOf, IsFileOf, IsHeaderOf, IsSound};
ghost use Rattle.play_save.specs.Breaking.{AreScriptsOf, Breaks, IsCheckedOf, IsReadFrom};
ghost use Rattle.play_save.specs.Breaking.{AreSound, BreaksFirst, IsPreparedFor, IsScriptOf};
ghost use Rattle.play_save.specs.Breaking.{KeepsScripts};
ghost use Rattle.play_save.specs.declared.fault.StateFault.TheVariants as refused;

use crate::fault::StateFault;
use area_rules::AreaFault;
use area_tree::Area;
use engine_table::laws::one_header;
use engine_table::{HeaderFault, built_in, read_header};
use gff_bytes::View;
use gff_read::{TreeFault, one_tree, read};
use gff_tree::Gff;
use ncs_code::{size_laws, spelling_laws};
use ncs_file::{Code, LoadFault, load, one_fault};
use ncs_machine::{Loaded, Scripts};
use nwq_value::{FILE_BYTES, Items, Table, Text};
use stack_check::{CheckFault, Checked, check};
use state_format::{Parts, Script};
use std::alloc::Global;

/// How many scripts a play may have.
const SCRIPTS: usize = 256;

/// Why a header is refused as a state's.
fn header_fault(fault: HeaderFault) -> StateFault
    ensures memory { fault ≡ header.NoMemory → result ≡ refused.NoMemory }
    ensures other { fault ≢ header.NoMemory → result ≡ refused.Unfit 1 }
{
    match fault {
        HeaderFault::NoMemory => StateFault::NoMemory,
        _ => StateFault::Unfit(1),
    }
}

/// The table of a header's text.
#[tactic(auto, using(crate::proofs::Headers::refuses_header))]
fn read_table(alloc: Global, text: &[u8]) -> Result<Table, StateFault>
    ensures table { IfOk result (λ table. IsHeaderOf (Some text.now) table) }
    ensures broken { IfErr result
        (Breaks 1 ((table : EngineTable) × IsHeaderOf (Some text.now) table)) }
{
    one_header();
    if text.len() > FILE_BYTES {
        return Err(StateFault::Unfit(1));
    }
    match read_header(alloc, text) {
        Ok(table) => Ok(table),
        Err(fault) => Err(header_fault(fault)),
    }
}

/// The table of a state's header.
fn table(alloc: Global, header: &Option<Items<u8>>) -> Result<Table, StateFault>
    ensures table { IfOk result (λ table. IsHeaderOf header.now table) }
    ensures broken { IfErr result
        (Breaks 1 ((table : EngineTable) × IsHeaderOf header.now table)) }
{
    match header {
        None => Ok(built_in(alloc)?),
        Some(text) => read_table(alloc, text.as_slice()),
    }
}

/// The code of a file.
fn load_code(alloc: Global, bytes: &Items<u8>) -> Result<Code, StateFault>
    ensures code { IfOk result (λ code. IsFileOf code bytes.now) }
    ensures broken { IfErr result (Breaks 2 ((ops : List PlainOp) × IsFileOf ops bytes.now)) }
{
    one_fault();
    size_laws();
    if bytes.len() > FILE_BYTES {
        return Err(StateFault::Unfit(2));
    }
    let bytes = Items::of_slice(alloc, bytes.as_slice())?;
    match load(alloc, bytes.into_vec()) {
        Ok(code) => Ok(code),
        Err(LoadFault::NoMemory) => Err(StateFault::NoMemory),
        Err(_) => Err(StateFault::Unfit(2)),
    }
}

/// The code of a script, checked under a header.
fn check_code(alloc: Global, table: &Table, bytes: &Items<u8>) -> Result<Checked, StateFault>
    ensures checked { IfOk result (IsCheckedOf table.now bytes.now) }
    ensures broken { IfErr result (Breaks 2 (IsSound table.now bytes.now)) }
{
    spelling_laws();
    match load_code(alloc, bytes) {
        Err(fault) => Err(fault),
        Ok(code) => match check(alloc, code, table) {
            Ok(checked) => Ok(checked),
            Err(CheckFault::NoMemory) => Err(StateFault::NoMemory),
            Err(CheckFault::Unstacked) => Err(StateFault::Unfit(2)),
        },
    }
}

/// A script of a state, checked under a header.
fn script(alloc: Global, table: &Table, part: &Script) -> Result<Loaded, StateFault>
    ensures script { IfOk result (IsScriptOf table.now part.now) }
    ensures broken { IfErr result (Breaks 2 (IsSound table.now part.now.code)) }
{
    let name = Text::of(alloc, part.name.as_slice())?;
    match check_code(alloc, table, &part.code) {
        Ok(code) => Ok(Loaded::of(alloc, name, code)?),
        Err(fault) => {
            drop(name);
            Err(fault)
        }
    }
}

/// Whether a script of a state is well stacked under a header.
fn test_script(alloc: Global, table: &Table, part: &Script) -> Result<(), StateFault>
    ensures sound { IfOk result (λ _. IsSound table.now part.now.code) }
    ensures broken { IfErr result (Breaks 2 (IsSound table.now part.now.code)) }
{
    match check_code(alloc, table, &part.code) {
        Ok(code) => {
            drop(code);
            Ok(())
        }
        Err(fault) => Err(fault),
    }
}

/// Whether scripts of a state are well stacked under a header. None of them is kept.
fn test_scripts(alloc: Global, table: &Table, parts: &[Script]) -> Result<(), StateFault>
    ensures sound { IfOk result (λ _. AreSound table.now parts.now) }
    ensures broken { IfErr result (Breaks 2 (AreSound table.now parts.now)) }
{
    for part in parts {
        match test_script(alloc, table, part) {
            Err(fault) => return Err(fault),
            Ok(()) => {}
        }
    }
    Ok(())
}

/// The scripts of a state, checked under a header.
fn kept_scripts(alloc: Global, table: &Table, parts: &[Script]) -> Result<Scripts, StateFault>
    ensures scripts { IfOk result (AreScriptsOf table.now parts.now) }
    ensures broken { IfErr result (Breaks 2 (AreSound table.now parts.now)) }
{
    let mut all = Items::new(alloc);
    for part in parts {
        match script(alloc, table, part) {
            Err(fault) => return Err(fault),
            Ok(loaded) => all.push(loaded)?,
        }
    }
    Ok(all)
}

/// The scripts of a state, checked under a header. No more are kept than a play may have: a state
/// of more breaks a later rule.
fn scripts(alloc: Global, table: &Table, parts: &[Script]) -> Result<Scripts, StateFault>
    ensures scripts { IfOk result (KeepsScripts table.now parts.now) }
    ensures broken { IfErr result (Breaks 2 (AreSound table.now parts.now)) }
{
    let (first, others) = parts.split_at(parts.len().min(SCRIPTS));
    match kept_scripts(alloc, table, first) {
        Err(fault) => Err(fault),
        Ok(kept) => match test_scripts(alloc, table, others) {
            Err(fault) => {
                drop(kept);
                Err(fault)
            }
            Ok(()) => Ok(kept),
        },
    }
}

/// The tree of an area's file.
fn tree(alloc: Global, bytes: &[u8]) -> Result<Gff, StateFault>
    ensures tree { IfOk result (λ gff. Stands bytes.now (plain_gff gff)) }
    ensures small { IfOk result (λ gff. length bytes.now ≤ file_limit) }
    ensures few { IfOk result (λ gff. node_count (plain_gff gff).top < 4294967296) }
    ensures broken { IfErr result (Breaks 3 ((tree : PlainGff) × IsAreaOf tree bytes.now)) }
{
    if bytes.len() > FILE_BYTES {
        return Err(StateFault::Unfit(3));
    }
    match View::open(bytes) {
        Err(_) => Err(StateFault::Unfit(3)),
        Ok(view) => match read(alloc, &view) {
            Ok(gff) => Ok(gff),
            Err(TreeFault::NoMemory) => Err(StateFault::NoMemory),
            Err(_) => Err(StateFault::Unfit(3)),
        },
    }
}

/// The area of a file's tree, which has so many objects.
fn area_of_tree(alloc: Global, bytes: &[u8], tree: Gff, objects: usize) -> Result<Area, StateFault>
    requires tree { Stands bytes.now (plain_gff tree) }
    requires small { length bytes.now ≤ file_limit }
    requires few { node_count (plain_gff tree).top < 4294967296 }
    ensures area { IfOk result (IsReadFrom bytes.now objects) }
    ensures broken { IfErr result
        (Breaks 3 ((area : PlainArea) × IsReadFrom bytes.now objects area)) }
{
    one_tree();
    match Area::of(alloc, tree) {
        Err(AreaFault::NoMemory) => Err(StateFault::NoMemory),
        Err(AreaFault::Shape { .. }) => Err(StateFault::Unfit(3)),
        Ok(area) => {
            if area.count() as usize == objects {
                Ok(area)
            } else {
                drop(area);
                Err(StateFault::Unfit(3))
            }
        }
    }
}

/// The area of a file, which has so many objects.
fn area(alloc: Global, bytes: &[u8], objects: usize) -> Result<Area, StateFault>
    ensures area { IfOk result (IsReadFrom bytes.now objects) }
    ensures broken { IfErr result
        (Breaks 3 ((area : PlainArea) × IsReadFrom bytes.now objects area)) }
{
    match tree(alloc, bytes) {
        Err(fault) => Err(fault),
        Ok(tree) => area_of_tree(alloc, bytes, tree, objects),
    }
}

/// What a state's bytes are of.
#[derive(Drop)]
pub(crate) struct Prepared {
    pub table: Table,
    pub scripts: Scripts,
    pub area: Area,
}

/// The scripts and the area of a state, or the first of these that isn't there.
#[tactic(auto, using(crate::proofs::Testing::breaks_scripts, crate::proofs::Testing::breaks_area))]
fn prepare_under(alloc: Global, parts: &Parts, table: Table) -> Result<Prepared, StateFault>
    requires header { IsHeaderOf parts.now.header table }
    ensures prepared { IfOk result (IsPreparedFor parts.now) }
    ensures broken { IfErr result (BreaksFirst parts.now) }
{
    one_header();
    let scripts = match scripts(alloc, &table, parts.scripts.as_slice()) {
        Err(fault) => {
            drop(table);
            return Err(fault);
        }
        Ok(scripts) => scripts,
    };
    match area(alloc, parts.area.as_slice(), parts.objects.len()) {
        Err(fault) => {
            drop(table);
            drop(scripts);
            Err(fault)
        }
        Ok(area) => Ok(Prepared {
            table,
            scripts,
            area,
        }),
    }
}

/// The header's table, the scripts and the area of a state, or the first of these that isn't there.
#[tactic(auto, using(crate::proofs::Testing::breaks_header))]
pub(crate) fn prepare(alloc: Global, parts: &Parts) -> Result<Prepared, StateFault>
    ensures prepared { IfOk result (IsPreparedFor parts.now) }
    ensures broken { IfErr result (BreaksFirst parts.now) }
{
    match table(alloc, &parts.header) {
        Err(fault) => Err(fault),
        Ok(table) => prepare_under(alloc, parts, table),
    }
}
