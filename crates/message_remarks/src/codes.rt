//! The scripts that notes speak of.

ghost use Rattle.std.specs.Prelude.{◌≡◌};

use nwq_outside::{Files, Read};
use nwq_value::{Items, NoMemory, Table, Text};
use play_remarks::{Remark, Spot};
use run_places::{Compiled, compile};
use std::alloc::Global;

/// A play, for the notes on it.
#[derive(Clone, Copy)]
pub struct Play<'a> {
    /// The word that names its plan, its state or its script.
    pub name: &'a [u8],
    /// The table of its header, where its scripts' files are there.
    pub table: Option<&'a Table>,
    /// The names of its scripts, by number.
    pub names: &'a [Text],
    /// The names of those that are binaries.
    pub binaries: &'a [Text],
    /// Where entries ended before their end: the first 16, and one more where there are more.
    pub remarks: &'a [Remark],
}

/// What a script's code was made of.
#[derive(Drop)]
pub(crate) enum Code {
    /// Its files aren't there, or no note speaks of it.
    Unknown,
    Source(Compiled),
    /// The bytes of its file.
    Binary(Items<u8>),
}

fn is_in(spot: Spot, script: usize) -> bool {
    spot.script as usize == script
}

fn stand_in(spots: &[Spot], script: usize) -> bool {
    spots.iter().any(|spot| is_in(*spot, script))
}

fn speaks_of(remark: &Remark, script: usize) -> bool {
    is_in(remark.at, script)
        || is_in(remark.begun, script)
        || stand_in(remark.returns.as_slice(), script)
}

fn are_about(remarks: &[Remark], script: usize) -> bool {
    remarks.iter().any(|remark| speaks_of(remark, script))
}

fn is_among(names: &[Text], name: &[u8]) -> bool {
    names.iter().any(|other| other.bytes() == name)
}

/// The file of a binary.
fn binary_of<F: Files>(alloc: Global, name: &[u8], files: &mut F) -> Result<Code, NoMemory>
    ensures same { F.contents files.new ≡ F.contents files.old }
{
    let mut file = Vec::from_slice(alloc, name)?;
    file.extend_from_slice(b".ncs")?;
    let file = String::from_utf8_lossy(alloc, file.as_slice())?;
    match files.read(alloc, file.as_str()) {
        Read::Bytes(bytes) => Ok(Code::Binary(Items::of_vec(bytes))),
        _ => Ok(Code::Unknown),
    }
}

/// The unit of a script that was compiled.
fn source_of<F: Files>(
    alloc: Global,
    table: &Table,
    name: &[u8],
    files: &mut F,
) -> Result<Code, NoMemory>
    ensures same { F.contents files.new ≡ F.contents files.old }
{
    let name = String::from_utf8_lossy(alloc, name)?;
    match compile(alloc, table, name.as_str(), files)? {
        Some(script) => Ok(Code::Source(script)),
        None => Ok(Code::Unknown),
    }
}

/// The code of the script of this name and number, if a note speaks of it.
fn code_of<F: Files>(
    alloc: Global,
    play: Play<'_>,
    script: usize,
    name: &[u8],
    files: &mut F,
) -> Result<Code, NoMemory>
    ensures same { F.contents files.new ≡ F.contents files.old }
{
    let Some(table) = play.table else {
        return Ok(Code::Unknown);
    };
    if !are_about(play.remarks, script) {
        Ok(Code::Unknown)
    } else if is_among(play.binaries, name) {
        binary_of(alloc, name, files)
    } else {
        source_of(alloc, table, name, files)
    }
}

/// The code of a play's scripts, by number.
pub(crate) fn codes_of<F: Files>(
    alloc: Global,
    play: Play<'_>,
    files: &mut F,
) -> Result<Vec<Code>, NoMemory>
    ensures same { F.contents files.new ≡ F.contents files.old }
{
    let mut codes = Vec::new(alloc);
    for (i, name) in play.names.iter().enumerate() {
        codes.push(code_of(alloc, play, i, name.bytes(), files)?)?;
    }
    Ok(codes)
}
