ghost use Rattle.std.specs.Prelude.{◌≡◌, ℕ, true, [], ◌∷◌, ◌++◌, IsTrue, IfOk, IfErr, OnOk};
ghost use Rattle.std.specs.List.{list_any};
ghost use Rattle.table_2da.specs.Look.{same_name};
ghost use Rattle.command_work.specs.Counts.{StopsArea};
ghost use Rattle.command_work.specs.Calls.{DoesOn, TalliesOn};
ghost use Rattle.command_tables.specs.Lists.{may_follow, AreNames, HasNames, IsFaulty};
ghost use Rattle.command_tables.specs.Lists.{names_listed};
ghost use Rattle.command_tables.specs.Reads.{ListsNames};
ghost use Rattle.nwq_outside.specs.Outside.{next};

use command_work::{AreaFlaw, Status, read_file, refuse_area};
use nwq_outside::{Files, Sink};
use nwq_text::{Lines, is_script_name};
use nwq_value::{Items, NoMemory, Text};
use std::alloc::Global;
use table_2da::table::same_name;

/// How many tables a list names at most.
const MOST_TABLES: usize = 64;

/// The names of tables, in order.
pub(crate) type Names = Items<Text>;

/// Why a text lists no names.
#[derive(Clone, Copy)]
pub(crate) enum ListFault {
    /// The first line that is no further name, counted from 1.
    Line(u64),
    NoMemory,
}

/// Whether this name is among them.
fn is_among(names: &[Text], name: &[u8]) -> bool
    ensures among { result ≡ list_any (λ other. same_name other name.now) names.now }
{
    names.iter().any(|other| same_name(other.bytes(), name))
}

/// Whether a line is a name that may follow these.
#[tactic(auto, unfolding(crate::specs::Lists::may_follow))]
fn may_follow(names: &[Text], line: &[u8]) -> bool
    ensures follows { result ≡ may_follow names.now line.now }
{
    is_script_name(line) && !is_among(names, line) && names.len() < MOST_TABLES
}

/// Puts a name last.
#[tactic(auto, using(crate::proofs::ListLemmas::text_whole))]
fn put_name(alloc: Global, names: &mut Names, name: &[u8]) -> Result<(), NoMemory>
    requires follows { may_follow names.old name.now ≡ true }
    ensures ok { OnOk result (names.new ≡ names.old ++ name.now ∷ []) }
{
    names.push(Text::of(alloc, name)?)
}

/// The names that a text lists, or its first line that is no further name.
fn names_of_text(alloc: Global, bytes: &[u8]) -> Result<Names, ListFault>
    ensures names { IfOk result (λ names. HasNames bytes.now names) }
    ensures fault { IfErr result (IsFaulty bytes.now) }
{
    let mut names = Names::new(alloc);
    let mut lines = Lines::of(bytes);
    while let Some(line) = lines.next_line() {
        if !may_follow(names.as_slice(), line.bytes) {
            drop(names);
            return Err(ListFault::Line(line.number));
        }
        match put_name(alloc, &mut names, line.bytes) {
            Err(NoMemory) => {
                drop(names);
                return Err(ListFault::NoMemory);
            }
            Ok(()) => {}
        }
    }
    Ok(names)
}

/// The names that the file of this name lists.
#[tactic(auto, using(crate::proofs::Steps::steps, crate::proofs::ListLemmas::lists), unfolding(crate::specs::Lists::names_listed))]
pub(crate) fn read_list<F: Files, S: Sink>(
    alloc: Global,
    list: &str,
    files: &mut F,
    out: &mut S,
) -> Result<Names, Status>
    ensures does { IsTrue F.tells → IsTrue S.tells → DoesOn F.contents S.taken
        (names_listed list.now) files.old out.old result files.new out.new }
    ensures counts { TalliesOn F.counts S.faults result files.old out.old files.new out.new }
    ensures same { F.contents files.new ≡ F.contents files.old }
    ensures once { F.reads files.new ≡ next (F.reads files.old) }
    ensures lists { IsTrue F.tells → IsTrue S.tells →
        IfOk result (ListsNames (F.contents files.old) list.now) }
    ensures names { IfOk result AreNames }
    ensures only { IfErr result StopsArea }
{
    match read_file(alloc, list, files, out) {
        Err(status) => Err(status),
        Ok(bytes) => match names_of_text(alloc, bytes.as_slice()) {
            Ok(names) => Ok(names),
            Err(ListFault::Line(line)) => {
                Err(refuse_area(alloc, list.as_bytes(), AreaFlaw::Line(line), out))
            }
            Err(ListFault::NoMemory) => Err(Status::Memory),
        },
    }
}
