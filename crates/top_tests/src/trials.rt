//! What is tried with hooks: tables of rows, in groups.

ghost use Rattle.std.specs.Prelude.{map};
ghost use Rattle.world_core.specs.Calls.{AreServing};

use crate::{
    chains, cuts, disk, files, language, profile, programs, reads, refusing, scripts, words,
};
use hook_table::Hooks;
use nwq_value::NoMemory;
use std::alloc::Global;
use std::test::Fail;
use test_rows::answers::{Held, Outcome};
use test_rows::bases::Base;
use test_rows::hooked::{Place, Trial, first_other, first_wrong_in};
use test_rows::rows::Table;
use test_rows::samples::Sample;

/// Scripts that are run.
fn of_runs() -> [Table<'static>; 4] {
    [
        Table::Sources(scripts::PLAYED, scripts::PLAYS),
        Table::Sources(scripts::PLAYED, language::PLAYS),
        Table::Sources(scripts::TRACED, scripts::TRACES),
        Table::Sources(scripts::TRACED, profile::SCRIPTS),
    ]
}

/// Scripts that `run` and `compile` refuse.
fn of_refusals() -> [Table<'static>; 2] {
    let sources = scripts::REFUSED;
    [
        Table::Sources(scripts::REFUSED_RUN, sources),
        Table::Sources(scripts::REFUSED_COMPILE, sources),
    ]
}

/// Scripts under headers, of some size, compiled, and over what was left.
fn of_scripts() -> [Table<'static>; 4] {
    [
        Table::Rows(scripts::HEADERS),
        Table::Rows(scripts::SIZES),
        Table::Rows(scripts::ENDED_AND_COMPILED),
        Table::Rows(chains::ROWS),
    ]
}

/// Other commands over files, and calls that fail.
fn of_files() -> [Table<'static>; 6] {
    [
        Table::Told(files::TOLD),
        Table::Shorts(files::SHORT_TREE, Sample::Tree, files::TREES),
        Table::Shorts(files::SHORT_CODE, Sample::Sum, files::CODES),
        Table::Rows(files::FAULTS),
        Table::Cuts(cuts::RUN, cuts::RUNS),
        Table::Cuts(cuts::COMPILE, cuts::COMPILES),
    ]
}

/// Words that are no command, and files that aren't there or are too long.
fn of_stops() -> [Table<'static>; 3] {
    [
        Table::Lines(words::REFUSED, words::LINES),
        Table::Reads(reads::MISSING, Held::Nothing, reads::READS),
        Table::Reads(reads::LONG, reads::BLANKS, reads::READS),
    ]
}

/// Rows of which each is tried.
struct Rows;

impl Trial for Rows {
    fn given(&self) -> (Base, &'static str) {
        (Base::Nothing, "tree a.git")
    }

    fn refused(&self) -> u8 {
        10
    }

    fn first_wrong(
        &self,
        alloc: Global,
        found: &mut Outcome,
        hooks: &Hooks,
    ) -> Result<Option<Place>, NoMemory> {
        if let Some(place) = first_wrong_in(alloc, 0, &of_runs(), found, hooks)? {
            return Ok(Some(place));
        }
        if let Some(place) = first_wrong_in(alloc, 1, &of_refusals(), found, hooks)? {
            return Ok(Some(place));
        }
        if let Some(place) = first_wrong_in(alloc, 2, &of_scripts(), found, hooks)? {
            return Ok(Some(place));
        }
        if let Some(place) = first_wrong_in(alloc, 3, &of_files(), found, hooks)? {
            return Ok(Some(place));
        }
        first_wrong_in(alloc, 4, &of_stops(), found, hooks)
    }
}

/// The whole program.
struct Programs;

impl Trial for Programs {
    fn given(&self) -> (Base, &'static str) {
        (Base::Nothing, "tree a.git")
    }

    fn refused(&self) -> u8 {
        10
    }

    fn first_wrong(
        &self,
        alloc: Global,
        found: &mut Outcome,
        hooks: &Hooks,
    ) -> Result<Option<Place>, NoMemory> {
        for (at, table) in [programs::ROWS, programs::NOTED].iter().enumerate() {
            if let Some(row) = programs::first_program(alloc, table, found, hooks)? {
                return Ok(Some((0, at, row)));
            }
        }
        Ok(None)
    }
}

/// Commands over a disk in memory.
struct Disks;

impl Trial for Disks {
    fn given(&self) -> (Base, &'static str) {
        (Base::Nothing, "tree a.git")
    }

    fn refused(&self) -> u8 {
        10
    }

    fn first_wrong(
        &self,
        alloc: Global,
        _found: &mut Outcome,
        hooks: &Hooks,
    ) -> Result<Option<Place>, NoMemory> {
        match disk::first_command(alloc, hooks)? {
            None => Ok(None),
            Some(row) => Ok(Some((0, 0, row))),
        }
    }
}

/// The hook of this number, below 10, finds no memory.
#[derive(Drop)]
struct Refusing {
    hook: u8,
}

impl Trial for Refusing {
    fn given(&self) -> (Base, &'static str) {
        (Base::Cells, refusing::LINE)
    }

    fn refused(&self) -> u8 {
        self.hook
    }

    // What asks the hook ends for want of memory, and what asks any other doesn't.
    fn first_wrong(
        &self,
        alloc: Global,
        found: &mut Outcome,
        hooks: &Hooks,
    ) -> Result<Option<Place>, NoMemory> {
        for (hook, [answered, refused]) in refusing::ASKED.iter().enumerate() {
            let row = if hook == self.hook as usize {
                refused
            } else {
                answered
            };
            let table = Table::Rows(std::slice::from_ref(row));
            if let Some(place) = first_wrong_in(alloc, hook, &[table], found, hooks)? {
                return Ok(Some(place));
            }
        }
        if self.hook != refusing::REFUSED {
            return Ok(None);
        }
        first_wrong_in(alloc, 10, &[Table::Rows(refusing::ROWS)], found, hooks)
    }
}

#[test]
fn top_call(rt: HostRuntime) -> Result<(), Fail> {
    assert_eq!(rt; first_other(rt.alloc(), &Rows)?, Ok(None));
    Ok(())
}

#[test]
fn whole_program(rt: HostRuntime) -> Result<(), Fail> {
    assert_eq!(rt; first_other(rt.alloc(), &Programs)?, Ok(None));
    Ok(())
}

#[test]
fn commands_over_a_disk(rt: HostRuntime) -> Result<(), Fail> {
    assert_eq!(rt; first_other(rt.alloc(), &Disks)?, Ok(None));
    Ok(())
}

#[test]
fn a_hook_finds_no_memory(rt: HostRuntime) -> Result<(), Fail> {
    for hook in 0u8..10 {
        assert_eq!(rt; first_other(rt.alloc(), &Refusing { hook })?, Ok(None));
    }
    Ok(())
}
