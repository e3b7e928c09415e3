//! What is tried with hooks: tables of rows, in groups, and plays that are saved.

ghost use Rattle.std.specs.Prelude.{map};
ghost use Rattle.world_core.specs.Calls.{AreServing};

use crate::saves::{GAMES, Game, TOWN, first_broken};
use crate::{cuts, example, games, long, plans, saves, states};
use hook_table::Hooks;
use nwq_value::NoMemory;
use std::alloc::Global;
use std::test::Fail;
use test_rows::answers::Outcome;
use test_rows::bases::Base;
use test_rows::hooked::{Place, Trial, first_other, first_wrong_in};
use test_rows::rows::Table;

/// Plays of plans.
fn of_games() -> [Table<'static>; 6] {
    [
        Table::Rows(games::DONE),
        Table::Rows(plans::ROWS),
        Table::Rows(games::ENDED),
        Table::Rows(games::REFUSED),
        Table::Rows(games::LARGE),
        Table::Rows(long::ROWS),
    ]
}

/// Plays that are saved and resumed, and the town.
fn of_saves() -> [Table<'static>; 4] {
    [
        Table::Rows(saves::ROWS),
        Table::Rows(saves::RESUMES),
        Table::Rows(states::ROWS),
        Table::Rows(example::ROWS),
    ]
}

/// Calls that fail.
fn of_cuts() -> [Table<'static>; 3] {
    [
        Table::Cuts(cuts::PLAY, cuts::PLAYS),
        Table::Cuts(cuts::PLAY_THREE, cuts::THREES),
        Table::Cuts(cuts::SAVE, cuts::SAVES),
    ]
}

/// Rows of which each is tried.
struct Rows;

impl Trial for Rows {
    fn given(&self) -> (Base, &'static str) {
        (Base::Town, example::LINE)
    }

    fn refused(&self) -> u8 {
        10
    }

    fn first_wrong(
        &self,
        alloc: Global,
        found: &mut Outcome,
        hooks: &Hooks,
    ) -> Result<Option<Place>, NoMemory> {
        if let Some(place) = first_wrong_in(alloc, 0, &of_games(), found, hooks)? {
            return Ok(Some(place));
        }
        if let Some(place) = first_wrong_in(alloc, 1, &of_saves(), found, hooks)? {
            return Ok(Some(place));
        }
        first_wrong_in(alloc, 2, &of_cuts(), found, hooks)
    }
}

/// Plays that are saved after each of their entries, and resumed.
struct Saved(&'static [Game<'static>]);

impl Trial for Saved {
    fn given(&self) -> (Base, &'static str) {
        (Base::Town, example::LINE)
    }

    fn refused(&self) -> u8 {
        10
    }

    fn first_wrong(
        &self,
        alloc: Global,
        found: &mut Outcome,
        hooks: &Hooks,
    ) -> Result<Option<Place>, NoMemory> {
        first_broken(alloc, self.0, found, hooks)
    }
}

#[test]
fn plays(rt: HostRuntime) -> Result<(), Fail> {
    assert_eq!(rt; first_other(rt.alloc(), &Rows)?, Ok(None));
    Ok(())
}

#[test]
fn the_town_is_saved_and_resumed(rt: HostRuntime) -> Result<(), Fail> {
    assert_eq!(rt; first_other(rt.alloc(), &Saved(TOWN))?, Ok(None));
    Ok(())
}

#[test]
fn saves_and_resumes(rt: HostRuntime) -> Result<(), Fail> {
    assert_eq!(rt; first_other(rt.alloc(), &Saved(GAMES))?, Ok(None));
    Ok(())
}
