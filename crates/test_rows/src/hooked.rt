//! The hooks of scripts are made here, once, for all that a test tries.

ghost use Rattle.std.specs.Prelude.{◌≤◌, [], IfOk};
ghost use Rattle.hook_table.specs.Standard.{function_numbered, IsAnswer};
ghost use Rattle.hook_table.specs.InHooks.{known_by};
ghost use Rattle.world_core.specs.Calls.{AreServing};

use crate::answers::{Outcome, begin, words_of};
use crate::bases::Base;
use crate::rows::{Table, first_wrong};
use hook_table::{Call, Hooks, cell_call};
use nwq_hooks::{all_are_put, call_function, put_cell_hook, put_hook};
use nwq_top::{Status, nwq_tables};
use nwq_value::{Args, NoMemory, Value};
use std::alloc::Global;
use table_2da::Tables;

/// Where something else comes than is to come: the place of a group of tables, of a table in it,
/// and of a row.
pub type Place = (usize, usize, usize);

/// What is tried with hooks.
pub trait Trial {
    /// Names, and words that give the tables in which the hooks look cells up.
    fn given(&self) -> (Base, &'static str);

    /// The number of the hook that finds no memory; 10 or more where each finds it.
    fn refused(&self) -> u8;

    /// Where something else comes than is to come, if it does anywhere.
    fn first_wrong(
        &self,
        alloc: Global,
        found: &mut Outcome,
        hooks: &Hooks,
    ) -> Result<Option<Place>, NoMemory>
        requires hooks { AreServing (known_by hooks.now) };
}

/// The same of a group of tables, with the group's place.
pub fn first_wrong_in(
    alloc: Global,
    group: usize,
    tables: &[Table],
    found: &mut Outcome,
    hooks: &Hooks,
) -> Result<Option<Place>, NoMemory>
    requires hooks { AreServing (known_by hooks.now) }
{
    for (place, table) in tables.iter().enumerate() {
        if let Some(row) = first_wrong(alloc, *table, found, hooks)? {
            return Ok(Some((group, place, row)));
        }
    }
    Ok(None)
}

/// The hooks look cells up in these tables.
fn try_with<T: Trial>(
    alloc: Global,
    trial: &T,
    tables: Tables,
    found: &mut Outcome,
) -> Result<Option<Place>, NoMemory> {
    let refused = trial.refused();
    let own = tables.copy(alloc)?;
    let mut hooks = Hooks::new(alloc);
    for n in 0u8..9 {
        let call: Call = Box::new(
            alloc,
            move |args: &Args| -> Result<Value, NoMemory>
                requires { n ≤ 9 }
                ensures { IfOk result (λ v. IsAnswer [] (function_numbered n).name
                    (function_numbered n).result args.now v) }
            {
                if n == refused {
                    Err(NoMemory)
                } else {
                    call_function(alloc, n, args)
                }
            },
        )?;
        put_hook(alloc, &mut hooks, n, call)?;
    }
    let cells: Call = Box::new(
        alloc,
        move |args: &Args| -> Result<Value, NoMemory>
            ensures { IfOk result (λ v. IsAnswer own (function_numbered 9).name
                (function_numbered 9).result args.now v) }
        {
            if refused == 9 {
                Err(NoMemory)
            } else {
                cell_call(alloc, &own, args)
            }
        },
    )?;
    put_cell_hook(alloc, &mut hooks, cells, tables)?;
    all_are_put(&hooks);
    trial.first_wrong(alloc, found, &hooks)
}

fn try_in<T: Trial>(
    alloc: Global,
    trial: &T,
    found: &mut Outcome,
) -> Result<Result<Option<Place>, Status>, NoMemory> {
    let (base, line) = trial.given();
    begin(alloc, base, &[], found)?;
    let words = words_of(alloc, line)?;
    match nwq_tables(alloc, words.as_slice(), &mut found.files, &mut found.out) {
        Ok(tables) => Ok(Ok(try_with(alloc, trial, tables, found)?)),
        Err(status) => Ok(Err(status)),
    }
}

/// Where something else comes than is to come, if it does anywhere, or the status of tables that
/// are refused.
pub fn first_other<T: Trial>(
    alloc: Global,
    trial: &T,
) -> Result<Result<Option<Place>, Status>, NoMemory> {
    let mut found = Outcome::new(alloc);
    let place = try_in(alloc, trial, &mut found);
    drop(found);
    place
}
