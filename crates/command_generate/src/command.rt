//! The command.
ghost use Rattle.std.specs.Prelude.{◌≤◌, IsTrue, IfErr};
ghost use Rattle.nwq_outside.specs.Outside.{Contents};
ghost use Rattle.hook_table.specs.InHooks.{known_by};
ghost use Rattle.world_core.specs.Calls.{AreServing, cells_of};
ghost use Rattle.play_generator.specs.Made.{number_limit};
ghost use Rattle.nwq_outside.specs.declared.counts.FileCounts.{FileCounts};
ghost use Rattle.command_work.specs.Work.{Does};
ghost use Rattle.command_work.specs.Counts.{Counted, Tallies, Refusing};
ghost use Rattle.command_generate.specs.Generated.{checks_made, generates, IsMade, MayLoad};
ghost use Rattle.command_generate.specs.Generated.{StopsGenerate};

use crate::play::play_code;
use crate::source::compile_source;
use command_files::load_checked;
use command_work::Status;
use engine_table::built_in;
use hook_table::Hooks;
use nwq_outside::Sink;
use nwq_value::{NoMemory, Table};
use play_generator::{Made, make};
use std::alloc::Global;

/// Checks and plays the file of bytecode of a made play's source.
#[tactic(auto, using(crate::proofs::Steps::steps, crate::proofs::StopLemmas::cut_refuses), unfolding(crate::specs::Generated::checks_made))]
fn play_file<S: Sink>(
    alloc: Global,
    table: &Table,
    number: u32,
    made: &Made,
    bytes: Vec<u8>,
    hooks: &Hooks,
    out: &mut S,
) -> Result<(), Status>
    requires made { IsMade table.now number made.now }
    requires loads { MayLoad table.now bytes.items }
    requires hooks { AreServing (known_by hooks.now) }
    ensures does { IsTrue S.tells → (c : Contents) → Does (checks_made (cells_of (known_by
        hooks.now)) number bytes.items) c (S.taken out.old) result c (S.taken out.new) }
    ensures counts { (counts : FileCounts) → Tallies result (Counted counts (S.faults out.old))
        (Counted counts (S.faults out.new)) }
    ensures only { IfErr result (Refusing Status.Limit) }
{
    match load_checked(alloc, table, b"beat.ncs", bytes, out) {
        Err(status) => Err(status),
        Ok(code) => play_code(alloc, table, number, made, code, hooks, out),
    }
}

/// Compiles, checks and plays a made play under the built-in header.
#[tactic(auto, using(crate::proofs::PlayLemmas::play_wanted, crate::proofs::StopLemmas::limit_stops))]
fn play_made<S: Sink>(
    alloc: Global,
    table: &Table,
    number: u32,
    made: &Made,
    hooks: &Hooks,
    out: &mut S,
) -> Result<(), Status>
    requires made { IsMade table.now number made.now }
    requires hooks { AreServing (known_by hooks.now) }
    ensures does { IsTrue S.tells → (c : Contents) → Does (generates (cells_of (known_by hooks.now))
        number) c (S.taken out.old) result c (S.taken out.new) }
    ensures counts { (counts : FileCounts) → Tallies result (Counted counts (S.faults out.old))
        (Counted counts (S.faults out.new)) }
    ensures only { IfErr result StopsGenerate }
{
    match compile_source(alloc, table, made.source()) {
        Err(NoMemory) => Err(Status::Memory),
        Ok(bytes) => play_file(alloc, table, number, made, bytes.into_vec(), hooks, out),
    }
}

/// Makes the play of a number, plays it and puts its summary. Scripts that it plays call the hooks.
#[tactic(auto, using(crate::proofs::PlayLemmas::play_wanted))]
pub fn generate<S: Sink>(
    alloc: Global,
    number: u32,
    hooks: &Hooks,
    out: &mut S,
) -> Result<(), Status>
    requires number { number ≤ number_limit }
    requires hooks { AreServing (known_by hooks.now) }
    ensures does { IsTrue S.tells → (c : Contents) → Does (generates (cells_of (known_by hooks.now))
        number) c (S.taken out.old) result c (S.taken out.new) }
    ensures counts { (counts : FileCounts) → Tallies result (Counted counts (S.faults out.old))
        (Counted counts (S.faults out.new)) }
    ensures only { IfErr result StopsGenerate }
{
    match built_in(alloc) {
        Err(NoMemory) => Err(Status::Memory),
        Ok(table) => match make(alloc, number) {
            Err(NoMemory) => Err(Status::Memory),
            Ok(made) => play_made(alloc, &table, number, &made, hooks, out),
        },
    }
}
