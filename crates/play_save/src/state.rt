//! The state of a play.
ghost use Rattle.std.specs.Prelude.{◌≡◌, ◌≤◌, ◌<◌, ◌^◌, length, IfOk, IfErr, MatchResult};
ghost use Rattle.std.specs.List.{AllByRecursion};
ghost use Rattle.nwq_value.specs.Limits.{file_limit};
ghost use Rattle.ncs_code.specs.File.{IsCode};
ghost use Rattle.stack_rules.specs.Laws.{AllMeet};
ghost use Rattle.stack_check.specs.Checked.{AllStand};
ghost use Rattle.ncs_machine.specs.Host.{scripts_of, tables_of};
ghost use Rattle.ncs_machine.specs.Stored.{StatesFit};
ghost use Rattle.module_player.specs.Limits.{limits_in};
ghost use Rattle.state_format.specs.Fields.{parts_bytes};
ghost use Rattle.state_format.specs.Parts.{HasForm};
ghost use Rattle.state_format.specs.Place.{StateOf, IsTooLarge};
ghost use Rattle.state_format.specs.declared.parts.Parts.{Parts as PlainParts};
ghost use Rattle.state_parts.specs.World.{world_of};
ghost use Rattle.play_save.specs.Scripts.{script_parts};
ghost use Rattle.play_save.specs.Rules.{IsHeaderOf, IsAccepted};
ghost use Rattle.play_save.specs.Breaking.{IsPreparedFor};
ghost use Rattle.play_save.specs.States.{HasCome, IsPlayOf, IsWorldOf, Refuses};
ghost use Rattle.play_save.specs.declared.fault.StateFault.TheVariants.{NoMemory as NoRoom};

use crate::fault::StateFault;
use crate::prepare::Prepared;
use crate::rules::test_parts;
use crate::world::world;
use module_player::PlayLimits;
use ncs_machine::Scripts;
use nwq_value::{NoMemory, Table};
use saved_state::Saved;
use state_format::{Parts, ReadFault, SaveFault, one_state, put_parts, read_parts};
use std::alloc::Global;
use std::marker::Model;
use world_core::World;

/// The state of a play between two of its entries. Contracts see its parts. What they are of is
/// kept as it was read, so that each script is prepared once.
pub struct State {
    parts: Parts,
    prepared: Prepared,
}

impl Model for State {
    ghost use Rattle.state_format.specs.declared.parts.Parts.{Parts};
    ghost use Rattle.state_format.specs.Parts.{HasForm};
    ghost use Rattle.play_save.specs.Rules.{IsAccepted};
    ghost use Rattle.play_save.specs.Breaking.{IsPreparedFor};

    ghost Value = { Parts };

    ghost view = { λ s. s.parts };

    ghost invariant = { λ s. HasForm s.parts
        × (IsAccepted s.parts × IsPreparedFor s.parts s.prepared) };
}

impl Drop for State {
    fn drop(self) {
        let State { parts, prepared } = self;
        drop(parts);
        drop(prepared);
    }
}

/// What a play goes on from: its header's table, its scripts, its world, how far it may go, how many
/// entries it took, and how many instructions it executed.
#[derive(Drop)]
pub struct Opened {
    pub table: Table,
    pub scripts: Scripts,
    pub world: World<Saved>,
    pub limits: PlayLimits,
    pub taken: u64,
    pub done: u64,
}

impl State {
    /// What the play goes on from. The state is dropped where memory runs out.
    pub fn restore(self, alloc: Global) -> Result<Opened, NoMemory>
        // What the play is of, and how far it has come.
        ensures header { IfOk result (λ o. IsHeaderOf self.header o.table) }
        ensures play { IfOk result (λ o. IsPlayOf self self.header (script_parts o.scripts)
            self.area (limits_in o.limits)) }
        ensures come { IfOk result (λ o. HasCome self o.taken o.done) }
        // The world is the one that the state tells.
        ensures world { IfOk result (λ o. IsWorldOf self o.world.world) }
        // The scripts are well stacked, by the tables that are kept, and each captured state in the
        // world fits: so the play comes to no fault of the stack.
        ensures few { IfOk result (λ o. length o.scripts < 2 ^ 32) }
        ensures code { IfOk result (λ o. AllByRecursion (λ l. IsCode l.code.code) o.scripts) }
        ensures meets { IfOk result (λ o.
            AllMeet o.table (scripts_of o.scripts) (tables_of o.scripts)) }
        ensures stand { IfOk result (λ o.
            AllStand o.table (scripts_of o.scripts) (tables_of o.scripts)) }
        ensures fit { IfOk result (λ o.
            StatesFit (scripts_of o.scripts) (tables_of o.scripts) o.world.world) }
    {
        let State { parts, prepared } = self;
        match open(alloc, &parts, prepared) {
            Err(NoMemory) => {
                drop(parts);
                Err(NoMemory)
            }
            Ok(opened) => {
                drop(parts);
                Ok(opened)
            }
        }
    }

    /// What every state keeps.
    pub fn keeps(&self)
        ensures accepted { IsAccepted self.now }
        ensures form { HasForm self.now }
    {
        let _ = &self.parts;
    }
}

/// What the play of a state goes on from.
pub(crate) fn open(alloc: Global, parts: &Parts, prepared: Prepared) -> Result<Opened, NoMemory>
    requires accepted { IsAccepted parts.now }
    requires prepared { IsPreparedFor parts.now prepared }
    ensures header { IfOk result (λ o. IsHeaderOf parts.now.header o.table) }
    ensures play { IfOk result (λ o. IsPlayOf parts.now parts.now.header
        (script_parts o.scripts) parts.now.area (limits_in o.limits)) }
    ensures come { IfOk result (λ o. HasCome parts.now o.taken o.done) }
    ensures world { IfOk result (λ o. IsWorldOf parts.now o.world.world) }
    ensures few { IfOk result (λ o. length o.scripts < 2 ^ 32) }
    ensures code { IfOk result (λ o. AllByRecursion (λ l. IsCode l.code.code) o.scripts) }
    ensures meets { IfOk result (λ o.
        AllMeet o.table (scripts_of o.scripts) (tables_of o.scripts)) }
    ensures stand { IfOk result (λ o.
        AllStand o.table (scripts_of o.scripts) (tables_of o.scripts)) }
    ensures fit { IfOk result (λ o.
        StatesFit (scripts_of o.scripts) (tables_of o.scripts) o.world.world) }
{
    let Prepared {
        table,
        scripts,
        area,
    } = prepared;
    match world(alloc, area, parts) {
        Err(NoMemory) => {
            drop(table);
            drop(scripts);
            Err(NoMemory)
        }
        Ok(world) => Ok(Opened {
            table,
            scripts,
            world,
            limits: PlayLimits {
                instructions: parts.limit,
                entries: parts.entries,
                until: parts.until,
            },
            taken: parts.taken,
            done: parts.done,
        }),
    }
}

/// The bytes of a state, where these aren't more than a file may have.
pub fn put_state(alloc: Global, state: &State) -> Result<Vec<u8>, SaveFault>
    ensures exact { MatchResult result
        (λ v. StateOf v.items state.now × (length v.items ≤ file_limit))
        (λ e. IsTooLarge (parts_bytes state.now) e) }
{
    put_parts(alloc, &state.parts)
}

/// The state that the bytes of a file stand for, or why they are refused.
pub fn read_state(alloc: Global, bytes: &[u8]) -> Result<State, StateFault>
    requires size { length bytes.now ≤ file_limit }
    // What is read is what the bytes stand for.
    ensures read { IfOk result (λ s. StateOf bytes.now s) }
    // Bytes that stand for a state which keeps all rules are read, unless memory runs out.
    ensures only { (s : PlainParts) → StateOf bytes.now s → IsAccepted s →
        MatchResult result (λ state. state ≡ s) (λ e. e ≡ NoRoom) }
    // Why they are refused.
    ensures refused { IfErr result (Refuses bytes.now) }
{
    one_state();
    match read_parts(alloc, bytes) {
        Err(ReadFault::Place(at)) => Err(StateFault::Place(at)),
        Err(ReadFault::NoMemory) => Err(StateFault::NoMemory),
        Ok(parts) => match test_parts(alloc, &parts) {
            Err(fault) => {
                drop(parts);
                Err(fault)
            }
            Ok(prepared) => Ok(State { parts, prepared }),
        },
    }
}
