//! The list of one script.
ghost use Rattle.std.specs.Prelude.{◌≡◌, ◌<◌, ◌^◌, [], ◌∷◌, length, IfOk};
ghost use Rattle.nwq_value.specs.Engine.{EngineTable};
ghost use Rattle.stack_rules.specs.Rules.{MeetsRules};
ghost use Rattle.stack_rules.specs.Laws.{AllMeet};
ghost use Rattle.stack_check.specs.Checked.{kept_table};
ghost use Rattle.ncs_machine.specs.Host.{scripts_of, tables_of};
ghost use Rattle.command_plays.specs.Scripts.{listed};

use ncs_machine::{Loaded, Scripts};
use nwq_value::{Items, NoMemory, Text};
use stack_check::Checked;
use std::alloc::Global;

/// The list of one script.
fn list_named(alloc: Global, name: Text, code: Checked) -> Result<Scripts, NoMemory>
    ensures listed { IfOk result (λ scripts. scripts ≡ record { name = name; code = code } ∷ []) }
{
    let loaded = Loaded::of(alloc, name, code)?;
    let mut scripts = Items::new(alloc);
    scripts.push(loaded)?;
    Ok(scripts)
}

/// The one script that is listed.
#[tactic(auto, using(crate::proofs::ListLemmas::lists))]
pub fn list_one(alloc: Global, name: &[u8], code: Checked) -> Result<Scripts, NoMemory>
    ensures listed { IfOk result (λ scripts. scripts_of scripts ≡ listed name.now code.code) }
    ensures meets { (header : EngineTable) → MeetsRules header code.code (kept_table code) →
        IfOk result (λ scripts. AllMeet header (scripts_of scripts) (tables_of scripts)) }
    ensures few { IfOk result (λ scripts. length scripts < 2 ^ 32) }
{
    match Text::of(alloc, name) {
        Err(NoMemory) => {
            drop(code);
            Err(NoMemory)
        }
        Ok(name) => list_named(alloc, name, code),
    }
}
