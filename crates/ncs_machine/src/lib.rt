//! The machine that runs NCS code in a world.
//!
//! What an entry's run comes to is `machine_rules`'s definition, in the host that `specs/Host.antt`
//! makes of the listed scripts and the engine. The scripts were checked, so each instruction that
//! is reached has a case: no answer is a stack fault. Each script's instructions are decoded once,
//! before it runs. docs/MACHINE.md tells the machine in words.
#![tactic(auto)]

mod begun;
mod call;
mod entry;
mod laws;
mod machine;
mod remarks;
mod scene;
mod scripts;
mod setting;
mod step;

pub use entry::{Ran, run};
pub use laws::{calls_keep_fits, entries_keep_fits, runs_lead};
pub use scene::Scene;
pub use scripts::{Begin, Loaded, Ready, Scripts};
pub use setting::{CheckedScripts, PlaySetting};
