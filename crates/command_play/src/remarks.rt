//! What is remarked of a play, for notes after it.
ghost use Rattle.std.specs.Prelude.{◌≡◌, ◌↔◌, [], false, IsTrue, IfOk};
ghost use Rattle.command_play.specs.Named.{AreNames, names_of};

use ncs_machine::Scripts;
use nwq_value::{Items, NoMemory, Text};
use play_remarks::RemarkList;
use saved_state::Saved;
use std::alloc::Global;
use world_core::World;

/// What a play shows beside what it tells and leaves. Nothing that is told, written or answered
/// depends on it.
#[derive(Drop)]
pub struct Remarks {
    /// Whether the play's last world has no random numbers left.
    pub random_used_up: bool,
    /// Where entries ended before their end.
    pub endings: RemarkList,
    /// The names of the scripts by their numbers, where there are endings, and memory for them.
    pub scripts: Items<Text>,
}

impl Remarks {
    /// Before anything is remarked.
    pub fn none(alloc: Global) -> Remarks
        ensures none { result.random_used_up ≡ false }
        ensures endings { result.endings ≡ [] }
        ensures scripts { result.scripts ≡ [] }
    {
        Remarks {
            random_used_up: false,
            endings: RemarkList::new(alloc),
            scripts: Items::new(alloc),
        }
    }
}

/// The names of scripts, by their numbers.
fn names_of(alloc: Global, scripts: &Scripts) -> Result<Items<Text>, NoMemory>
    ensures names { IfOk result (λ names. names ≡ names_of scripts.now) }
{
    let mut names = Items::new(alloc);
    for script in scripts.as_slice() {
        names.push(script.name.copy(alloc)?)?;
    }
    Ok(names)
}

/// Takes from a play's last world where entries ended before their end, with the names of the
/// scripts.
pub fn remark_endings(
    alloc: Global,
    world: &mut World<Saved>,
    scripts: &Scripts,
    remarks: &mut Remarks,
)
    ensures same { world.new ≡ world.old }
    ensures names { AreNames scripts.now remarks.old.scripts remarks.new.scripts }
    ensures used_up { remarks.new.random_used_up ≡ remarks.old.random_used_up }
{
    remarks.endings = world.take_remarks();
    if remarks.endings.as_slice().is_empty() {
        return;
    }
    if let Ok(names) = names_of(alloc, scripts) {
        remarks.scripts = names;
    }
}

/// The same, and whether that world has random numbers left.
pub(crate) fn remark(
    alloc: Global,
    world: &mut World<Saved>,
    scripts: &Scripts,
    remarks: &mut Remarks,
)
    ensures same { world.new ≡ world.old }
    ensures used_up { IsTrue remarks.new.random_used_up ↔ (world.old.world.random ≡ []) }
    ensures names { AreNames scripts.now remarks.old.scripts remarks.new.scripts }
{
    remarks.random_used_up = world.random_left() == 0;
    remark_endings(alloc, world, scripts, remarks);
}
