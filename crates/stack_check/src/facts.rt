ghost use Rattle.std.specs.Prelude.{◌≡◌, ◌≢◌, ◌<◌, ◌≤◌, ◌^◌, ◌++◌, ◌∷◌, [], None, Some, IfOk};
ghost use Rattle.std.specs.Prelude.{OnOk};
ghost use Rattle.std.specs.Prelude.{length, slice_get};
ghost use Rattle.stack_lists.specs.Worklist.{waiting};
ghost use Rattle.stack_shape.specs.declared.shape.Entry.TheVariants.{Start};
ghost use Rattle.stack_check.specs.Facts.{FindsMore, current, first_place, first_held};
ghost use Rattle.stack_check.specs.Inference.{TrialBegins, Formed, GivenOwed, Keeps, SeesMore};
ghost use Rattle.stack_check.specs.Inference.{TrialAdded, TrialIn, UnseenOwed};
ghost use Rattle.stack_check.specs.Inference.{CurrentSet};
ghost use Rattle.stack_check.specs.Inference.{Adds};
ghost use Rattle.stack_check.specs.Inference.{HandsIn, TrialSet};

use crate::judged::Judged;
use nwq_value::{Items, NoMemory};
use stack_lists::{Heap, Held, Places, Rows, Spot, Todo, room};
use stack_shape::Entry;

/// How many of the lowest slots of two lists no instruction has looked at.
#[derive(Clone, Copy, PartialEq, Eq)]
pub struct Unseen {
    pub cells: u32,
    pub under: u32,
}

/// An entry, with the lists of its first call: the cells, and what is beneath BP. Its routine takes
/// what was looked at of them.
#[derive(Clone, Copy)]
pub struct Trial {
    pub entry: Entry,
    pub taken: u32,
    pub under: u32,
    /// What the routine leaves in the place of `taken`, once a RETN was found.
    pub given: Option<u32>,
    pub unseen: Unseen,
    /// How much was unseen when it began.
    pub at_first: Unseen,
}

/// What was found so far.
#[derive(Drop)]
pub struct Facts {
    /// One trial for each entry that was found. The first is the script's start.
    pub trials: Items<Trial>,
    /// By the place at which a called routine begins: the number of its trial.
    pub called: Places,
    /// By the place of a STORE_STATE: the number of the trial of what it stores.
    pub stored: Places,
    /// The shapes that were found.
    pub rows: Rows,
}

/// The place at which an entry begins.
fn first_place(entry: Entry) -> u32
    requires { first_place entry < 2 ^ 32 }
    ensures { result ≡ first_place entry }
{
    match entry {
        Entry::Start => 13,
        Entry::Called(target) => target,
        Entry::Stored(site) => site + 16,
    }
}

/// The shape with which a trial begins.
fn first_held(trial: Trial) -> Held
    ensures { result ≡ first_held trial }
{
    Held {
        cells: trial.taken,
        under: trial.under,
        saved: 0,
        pending: 0,
    }
}

/// Has a trial count for its entry from now on.
#[tactic(auto, using(crate::proofs::Adding::setting))]
fn set_current(facts: &mut Facts, entry: Entry, number: u32) -> Result<(), NoMemory>
    ensures set { OnOk result (CurrentSet facts.old facts.new entry number) }
{
    match entry {
        Entry::Start => Ok(()),
        Entry::Called(target) => facts.called.put(target, number),
        Entry::Stored(site) => facts.stored.put(site, number),
    }
}

/// Adds a trial, which counts for its entry from now on.
#[tactic(auto, using(crate::proofs::Adding::adding))]
fn add_trial(facts: &mut Facts, trial: Trial) -> Result<u32, NoMemory>
    requires formed { Formed facts.old }
    requires entry { trial.entry ≢ Start }
    requires fresh { current facts.old trial.entry ≡ None }
    requires place { first_place trial.entry < 2 ^ 32 }
    ensures added { IfOk result (λ _. TrialAdded facts.old facts.new trial) }
    ensures number { IfOk result (λ number. number ≡ length facts.old.trials) }
{
    let number = facts.trials.len();
    room(number)?;
    let number = number as u32;
    facts.trials.push(trial)?;
    facts
        .rows
        .add(number, first_place(trial.entry), first_held(trial))?;
    set_current(facts, trial.entry, number)?;
    Ok(number)
}

/// Begins a trial that compares with every table.
#[tactic(auto, using(crate::proofs::Following::adding))]
pub fn begin(
    judged: &Judged<'_>,
    heap: &Heap,
    facts: &mut Facts,
    todo: &mut Todo,
    trial: Trial,
) -> Result<(), NoMemory>
    requires keeps { Keeps judged.now.table.now judged.now.code.now heap.now facts.old }
    requires entry { trial.entry ≢ Start }
    requires fresh { current facts.old trial.entry ≡ None }
    requires place { first_place trial.entry < 2 ^ 32 }
    requires begins { TrialBegins judged.now.table.now judged.now.code.now heap.now trial }
    requires inside { TrialIn heap.now trial }
    ensures keeps { IfOk result (λ _. Keeps judged.now.table.now judged.now.code.now heap.now
        facts.new) }
    ensures takes { IfOk result (λ _. FindsMore facts.old facts.new) }
    ensures handed { OnOk result (waiting todo.new ≡ waiting todo.old
        ++ record { trial = length facts.old.trials; place = first_place trial.entry } ∷ []) }
    ensures few { OnOk result (Adds todo.old todo.new 1) }
    ensures hands { OnOk result (HandsIn judged.now.code.now facts.old facts.new todo.old
        todo.new) }
{
    let _ = judged;
    let _ = heap;
    let number = add_trial(facts, trial)?;
    let place = first_place(trial.entry);
    todo.add(Spot {
        trial: number,
        place,
    })?;
    Ok(())
}

/// Keeps what a routine gives.
pub fn give(
    judged: &Judged<'_>,
    heap: &Heap,
    facts: &mut Facts,
    number: u32,
    given: u32,
) -> Result<(), NoMemory>
    requires keeps { Keeps judged.now.table.now judged.now.code.now heap.now facts.old }
    requires owed { GivenOwed judged.now.table.now judged.now.code.now heap.now facts.old number
        given }
    requires inside { given ≤ length heap.now.slots }
    ensures keeps { IfOk result (λ _. Keeps judged.now.table.now judged.now.code.now heap.now
        facts.new) }
    ensures takes { IfOk result (λ _. FindsMore facts.old facts.new) }
    ensures set { IfOk result (λ _. TrialSet facts.old facts.new number) }
{
    let _ = judged;
    let _ = heap;
    match facts.trials.get(number as usize) {
        None => unreachable!(),
        Some(trial) => {
            let trial = Trial {
                entry: trial.entry,
                taken: trial.taken,
                under: trial.under,
                given: Some(given),
                unseen: trial.unseen,
                at_first: trial.at_first,
            };
            facts.trials.set(number as usize, trial);
            Ok(())
        }
    }
}

/// Keeps that more of a trial's lists was looked at.
#[tactic(auto, using(crate::proofs::Seeing::narrowing))]
pub fn narrow(
    judged: &Judged<'_>,
    heap: &Heap,
    facts: &mut Facts,
    number: u32,
    trial: Trial,
    unseen: Unseen,
)
    requires keeps { Keeps judged.now.table.now judged.now.code.now heap.now facts.old }
    requires trial { slice_get facts.old.trials number ≡ Some trial }
    requires less { SeesMore trial.unseen unseen }
    requires owed { UnseenOwed judged.now.table.now judged.now.code.now heap.now facts.old number
        trial unseen }
    ensures keeps { Keeps judged.now.table.now judged.now.code.now heap.now facts.new }
    ensures takes { FindsMore facts.old facts.new }
    ensures set { TrialSet facts.old facts.new number }
{
    let _ = judged;
    let _ = heap;
    let trial = Trial {
        entry: trial.entry,
        taken: trial.taken,
        under: trial.under,
        given: trial.given,
        unseen,
        at_first: trial.at_first,
    };
    facts.trials.set(number as usize, trial);
}
