ghost use Rattle.std.specs.Prelude.{◌≡◌, ◌<◌, ◌↔◌, Some, IfOk, IsTrue, OnOk, min, true, false};
ghost use Rattle.stack_lists.specs.Rows.{row_in};
ghost use Rattle.stack_lists.specs.Worklist.{SameCalls, waiting};
ghost use Rattle.stack_check.specs.Facts.{FindsMore};
ghost use Rattle.stack_lists.specs.Held.{shape_of};
ghost use Rattle.stack_check.specs.Inference.{CallsAgain, CallsOfWait, IsThere, Keeps};
ghost use Rattle.stack_check.specs.Inference.{LooksOwed, Within, narrowed, unseen_after};
ghost use Rattle.stack_check.specs.Inference.{AddsCalls};
ghost use Rattle.stack_check.specs.Inference.{HandsIn};

use crate::facts::{Facts, Trial, Unseen, narrow};
use crate::judged::Judged;
use crate::reach::Found;
use nwq_value::NoMemory;
use stack_lists::{Heap, Held, Side, Todo};
use stack_shape::{Entry, Reach};

fn least(a: u32, b: u32) -> u32
    ensures { result ≡ min a b }
{
    if a <= b { a } else { b }
}

/// What was not looked at, once all is that lies above so many slots of the cells and of the list
/// beneath BP. That list is one on the routine's own cells once a list was saved.
fn narrowed(unseen: Unseen, first: bool, cells: u32, under: u32) -> Unseen
    ensures { result ≡ narrowed unseen first cells under }
{
    let seen = least(unseen.cells, cells);
    if first {
        Unseen {
            cells: seen,
            under: least(unseen.under, under),
        }
    } else {
        Unseen {
            cells: least(seen, under),
            under: unseen.under,
        }
    }
}

/// What an instruction that looks so deep into a shape leaves unseen.
#[tactic(auto, using(crate::proofs::Seeing::unseeing))]
fn unseen_after(heap: &Heap, unseen: Unseen, held: Held, reach: Reach) -> Unseen
    requires looks { IsThere (shape_of heap.now held) reach }
    ensures { result ≡ unseen_after unseen (shape_of heap.now held) reach }
{
    let cells = heap.slots.depth(held.cells) as usize - reach.cells;
    let under = heap.slots.depth(held.under) as usize - reach.under;
    let first = heap.saved.is_empty(held.saved);
    narrowed(unseen, first, cells as u32, under as u32)
}

fn same_unseen(a: Unseen, b: Unseen) -> bool
    ensures { IsTrue result ↔ (a ≡ b) }
{
    a == b
}

/// Has the calls of a trial's routine looked at again.
fn look_again(todo: &mut Todo, entry: Entry) -> Result<(), NoMemory>
    ensures { OnOk result (CallsAgain todo.old todo.new entry) }
{
    match entry {
        Entry::Called(target) => todo.add_callers(target),
        Entry::Start => Ok(()),
        Entry::Stored(_) => Ok(()),
    }
}

/// Keeps the place of the call that made windows of a trial grow, or 0 where no call did.
fn note_growth(
    todo: &mut Todo,
    number: u32,
    before: Unseen,
    after: Unseen,
    place: u32,
) -> Result<(), NoMemory>
    ensures waits { waiting todo.new ≡ waiting todo.old }
    ensures calls { SameCalls todo.old todo.new }
{
    if after.cells < before.cells {
        todo.grew(number, Side::Cells, place)?;
    }
    if after.under < before.under {
        todo.grew(number, Side::Under, place)?;
    }
    Ok(())
}

/// Whether a trial looked at its whole lists, as a script's start did from the first.
fn has_seen_all(trial: Trial) -> bool
    ensures { IsTrue result ↔ ((trial.unseen.cells ≡ 0) × (trial.unseen.under ≡ 0)) }
{
    trial.unseen.cells == 0 && trial.unseen.under == 0
}

/// Looks so deep into a shape that was found. True where some of these slots lie in what the
/// trial's routine took from its first caller, and no instruction had looked at them. `call` is
/// the place of the call that looks, 0 where no call does.
#[tactic(auto, using(crate::proofs::Seeing::seeing, crate::proofs::Following::adding, crate::proofs::Handing::handing))]
pub fn see(
    judged: &Judged<'_>,
    heap: &Heap,
    facts: &mut Facts,
    todo: &mut Todo,
    from: Found,
    reach: Reach,
    call: u32,
) -> Result<bool, NoMemory>
    requires keeps { Keeps judged.now.table.now judged.now.code.now heap.now facts.old }
    requires row { row_in facts.old.rows from.trial from.place ≡ Some from.held }
    requires looks { IsThere (shape_of heap.now from.held) reach }
    requires owed { LooksOwed judged.now.table.now judged.now.code.now heap.now facts.old from.trial
        from.place reach }
    ensures keeps { IfOk result (λ _. Keeps judged.now.table.now judged.now.code.now heap.now
        facts.new) }
    ensures more { IfOk result (λ more. more ≡ true → FindsMore facts.old facts.new) }
    ensures within { IfOk result (λ more. more ≡ false → (facts.new ≡ facts.old)
        × Within heap.now facts.old from.trial (shape_of heap.now from.held) reach) }
    ensures same { IfOk result (λ more. more ≡ false → todo.new ≡ todo.old) }
    ensures few { IfOk result (λ _. AddsCalls todo.old todo.new 0) }
    ensures hands { IfOk result (λ _. HandsIn judged.now.code.now facts.old facts.new todo.old
        todo.new) }
    // Once its window has grown, the routine's calls are looked at again.
    ensures again { IfOk result (λ more. more ≡ true → CallsOfWait todo.old todo.new facts.old
        from.trial) }
{
    match facts.trials.get(from.trial as usize) {
        None => unreachable!(),
        Some(trial) => {
            let trial = *trial;
            if has_seen_all(trial) {
                return Ok(false);
            }
            let unseen = unseen_after(heap, trial.unseen, from.held, reach);
            if same_unseen(unseen, trial.unseen) {
                return Ok(false);
            }
            narrow(judged, heap, facts, from.trial, trial, unseen);
            note_growth(todo, from.trial, trial.unseen, unseen, call)?;
            look_again(todo, trial.entry)?;
            Ok(true)
        }
    }
}
