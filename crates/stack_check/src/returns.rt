ghost use Rattle.std.specs.Prelude.{◌≡◌, ◌++◌, [], Some, IfOk, map, slice_get};
ghost use Rattle.stack_lists.specs.Shared.{read};
ghost use Rattle.ncs_code.specs.Plain.{Retn};
ghost use Rattle.ncs_code.specs.File.{op_at};
ghost use Rattle.stack_shape.specs.declared.shape.Entry.TheVariants.{Called};
ghost use Rattle.stack_lists.specs.Rows.{row_in};
ghost use Rattle.stack_lists.specs.Worklist.{calls_of, stands_at, waiting};
ghost use Rattle.stack_check.specs.Inference.{Keeps, NothingNew, Sees, WhereChanged};
ghost use Rattle.stack_check.specs.Inference.{AddsCalls};
ghost use Rattle.stack_check.specs.Inference.{HandsIn};

use crate::facts::{Facts, Trial, give};
use crate::judged::Judged;
use crate::reach::Found;
use crate::seen::Seen;
use nwq_value::NoMemory;
use stack_lists::{Heap, Todo, same};
use stack_shape::Entry;

/// RETN of a called routine, with nothing saved or pending.
#[tactic(auto, using(crate::proofs::ReturnSteps::giving, crate::proofs::Following::adding, crate::proofs::Handing::giving))]
fn return_cells(
    judged: &Judged<'_>,
    heap: &Heap,
    facts: &mut Facts,
    todo: &mut Todo,
    from: Found,
    trial: Trial,
    target: u32,
) -> Result<Seen, NoMemory>
    requires keeps { Keeps judged.now.table.now judged.now.code.now heap.now facts.old }
    requires row { row_in facts.old.rows from.trial from.place ≡ Some from.held }
    requires op { op_at judged.now.code.now from.place ≡ Some Retn }
    requires trial { slice_get facts.old.trials from.trial ≡ Some trial }
    requires entry { trial.entry ≡ Called target }
    requires saved { read heap.now.saved from.held.saved ≡ [] }
    requires pending { from.held.pending ≡ 0 }
    ensures sees { IfOk result (λ seen. Sees judged.now.table.now judged.now.code.now heap.now
        heap.now facts.old facts.new from.trial from.place from.held seen) }
    ensures waits { IfOk result (λ seen. NothingNew todo.old todo.new seen) }
    ensures few { IfOk result (λ _. AddsCalls todo.old todo.new 3) }
    ensures hands { IfOk result (λ _. HandsIn judged.now.code.now facts.old facts.new todo.old
        todo.new) }
    // Once it is known what the routine gives, its calls are looked at again, before all else.
    ensures again { IfOk result (λ seen. WhereChanged seen (waiting todo.new ≡ waiting todo.old
        ++ map stands_at (calls_of todo.old target))) }
{
    match trial.given {
        None => {
            give(judged, heap, facts, from.trial, from.held.cells)?;
            todo.call_again(target)?;
            Ok(Seen::Changed)
        }
        Some(given) => {
            if same(&heap.slots, given, from.held.cells) {
                Ok(Seen::Quiet)
            } else {
                Ok(Seen::Bad)
            }
        }
    }
}

/// RETN of a called routine.
#[tactic(auto, using(crate::proofs::ReturnSteps::leaving))]
fn return_called(
    judged: &Judged<'_>,
    heap: &Heap,
    facts: &mut Facts,
    todo: &mut Todo,
    from: Found,
    trial: Trial,
    target: u32,
) -> Result<Seen, NoMemory>
    requires keeps { Keeps judged.now.table.now judged.now.code.now heap.now facts.old }
    requires row { row_in facts.old.rows from.trial from.place ≡ Some from.held }
    requires op { op_at judged.now.code.now from.place ≡ Some Retn }
    requires trial { slice_get facts.old.trials from.trial ≡ Some trial }
    requires entry { trial.entry ≡ Called target }
    ensures sees { IfOk result (λ seen. Sees judged.now.table.now judged.now.code.now heap.now
        heap.now facts.old facts.new from.trial from.place from.held seen) }
    ensures waits { IfOk result (λ seen. NothingNew todo.old todo.new seen) }
    ensures few { IfOk result (λ _. AddsCalls todo.old todo.new 3) }
    ensures hands { IfOk result (λ _. HandsIn judged.now.code.now facts.old facts.new todo.old
        todo.new) }
{
    if from.held.pending != 0 {
        return Ok(Seen::Bad);
    }
    match heap.saved.pop(from.held.saved) {
        Some((_top, _rest)) => Ok(Seen::Bad),
        None => return_cells(judged, heap, facts, todo, from, trial, target),
    }
}

/// RETN.
#[tactic(auto, using(crate::proofs::ReturnSteps::ending))]
pub fn returned(
    judged: &Judged<'_>,
    heap: &Heap,
    facts: &mut Facts,
    todo: &mut Todo,
    from: Found,
    trial: Trial,
) -> Result<Seen, NoMemory>
    requires keeps { Keeps judged.now.table.now judged.now.code.now heap.now facts.old }
    requires row { row_in facts.old.rows from.trial from.place ≡ Some from.held }
    requires op { op_at judged.now.code.now from.place ≡ Some Retn }
    requires trial { slice_get facts.old.trials from.trial ≡ Some trial }
    ensures sees { IfOk result (λ seen. Sees judged.now.table.now judged.now.code.now heap.now
        heap.now facts.old facts.new from.trial from.place from.held seen) }
    ensures waits { IfOk result (λ seen. NothingNew todo.old todo.new seen) }
    ensures few { IfOk result (λ _. AddsCalls todo.old todo.new 3) }
    ensures hands { IfOk result (λ _. HandsIn judged.now.code.now facts.old facts.new todo.old
        todo.new) }
{
    match trial.entry {
        Entry::Start => Ok(Seen::Quiet),
        Entry::Stored(_site) => Ok(Seen::Quiet),
        Entry::Called(target) => return_called(judged, heap, facts, todo, from, trial, target),
    }
}
