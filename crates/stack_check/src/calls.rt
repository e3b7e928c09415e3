ghost use Rattle.std.specs.Prelude.{◌+◌, ◌-◌, ◌≡◌, ◌<◌, ◌≤◌, ◌++◌, None, Some, IfOk, OnOk};
ghost use Rattle.std.specs.Prelude.{IsTrue, MatchOption, length, take, true, ◌↔◌};
ghost use Rattle.stack_shape.specs.declared.shape.Entry.TheVariants.{Called};
ghost use Rattle.stack_lists.specs.Shared.{read};
ghost use Rattle.stack_lists.specs.Rows.{row_in};
ghost use Rattle.stack_lists.specs.Held.{IsIn, shape_of};
ghost use Rattle.stack_check.specs.Facts.{FindsMore, current};
ghost use Rattle.stack_check.specs.Inference.{AllIn, BeginsAlike, Calls, Formed, IsCall, Keeps};
ghost use Rattle.stack_check.specs.Inference.{IsKept, NothingNew, RowIs, Sees, TrialIn, Within};
ghost use Rattle.stack_check.specs.Inference.{window};
ghost use Rattle.stack_check.specs.Inference.{Adds, AddsCalls};
ghost use Rattle.stack_check.specs.Inference.{HandsIn};
ghost use Rattle.stack_rules.specs.Rules.{WellStacked};

use crate::facts::{Facts, Trial, Unseen, begin};
use crate::judged::Judged;
use crate::reach::{Found, follow};
use crate::rings::{Window, grows_for_ever};
use crate::see::see;
use crate::seen::Seen;
use nwq_value::NoMemory;
use stack_lists::{Call, Heap, Held, Side, Spot, Todo, with_cells};
use stack_shape::{Entry, Reach};
use std::alloc::Global;

/// A shape that was found at a call of a routine, and the place behind the call.
#[derive(Clone, Copy)]
pub struct FoundCall {
    pub from: Found,
    pub target: u32,
    pub next: u32,
}

/// A call of a routine that has no trial yet.
#[tactic(auto, using(crate::proofs::CallSteps::first, crate::proofs::Following::adding, crate::proofs::Handing::handing))]
fn call_first(
    judged: &Judged<'_>,
    heap: &Heap,
    facts: &mut Facts,
    todo: &mut Todo,
    from: Found,
    target: u32,
) -> Result<(), NoMemory>
    requires keeps { Keeps judged.now.table.now judged.now.code.now heap.now facts.old }
    requires row { row_in facts.old.rows from.trial from.place ≡ Some from.held }
    requires op { IsCall judged.now.code.now from.place target }
    requires fresh { current facts.old (Called target) ≡ None }
    ensures keeps { IfOk result (λ _. Keeps judged.now.table.now judged.now.code.now heap.now
        facts.new) }
    ensures takes { IfOk result (λ _. FindsMore facts.old facts.new) }
    ensures few { OnOk result (Adds todo.old todo.new 1) }
    ensures hands { OnOk result (HandsIn judged.now.code.now facts.old facts.new todo.old
        todo.new) }
{
    let unseen = Unseen {
        cells: heap.slots.depth(from.held.cells),
        under: heap.slots.depth(from.held.under),
    };
    let trial = Trial {
        entry: Entry::Called(target),
        taken: from.held.cells,
        under: from.held.under,
        given: None,
        unseen,
        at_first: unseen,
    };
    begin(judged, heap, facts, todo, trial)
}

/// How many slots of the lists of a trial were looked at.
fn window(heap: &Heap, trial: Trial) -> Reach
    requires inside { TrialIn heap.now trial }
    ensures { result ≡ window heap.now trial }
{
    Reach {
        cells: (heap.slots.depth(trial.taken) - trial.unseen.cells) as usize,
        under: (heap.slots.depth(trial.under) - trial.unseen.under) as usize,
    }
}

/// Whether a shape begins with what a routine takes.
#[tactic(auto, using(crate::proofs::CallSteps::beginning))]
fn begins(heap: &mut Heap, held: Held, callee: Trial) -> Result<bool, NoMemory>
    requires held { IsIn heap.old held }
    requires inside { TrialIn heap.old callee }
    ensures same { heap.new ≡ heap.old }
    ensures begins { IfOk result (λ begins. IsTrue begins ↔ BeginsAlike heap.old held callee) }
{
    let window = window(heap, callee);
    let cells = heap.slots.agree(held.cells, callee.taken, window.cells)?;
    let under = heap.slots.agree(held.under, callee.under, window.under)?;
    Ok(cells && under)
}

/// Whether a shape is another one with so many of these slots on a list in the place of its cells.
#[tactic(auto, using(crate::proofs::CallSteps::behind_parts))]
fn is_behind(
    heap: &mut Heap,
    found: Held,
    held: Held,
    given: u32,
    count: usize,
    rest: u32,
) -> Result<bool, NoMemory>
    requires found { IsIn heap.old found }
    requires given { given ≤ length heap.old.slots }
    requires count { count ≤ length (read heap.old.slots given) }
    ensures same { heap.new ≡ heap.old }
    ensures behind { IfOk result (λ behind. behind ≡ true
        → shape_of heap.old found ≡ record (shape_of heap.old held) {
          cells = take count (read heap.old.slots given) ++ read heap.old.slots rest;
        }) }
{
    if found.under != held.under || found.saved != held.saved || found.pending != held.pending {
        return Ok(false);
    }
    if heap.slots.lower(found.cells, count) != rest {
        return Ok(false);
    }
    heap.slots.agree(found.cells, given, count)
}

/// Whether that shape was found behind a call.
fn is_found(
    heap: &mut Heap,
    facts: &Facts,
    from: Found,
    next: u32,
    given: u32,
    count: usize,
    rest: u32,
) -> Result<bool, NoMemory>
    requires inside { AllIn heap.old facts.now }
    requires given { given ≤ length heap.old.slots }
    requires count { count ≤ length (read heap.old.slots given) }
    ensures same { heap.new ≡ heap.old }
    ensures found { IfOk result (λ found. found ≡ true → RowIs heap.old facts.now from.trial next
        (record (shape_of heap.old from.held) {
          cells = take count (read heap.old.slots given) ++ read heap.old.slots rest;
        })) }
{
    match facts.rows.find(from.trial, next) {
        None => Ok(false),
        Some(found) => {
            let behind = is_behind(heap, found, from.held, given, count, rest)?;
            Ok(behind)
        }
    }
}

/// A call of a routine of which it is known what it gives.
#[tactic(auto, using(crate::proofs::Following::handing, crate::proofs::Handing::handing))]
fn call_given(
    alloc: Global,
    judged: &Judged<'_>,
    heap: &mut Heap,
    facts: &mut Facts,
    todo: &mut Todo,
    at: FoundCall,
    callee: Trial,
    given: u32,
) -> Result<Seen, NoMemory>
    requires keeps { Keeps judged.now.table.now judged.now.code.now heap.old facts.old }
    requires row { row_in facts.old.rows at.from.trial at.from.place ≡ Some at.from.held }
    requires op { IsCall judged.now.code.now at.from.place at.target }
    requires next { at.next ≡ at.from.place + 6 }
    requires calls { Calls facts.old at.target callee }
    requires given { callee.given ≡ Some given }
    requires begins { BeginsAlike heap.old at.from.held callee }
    requires within { Within heap.old facts.old at.from.trial (shape_of heap.old at.from.held)
        (window heap.old callee) }
    ensures sees { IfOk result (λ seen. Sees judged.now.table.now judged.now.code.now heap.old
        heap.new facts.old facts.new at.from.trial at.from.place at.from.held seen) }
    ensures waits { IfOk result (λ seen. NothingNew todo.old todo.new seen) }
    ensures few { IfOk result (λ _. AddsCalls todo.old todo.new 3) }
    ensures hands { IfOk result (λ _. HandsIn judged.now.code.now facts.old facts.new todo.old
        todo.new) }
{
    let count = (heap.slots.depth(given) - callee.unseen.cells) as usize;
    let rest = heap
        .slots
        .lower(at.from.held.cells, window(heap, callee).cells);
    if is_found(heap, facts, at.from, at.next, given, count, rest)? {
        return Ok(Seen::Quiet);
    }
    let now = with_cells(alloc, heap, at.from.held, given, count, rest)?;
    let spot = Spot {
        trial: at.from.trial,
        place: at.next,
    };
    let seen = follow(judged, heap, facts, todo, spot, now)?;
    Ok(seen)
}

/// Whether windows of a trial that a call made grow do so for ever. It is looked for once as many
/// have grown as there are trials, so the search takes no longer than the growth.
fn grows(judged: &Judged<'_>, heap: &Heap, facts: &Facts, todo: &mut Todo, trial: u32) -> bool
    requires keeps { Keeps judged.now.table.now judged.now.code.now heap.now facts.now }
    ensures none { result ≡ true → WellStacked judged.now.table.now judged.now.code.now → ⊥ }
    ensures same { todo.new ≡ todo.old }
{
    if !todo.is_due(facts.trials.len()) {
        return false;
    }
    let cells = Window {
        trial,
        side: Side::Cells,
    };
    if grows_for_ever(judged, heap, facts, todo, cells) {
        return true;
    }
    let under = Window {
        trial,
        side: Side::Under,
    };
    grows_for_ever(judged, heap, facts, todo, under)
}

/// A call of a routine whose trial is this one.
#[tactic(auto, using(crate::proofs::Following::handing, crate::proofs::Handing::handing, crate::proofs::RingLemmas::growing))]
fn call_known(
    alloc: Global,
    judged: &Judged<'_>,
    heap: &mut Heap,
    facts: &mut Facts,
    todo: &mut Todo,
    at: FoundCall,
    callee: Trial,
) -> Result<Seen, NoMemory>
    requires keeps { Keeps judged.now.table.now judged.now.code.now heap.old facts.old }
    requires row { row_in facts.old.rows at.from.trial at.from.place ≡ Some at.from.held }
    requires op { IsCall judged.now.code.now at.from.place at.target }
    requires next { at.next ≡ at.from.place + 6 }
    requires calls { Calls facts.old at.target callee }
    ensures sees { IfOk result (λ seen. Sees judged.now.table.now judged.now.code.now heap.old
        heap.new facts.old facts.new at.from.trial at.from.place at.from.held seen) }
    ensures waits { IfOk result (λ seen. NothingNew todo.old todo.new seen) }
    ensures few { IfOk result (λ _. AddsCalls todo.old todo.new 3) }
    ensures hands { IfOk result (λ _. HandsIn judged.now.code.now facts.old facts.new todo.old
        todo.new) }
{
    if !begins(heap, at.from.held, callee)? {
        return Ok(Seen::Bad);
    }
    if see(
        judged,
        heap,
        facts,
        todo,
        at.from,
        window(heap, callee),
        at.from.place,
    )? {
        if grows(judged, heap, facts, todo, at.from.trial) {
            return Ok(Seen::Bad);
        }
        return Ok(Seen::Changed);
    }
    match callee.given {
        None => Ok(Seen::Quiet),
        Some(given) => {
            let seen = call_given(alloc, judged, heap, facts, todo, at, callee, given)?;
            Ok(seen)
        }
    }
}

/// JSR, which isn't kept yet.
#[tactic(auto, using(crate::proofs::Following::handing, crate::proofs::Handing::handing))]
fn call_routine(
    alloc: Global,
    judged: &Judged<'_>,
    heap: &mut Heap,
    facts: &mut Facts,
    todo: &mut Todo,
    at: FoundCall,
) -> Result<Seen, NoMemory>
    requires keeps { Keeps judged.now.table.now judged.now.code.now heap.old facts.old }
    requires row { row_in facts.old.rows at.from.trial at.from.place ≡ Some at.from.held }
    requires op { IsCall judged.now.code.now at.from.place at.target }
    requires next { at.next ≡ at.from.place + 6 }
    ensures sees { IfOk result (λ seen. Sees judged.now.table.now judged.now.code.now heap.old
        heap.new facts.old facts.new at.from.trial at.from.place at.from.held seen) }
    ensures waits { IfOk result (λ seen. NothingNew todo.old todo.new seen) }
    ensures few { IfOk result (λ _. AddsCalls todo.old todo.new 3) }
    ensures hands { IfOk result (λ _. HandsIn judged.now.code.now facts.old facts.new todo.old
        todo.new) }
{
    match counting(facts, at.target) {
        None => {
            call_first(judged, heap, facts, todo, at.from, at.target)?;
            Ok(Seen::Changed)
        }
        Some(callee) => call_known(alloc, judged, heap, facts, todo, at, callee),
    }
}

/// JSR. The call is kept, and looked at again when more is known of the routine.
#[tactic(auto, using(crate::proofs::Following::keeping))]
pub fn call(
    alloc: Global,
    judged: &Judged<'_>,
    heap: &mut Heap,
    facts: &mut Facts,
    todo: &mut Todo,
    at: FoundCall,
) -> Result<Seen, NoMemory>
    requires keeps { Keeps judged.now.table.now judged.now.code.now heap.old facts.old }
    requires row { row_in facts.old.rows at.from.trial at.from.place ≡ Some at.from.held }
    requires op { IsCall judged.now.code.now at.from.place at.target }
    requires next { at.next ≡ at.from.place + 6 }
    ensures sees { IfOk result (λ seen. Sees judged.now.table.now judged.now.code.now heap.old
        heap.new facts.old facts.new at.from.trial at.from.place at.from.held seen) }
    ensures waits { IfOk result (λ seen. NothingNew todo.old todo.new seen) }
    ensures few { IfOk result (λ _. AddsCalls todo.old todo.new 3) }
    ensures hands { IfOk result (λ _. HandsIn judged.now.code.now facts.old facts.new todo.old
        todo.new) }
    ensures kept { IfOk result (λ _. IsKept todo.new at.target
        (record { trial = at.from.trial; place = at.from.place })) }
{
    let seen = call_routine(alloc, judged, heap, facts, todo, at)?;
    let row = facts.rows.number(at.from.trial, at.from.place);
    let call = Call {
        spot: Spot {
            trial: at.from.trial,
            place: at.from.place,
        },
        target: at.target,
    };
    todo.add_call(row, call)?;
    Ok(seen)
}

/// The trial that counts for the routine that begins at a place.
#[tactic(auto, using(crate::proofs::CallSteps::counting))]
fn counting(facts: &Facts, target: u32) -> Option<Trial>
    requires formed { Formed facts.now }
    ensures { MatchOption result (current facts.now (Called target) ≡ None)
        (λ callee. Calls facts.now target callee) }
{
    let number = facts.called.get(target);
    if number == 0 {
        return None;
    }
    match facts.trials.get(number as usize) {
        None => None,
        Some(trial) => Some(*trial),
    }
}
