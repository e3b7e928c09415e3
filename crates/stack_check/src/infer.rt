ghost use Rattle.std.specs.Prelude.{◌≡◌, ◌<◌, ◌≤◌, ◌+◌, ◌-◌, ◌^◌, [], false, true, IfOk, IfSome};
ghost use Rattle.std.specs.Prelude.{length};
ghost use Rattle.std.specs.Prelude.{MatchOption};
ghost use Rattle.stack_rules.specs.Rules.{WellStacked};
ghost use Rattle.stack_lists.specs.Worklist.{waiting};
ghost use Rattle.stack_check.specs.Costs.{CountsTurn, LooksAreFew, most_looks};
ghost use Rattle.stack_check.specs.Facts.{found, left};
ghost use Rattle.stack_check.specs.Inference.{AddsCalls, AreSettled, AreSettledBut, Goes, IsFound};
ghost use Rattle.stack_check.specs.Inference.{Keeps, NothingNew, SeesRow, SeesTurn};

use crate::facts::{Facts, Trial, Unseen};
use crate::judged::Judged;
use crate::reach::{Found, note};
use crate::seen::Seen;
use crate::visit::visit;
use ncs_file::Code;
use nwq_value::{Items, NoMemory, Table};
use stack_lists::{Heap, Held, Lists, Places, Rows, Spot, Stacks, Todo};
use stack_shape::{Entry, rules_look_from_the_top};
use std::alloc::Global;

/// Looks at the shape at a spot, if there is one. Where something is found the spot is handed in
/// again, so a row that doesn't wait was looked at without finding anything.
#[tactic(auto, using(crate::proofs::Meeting::looking, crate::proofs::Following::adding))]
fn look(
    alloc: Global,
    judged: &Judged<'_>,
    heap: &mut Heap,
    facts: &mut Facts,
    todo: &mut Todo,
    spot: Spot,
) -> Result<Seen, NoMemory>
    requires keeps { Keeps judged.now.table.now judged.now.code.now heap.old facts.old }
    requires settled { AreSettledBut judged.now.table.now judged.now.code.now heap.old facts.old
        todo.old spot }
    ensures sees { IfOk result (λ seen. SeesRow judged.now.table.now judged.now.code.now heap.new
        facts.old facts.new seen) }
    ensures settled { IfOk result (λ seen. Goes seen (AreSettled judged.now.table.now
        judged.now.code.now heap.new facts.new todo.new)) }
    ensures waits { IfOk result (λ seen. NothingNew todo.old todo.new seen) }
    ensures few { IfOk result (λ _. AddsCalls todo.old todo.new 4) }
{
    rules_look_from_the_top();
    match facts.rows.find(spot.trial, spot.place) {
        None => Ok(Seen::Quiet),
        Some(held) => {
            let from = Found {
                trial: spot.trial,
                place: spot.place,
                held,
            };
            let seen = visit(alloc, judged, heap, facts, todo, from)?;
            note(todo, seen, spot)?;
            Ok(seen)
        }
    }
}

/// Looks at what is to be looked at, up to the first that is not quiet. What is quiet hands in
/// nothing, so each spot is looked at once. Once nothing waits, the table that was found meets the
/// rules.
#[tactic(auto, using(crate::proofs::Ending::draining, crate::proofs::Costs::draining))]
fn drain(
    alloc: Global,
    judged: &Judged<'_>,
    heap: &mut Heap,
    facts: &mut Facts,
    todo: &mut Todo,
    looks: &mut u64,
) -> Result<Seen, NoMemory>
    requires keeps { Keeps judged.now.table.now judged.now.code.now heap.old facts.old }
    requires settled { AreSettled judged.now.table.now judged.now.code.now heap.old facts.old
        todo.old }
    ensures sees { IfOk result (λ seen. SeesTurn judged.now.table.now judged.now.code.now heap.new
        facts.old facts.new todo.new seen) }
    ensures looks { IfOk result (λ _. CountsTurn todo.old todo.new looks.old looks.new) }
{
    while let Some(spot) = todo.next() {
        *looks = looks.saturating_add(1);
        let seen = look(alloc, judged, heap, facts, todo, spot)?;
        match seen {
            Seen::Quiet => {}
            Seen::Changed => return Ok(Seen::Changed),
            Seen::Bad => return Ok(Seen::Bad),
        }
    }
    Ok(Seen::Quiet)
}

/// Looks at what is to be looked at, up to the first that is not quiet, and counts that.
fn turn(
    alloc: Global,
    judged: &Judged<'_>,
    heap: &mut Heap,
    facts: &mut Facts,
    todo: &mut Todo,
    turns: &mut u64,
    looks: &mut u64,
) -> Result<Seen, NoMemory>
    requires keeps { Keeps judged.now.table.now judged.now.code.now heap.old facts.old }
    requires settled { AreSettled judged.now.table.now judged.now.code.now heap.old facts.old
        todo.old }
    requires few { turns.old < 2 ^ 63 }
    ensures sees { IfOk result (λ seen. SeesTurn judged.now.table.now judged.now.code.now heap.new
        facts.old facts.new todo.new seen) }
    ensures turns { turns.new ≡ turns.old + 1 }
    ensures looks { IfOk result (λ _. CountsTurn todo.old todo.new looks.old looks.new) }
{
    *turns += 1;
    drain(alloc, judged, heap, facts, todo, looks)
}

/// What is known before anything was looked at: a script starts with nothing on its stack. Its
/// first row waits.
#[tactic(auto, using(crate::proofs::Ending::starting))]
fn first_facts(
    alloc: Global,
    judged: &Judged<'_>,
    heap: &Heap,
    todo: &mut Todo,
) -> Result<Facts, NoMemory>
    requires empty { (todo.old.calls ≡ []) × (todo.old.marks ≡ []) }
    ensures keeps { IfOk result (λ facts. Keeps judged.now.table.now judged.now.code.now heap.now
        facts) }
    ensures settled { IfOk result (λ facts. AreSettled judged.now.table.now judged.now.code.now
        heap.now facts todo.new) }
    ensures one { IfOk result (λ _. length (waiting todo.new) ≡ length (waiting todo.old) + 1) }
    ensures begins { IfOk result (λ facts. (found facts ≡ 1) × (left facts < 2 ^ 62)) }
{
    let _ = judged;
    let _ = heap;
    let held = Held {
        cells: 0,
        under: 0,
        saved: 0,
        pending: 0,
    };
    let trial = Trial {
        entry: Entry::Start,
        taken: 0,
        under: 0,
        given: None,
        unseen: Unseen { cells: 0, under: 0 },
        at_first: Unseen { cells: 0, under: 0 },
    };
    let mut rows = Rows::new(alloc);
    rows.add(0, 13, held)?;
    let mut trials = Items::new(alloc);
    trials.push(trial)?;
    todo.add(Spot {
        trial: 0,
        place: 13,
    })?;
    Ok(Facts {
        trials,
        called: Places::new(alloc),
        stored: Places::new(alloc),
        rows,
    })
}

/// What was found.
#[derive(Drop)]
pub struct Kept {
    pub heap: Heap,
    pub facts: Facts,
    /// How many turns it took.
    pub turns: u64,
    /// How many looks.
    pub looks: u64,
    /// How many calls are kept.
    pub calls: usize,
}

/// Goes on until nothing waits, and tells whether there is a table.
#[tactic(auto, using(crate::proofs::Ending::ending, crate::proofs::Costs::settling))]
fn settle(
    alloc: Global,
    judged: &Judged<'_>,
    heap: &mut Heap,
    facts: &mut Facts,
    todo: &mut Todo,
    turns: &mut u64,
    looks: &mut u64,
) -> Result<bool, NoMemory>
    requires keeps { Keeps judged.now.table.now judged.now.code.now heap.old facts.old }
    requires settled { AreSettled judged.now.table.now judged.now.code.now heap.old facts.old
        todo.old }
    requires begins { turns.old + left facts.old < 2 ^ 63 }
    ensures found { IfOk result (λ found. found ≡ true → IsFound judged.now.table.now
        judged.now.code.now heap.new facts.new) }
    ensures none { IfOk result (λ found. found ≡ false → WellStacked judged.now.table.now
        judged.now.code.now → ⊥) }
    // A turn that isn't the last one finds something.
    ensures turns { IfOk result (λ is_found. is_found ≡ true → turns.new + found facts.old
        ≤ turns.old + found facts.new + 1) }
    // Whatever it finds, its looks are bounded by its turns and calls.
    ensures looks { IfOk result (λ _. LooksAreFew judged.now.table.now judged.now.code.now facts.old
        todo.old todo.new turns.old turns.new looks.old looks.new) }
    ensures few { IfOk result (λ found. found ≡ true → looks.new ≤ looks.old
        + length (waiting todo.old) + most_looks (turns.new - turns.old) (length todo.new.calls)) }
    // Each call that is kept is of a row of its own.
    ensures calls { IfOk result (λ found. found ≡ true → length todo.new.calls
        ≤ length facts.new.rows) }
{
    'work: loop {
        match turn(alloc, judged, heap, facts, todo, turns, looks)? {
            Seen::Quiet => return Ok(true),
            Seen::Bad => return Ok(false),
            Seen::Changed => {}
        }
    }
}

/// A table of shapes that meets the rules, if there is one.
#[tactic(auto, using(crate::proofs::Costs::inferring))]
pub fn infer(alloc: Global, code: &Code, table: &Table) -> Result<Option<Kept>, NoMemory>
    ensures found { IfOk result (λ kept. MatchOption kept (WellStacked table.now code.now → ⊥)
        (λ k. IsFound table.now code.now k.heap k.facts)) }
    ensures turns { IfOk result (λ kept. IfSome kept (λ k. k.turns ≤ found k.facts)) }
    ensures looks { IfOk result (λ kept. IfSome kept (λ k.
        k.looks ≤ most_looks k.turns k.calls + 1)) }
    ensures calls { IfOk result (λ kept. IfSome kept (λ k. k.calls ≤ length k.facts.rows)) }
{
    let heap = Heap {
        slots: Stacks::new(alloc),
        saved: Lists::new(alloc),
    };
    // What is owned is dropped by calls, since a drop that is left to the end of a scope is dear to
    // prove.
    let judged = Judged { code, table };
    let mut todo = Todo::new(alloc);
    match first_facts(alloc, &judged, &heap, &mut todo) {
        Err(error) => {
            drop(heap);
            drop(todo);
            Err(error)
        }
        Ok(facts) => {
            let mut kept = Kept {
                heap,
                facts,
                turns: 0,
                looks: 0,
                calls: 0,
            };
            let found = settle(
                alloc,
                &judged,
                &mut kept.heap,
                &mut kept.facts,
                &mut todo,
                &mut kept.turns,
                &mut kept.looks,
            );
            kept.calls = todo.kept();
            drop(todo);
            match found {
                Err(error) => {
                    drop(kept);
                    Err(error)
                }
                Ok(false) => {
                    drop(kept);
                    Ok(None)
                }
                Ok(true) => Ok(Some(kept)),
            }
        }
    }
}
