ghost use Rattle.std.specs.Prelude.{◌≡◌, IfOk, OnOk};
ghost use Rattle.ncs_code.specs.Plain.{plain};
ghost use Rattle.stack_lists.specs.Held.{IsIn, shape_of};
ghost use Rattle.stack_lists.specs.Worklist.{SameCalls};
ghost use Rattle.stack_check.specs.Inference.{AllLed, IsLed, IsStep, Keeps, NothingNew, Owed};
ghost use Rattle.stack_check.specs.Inference.{HandedIn, Reached};
ghost use Rattle.stack_check.specs.Inference.{RowIs, RowsKept, Takes};
ghost use Rattle.stack_check.specs.Inference.{Visited, WhereQuiet, after_change, leads_of};
ghost use Rattle.stack_check.specs.Inference.{Adds};
ghost use Rattle.stack_check.specs.Inference.{HandsIn, Stays};
ghost use Rattle.machine_rules.specs.Act.{next_place};

use crate::facts::Facts;
use crate::judged::Judged;
use crate::leads::Lead;
use crate::seen::Seen;
use ncs_code::Op;
use nwq_value::NoMemory;
use stack_lists::{Heap, Held, Spot, Todo, same_shape};
use stack_shape::rules_look_from_the_top;

/// Looks whether the trial has this shape at the place, and adds it where it has none there.
#[tactic(auto, using(crate::proofs::Reaching::reaching))]
fn reach(
    heap: &Heap,
    facts: &mut Facts,
    trial: u32,
    place: u32,
    held: Held,
) -> Result<Seen, NoMemory>
    ensures { IfOk result (λ seen. Reached heap.now facts.old facts.new trial place held seen) }
{
    match facts.rows.find(trial, place) {
        None => {
            facts.rows.add(trial, place, held)?;
            Ok(Seen::Changed)
        }
        Some(found) => {
            if same_shape(heap, found, held) {
                Ok(Seen::Quiet)
            } else {
                Ok(Seen::Bad)
            }
        }
    }
}

/// Has a place looked at where something was found.
#[tactic(auto, using(crate::proofs::Following::handing, crate::proofs::Handing::noting))]
pub fn note(todo: &mut Todo, seen: Seen, spot: Spot) -> Result<(), NoMemory>
    ensures waits { NothingNew todo.old todo.new seen }
    ensures few { OnOk result (Adds todo.old todo.new 1) }
    ensures stays { OnOk result (Stays todo.old todo.new) }
    ensures calls { OnOk result (SameCalls todo.old todo.new) }
    ensures handed { OnOk result (HandedIn todo.old todo.new spot seen) }
{
    match seen {
        Seen::Changed => todo.add(spot),
        Seen::Quiet => Ok(()),
        Seen::Bad => Ok(()),
    }
}

/// Reaches a shape that every table has at the place.
#[tactic(auto, using(crate::proofs::Following::following))]
pub fn follow(
    judged: &Judged<'_>,
    heap: &Heap,
    facts: &mut Facts,
    todo: &mut Todo,
    spot: Spot,
    held: Held,
) -> Result<Seen, NoMemory>
    requires keeps { Keeps judged.now.table.now judged.now.code.now heap.now facts.old }
    requires owed { Owed judged.now.table.now judged.now.code.now heap.now facts.old spot.trial
        spot.place held }
    requires inside { IsIn heap.now held }
    ensures keeps { IfOk result (λ seen. Visited judged.now.table.now judged.now.code.now heap.now
        facts.new seen) }
    ensures kept { IfOk result (λ _. RowsKept facts.old facts.new) }
    ensures takes { IfOk result (λ seen. Takes facts.old facts.new seen) }
    ensures quiet { IfOk result (λ seen. WhereQuiet seen ((facts.new ≡ facts.old)
        × RowIs heap.now facts.old spot.trial spot.place (shape_of heap.now held))) }
    ensures waits { IfOk result (λ seen. NothingNew todo.old todo.new seen) }
    ensures few { IfOk result (λ _. Adds todo.old todo.new 1) }
    ensures hands { IfOk result (λ _. HandsIn judged.now.code.now facts.old facts.new todo.old
        todo.new) }
    ensures handed { IfOk result (λ seen. HandedIn todo.old todo.new spot seen) }
{
    let _ = judged;
    let seen = reach(heap, facts, spot.trial, spot.place, held)?;
    note(todo, seen, spot)?;
    Ok(seen)
}

/// A shape that was found at a place of a trial.
#[derive(Clone, Copy)]
pub struct Found {
    pub trial: u32,
    pub place: u32,
    pub held: Held,
}

/// A shape that was found at an instruction, and the place behind that.
#[derive(Clone, Copy)]
pub struct FoundOp<'a> {
    pub from: Found,
    pub op: &'a Op<'a>,
    pub next: u32,
}

pub fn after_change(seen: Seen) -> Seen
    ensures { result ≡ after_change seen }
{
    match seen {
        Seen::Bad => Seen::Bad,
        Seen::Changed => Seen::Changed,
        Seen::Quiet => Seen::Changed,
    }
}

/// Reaches the shape after an instruction at one of the places to which it leads.
fn lead_to(
    judged: &Judged<'_>,
    heap: &Heap,
    facts: &mut Facts,
    todo: &mut Todo,
    at: &FoundOp<'_>,
    after: Held,
    lead: Lead,
    place: u32,
) -> Result<Seen, NoMemory>
    requires keeps { Keeps judged.now.table.now judged.now.code.now heap.now facts.old }
    requires step { IsStep judged.now.table.now judged.now.code.now heap.now facts.old
        at.now.from.trial at.now.from.place at.now.from.held (plain at.now.op.now) after }
    requires lead { lead ≡ leads_of at.now.from.place (next_place at.now.from.place (plain
        at.now.op.now)) (plain at.now.op.now) }
    requires led { IsLed lead place }
    ensures keeps { IfOk result (λ seen. Visited judged.now.table.now judged.now.code.now heap.now
        facts.new seen) }
    ensures kept { IfOk result (λ _. RowsKept facts.old facts.new) }
    ensures takes { IfOk result (λ seen. Takes facts.old facts.new seen) }
    ensures quiet { IfOk result (λ seen. WhereQuiet seen ((facts.new ≡ facts.old)
        × RowIs heap.now facts.old at.now.from.trial place (shape_of heap.now after))) }
    ensures waits { IfOk result (λ seen. NothingNew todo.old todo.new seen) }
    ensures few { IfOk result (λ _. Adds todo.old todo.new 1) }
    ensures hands { IfOk result (λ _. HandsIn judged.now.code.now facts.old facts.new todo.old
        todo.new) }
{
    rules_look_from_the_top();
    let _ = lead;
    let trial = at.from.trial;
    follow(judged, heap, facts, todo, Spot { trial, place }, after)
}

/// Reaches the shape after an instruction wherever it leads.
#[tactic(auto, using(crate::proofs::Following::leading, crate::proofs::Following::handing, crate::proofs::Handing::handing))]
pub fn lead(
    judged: &Judged<'_>,
    heap: &Heap,
    facts: &mut Facts,
    todo: &mut Todo,
    at: &FoundOp<'_>,
    after: Held,
    lead: Lead,
) -> Result<Seen, NoMemory>
    requires keeps { Keeps judged.now.table.now judged.now.code.now heap.now facts.old }
    requires step { IsStep judged.now.table.now judged.now.code.now heap.now facts.old
        at.now.from.trial at.now.from.place at.now.from.held (plain at.now.op.now) after }
    requires lead { lead ≡ leads_of at.now.from.place (next_place at.now.from.place (plain
        at.now.op.now)) (plain at.now.op.now) }
    ensures keeps { IfOk result (λ seen. Visited judged.now.table.now judged.now.code.now heap.now
        facts.new seen) }
    ensures kept { IfOk result (λ _. RowsKept facts.old facts.new) }
    ensures takes { IfOk result (λ seen. Takes facts.old facts.new seen) }
    ensures quiet { IfOk result (λ seen. WhereQuiet seen ((facts.new ≡ facts.old)
        × AllLed heap.now facts.old at.now.from.trial lead (shape_of heap.now after))) }
    ensures waits { IfOk result (λ seen. NothingNew todo.old todo.new seen) }
    ensures few { IfOk result (λ _. Adds todo.old todo.new 2) }
    ensures hands { IfOk result (λ _. HandsIn judged.now.code.now facts.old facts.new todo.old
        todo.new) }
{
    match lead {
        Lead::One(place) => lead_to(judged, heap, facts, todo, at, after, lead, place),
        Lead::Two(first, second) => {
            let seen = lead_to(judged, heap, facts, todo, at, after, lead, first)?;
            match seen {
                Seen::Bad => Ok(Seen::Bad),
                Seen::Quiet => lead_to(judged, heap, facts, todo, at, after, lead, second),
                Seen::Changed => {
                    let seen = lead_to(judged, heap, facts, todo, at, after, lead, second)?;
                    Ok(after_change(seen))
                }
            }
        }
    }
}
