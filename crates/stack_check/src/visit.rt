ghost use Rattle.std.specs.Prelude.{◌≡◌, ◌+◌, ◌<◌, ◌^◌, Some, None, IfOk};
ghost use Rattle.std.specs.Prelude.{MatchOption};
ghost use Rattle.ncs_code.specs.Plain.{plain, Retn, StoreState};
ghost use Rattle.ncs_code.specs.File.{op_at};
ghost use Rattle.ncs_code.specs.Spelling.{op_size};
ghost use Rattle.machine_rules.specs.Act.{next_place};
ghost use Rattle.stack_shape.specs.Rule.{IsOneStep};
ghost use Rattle.stack_shape.specs.declared.shape.Entry.TheVariants.{Stored};
ghost use Rattle.stack_lists.specs.Held.{IsIn, shape_of};
ghost use Rattle.stack_lists.specs.Rows.{row_in};
ghost use Rattle.stack_check.specs.Facts.{current};
ghost use Rattle.stack_check.specs.Inference.{IsPlain, IsStored, Keeps, NothingNew, Resumes, Sees};
ghost use Rattle.stack_check.specs.Inference.{SeesStep, StoresAs, Takes, Visited, WhereQuiet};
ghost use Rattle.stack_check.specs.Inference.{leads_of};
ghost use Rattle.stack_check.specs.Inference.{Adds, AddsCalls};
ghost use Rattle.stack_check.specs.Inference.{HandsIn, IsCallKept};

use crate::calls::{FoundCall, call};
use crate::facts::{Facts, Trial, Unseen, begin};
use crate::judged::Judged;
use crate::leads::{Kind, kind_of, leads_of};
use crate::reach::{Found, FoundOp, after_change, follow, lead};
use crate::returns::returned;
use crate::see::see;
use crate::seen::Seen;
use ncs_code::{Op, place_laws};
use ncs_file::Code;
use nwq_value::NoMemory;
use stack_lists::{Heap, Held, Spot, Todo, resumed, step};
use stack_shape::{Entry, reach_of, rules_look_from_the_top, rules_look_no_deeper};
use std::alloc::Global;

/// An instruction with a rule of one shape, but for what it stores.
#[tactic(auto, using(crate::proofs::Visits::steps, crate::proofs::Following::handing, crate::proofs::Handing::handing))]
fn visit_step(
    alloc: Global,
    judged: &Judged<'_>,
    heap: &mut Heap,
    facts: &mut Facts,
    todo: &mut Todo,
    at: &FoundOp<'_>,
) -> Result<Seen, NoMemory>
    requires keeps { Keeps judged.now.table.now judged.now.code.now heap.old facts.old }
    requires row { row_in facts.old.rows at.now.from.trial at.now.from.place ≡
        Some at.now.from.held }
    requires op { op_at judged.now.code.now at.now.from.place ≡ Some (plain at.now.op.now) }
    requires one { IsOneStep (plain at.now.op.now) }
    requires next { at.now.next ≡ next_place at.now.from.place (plain at.now.op.now) }
    requires bound { at.now.from.place < 2 ^ 31 }
    ensures sees { IfOk result (λ seen. SeesStep judged.now.table.now judged.now.code.now heap.old
        heap.new facts.old facts.new at.now.from.trial at.now.from.place at.now.from.held (plain
        at.now.op.now) seen) }
    ensures waits { IfOk result (λ seen. NothingNew todo.old todo.new seen) }
    ensures few { IfOk result (λ _. AddsCalls todo.old todo.new 2) }
    ensures hands { IfOk result (λ _. HandsIn judged.now.code.now facts.old facts.new todo.old
        todo.new) }
{
    rules_look_from_the_top();
    rules_look_no_deeper();
    match step(alloc, at.op, judged.table, heap, at.from.held)? {
        None => Ok(Seen::Bad),
        Some(after) => {
            let reach = reach_of(at.op, judged.table);
            if see(judged, heap, facts, todo, at.from, reach, 0)? {
                return Ok(Seen::Changed);
            }
            let leads = leads_of(at.op, at.from.place, at.next);
            let seen = lead(judged, heap, facts, todo, at, after, leads)?;
            Ok(seen)
        }
    }
}

/// The trial that counts for what is stored at a place.
#[tactic(auto, using(crate::proofs::Storing::counting))]
fn stored_trial(facts: &Facts, site: u32) -> Option<u32>
    ensures { MatchOption result (current facts.now (Stored site) ≡ None)
        (λ number. current facts.now (Stored site) ≡ Some number) }
{
    let number = facts.stored.get(site);
    if number == 0 { None } else { Some(number) }
}

/// Reaches the shape with which the state resumes that is stored at a place.
#[tactic(auto, using(crate::proofs::Storing::resuming, crate::proofs::Following::adding, crate::proofs::Handing::handing))]
fn resume(
    judged: &Judged<'_>,
    heap: &Heap,
    facts: &mut Facts,
    todo: &mut Todo,
    site: u32,
    held: Held,
) -> Result<Seen, NoMemory>
    requires keeps { Keeps judged.now.table.now judged.now.code.now heap.now facts.old }
    requires owed { Resumes judged.now.table.now judged.now.code.now site (shape_of heap.now held) }
    requires inside { IsIn heap.now held }
    requires first { (held.saved ≡ 0) × (held.pending ≡ 0) }
    requires bound { site < 2 ^ 31 }
    ensures keeps { IfOk result (λ seen. Visited judged.now.table.now judged.now.code.now heap.now
        facts.new seen) }
    ensures takes { IfOk result (λ seen. Takes facts.old facts.new seen) }
    ensures quiet { IfOk result (λ seen. WhereQuiet seen ((facts.new ≡ facts.old)
        × IsStored heap.now facts.old site (shape_of heap.now held))) }
    ensures waits { IfOk result (λ seen. NothingNew todo.old todo.new seen) }
    ensures few { IfOk result (λ _. Adds todo.old todo.new 1) }
    ensures hands { IfOk result (λ _. HandsIn judged.now.code.now facts.old facts.new todo.old
        todo.new) }
{
    match stored_trial(facts, site) {
        None => {
            let trial = Trial {
                entry: Entry::Stored(site),
                taken: held.cells,
                under: held.under,
                given: None,
                unseen: Unseen { cells: 0, under: 0 },
                at_first: Unseen { cells: 0, under: 0 },
            };
            begin(judged, heap, facts, todo, trial)?;
            Ok(Seen::Changed)
        }
        Some(trial) => {
            let spot = Spot {
                trial,
                place: site + 16,
            };
            let seen = follow(judged, heap, facts, todo, spot, held)?;
            Ok(seen)
        }
    }
}

/// STORE_STATE, of a state that resumes with this shape.
#[tactic(auto, using(crate::proofs::Storing::storing, crate::proofs::Following::handing, crate::proofs::Handing::handing))]
fn visit_store(
    alloc: Global,
    judged: &Judged<'_>,
    heap: &mut Heap,
    facts: &mut Facts,
    todo: &mut Todo,
    at: &FoundOp<'_>,
    stored: Held,
) -> Result<Seen, NoMemory>
    requires keeps { Keeps judged.now.table.now judged.now.code.now heap.old facts.old }
    requires row { row_in facts.old.rows at.now.from.trial at.now.from.place ≡
        Some at.now.from.held }
    requires op { op_at judged.now.code.now at.now.from.place ≡ Some (plain at.now.op.now) }
    requires stores { StoresAs (plain at.now.op.now) (shape_of heap.old at.now.from.held)
        (shape_of heap.old stored) }
    requires inside { IsIn heap.old stored }
    requires first { (stored.saved ≡ 0) × (stored.pending ≡ 0) }
    requires next { at.now.next ≡ next_place at.now.from.place (plain at.now.op.now) }
    requires bound { at.now.from.place < 2 ^ 31 }
    ensures sees { IfOk result (λ seen. Sees judged.now.table.now judged.now.code.now heap.old
        heap.new facts.old facts.new at.now.from.trial at.now.from.place at.now.from.held seen) }
    ensures waits { IfOk result (λ seen. NothingNew todo.old todo.new seen) }
    ensures few { IfOk result (λ _. AddsCalls todo.old todo.new 3) }
    ensures hands { IfOk result (λ _. HandsIn judged.now.code.now facts.old facts.new todo.old
        todo.new) }
{
    rules_look_from_the_top();
    let first = visit_step(alloc, judged, heap, facts, todo, at)?;
    match first {
        Seen::Bad => Ok(Seen::Bad),
        Seen::Quiet => {
            let seen = resume(judged, heap, facts, todo, at.from.place, stored)?;
            Ok(seen)
        }
        Seen::Changed => {
            let seen = resume(judged, heap, facts, todo, at.from.place, stored)?;
            Ok(after_change(seen))
        }
    }
}

/// An instruction with a rule of one shape that stores no state.
#[tactic(auto, using(crate::proofs::Visits::plain_sees))]
fn visit_plain(
    alloc: Global,
    judged: &Judged<'_>,
    heap: &mut Heap,
    facts: &mut Facts,
    todo: &mut Todo,
    at: &FoundOp<'_>,
) -> Result<Seen, NoMemory>
    requires keeps { Keeps judged.now.table.now judged.now.code.now heap.old facts.old }
    requires row { row_in facts.old.rows at.now.from.trial at.now.from.place ≡
        Some at.now.from.held }
    requires op { op_at judged.now.code.now at.now.from.place ≡ Some (plain at.now.op.now) }
    requires one { IsOneStep (plain at.now.op.now) }
    requires plain { IsPlain (plain at.now.op.now) }
    requires next { at.now.next ≡ next_place at.now.from.place (plain at.now.op.now) }
    requires bound { at.now.from.place < 2 ^ 31 }
    ensures sees { IfOk result (λ seen. Sees judged.now.table.now judged.now.code.now heap.old
        heap.new facts.old facts.new at.now.from.trial at.now.from.place at.now.from.held seen) }
    ensures waits { IfOk result (λ seen. NothingNew todo.old todo.new seen) }
    ensures few { IfOk result (λ _. AddsCalls todo.old todo.new 3) }
    ensures hands { IfOk result (λ _. HandsIn judged.now.code.now facts.old facts.new todo.old
        todo.new) }
{
    let seen = visit_step(alloc, judged, heap, facts, todo, at)?;
    Ok(seen)
}

/// STORE_STATE, of so many bytes of globals and of locals.
fn visit_stored(
    alloc: Global,
    judged: &Judged<'_>,
    heap: &mut Heap,
    facts: &mut Facts,
    todo: &mut Todo,
    at: &FoundOp<'_>,
    globals: u32,
    locals: u32,
) -> Result<Seen, NoMemory>
    requires keeps { Keeps judged.now.table.now judged.now.code.now heap.old facts.old }
    requires row { row_in facts.old.rows at.now.from.trial at.now.from.place ≡
        Some at.now.from.held }
    requires op { op_at judged.now.code.now at.now.from.place ≡ Some (plain at.now.op.now) }
    requires store { plain at.now.op.now ≡ StoreState globals locals }
    requires next { at.now.next ≡ next_place at.now.from.place (plain at.now.op.now) }
    requires bound { at.now.from.place < 2 ^ 31 }
    ensures sees { IfOk result (λ seen. Sees judged.now.table.now judged.now.code.now heap.old
        heap.new facts.old facts.new at.now.from.trial at.now.from.place at.now.from.held seen) }
    ensures waits { IfOk result (λ seen. NothingNew todo.old todo.new seen) }
    ensures few { IfOk result (λ _. AddsCalls todo.old todo.new 3) }
    ensures hands { IfOk result (λ _. HandsIn judged.now.code.now facts.old facts.new todo.old
        todo.new) }
{
    rules_look_from_the_top();
    match resumed(alloc, globals, locals, heap, at.from.held)? {
        None => Ok(Seen::Bad),
        Some(stored) => {
            let seen = visit_store(alloc, judged, heap, facts, todo, at, stored)?;
            Ok(seen)
        }
    }
}

/// The place behind an instruction.
pub fn end_of(code: &Code, op: &Op<'_>, place: u32, size: u32) -> u32
    requires op { op_at code.now place ≡ Some (plain op.now) }
    requires size { size ≡ op_size (plain op.now) }
    ensures next { result ≡ next_place place (plain op.now) }
    ensures bound { place < 2 ^ 31 }
{
    place_laws();
    code.sound();
    let _ = op;
    place + size
}

/// RETN.
#[tactic(auto, using(crate::proofs::Storing::trial_none))]
fn visit_return(
    judged: &Judged<'_>,
    heap: &Heap,
    facts: &mut Facts,
    todo: &mut Todo,
    from: Found,
) -> Result<Seen, NoMemory>
    requires keeps { Keeps judged.now.table.now judged.now.code.now heap.now facts.old }
    requires row { row_in facts.old.rows from.trial from.place ≡ Some from.held }
    requires op { op_at judged.now.code.now from.place ≡ Some Retn }
    ensures sees { IfOk result (λ seen. Sees judged.now.table.now judged.now.code.now heap.now
        heap.now facts.old facts.new from.trial from.place from.held seen) }
    ensures waits { IfOk result (λ seen. NothingNew todo.old todo.new seen) }
    ensures few { IfOk result (λ _. AddsCalls todo.old todo.new 3) }
    ensures hands { IfOk result (λ _. HandsIn judged.now.code.now facts.old facts.new todo.old
        todo.new) }
{
    match facts.trials.get(from.trial as usize) {
        None => unreachable!(),
        Some(trial) => {
            let trial = *trial;
            returned(judged, heap, facts, todo, from, trial)
        }
    }
}

/// The instruction at a place, which takes so many bytes.
#[tactic(auto, using(crate::proofs::Storing::kinds, crate::proofs::Settling::keeping))]
fn visit_op(
    alloc: Global,
    judged: &Judged<'_>,
    heap: &mut Heap,
    facts: &mut Facts,
    todo: &mut Todo,
    from: Found,
    op: &Op<'_>,
    size: u32,
) -> Result<Seen, NoMemory>
    requires keeps { Keeps judged.now.table.now judged.now.code.now heap.old facts.old }
    requires row { row_in facts.old.rows from.trial from.place ≡ Some from.held }
    requires op { op_at judged.now.code.now from.place ≡ Some (plain op.now) }
    requires size { size ≡ op_size (plain op.now) }
    ensures sees { IfOk result (λ seen. Sees judged.now.table.now judged.now.code.now heap.old
        heap.new facts.old facts.new from.trial from.place from.held seen) }
    ensures waits { IfOk result (λ seen. NothingNew todo.old todo.new seen) }
    ensures few { IfOk result (λ _. AddsCalls todo.old todo.new 3) }
    ensures hands { IfOk result (λ _. HandsIn judged.now.code.now facts.old facts.new todo.old
        todo.new) }
    ensures kept { IfOk result (λ _. IsCallKept judged.now.code.now todo.new from.trial
        from.place) }
{
    let next = end_of(judged.code, op, from.place, size);
    let at = FoundOp { from, op, next };
    match kind_of(op, from.place) {
        Kind::Call(target) => {
            let at = FoundCall { from, target, next };
            let seen = call(alloc, judged, heap, facts, todo, at)?;
            Ok(seen)
        }
        Kind::Return => {
            let seen = visit_return(judged, heap, facts, todo, from)?;
            Ok(seen)
        }
        Kind::Store(globals, locals) => {
            let seen = visit_stored(alloc, judged, heap, facts, todo, &at, globals, locals)?;
            Ok(seen)
        }
        Kind::Step => {
            let seen = visit_plain(alloc, judged, heap, facts, todo, &at)?;
            Ok(seen)
        }
    }
}

/// Looks at a shape: whether all that the instruction there asks for was found. What is missing is
/// added.
#[tactic(auto, using(crate::proofs::Storing::no_op_bad))]
pub fn visit(
    alloc: Global,
    judged: &Judged<'_>,
    heap: &mut Heap,
    facts: &mut Facts,
    todo: &mut Todo,
    from: Found,
) -> Result<Seen, NoMemory>
    requires keeps { Keeps judged.now.table.now judged.now.code.now heap.old facts.old }
    requires row { row_in facts.old.rows from.trial from.place ≡ Some from.held }
    ensures sees { IfOk result (λ seen. Sees judged.now.table.now judged.now.code.now heap.old
        heap.new facts.old facts.new from.trial from.place from.held seen) }
    ensures waits { IfOk result (λ seen. NothingNew todo.old todo.new seen) }
    ensures few { IfOk result (λ _. AddsCalls todo.old todo.new 3) }
    ensures hands { IfOk result (λ _. HandsIn judged.now.code.now facts.old facts.new todo.old
        todo.new) }
    ensures kept { IfOk result (λ _. IsCallKept judged.now.code.now todo.new from.trial
        from.place) }
{
    match judged.code.op_at(from.place) {
        None => Ok(Seen::Bad),
        Some((op, size)) => visit_op(alloc, judged, heap, facts, todo, from, &op, size),
    }
}
