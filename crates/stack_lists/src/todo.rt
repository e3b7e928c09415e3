ghost use Rattle.std.specs.Prelude.{◌≡◌, ◌++◌, ◌∷◌, ◌↔◌, [], ℕ, MatchOption, OnOk, IsTrue, get_or};
ghost use Rattle.std.specs.Prelude.{◌≤◌, length, map, true, false};
ghost use Rattle.stack_lists.specs.Rows.{PutAt};
ghost use Rattle.stack_lists.specs.Shared.{read};
ghost use Rattle.stack_lists.specs.Worklist.{CallKept, CallersAdded, CallsPut, IsMarked, IsTop};
ghost use Rattle.stack_lists.specs.Worklist.{KeepsWaiting, SameCalls, calls_of, growths};
ghost use Rattle.stack_lists.specs.Worklist.{stands_at, waiting};

use crate::budget::room;
use crate::lists::Lists;
use crate::places::Places;
use nwq_value::NoMemory;
use std::alloc::Global;
use std::marker::Model;
use std::mem::swap;

/// A trial and a place of it.
#[derive(Clone, Copy, PartialEq, Eq)]
pub struct Spot {
    pub trial: u32,
    pub place: u32,
}

/// A call: where it stands, and the place at which the routine begins that it calls.
#[derive(Clone, Copy, PartialEq, Eq)]
pub struct Call {
    pub spot: Spot,
    pub target: u32,
}

/// A call that waits: where it stands, and the number of the list whose top it is.
#[derive(Clone, Copy)]
pub struct Again {
    pub spot: Spot,
    pub number: u32,
}

/// The two lists of a trial.
#[derive(Clone, Copy, PartialEq, Eq)]
pub enum Side {
    Cells,
    /// What lies beneath BP.
    Under,
}

/// Where to look next.
#[derive(Drop)]
pub struct Todo {
    first: Vec<Spot>,
    /// Calls that are looked at again once there is nothing else.
    soon: Vec<Again>,
    /// Calls that were handed in since; they are looked at once there is none of those.
    later: Vec<Again>,
    /// The calls of each routine, as lists; they are looked at again when more is known of it.
    calls: Lists<Call>,
    /// By the place at which a routine begins: the number of the list of its calls.
    called: Places,
    /// By the number of a call's row: the number of the list whose top it is.
    marks: Places,
    /// By that number: 1 where the call waits, so it waits once.
    waits: Places,
    /// By trial: the place of the call that made its window of the cells grow last, 0 where no call
    /// did.
    cells: Places,
    /// The same for the window beneath BP.
    under: Places,
    /// How many windows have grown since it was last asked whether they grow for ever.
    grown: usize,
}

impl Model for Todo {
    ghost use Rattle.stack_lists.specs.Worklist.{AllWait, AreMarked, AreThere, Worklist};

    ghost Value = { Worklist };

    ghost view = { λ t. record {
      first = t.first.items;
      soon = t.soon.items;
      later = t.later.items;
      calls = t.calls;
      called = t.called;
      marks = t.marks;
      waits = t.waits;
      cells = t.cells;
      under = t.under;
    } };

    ghost use Rattle.std.specs.Prelude.{◌++◌, ◌≤◌, length};
    ghost use Rattle.stack_lists.specs.Budget.{most};

    ghost invariant = { λ t. AreThere t.calls t.called × AreMarked t.calls t.called t.marks
        × AllWait t.calls t.waits (t.soon.items ++ t.later.items) × (length t.calls ≤ most) };
}

/// Whether both are the same.
fn is_same(a: Call, b: Call) -> bool
    ensures { IsTrue result ↔ (a ≡ b) }
{
    a == b
}

/// Has the call that is the top of a list wait, unless it does.
#[tactic(auto, using(crate::proofs::Waits::adding))]
fn put_call(
    later: &mut Vec<Again>,
    waits: &mut Places,
    calls: &Lists<Call>,
    number: u32,
    call: Call,
) -> Result<(), NoMemory>
    requires top { IsTop calls.now number call }
    ensures keeps { KeepsWaiting calls.now later.old.items waits.old later.new.items waits.new }
    ensures put { OnOk result (CallsPut calls.now later.old.items waits.old later.new.items (call
        ∷ [])) }
{
    if waits.get(number) == 0 {
        later.push(Again {
            spot: call.spot,
            number,
        })?;
        waits.put(number, 1)?;
    }
    Ok(())
}

/// Has all calls of a list wait.
#[tactic(auto, using(crate::proofs::Waits::adding_all))]
fn put_all(
    later: &mut Vec<Again>,
    waits: &mut Places,
    calls: &Lists<Call>,
    number: u32,
) -> Result<(), NoMemory>
    requires inside { number ≤ length calls.now }
    ensures keeps { KeepsWaiting calls.now later.old.items waits.old later.new.items waits.new }
    ensures put { OnOk result (CallsPut calls.now later.old.items waits.old later.new.items (read
        calls.now number)) }
{
    let mut at = number;
    while let Some((call, below)) = calls.pop(at) {
        put_call(later, waits, calls, at, call)?;
        at = below;
    }
    Ok(())
}

/// Has all calls of a list looked at first.
#[tactic(auto, using(crate::proofs::Worklists::putting))]
fn put_first(first: &mut Vec<Spot>, calls: &Lists<Call>, number: u32) -> Result<(), NoMemory>
    requires inside { number ≤ length calls.now }
    ensures put { OnOk result (first.new.items ≡ first.old.items ++ map stands_at (read calls.now
        number)) }
{
    let mut at = number;
    while let Some((call, below)) = calls.pop(at) {
        first.push(call.spot)?;
        at = below;
    }
    Ok(())
}

impl Todo {
    #[tactic(auto, using(crate::proofs::Worklists::beginning, crate::proofs::Waits::beginning))]
    pub fn new(alloc: Global) -> Todo
        ensures empty { waiting result ≡ [] }
        ensures none { (target : ℕ) → calls_of result target ≡ [] }
        ensures unmarked { (result.calls ≡ []) × (result.marks ≡ []) }
    {
        Todo {
            first: Vec::new(alloc),
            soon: Vec::new(alloc),
            later: Vec::new(alloc),
            calls: Lists::new(alloc),
            called: Places::new(alloc),
            marks: Places::new(alloc),
            waits: Places::new(alloc),
            cells: Places::new(alloc),
            under: Places::new(alloc),
            grown: 0,
        }
    }

    /// Has the calls that were handed in since be the next, where none is left of those before.
    #[tactic(auto, using(crate::proofs::Worklists::handing, crate::proofs::Waits::handing))]
    fn begin_round(&mut self)
        ensures same { waiting self.new ≡ waiting self.old }
        ensures first { self.new.first ≡ self.old.first }
        ensures calls { SameCalls self.old self.new }
        ensures none { self.new.soon ≡ [] → self.new.later ≡ [] }
    {
        if !self.soon.is_empty() {
            return;
        }
        swap(&mut self.soon, &mut self.later);
    }

    /// Hands out a call that waits. All that waited are handed out before one that was handed in
    /// since, so what grows along many ways is looked at once for each call and step.
    #[tactic(auto, using(crate::proofs::Worklists::handing, crate::proofs::Waits::handing))]
    fn next_call(&mut self) -> Option<Spot>
        requires none { self.old.first ≡ [] }
        ensures next { MatchOption result ((waiting self.old ≡ []) × (waiting self.new ≡ []))
            (λ spot. waiting self.old ≡ waiting self.new ++ spot ∷ []) }
        ensures calls { SameCalls self.old self.new }
    {
        self.begin_round();
        match self.soon.pop() {
            None => None,
            Some(again) => {
                self.waits.clear(again.number);
                Some(again.spot)
            }
        }
    }

    /// Hands out the last spot, which is no more to be looked at then.
    #[tactic(auto, using(crate::proofs::Worklists::handing))]
    pub fn next(&mut self) -> Option<Spot>
        ensures next { MatchOption result ((waiting self.old ≡ []) × (waiting self.new ≡ []))
            (λ spot. waiting self.old ≡ waiting self.new ++ spot ∷ []) }
        ensures calls { SameCalls self.old self.new }
    {
        match self.first.pop() {
            Some(spot) => Some(spot),
            None => self.next_call(),
        }
    }

    /// Has a spot looked at, before those that were handed in earlier.
    #[tactic(auto, using(crate::proofs::Worklists::handing))]
    pub fn add(&mut self, spot: Spot) -> Result<(), NoMemory>
        ensures added { OnOk result (waiting self.new ≡ waiting self.old ++ spot ∷ []) }
        ensures calls { SameCalls self.old self.new }
    {
        self.first.push(spot)?;
        Ok(())
    }

    /// Whether a call is kept, by the mark of its row.
    #[tactic(auto, using(crate::proofs::Worklists::marking))]
    fn is_marked(&self, row: u32, call: Call) -> bool
        ensures marked { result ≡ true → IsMarked self.now row call }
        ensures none { result ≡ false → IsMarked self.now row call → ⊥ }
    {
        match self.calls.pop(self.marks.get(row)) {
            None => false,
            Some((kept, _)) => is_same(kept, call),
        }
    }

    /// Keeps a call of a routine, once for the row with this number. What is to be looked at stays.
    /// `NoMemory` comes where memory is refused, and past 2^25 calls that were kept.
    #[tactic(auto, using(crate::proofs::Worklists::keeping, crate::proofs::Waits::keeping))]
    pub fn add_call(&mut self, row: u32, call: Call) -> Result<(), NoMemory>
        ensures same { waiting self.new ≡ waiting self.old }
        ensures kept { OnOk result (CallKept self.old self.new row call) }
    {
        if self.is_marked(row, call) {
            return Ok(());
        }
        room(self.calls.len())?;
        let below = self.called.get(call.target);
        let number = self.calls.push(below, call)?;
        self.called.put(call.target, number)?;
        self.marks.put(row, number)?;
        Ok(())
    }

    /// How many calls are kept.
    pub fn kept(&self) -> usize
        ensures count { result ≡ length self.now.calls }
    {
        self.calls.len()
    }

    /// Has the calls of a routine looked at again, after the spots that are looked at first.
    #[tactic(auto, using(crate::proofs::Worklists::calling))]
    pub fn add_callers(&mut self, target: u32) -> Result<(), NoMemory>
        ensures added { OnOk result (CallersAdded self.old self.new target) }
    {
        let number = self.called.get(target);
        put_all(&mut self.later, &mut self.waits, &self.calls, number)
    }

    /// Has the calls of a routine looked at first. So whatever control comes to behind them is
    /// found before windows that have grown are followed.
    #[tactic(auto, using(crate::proofs::Worklists::calling))]
    pub fn call_again(&mut self, target: u32) -> Result<(), NoMemory>
        ensures added { OnOk result (waiting self.new ≡ waiting self.old ++ map stands_at (calls_of
            self.old target)) }
        ensures few { length (calls_of self.old target) ≤ length self.old.calls }
        ensures calls { SameCalls self.old self.new }
    {
        let number = self.called.get(target);
        put_first(&mut self.first, &self.calls, number)
    }

    /// The place of the call that made a window of a trial grow last, 0 where no call did.
    pub fn growth(&self, trial: u32, side: Side) -> u32
        ensures place { result ≡ get_or (growths self.now side) trial 0 }
    {
        match side {
            Side::Cells => self.cells.get(trial),
            Side::Under => self.under.get(trial),
        }
    }

    /// Keeps the place of the call that made a window of a trial grow, or 0 where no call did.
    #[tactic(auto, using(crate::proofs::Worklists::handing))]
    pub fn grew(&mut self, trial: u32, side: Side, place: u32) -> Result<(), NoMemory>
        ensures same { waiting self.new ≡ waiting self.old }
        ensures calls { SameCalls self.old self.new }
        ensures grew { OnOk result (PutAt (growths self.old side) (growths self.new side) trial
            place) }
    {
        match side {
            Side::Cells => self.cells.put(trial, place),
            Side::Under => self.under.put(trial, place),
        }
    }

    /// Whether as many windows have grown as there are trials, since it was last so.
    pub fn is_due(&mut self, trials: usize) -> bool
        ensures same { self.new ≡ self.old }
    {
        if self.grown < trials {
            self.grown += 1;
            return false;
        }
        self.grown = 0;
        true
    }
}
