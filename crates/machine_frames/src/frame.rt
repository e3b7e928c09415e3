//! Running scripts.
ghost use Rattle.std.specs.Prelude.{◌≡◌, ◌≢◌, ◌+◌, ◌≤◌, ◌<◌, ◌^◌, false, length};
ghost use Rattle.std.specs.Prelude.{if◌then◌else◌, None, Some, IfOk, OnOk, slice_get};
ghost use Rattle.nwq_value.specs.Limits.{file_limit};
ghost use Rattle.ncs_code.specs.Plain.{Div, Jsr, Mod, SaveBp, RestoreBp, StoreState};
ghost use Rattle.ncs_code.specs.Spelling.{op_size};
ghost use Rattle.machine_rules.specs.Frames.{started, continued};
ghost use Rattle.machine_rules.specs.Machine.{with_answer};
ghost use Rattle.machine_rules.specs.Act.{Moves, Divides, Returns, based, subroutine_called, moved};
ghost use Rattle.machine_rules.specs.Act.{is_division, restored};
ghost use Rattle.machine_rules.specs.Act.{returned, stored, stored_cells};
ghost use Rattle.std.specs.Prelude.{◌∷◌};
ghost use Rattle.std.specs.Option.{option_and_then, option_map};
ghost use Rattle.std.specs.Vec.{vec_len, vec_capacity};
ghost use Rattle.decoded_code.specs.Steps.{op_of};
ghost use Rattle.machine_frames.specs.Tops.{bp_on_top, int_in};
ghost use Rattle.machine_rules.specs.Frames.{Frame as FrameView};

use crate::change::{change, jump, operate, zero_on_top};
use crate::operation::Binary;
use crate::top::cell;
use decoded_code::Step;
use nwq_value::{NoMemory, Value};
use saved_state::{Cell, Saved, Stack, resume};
use stack_shape::cell_count;
use std::alloc::Global;
use std::marker::Model;

/// The place of a script's first instruction.
const FIRST_PLACE: u32 = 13;

/// A script in the middle of its run.
#[derive(Drop)]
pub struct Frame {
    /// The script's number, and the place of its next instruction.
    script: u32,
    place: u32,
    pub(crate) stack: Stack,
    /// The places that JSR has kept for RETN, the newest last.
    calls: Vec<u32>,
    /// The states that no engine call has taken yet, the newest last.
    pub(crate) pending: Vec<Saved>,
    /// The object that object constant 0 stands for.
    own: u32,
}

impl Model for Frame {
    ghost use Rattle.std.specs.Prelude.{reverse};
    ghost use Rattle.machine_rules.specs.Frames.{Frame as FrameView};

    ghost Value = { FrameView };

    ghost view = { λ f. record {
      script = f.script;
      place = f.place;
      stack = f.stack;
      calls = reverse f.calls.items;
      pending = reverse f.pending.items;
      self = f.own;
    } };
}

impl Frame {
    /// A script at its first instruction, with this object as self.
    pub fn started(alloc: Global, script: u32, own: u32) -> Frame
        ensures frame { result ≡ started script own }
    {
        Frame {
            script,
            place: FIRST_PLACE,
            stack: Stack::new(alloc),
            calls: Vec::new(alloc),
            pending: Vec::new(alloc),
            own,
        }
    }

    /// A captured state that goes on, with this object as self. After `NoMemory` the state is
    /// dropped.
    pub fn continued(alloc: Global, saved: Saved, own: u32) -> Result<Frame, NoMemory>
        ensures frame { IfOk result (λ frame. frame ≡ continued saved own) }
    {
        let script = saved.script;
        let place = saved.place;
        Ok(Frame {
            script,
            place,
            stack: resume(saved)?,
            calls: Vec::new(alloc),
            pending: Vec::new(alloc),
            own,
        })
    }

    /// The script's number.
    pub fn script(&self) -> u32
        ensures script { result ≡ self.now.script }
    {
        self.script
    }

    /// The place of the next instruction.
    pub fn place(&self) -> u32
        ensures place { result ≡ self.now.place }
    {
        self.place
    }

    /// The object that the script runs on.
    pub fn own(&self) -> u32
        ensures own { result ≡ self.now.self }
    {
        self.own
    }

    /// The place behind the call under way at place `i`, counted from 0, the innermost one; `None`
    /// exactly from the count of calls on.
    #[tactic(auto, using(crate::proofs::FrameLemmas::return_lemmas))]
    pub fn return_at(&self, i: usize) -> Option<u32>
        ensures place { result ≡ slice_get self.now.calls i }
    {
        let len = self.calls.len();
        if i < len {
            Some(self.calls[len - 1 - i])
        } else {
            None
        }
    }

    /// How many cells are on its stack.
    pub fn height(&self) -> usize
        ensures count { result ≡ length self.now.stack.cells }
    {
        self.stack.len()
    }

    /// The int in the cell over which so many others lie; `None` exactly where it holds none.
    pub fn int_at(&self, above: usize) -> Option<i32>
        requires inside { above < length self.now.stack.cells }
        ensures int { result
            ≡ option_and_then int_in (slice_get self.now.stack.cells above) }
    {
        match cell(&self.stack, above) {
            Cell::Value(Value::Int(n)) => Some(*n),
            _ => None,
        }
    }

    /// The next instruction stands behind one of this size.
    pub(crate) fn step_over(&mut self, size: u32)
        requires small { self.old.place + size ≤ file_limit }
        ensures place { self.new ≡ record self.old { place = self.old.place + size } }
    {
        self.place += size;
    }

    /// An instruction that changes nothing but the cells and the place, and isn't a division.
    #[inline(always)]
    #[tactic(auto, using(crate::proofs::FrameLemmas::moved_lemmas))]
    pub fn moves(&mut self, alloc: Global, step: &Step) -> Result<(), NoMemory>
        requires case { moved (op_of step.now) self.old ≢ None }
        requires no_division { is_division (op_of step.now) ≡ false }
        requires small { self.old.place + op_size (op_of step.now) ≤ file_limit }
        ensures act { OnOk result (moved (op_of step.now) self.old ≡ Some (Moves self.new)) }
        ensures script { self.new.script ≡ self.old.script }
        ensures own { self.new.self ≡ self.old.self }
    {
        self.place = change(alloc, &mut self.stack, step, self.place, self.own)?;
        Ok(())
    }

    /// DIV. `false` says that its divisor is 0.
    #[inline(never)]
    #[tactic(auto, using(crate::proofs::FrameLemmas::division_lemmas), unfolding(machine_rules::specs::Act::cells_after))]
    pub fn divides(&mut self, kind: u8) -> Result<bool, NoMemory>
        requires case { moved (Div kind) self.old ≢ None }
        requires small { self.old.place + op_size (Div kind) ≤ file_limit }
        ensures act { IfOk result (λ goes. moved (Div kind) self.old
            ≡ Some (if goes then Moves self.new else Divides)) }
        ensures same { IfOk result (λ goes. goes ≡ false → self.new ≡ self.old) }
        ensures script { self.new.script ≡ self.old.script }
        ensures own { self.new.self ≡ self.old.self }
    {
        if zero_on_top(&self.stack) {
            return Ok(false);
        }
        self.place = operate(&mut self.stack, kind, Binary::Div, self.place)?;
        Ok(true)
    }

    /// MOD. `false` says that its divisor is 0.
    #[inline(never)]
    #[tactic(auto, using(crate::proofs::FrameLemmas::division_lemmas), unfolding(machine_rules::specs::Act::cells_after))]
    pub fn leaves_remainder(&mut self) -> Result<bool, NoMemory>
        requires case { moved Mod self.old ≢ None }
        requires small { self.old.place + op_size Mod ≤ file_limit }
        ensures act { IfOk result (λ goes. moved Mod self.old
            ≡ Some (if goes then Moves self.new else Divides)) }
        ensures same { IfOk result (λ goes. goes ≡ false → self.new ≡ self.old) }
        ensures script { self.new.script ≡ self.old.script }
        ensures own { self.new.self ≡ self.old.self }
    {
        if zero_on_top(&self.stack) {
            return Ok(false);
        }
        self.place = operate(&mut self.stack, 0x20, Binary::Mod, self.place)?;
        Ok(true)
    }

    /// JSR, of this size.
    #[inline(always)]
    #[tactic(auto, using(crate::proofs::FrameLemmas::pushed_last))]
    pub fn call(&mut self, offset: i32, size: u32) -> Result<(), NoMemory>
        requires size { size ≡ op_size (Jsr offset) }
        requires small { self.old.place + size ≤ file_limit }
        ensures act { OnOk result (subroutine_called offset self.old ≡ Moves self.new) }
        ensures script { self.new.script ≡ self.old.script }
        ensures own { self.new.self ≡ self.old.self }
    {
        if self.calls.len() == self.calls.capacity() {
            more_calls(&mut self.calls)?;
        }
        self.calls.push_reserved(self.place + size);
        self.place = jump(self.place, offset);
        Ok(())
    }

    /// RETN. `false` says that the script is over.
    #[inline(always)]
    #[tactic(auto, using(crate::proofs::FrameLemmas::popped_lemmas))]
    pub fn give_back(&mut self) -> bool
        ensures act { returned self.old.calls self.old
            ≡ (if result then Moves self.new else Returns) }
        ensures script { self.new.script ≡ self.old.script }
        ensures own { self.new.self ≡ self.old.self }
    {
        match self.calls.pop() {
            None => false,
            Some(place) => {
                self.place = place;
                true
            }
        }
    }

    /// SAVEBP, of this size.
    #[inline(never)]
    pub fn save_bp(&mut self, size: u32) -> Result<(), NoMemory>
        requires size { size ≡ op_size SaveBp }
        requires small { self.old.place + size ≤ file_limit }
        ensures act { OnOk result (based self.old ≡ Moves self.new) }
        ensures script { self.new.script ≡ self.old.script }
        ensures own { self.new.self ≡ self.old.self }
    {
        let len = self.stack.len();
        let bp = self.stack.bp();
        self.stack.push(Cell::Base(bp))?;
        self.stack.set_bp(len);
        self.place += size;
        Ok(())
    }

    /// RESTOREBP, of this size. The BP that is restored is a place of the stack.
    #[inline(never)]
    #[tactic(auto, using(crate::proofs::FrameLemmas::restored_lemmas))]
    pub fn restore_bp(&mut self, size: u32)
        requires case { restored self.old.stack.cells self.old ≢ None }
        requires deep { (f : FrameView) → restored self.old.stack.cells self.old ≡ Some (Moves f)
            → f.stack.bp ≤ length f.stack.cells }
        requires size { size ≡ op_size RestoreBp }
        requires small { self.old.place + size ≤ file_limit }
        ensures act { restored self.old.stack.cells self.old ≡ Some (Moves self.new) }
        ensures script { self.new.script ≡ self.old.script }
        ensures own { self.new.self ≡ self.old.self }
    {
        let bp = self.kept_bp();
        self.stack.drop_one();
        self.stack.set_bp(bp);
        self.place += size;
    }

    /// The BP that the base cell on top keeps.
    #[tactic(auto, using(crate::proofs::FrameLemmas::kept_lemmas))]
    fn kept_bp(&self) -> usize
        requires case { restored self.now.stack.cells self.now ≢ None }
        ensures bp { bp_on_top self.now.stack.cells ≡ Some result }
    {
        match cell(&self.stack, 0) {
            Cell::Base(bp) => *bp,
            Cell::Value(_) => unreachable!(),
        }
    }

    /// STORE_STATE, of this size.
    #[inline(never)]
    #[tactic(auto, using(crate::proofs::FrameLemmas::stored_lemmas))]
    pub fn store(&mut self, globals: u32, locals: u32, size: u32) -> Result<(), NoMemory>
        requires case { stored globals locals self.old ≢ None }
        requires size { size ≡ op_size (StoreState globals locals) }
        requires small { self.old.place + size ≤ file_limit }
        ensures act { OnOk result (stored globals locals self.old ≡ Some (Moves self.new)) }
        ensures script { self.new.script ≡ self.old.script }
        ensures own { self.new.self ≡ self.old.self }
    {
        match (cell_count(globals), cell_count(locals)) {
            (Some(globals), Some(locals)) => self.capture(globals, locals, size),
            _ => unreachable!(),
        }
    }

    /// So many globals and locals are captured, for a place behind the jump that follows.
    #[tactic(auto, using(crate::proofs::FrameLemmas::captured_lemmas))]
    fn capture(&mut self, globals: usize, locals: usize, size: u32) -> Result<(), NoMemory>
        requires case { stored_cells globals locals self.old ≢ None }
        requires small { self.old.place + size ≤ file_limit }
        ensures act { OnOk result (option_map (λ saved. record self.old {
          place = self.old.place + size;
          pending = saved ∷ self.old.pending;
        }) (stored_cells globals locals self.old) ≡ Some self.new) }
        ensures script { self.new.script ≡ self.old.script }
        ensures own { self.new.self ≡ self.old.self }
    {
        let saved = self
            .stack
            .capture(self.script, self.place + 16, globals, locals)?;
        self.pending.push(saved)?;
        self.place += size;
        Ok(())
    }

    /// The result of an engine call is pushed.
    pub fn give(&mut self, value: Value) -> Result<(), NoMemory>
        ensures given { OnOk result (self.new ≡ with_answer (Some value) self.old) }
    {
        self.stack.push(Cell::Value(value))
    }
}

/// Makes room for one more kept place: a call of its own, since it is rare.
#[inline(never)]
fn more_calls(calls: &mut Vec<u32>) -> Result<(), NoMemory>
    ensures same { calls.new.items ≡ calls.old.items }
    ensures room { OnOk result (vec_len calls.new < vec_capacity calls.new) }
{
    calls.reserve(1)?;
    Ok(())
}
