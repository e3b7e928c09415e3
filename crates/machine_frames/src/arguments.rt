//! What an engine call takes from its frame.
ghost use Rattle.std.specs.Prelude.{◌≡◌, ◌≢◌, ◌+◌, ◌≤◌, ◌++◌, [], None, Some, OnOk};
ghost use Rattle.std.specs.Prelude.{drop, slice_get};
ghost use Rattle.nwq_value.specs.Limits.{file_limit};
ghost use Rattle.ncs_code.specs.Plain.{Action};
ghost use Rattle.ncs_code.specs.Spelling.{op_size};
ghost use Rattle.stack_shape.specs.Calls.{is_action};
ghost use Rattle.machine_rules.specs.Calls.{arguments, taken};
ghost use Rattle.machine_frames.specs.Tops.{HasValue};
ghost use Rattle.machine_frames.specs.Takes.{AreTaken, IsCall, first_of, top_values};
ghost use Rattle.machine_frames.specs.Takes.{without_value};

use crate::frame::Frame;
use crate::top::value;
use nwq_value::{Args, NoMemory, Param, Routine, Ty};
use saved_state::Saved;
use std::alloc::Global;

/// The arguments of an engine call: those that are values, the first one first, and the action.
#[derive(Drop)]
pub struct Arguments {
    pub values: Args,
    pub action: Option<Saved>,
}

impl Arguments {
    /// Nothing was taken yet.
    pub fn new(alloc: Global) -> Arguments
        ensures none { result ≡ record { values = []; action = None } }
    {
        Arguments {
            values: Args::new(alloc),
            action: None,
        }
    }

    /// The state becomes the action, unless there is one.
    fn keep_first(&mut self, saved: Saved)
        ensures first { self.new
            ≡ record self.old { action = first_of self.old.action (Some saved) } }
    {
        if self.action.is_none() {
            self.action = Some(saved);
        }
    }
}

fn is_action(ty: Ty) -> bool
    ensures { result ≡ is_action ty }
{
    matches!(ty, Ty::Action)
}

impl Frame {
    /// The value on top becomes the next argument.
    #[tactic(auto, using(crate::proofs::TakeLemmas::value_lemmas))]
    fn take_value(&mut self, alloc: Global, args: &mut Arguments) -> Result<(), NoMemory>
        requires value { HasValue 0 self.old.stack.cells }
        ensures frame { OnOk result (self.new ≡ without_value self.old) }
        ensures values { OnOk result (args.new ≡ record args.old {
          values = args.old.values ++ top_values self.old.stack.cells;
        }) }
    {
        let copy = value(&self.stack, 0).copy(alloc)?;
        args.values.push(copy)?;
        self.stack.drop_one();
        Ok(())
    }

    /// The newest pending state is taken, and becomes the action, unless there is one.
    #[tactic(auto, using(crate::proofs::TakeLemmas::action_lemmas))]
    fn take_action(&mut self, args: &mut Arguments)
        ensures frame { self.new ≡ record self.old { pending = drop 1 self.old.pending } }
        ensures action { args.new ≡ record args.old {
          action = first_of args.old.action (slice_get self.old.pending 0);
        } }
    {
        match self.pending.pop() {
            None => {}
            Some(saved) => args.keep_first(saved),
        }
    }

    /// What these parameters ask for becomes the next arguments.
    #[tactic(auto, using(crate::proofs::TakeLemmas::all_lemmas))]
    fn take_all(
        &mut self,
        alloc: Global,
        params: &[Param],
        args: &mut Arguments,
    ) -> Result<(), NoMemory>
        requires case { taken params.now self.old.stack.cells self.old.pending ≢ None }
        ensures taken { OnOk result (AreTaken params.now self.old self.new args.old args.new) }
    {
        match params {
            [] => Ok(()),
            [param, rest @ ..] => {
                if is_action(param.ty) {
                    self.take_action(args);
                    self.take_all(alloc, rest, args)
                } else {
                    self.take_value(alloc, args)?;
                    self.take_all(alloc, rest, args)
                }
            }
        }
    }

    /// ACTION, of this size: the arguments of the routine, which has this number, where none were
    /// taken yet.
    #[tactic(auto, using(crate::proofs::TakeLemmas::call_lemmas))]
    pub fn take_arguments(
        &mut self,
        alloc: Global,
        routine: &Routine,
        number: u16,
        count: u8,
        size: u32,
        args: &mut Arguments,
    ) -> Result<(), NoMemory>
        requires none { args.old ≡ record { values = []; action = None } }
        requires case { arguments routine.now count self.old.stack.cells self.old.pending
            ≢ None }
        requires size { size ≡ op_size (Action number count) }
        requires small { self.old.place + size ≤ file_limit }
        ensures call { OnOk result (IsCall routine.now number count self.old self.new args.new) }
    {
        self.take_all(alloc, routine.params.as_slice(), args)?;
        self.step_over(size);
        Ok(())
    }
}
