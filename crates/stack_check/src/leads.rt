ghost use Rattle.std.specs.Prelude.{◌≡◌, ◌<◌, ◌^◌};
ghost use Rattle.ncs_code.specs.Plain.{plain};
ghost use Rattle.stack_check.specs.Inference.{kind_of, leads_of};

use ncs_code::{Op, jump_place};

/// The places to which an instruction leads within its routine.
#[derive(Clone, Copy)]
pub enum Lead {
    One(u32),
    Two(u32, u32),
}

/// Where an instruction at a place leads, if the next one begins at `next`.
#[tactic(auto, unfolding(crate::specs::Inference::leads_of))]
pub fn leads_of(op: &Op<'_>, place: u32, next: u32) -> Lead
    requires { place < 2 ^ 31 }
    ensures { result ≡ leads_of place next (plain op.now) }
{
    match op {
        Op::Jmp { offset } => Lead::One(jump_place(place, *offset)),
        Op::Jz { offset } | Op::Jnz { offset } => Lead::Two(jump_place(place, *offset), next),
        _ => Lead::One(next),
    }
}

/// What is asked of an instruction.
#[derive(Clone, Copy)]
pub enum Kind {
    /// It calls the routine that begins there.
    Call(u32),
    Return,
    /// So many bytes of globals and of locals are stored.
    Store(u32, u32),
    /// It has a rule of one shape, and stores no state.
    Step,
}

/// What is asked of an instruction at a place.
#[tactic(auto, unfolding(crate::specs::Inference::kind_of))]
pub fn kind_of(op: &Op<'_>, place: u32) -> Kind
    requires { place < 2 ^ 31 }
    ensures { result ≡ kind_of place (plain op.now) }
{
    match op {
        Op::Jsr { offset } => Kind::Call(jump_place(place, *offset)),
        Op::Retn => Kind::Return,
        Op::StoreState { globals, locals } => Kind::Store(*globals, *locals),
        _ => Kind::Step,
    }
}
