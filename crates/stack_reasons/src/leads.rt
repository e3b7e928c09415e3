ghost use Rattle.std.specs.Prelude.{◌≡◌, ◌<◌, ◌^◌, Some};
ghost use Rattle.ncs_code.specs.Plain.{plain};
ghost use Rattle.ncs_code.specs.File.{op_at};
ghost use Rattle.ncs_code.specs.Spelling.{op_size};
ghost use Rattle.machine_rules.specs.Act.{next_place};
ghost use Rattle.stack_reasons.specs.Walks.{IsKind, IsLead};

use ncs_code::{Op, jump_place, place_laws};
use ncs_file::Code;

/// The places to which an instruction leads within its routine.
#[derive(Clone, Copy)]
pub enum Lead {
    One(u32),
    Two(u32, u32),
}

/// Where an instruction at a place leads, if the next one begins at `next`.
pub fn leads_of(op: &Op<'_>, place: u32, next: u32) -> Lead
    requires bound { place < 2 ^ 31 }
    requires next { next ≡ next_place place (plain op.now) }
    ensures { IsLead place (plain op.now) result }
{
    match op {
        Op::Jmp { offset } => Lead::One(jump_place(place, *offset)),
        Op::Jz { offset } | Op::Jnz { offset } => Lead::Two(jump_place(place, *offset), next),
        _ => Lead::One(next),
    }
}

/// What is asked of an instruction.
#[derive(Clone, Copy)]
pub enum Kind {
    /// It calls the routine that begins there.
    Call(u32),
    Return,
    /// It stores a state, with so many bytes of globals and of locals.
    Store(u32, u32),
    /// It has a rule of one shape, and stores no state.
    Step,
}

/// What is asked of an instruction at a place.
pub fn kind_of(op: &Op<'_>, place: u32) -> Kind
    requires bound { place < 2 ^ 31 }
    ensures { IsKind place (plain op.now) result }
{
    match op {
        Op::Jsr { offset } => Kind::Call(jump_place(place, *offset)),
        Op::Retn => Kind::Return,
        Op::StoreState { globals, locals } => Kind::Store(*globals, *locals),
        _ => Kind::Step,
    }
}

/// The place behind an instruction.
pub fn end_of(code: &Code, op: &Op<'_>, place: u32, size: u32) -> u32
    requires op { op_at code.now place ≡ Some (plain op.now) }
    requires size { size ≡ op_size (plain op.now) }
    ensures next { result ≡ next_place place (plain op.now) }
    ensures bound { place < 2 ^ 31 }
{
    place_laws();
    code.sound();
    let _ = op;
    place + size
}
