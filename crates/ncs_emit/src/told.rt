use crate::jump::Jump;
use ncs_code::Op;

/// One call of an emitter.
#[derive(Clone, Copy, Drop)]
pub(crate) enum Note<'a> {
    Instruction(&'a Op<'a>),
    Jump(Jump, u32),
    Label(u32),
}
