/// The four instructions that lead to another place.
#[derive(Clone, Copy)]
pub enum Jump {
    Jmp,
    Jsr,
    Jz,
    Jnz,
}
