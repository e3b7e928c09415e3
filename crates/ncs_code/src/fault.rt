/// Why no instruction is spelled at a place: the first test that fails, in this order, where the
/// second test of [`CodeFault::Short`] is the last.
#[derive(Clone, Copy)]
pub enum CodeFault {
    /// The byte is no opcode.
    Opcode,
    /// The row of the opcode does not have this type byte.
    TypeByte,
    /// The bytes end before the type byte, or before the end of the arguments.
    Short,
}
