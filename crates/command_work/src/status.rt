/// How a command ended. The program ends with this number.
#[derive(Clone, Copy, Debug, PartialEq, Eq)]
pub enum Status {
    /// The command did all its work and printed its text.
    Done,
    /// The words are no command form.
    Words,
    /// A script or a header was refused.
    Script,
    /// A file of bytecode was refused.
    Code,
    /// A plan, an area or its file was refused.
    Area,
    /// A limit of instructions or entries was reached.
    Limit,
    /// A file wasn't there.
    Missing,
    /// A read, a write or a put failed.
    Fault,
    /// Memory was wanted and not found.
    Memory,
    /// A file was too long.
    Long,
}
