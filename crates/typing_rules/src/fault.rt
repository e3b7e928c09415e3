/// What is wrong at a node that no rule fits. Where several of these are true of a node, the one
/// that stands first here is its kind.
#[derive(Clone, Copy, Debug, PartialEq, Eq)]
pub enum FaultKind {
    /// A type whose values are left out, a float literal, or a call of a routine that can't be
    /// called
    RefusedType,
    /// A name that isn't in sight, a struct that isn't declared before, a member that isn't there,
    /// or a call of a name that is neither a routine nor a function with a body
    Unknown,
    /// A second declaration of a name, another declaration of a function, or a label that stands
    /// twice
    Redeclared,
    /// Too few or too many arguments, or a parameter without default behind one with a default
    Arity,
    /// What is no constant where one must stand, or a call that may not stand in a global's first
    /// value
    NotConst,
    /// What is no variable and no member of one, where it is written
    NotPlace,
    /// A `break`, a `continue` or a label where none may stand
    Outside,
    /// Any other wrong type, or `void` as a value
    Mismatch,
    /// A function with a result whose body can end without one
    NoReturn,
    /// More cells than a struct, a frame or the globals may have
    Cells,
    /// No function that a script can begin with
    Entry,
}

/// A fault of a unit: its kind, and the token of the node that is at fault.
#[derive(Clone, Copy, Debug, PartialEq, Eq)]
pub struct Fault {
    pub kind: FaultKind,
    pub token: u32,
}
