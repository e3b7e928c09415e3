ghost use Rattle.std.specs.Prelude.{◌≡◌};
ghost use Rattle.typing_rules.specs.Places.{is_variable};

use nwq_value::{Const, Ty};

/// What a name means: a variable, by its number, or a constant.
///
/// Parameters and declared names of a unit are numbered in one row from 0, in the order of their
/// tokens. A global is `Local` where another global's first value names it, since it is still being
/// made there.
#[derive(Drop)]
pub enum Place {
    Local(u32),
    Global(u32),
    Const(Const),
}

/// What a call calls: a function of the unit, by the number of its body among the bodies, or a
/// routine of the header, by its number there.
#[derive(Clone, Copy)]
pub enum Callee {
    Unit(u32),
    Engine(u16),
}

/// A declared name or a parameter: its number, and its type.
#[derive(Clone, Copy)]
pub struct Variable {
    pub number: u32,
    pub ty: Ty,
}

/// The function that a script begins with, by the number of its body, and which of the two it is.
#[derive(Clone, Copy)]
pub enum EntryPoint {
    /// `void main()`
    Main(u32),
    /// `int StartingConditional()`
    Conditional(u32),
}

impl Place {
    /// Whether it is a variable, and no constant.
    pub fn is_variable(&self) -> bool
        ensures variable { result ≡ is_variable self.now }
    {
        match self {
            Place::Local(_) => true,
            Place::Global(_) => true,
            Place::Const(_) => false,
        }
    }
}
