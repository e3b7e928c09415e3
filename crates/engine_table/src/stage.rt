use crate::declaration::{Declaration, Declared, Function};
use nwq_value::{Const, Text, Ty};

/// What a value is for: a constant, or the default of a function's next parameter, which has this
/// type.
#[derive(Drop)]
pub enum Owner {
    Constant(Declared),
    Parameter(Function, Ty),
}

/// How far a line has come.
#[derive(Drop)]
pub enum Stage {
    Start,
    /// behind `#`
    Hash,
    /// behind `# define`
    Define,
    /// behind `# define` and this name
    Defined(Text),
    /// behind `const`
    Const,
    /// behind a type; `true` where `const` stood before it
    Typed(bool, Ty),
    /// behind a type and a name
    Named(bool, Declared),
    /// behind `=`
    Value(Owner),
    /// behind `=` and `-`, before an int
    Minus(Owner),
    /// in a value of a type that has no constants, inside so many brackets
    Loose(Owner, u32),
    /// behind a value; `true` where it is that of a constant whose name no constant has yet
    Valued(Owner, Option<Const>, bool),
    /// behind a function's `(`
    Params(Function),
    /// behind a `,` between parameters
    Param(Function),
    /// behind the type of a parameter
    ParamType(Function, Ty),
    /// behind the type and the name of a parameter
    ParamName(Function, Ty),
    /// behind a function's `)`
    Closed(Function),
}

/// What a token does to a line: it goes on, or it is whole and declares something. Of a constant
/// with a value it is told whether its name is new, so that it isn't looked up again.
#[derive(Drop)]
pub enum Turn {
    Goes(Stage),
    Gives(Declaration, bool),
}
