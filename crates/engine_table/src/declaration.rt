use nwq_value::{Const, Params, Text, Ty};

/// A type and a name, with the name's place in the text.
#[derive(Drop)]
pub struct Declared {
    pub ty: Ty,
    pub place: u32,
    pub name: Text,
}

/// A function with the parameters that were read.
#[derive(Drop)]
pub struct Function {
    pub head: Declared,
    pub params: Params,
}

/// What a line of a header declares.
#[derive(Drop)]
pub enum Declaration {
    /// A define that makes no type word.
    Passed,
    /// A define that makes this name a type word.
    TypeWord(Text),
    /// A constant; one without value is of a type that has no constants, and is forgotten.
    Constant(Declared, Option<Const>),
    Function(Function),
}
