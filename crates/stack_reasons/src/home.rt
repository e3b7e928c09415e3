use ncs_file::Code;
use nwq_value::Table;
use stack_shape::{Entry, Shape};

/// The code that is looked at, and the header under which it is.
#[derive(Clone, Copy)]
pub struct Judged<'a> {
    pub code: &'a Code,
    pub table: &'a Table,
}

/// A routine to which a run comes.
#[derive(Drop)]
pub struct Home {
    pub entry: Entry,
    /// The JSR that called it, if one did.
    pub called_at: Option<u32>,
    /// Where it begins.
    pub at: u32,
    /// The shape with which it begins.
    pub first: Shape,
}

/// A place of a routine, with a shape with which the run comes there.
#[derive(Drop)]
pub struct Spot {
    pub place: u32,
    pub shape: Shape,
}
