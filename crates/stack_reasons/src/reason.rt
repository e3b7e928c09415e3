use stack_shape::{Entry, Shape};

/// What is wrong at a place to which a run over shapes comes.
#[derive(Drop)]
pub enum Trouble {
    /// No instruction begins there.
    NothingThere,
    /// The instruction has no rule on the cells that are there.
    NoRule,
    /// It ends a called routine that has left a base or a pending state.
    NotEnded,
    /// The same run of the routine comes there with this shape too.
    OtherCells(Shape),
    /// The same run of the routine leaves the cells of this shape at another RETN.
    OtherResult(u32, Shape),
}

/// Why code is refused: what a run of it finds, and where.
#[derive(Drop)]
pub struct Reason {
    /// How control came to the routine.
    pub entry: Entry,
    /// The JSR that called it, if one did.
    pub called_at: Option<u32>,
    pub place: u32,
    /// The shape with which the run comes to the place.
    pub shape: Shape,
    pub trouble: Trouble,
}
