use crate::cells::Cells;

/// A captured state: the number of its script, the place in that script's code at which it resumes,
/// and the cells that hold the globals and the locals, each in the order of their places.
#[derive(Drop)]
pub struct Saved {
    pub script: u32,
    pub place: u32,
    pub globals: Cells,
    pub locals: Cells,
}
