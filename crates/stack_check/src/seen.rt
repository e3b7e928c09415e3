/// What a visit of a shape came to.
#[derive(Clone, Copy)]
pub enum Seen {
    /// All that the instruction there asks for was found before.
    Quiet,
    /// Something was found.
    Changed,
    /// No table has this shape.
    Bad,
}
