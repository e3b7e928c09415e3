use ncs_file::Code;
use nwq_value::Table;

/// The code that is judged, and the header under which it is. What is found changes neither.
#[derive(Clone, Copy)]
pub struct Judged<'a> {
    pub code: &'a Code,
    pub table: &'a Table,
}
