ghost use Rattle.std.specs.Prelude.{◌≡◌};
ghost use Rattle.table_2da.specs.Ranges.{bytes_at};

use nwq_value::Items;

/// Where the bytes of a cell or of a name stand in their file.
#[derive(Clone, Copy)]
pub struct Range {
    pub start: u32,
    pub len: u32,
}

/// The cells of a row, or the names of the columns.
pub type Ranges = Items<Range>;

pub type Rows = Items<Ranges>;

/// What stands there in a file.
pub(crate) fn bytes_at(file: &[u8], range: Range) -> &[u8]
    ensures bytes { result.now ≡ bytes_at file.now range }
{
    let start = (range.start as usize).min(file.len());
    let rest = &file[start..];
    let len = (range.len as usize).min(rest.len());
    &rest[..len]
}
