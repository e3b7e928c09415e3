ghost use Rattle.std.specs.Prelude.{◌≡◌, ◌≤◌, ◌<◌, ◌+◌, ◌^◌, IfSome};
ghost use Rattle.stack_shape.specs.Ranges.{cell_count, depth_of, range_at, range_of};

/// Cells that an instruction names by an offset and a size.
#[derive(Clone, Copy)]
pub struct CellRange {
    /// How many cells lie above the range, up to the end that the offset counts from.
    pub above: usize,
    pub count: usize,
}

/// How many cells so many bytes are, where they are whole cells.
#[tactic(auto, unfolding(crate::specs::Ranges::cell_count))]
pub fn cell_count(bytes: u32) -> Option<usize>
    ensures count { result ≡ cell_count bytes }
    ensures bound { IfSome result (λ count. count ≤ bytes) }
{
    if bytes % 4 == 0 {
        Some((bytes / 4) as usize)
    } else {
        None
    }
}

/// How many cells lie from an offset to the end that it counts from.
#[tactic(auto, unfolding(crate::specs::Ranges::depth_of))]
pub fn depth_of(offset: i32) -> Option<usize>
    ensures depth { result ≡ depth_of offset }
    ensures bound { IfSome result (λ depth. depth < 2 ^ 32) }
{
    if 0 < offset {
        None
    } else {
        cell_count(offset.unsigned_abs())
    }
}

/// So many cells that begin at a depth, where they lie at or below the end that it counts from.
#[tactic(auto, unfolding(crate::specs::Ranges::range_of))]
fn range_of(depth: usize, count: usize) -> Option<CellRange>
    ensures range { result ≡ range_of depth count }
    ensures end { IfSome result (λ range. range.above + range.count ≡ depth) }
{
    if 0 < count && count <= depth {
        Some(CellRange {
            above: depth - count,
            count,
        })
    } else {
        None
    }
}

/// The cells at an offset.
#[tactic(auto, unfolding(crate::specs::Ranges::range_at))]
pub fn range_at(offset: i32, size: u16) -> Option<CellRange>
    ensures range { result ≡ range_at offset size }
    ensures bound { IfSome result (λ range. range.above + range.count < 2 ^ 32) }
{
    range_of(depth_of(offset)?, cell_count(size as u32)?)
}
