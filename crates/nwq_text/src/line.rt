ghost use Rattle.std.specs.Prelude.{◌≡◌, ◌≤◌, length};
ghost use Rattle.nwq_value.specs.Limits.{file_limit};
ghost use Rattle.nwq_text.specs.Line.{line_number};

/// The number of the line in which the place `at` stands, counted from 1. A line ends with a
/// newline.
#[tactic(auto, unfolding(crate::specs::Line::line_number))]
pub fn line_of(bytes: &[u8], at: u32) -> u32
    requires size { length bytes.now ≤ file_limit }
    requires place { at ≤ length bytes.now }
    ensures number { result ≡ line_number bytes.now at }
{
    let before = &bytes[..at as usize];
    1 + before.iter().filter(|byte| **byte == b'\n').count() as u32
}
