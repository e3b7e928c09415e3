ghost use Rattle.std.specs.Prelude.{◌≡◌, ◌≤◌, IfSome};
ghost use Rattle.std.specs.List.{list_all};
ghost use Rattle.plan_text.specs.Fields.{number_between, is_spaceless, is_label};

use nwq_text::read_number;

/// How many bytes a label has at most.
const MOST_LABEL: usize = 16;

/// The number that the digits write, where it is between the two.
pub fn number_in(digits: &[u8], low: u64, high: u64) -> Option<u64>
    ensures number { result ≡ number_between low high digits.now }
    ensures bound { IfSome result (λ number. number ≤ high) }
{
    let number = read_number(digits)?;
    if low <= number && number <= high {
        Some(number)
    } else {
        None
    }
}

/// Whether these are 1 to 16 bytes without a space.
#[tactic(auto, unfolding(crate::specs::Fields::is_label))]
pub fn is_label(label: &[u8]) -> bool
    ensures { result ≡ is_label label.now }
{
    !label.is_empty() && label.len() <= MOST_LABEL && are_spaceless(label)
}

fn are_spaceless(bytes: &[u8]) -> bool
    ensures { result ≡ list_all is_spaceless bytes.now }
{
    bytes.iter().all(|byte| *byte != b' ')
}
