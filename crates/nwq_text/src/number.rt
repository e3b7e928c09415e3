ghost use Rattle.std.specs.Prelude.{◌≡◌, ◌++◌, OnOk, OnErr};
ghost use Rattle.std.specs.Fmt.{signed_decimal, decimal};
ghost use Rattle.nwq_text.specs.Number.{number_of};

use itoa::Buffer;
use nwq_value::NoMemory;

/// How many digits a number in words and plans has at most.
const MOST_DIGITS: usize = 10;

/// Appends the number in decimal.
pub fn put_number(out: &mut Vec<u8>, n: i64) -> Result<(), NoMemory>
    ensures ok { OnOk result (out.new.items ≡ out.old.items ++ signed_decimal n) }
    ensures err { OnErr result (out.new.items ≡ out.old.items) }
{
    let mut buffer = Buffer::new();
    out.extend_from_slice(buffer.format(n).as_bytes())?;
    Ok(())
}

/// Appends the number in decimal: for sizes, counts and line numbers.
pub fn put_count(out: &mut Vec<u8>, n: u64) -> Result<(), NoMemory>
    ensures ok { OnOk result (out.new.items ≡ out.old.items ++ decimal n) }
    ensures err { OnErr result (out.new.items ≡ out.old.items) }
{
    let mut buffer = Buffer::new();
    out.extend_from_slice(buffer.format(n).as_bytes())?;
    Ok(())
}

#[tactic(auto, using(crate::proofs::NumberLemmas::one_more_digit, crate::proofs::NumberLemmas::number_fits, crate::proofs::NumberLemmas::no_digit, crate::proofs::NumberLemmas::all_digits, crate::proofs::NumberLemmas::no_number))]
/// The number that one to ten decimal digits write, and `None` for any other bytes.
pub fn read_number(digits: &[u8]) -> Option<u64>
    ensures number { result ≡ number_of digits.now }
{
    if digits.is_empty() || digits.len() > MOST_DIGITS {
        return None;
    }
    let mut number = 0;
    for digit in digits {
        if !digit.is_ascii_digit() {
            return None;
        }
        number = number * 10 + u64::from(*digit - b'0');
    }
    Some(number)
}
