//! What lines are made of.

ghost use Rattle.std.specs.Prelude.{◌≡◌, ◌++◌, codes, decimal, OnOk};

use nwq_text::put_count;
use nwq_value::NoMemory;

pub(crate) fn put_ascii(out: &mut Vec<u8>, text: &str) -> Result<(), NoMemory>
    ensures { OnOk result (out.new.items ≡ out.old.items ++ text.now) }
{
    out.extend_from_slice(text.as_bytes())?;
    Ok(())
}

/// Appends words and a number.
pub(crate) fn put_numbered(out: &mut Vec<u8>, words: &str, n: u64) -> Result<(), NoMemory>
    ensures { OnOk result (out.new.items ≡ out.old.items ++ (words.now ++ decimal n)) }
{
    put_ascii(out, words)?;
    put_count(out, n)
}

/// Appends an offset and words.
pub(crate) fn put_placed(out: &mut Vec<u8>, at: u32, words: &str) -> Result<(), NoMemory>
    ensures { OnOk result (out.new.items ≡ out.old.items ++ (decimal at ++ words.now)) }
{
    put_count(out, u64::from(at))?;
    put_ascii(out, words)
}
