//! What lines begin with, and the digits of bytes.

ghost use Rattle.std.specs.Prelude.{◌≡◌, ◌+◌, ◌<◌, ◌++◌, replicate, reverse, IfOk, OnOk};
ghost use Rattle.nwq_text.specs.Escape.{hex_digit};
ghost use Rattle.gff_text.specs.Text.{digits};

use nwq_value::NoMemory;

/// The depth of what stands below; a line that no address reaches isn't written.
pub fn deeper(depth: usize) -> Result<usize, NoMemory>
    ensures { IfOk result (λ below. below ≡ depth + 2) }
{
    depth.checked_add(2).ok_or(NoMemory)
}

#[tactic(auto, using(std::proofs::lemmas::List::replicate_more))]
pub fn put_spaces(out: &mut Vec<u8>, count: usize) -> Result<(), NoMemory>
    ensures { OnOk result (out.new.items ≡ out.old.items ++ replicate count 32) }
{
    for _space in 0..count {
        out.push(b' ')?;
    }
    Ok(())
}

pub fn put_bytes(out: &mut Vec<u8>, bytes: &[u8]) -> Result<(), NoMemory>
    ensures { OnOk result (out.new.items ≡ out.old.items ++ bytes.now) }
{
    out.extend_from_slice(bytes)?;
    Ok(())
}

/// The hexadecimal digit of a number below 16, in lower case.
fn hex_digit(n: u8) -> u8
    requires { n < 16 }
    ensures { result ≡ hex_digit n }
{
    if n < 10 { b'0' + n } else { b'a' - 10 + n }
}

/// Appends two hexadecimal digits for each byte.
#[tactic(auto, using(crate::proofs::LineLemmas::one_more))]
pub fn put_digits(out: &mut Vec<u8>, bytes: &[u8]) -> Result<(), NoMemory>
    ensures { OnOk result (out.new.items ≡ out.old.items ++ digits bytes.now) }
{
    for byte in bytes {
        put_bytes(out, &[hex_digit(byte / 16), hex_digit(byte % 16)])?;
    }
    Ok(())
}
