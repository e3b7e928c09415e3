//! Numbers at the end of a list of bytes.

ghost use Rattle.std.specs.Prelude.{◌≡◌, ◌++◌, OnOk};
ghost use Rattle.gff_write.specs.Flat.{word, wide, length_prefixed};

use byteorder::{ByteOrder, LittleEndian};
use nwq_value::{Items, NoMemory};

/// The low four bytes of a place, the lowest first.
#[tactic(auto, unfolding(crate::specs::Flat::word))]
pub fn put_place(out: &mut Items<u8>, n: u128) -> Result<(), NoMemory>
    ensures { OnOk result (out.new ≡ out.old ++ word n) }
{
    let mut bytes = [0; 4];
    LittleEndian::write_u32(&mut bytes, (n % 4_294_967_296) as u32);
    out.extend(bytes.as_slice())
}

/// The low four bytes of a number, the lowest first.
pub fn put_word(out: &mut Items<u8>, n: u64) -> Result<(), NoMemory>
    ensures { OnOk result (out.new ≡ out.old ++ word n) }
{
    put_place(out, u128::from(n))
}

/// The eight bytes of a number, the lowest first.
#[tactic(auto, unfolding(crate::specs::Flat::wide))]
pub fn put_wide(out: &mut Items<u8>, n: u64) -> Result<(), NoMemory>
    ensures { OnOk result (out.new ≡ out.old ++ wide n) }
{
    let mut bytes = [0; 8];
    LittleEndian::write_u64(&mut bytes, n);
    out.extend(bytes.as_slice())
}

/// A text behind its length.
pub fn put_counted(out: &mut Items<u8>, text: &[u8]) -> Result<(), NoMemory>
    ensures { OnOk result (out.new ≡ out.old ++ length_prefixed text.now) }
{
    put_word(out, text.len() as u64)?;
    out.extend(text)
}
