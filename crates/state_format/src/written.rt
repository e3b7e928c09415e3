//! What a state's fields hold, written behind other bytes.

ghost use Rattle.std.specs.Prelude.{◌≡◌, ◌++◌, ◌∷◌, [], IfOk, OnOk};
ghost use Rattle.std.specs.List.{flat_map};
ghost use Rattle.state_format.specs.Fields.{joined, number, signed, blob, tag, list_of};

use byteorder::{ByteOrder, LittleEndian};
use nwq_value::{Items, NoMemory};
use std::alloc::Global;

/// What takes the bytes of a state: a list that keeps them, or a [`Tally`](crate::Tally) that only
/// counts them.
pub trait Writer {
    ghost use Rattle.std.specs.Prelude.{ℕ, List};

    /// The bytes that it took, in order.
    ghost taken: { Self → List ℕ };

    /// Takes bytes more.
    fn put(&mut self, bytes: &[u8]) -> Result<(), NoMemory>
        ensures put { OnOk result (taken self.new ≡ taken self.old ++ bytes.now) };
}

impl Writer for Items<u8> {
    ghost taken = { λ bytes. bytes };

    fn put(&mut self, bytes: &[u8]) -> Result<(), NoMemory> {
        self.extend(bytes)
    }
}

/// The list without bytes, with room for so many.
pub fn roomy(alloc: Global, size: u64) -> Result<Items<u8>, NoMemory>
    ensures empty { IfOk result (λ bytes. bytes ≡ []) }
{
    Ok(Items::of_vec(Vec::with_capacity(alloc, size as usize)?))
}

/// A part of a state that is written as fields in a row.
pub(crate) trait Written {
    ghost use Rattle.state_format.specs.Fields.{Fields};

    ghost laid_out: { Self → Fields };

    /// Puts the part's fields last.
    fn put<W: Writer>(&self, out: &mut W) -> Result<(), NoMemory>
        ensures put { OnOk result (W.taken out.new ≡ W.taken out.old
            ++ joined (laid_out self.now)) };
}

/// The byte that tells which form follows.
pub fn put_tag<W: Writer>(out: &mut W, n: u8) -> Result<(), NoMemory>
    ensures put { OnOk result (W.taken out.new ≡ W.taken out.old ++ tag n) }
{
    out.put(&[n])
}

/// A number of one byte.
#[tactic(auto, unfolding(crate::specs::Fields::number))]
pub fn put_small<W: Writer>(out: &mut W, n: u8) -> Result<(), NoMemory>
    ensures put { OnOk result (W.taken out.new ≡ W.taken out.old ++ number 1 n) }
{
    out.put(&[n])
}

/// A number of two bytes.
#[tactic(auto, unfolding(crate::specs::Fields::number))]
pub fn put_short<W: Writer>(out: &mut W, n: u16) -> Result<(), NoMemory>
    ensures put { OnOk result (W.taken out.new ≡ W.taken out.old ++ number 2 n) }
{
    let mut bytes = [0; 2];
    LittleEndian::write_u16(&mut bytes, n);
    out.put(bytes.as_slice())
}

/// A number of four bytes.
#[tactic(auto, unfolding(crate::specs::Fields::number))]
pub fn put_word<W: Writer>(out: &mut W, n: u32) -> Result<(), NoMemory>
    ensures put { OnOk result (W.taken out.new ≡ W.taken out.old ++ number 4 n) }
{
    let mut bytes = [0; 4];
    LittleEndian::write_u32(&mut bytes, n);
    out.put(bytes.as_slice())
}

/// The low four bytes of a count.
#[tactic(auto, unfolding(crate::specs::Fields::number))]
pub fn put_count<W: Writer>(out: &mut W, n: usize) -> Result<(), NoMemory>
    ensures put { OnOk result (W.taken out.new ≡ W.taken out.old ++ number 4 n) }
{
    let mut bytes = [0; 4];
    LittleEndian::write_u32(&mut bytes, (n % 4_294_967_296) as u32);
    out.put(bytes.as_slice())
}

/// A number of eight bytes.
#[tactic(auto, unfolding(crate::specs::Fields::number))]
pub fn put_wide<W: Writer>(out: &mut W, n: u64) -> Result<(), NoMemory>
    ensures put { OnOk result (W.taken out.new ≡ W.taken out.old ++ number 8 n) }
{
    let mut bytes = [0; 8];
    LittleEndian::write_u64(&mut bytes, n);
    out.put(bytes.as_slice())
}

/// A signed number of four bytes.
pub fn put_signed<W: Writer>(out: &mut W, n: i32) -> Result<(), NoMemory>
    ensures put { OnOk result (W.taken out.new ≡ W.taken out.old ++ signed n) }
{
    put_word(out, n.cast_unsigned())
}

/// Bytes behind their length.
pub fn put_blob<W: Writer>(out: &mut W, bytes: &[u8]) -> Result<(), NoMemory>
    ensures put { OnOk result (W.taken out.new ≡ W.taken out.old ++ blob bytes.now) }
{
    put_count(out, bytes.len())?;
    out.put(bytes)
}

/// Parts in a row.
fn put_members<T: Written, W: Writer>(out: &mut W, members: &[T]) -> Result<(), NoMemory>
    ensures put { OnOk result (W.taken out.new
        ≡ W.taken out.old ++ joined (flat_map T.laid_out members.now)) }
{
    for member in members {
        member.put(out)?;
    }
    Ok(())
}

/// Parts in a row behind their count.
pub(crate) fn put_list<T: Written, W: Writer>(
    out: &mut W,
    members: &Items<T>,
) -> Result<(), NoMemory>
    ensures put { OnOk result (W.taken out.new ≡ W.taken out.old
        ++ joined (list_of T.laid_out members.now)) }
{
    put_count(out, members.len())?;
    put_members(out, members.as_slice())
}
