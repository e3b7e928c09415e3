//! Big-endian numbers in the bytes behind an opcode and its type byte.

ghost use Rattle.std.specs.Prelude.{◌≡◌, ◌≢◌, ◌==◌, if◌then◌else◌, ◌+◌, ◌<◌, ◌≤◌, ◌^◌, ◌∷◌, ◌++◌};
ghost use Rattle.std.specs.Prelude.{[], length, take, drop, IsTrue, All};
ghost use Rattle.ncs_code.specs.Spelling.{HasTextSize, IsByte, LitFits, is_between, lit_spelling};
ghost use Rattle.ncs_code.specs.Spelling.{lit_size, first_two, signed, two, four, run_size};
ghost use Rattle.ncs_code.specs.Plain.{plain_lit};

use crate::instruction::Lit;

pub(crate) fn two_at(args: &[u8], at: usize) -> u16
    requires { at + 2 ≤ length args.now }
    ensures { two result ≡ take 2 (drop at args.now) }
{
    u16::from_be_bytes([args[at], args[at + 1]])
}

pub(crate) fn four_at(args: &[u8], at: usize) -> u32
    requires { at + 4 ≤ length args.now }
    ensures { four result ≡ take 4 (drop at args.now) }
{
    u32::from_be_bytes([args[at], args[at + 1], args[at + 2], args[at + 3]])
}

#[tactic(auto, using(crate::proofs::Pieces::signed_read))]
pub(crate) fn signed_at(args: &[u8], at: usize) -> i32
    requires { at + 4 ≤ length args.now }
    ensures { signed result ≡ take 4 (drop at args.now) }
{
    four_at(args, at).cast_signed()
}

pub(crate) fn offset_at(args: &[u8]) -> i32
    requires { 4 ≤ length args.now }
    ensures { signed result ≡ take 4 args.now }
{
    signed_at(args, 0)
}

pub(crate) fn copy_at(args: &[u8]) -> (i32, u16)
    requires { 6 ≤ length args.now }
    ensures { signed result.0 ++ two result.1 ≡ take 6 args.now }
{
    (signed_at(args, 0), two_at(args, 4))
}

pub(crate) fn call_at(args: &[u8]) -> (u16, u8)
    requires { 3 ≤ length args.now }
    ensures { two result.0 ++ result.1 ∷ [] ≡ take 3 args.now }
{
    (two_at(args, 0), args[2])
}

pub(crate) fn kept_at(args: &[u8]) -> (u16, u16, u16)
    requires { 6 ≤ length args.now }
    ensures { two result.0 ++ two result.1 ++ two result.2 ≡ take 6 args.now }
{
    (two_at(args, 0), two_at(args, 2), two_at(args, 4))
}

pub(crate) fn state_at(args: &[u8]) -> (u32, u32)
    requires { 8 ≤ length args.now }
    ensures { four result.0 ++ four result.1 ≡ take 8 args.now }
{
    (four_at(args, 0), four_at(args, 4))
}

/// The size of EQUAL and NEQUAL, which is spelled where they compare two runs of cells.
pub(crate) fn run_size_at(kind: u8, args: &[u8]) -> u16
    requires { kind ≡ 0x24 → 2 ≤ length args.now }
    ensures spelled { run_size kind result ≡ take (if kind == 0x24 then 2 else 0) args.now }
    ensures without { kind ≢ 0x24 → result ≡ 0 }
{
    if kind == 0x24 { two_at(args, 0) } else { 0 }
}

/// The number and the bytes of a string, whose length stands before it.
#[tactic(auto, unfolding(crate::specs::Spelling::first_two))]
fn text_at(args: &[u8]) -> &[u8]
    requires long { lit_size 0x05 args.now ≤ length args.now }
    requires has_length { 2 ≤ length args.now }
    ensures spelled { two (length result.now) ++ result.now
        ≡ take (lit_size 0x05 args.now) args.now }
    ensures bounded { length result.now < 2 ^ 16 }
    ensures bytes { All IsByte result.now }
{
    let size = u16::from_be_bytes([args[0], args[1]]);
    &args[2..2 + size as usize]
}

pub(crate) fn lit_at(kind: u8, args: &[u8]) -> Lit<'_>
    requires known { IsTrue (is_between 0x03 0x06 kind) }
    requires long { lit_size kind args.now ≤ length args.now }
    ensures spelled { lit_spelling (plain_lit result)
        ≡ kind ∷ take (lit_size kind args.now) args.now }
    ensures fits { LitFits (plain_lit result) }
    ensures size { HasTextSize (plain_lit result) }
{
    match kind {
        0x03 => Lit::Int(signed_at(args, 0)),
        0x04 => Lit::Float([args[0], args[1], args[2], args[3]]),
        0x05 => Lit::Text(text_at(args)),
        _ => Lit::Object(four_at(args, 0)),
    }
}
