ghost use Rattle.std.specs.Prelude.{◌≡◌, ◌++◌};
ghost use Rattle.ncs_code.specs.File.{magic};
ghost use Rattle.ncs_code.specs.Spelling.{four};

/// How many bytes stand before the first instruction of a file.
pub const HEADER_BYTES: usize = 13;

/// What a file of so many bytes begins with: `NCS V1.0`, the byte 0x42 and its length.
#[tactic(auto, unfolding(crate::specs::Spelling::four))]
pub fn header(length: u32) -> [u8; HEADER_BYTES]
    ensures header { result ≡ magic ++ four length }
{
    let [a, b, c, d] = length.to_be_bytes();
    [
        b'N', b'C', b'S', b' ', b'V', b'1', b'.', b'0', 0x42, a, b, c, d,
    ]
}
