ghost use Rattle.std.specs.Prelude.{◌≡◌};
ghost use Rattle.std.specs.List.{list_all};
ghost use Rattle.nwq_text.specs.Names.{is_script_byte, is_script_name};

/// How many bytes a script's name has at most.
const MOST_NAME: usize = 16;

/// Whether these are 1 to 16 of the characters a to z, 0 to 9 and `_`.
#[tactic(auto, unfolding(crate::specs::Names::is_script_name))]
pub fn is_script_name(name: &[u8]) -> bool
    ensures test { result ≡ is_script_name name.now }
{
    !name.is_empty() && name.len() <= MOST_NAME && are_script_bytes(name)
}

fn are_script_bytes(bytes: &[u8]) -> bool
    ensures { result ≡ list_all is_script_byte bytes.now }
{
    bytes.iter().all(|byte| is_script_byte(*byte))
}

fn is_script_byte(byte: u8) -> bool
    ensures { result ≡ is_script_byte byte }
{
    match byte {
        b'a'..=b'z' | b'0'..=b'9' | b'_' => true,
        _ => false,
    }
}
