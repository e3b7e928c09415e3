ghost use Rattle.std.specs.Prelude.{◌≡◌};
ghost use Rattle.std.specs.Option.{option_map};
ghost use Rattle.nwq_text.specs.Cuts.{cut_at};

/// What stands before the first such byte, and what follows it.
#[tactic(auto, using(crate::proofs::CutLemmas::cut_end, crate::proofs::CutLemmas::free_more))]
pub fn cut(bytes: &[u8], at: u8) -> Option<(&[u8], &[u8])>
    ensures cut { option_map (λ p. (p.0.now, p.1.now)) result ≡ cut_at at bytes.now }
{
    for (i, byte) in bytes.iter().enumerate() {
        if *byte == at {
            return Some((&bytes[..i], &bytes[i + 1..]));
        }
    }
    None
}
