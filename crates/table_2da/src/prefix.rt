ghost use Rattle.std.specs.Prelude.{◌≡◌, ◌≢◌, ◌++◌, List, ℕ, MatchOption};

/// What follows a prefix of a line, where it has that prefix.
pub(crate) fn behind_prefix<'a>(line: &'a [u8], prefix: &[u8]) -> Option<&'a [u8]>
    ensures rest { MatchOption result ((rest : List ℕ) → line.now ≢ prefix.now ++ rest)
        (λ rest. line.now ≡ prefix.now ++ rest.now) }
{
    if line.len() < prefix.len() {
        return None;
    }
    let (before, rest) = line.split_at(prefix.len());
    if before == prefix {
        return Some(rest);
    }
    None
}
