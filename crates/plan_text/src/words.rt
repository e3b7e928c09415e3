ghost use Rattle.std.specs.Prelude.{◌≡◌};
ghost use Rattle.std.specs.Option.{option_map};
ghost use Rattle.plan_text.specs.Drafts.{plain_word};
ghost use Rattle.plan_text.specs.Words.{word_named, head_of};

use nwq_text::cut;

/// A word that a line begins with.
#[derive(Clone, Copy, Debug, PartialEq, Eq)]
pub enum Word {
    Limit,
    Entries,
    Until,
    Random,
    Script,
    Binary,
    Event,
    Start,
}

#[tactic(auto, unfolding(crate::specs::Words::word_named))]
fn word_of(word: &[u8]) -> Option<Word>
    ensures { option_map plain_word result ≡ word_named word.now }
{
    if word == b"limit".as_slice() {
        Some(Word::Limit)
    } else if word == b"entries".as_slice() {
        Some(Word::Entries)
    } else if word == b"until".as_slice() {
        Some(Word::Until)
    } else if word == b"random".as_slice() {
        Some(Word::Random)
    } else if word == b"script".as_slice() {
        Some(Word::Script)
    } else if word == b"binary".as_slice() {
        Some(Word::Binary)
    } else if word == b"event".as_slice() {
        Some(Word::Event)
    } else if word == b"start".as_slice() {
        Some(Word::Start)
    } else {
        None
    }
}

/// The word that a line begins with, and what follows the space behind it.
pub fn head(line: &[u8]) -> Option<(Word, &[u8])>
    ensures { option_map (λ p. (plain_word p.0, p.1.now)) result ≡ head_of line.now }
{
    let (word, rest) = cut(line, b' ')?;
    let word = word_of(word)?;
    Some((word, rest))
}
