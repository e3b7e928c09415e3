//! A sink that keeps the last line that it hands on.

ghost use Rattle.std.specs.Prelude.{◌≡◌, ◌≤◌, [], length, IsTrue};
ghost use Rattle.nwq_outside.specs.Outside.{CountsDone, Takes};
ghost use Rattle.command_messages.specs.Kept.{Keeps};

use nwq_outside::{Done, Sink};
use std::alloc::Global;

/// How long a kept line is at most. The lines of refusals are shorter, where names are.
const MOST_BYTES: usize = 8_192;

/// A sink that hands each piece on to another one, and keeps the last.
#[derive(Drop)]
pub struct LastLine<S: Sink> {
    inner: S,
    line: Vec<u8>,
}

impl<S: Sink> LastLine<S> {
    pub fn new(alloc: Global, inner: S) -> Self
        ensures inner { result.inner ≡ inner }
        ensures none { result.line.items ≡ [] }
    {
        LastLine {
            inner,
            line: Vec::new(alloc),
        }
    }

    /// The last piece, unless it was long or there was no memory to keep it.
    pub fn line(&self) -> &[u8]
        ensures line { result.now ≡ self.now.line.items }
    {
        self.line.as_slice()
    }

    /// The sink beneath.
    pub fn inner(&self) -> &S
        ensures inner { result.now ≡ self.now.inner }
    {
        &self.inner
    }
}

/// Keeps a piece in place of the last one.
#[tactic(auto, using(crate::proofs::KeptLemmas::piece_kept, crate::proofs::KeptLemmas::none_kept))]
fn keep(line: &mut Vec<u8>, piece: &[u8])
    ensures keeps { Keeps piece.now line.new.items }
{
    line.clear();
    if piece.len() > MOST_BYTES {
        return;
    }
    let _kept = line.extend_from_slice(piece);
}

/// It tells and counts what the sink beneath tells and counts.
impl<S: Sink> Sink for LastLine<S> {
    ghost tells = { S.tells };

    ghost taken = { λ s. S.taken s.inner };

    ghost faults = { λ s. S.faults s.inner };

    fn put(&mut self, piece: &[u8]) -> Done
        ensures taken { IsTrue S.tells →
            Takes piece.now (S.taken self.old.inner) (S.taken self.new.inner) result }
        ensures counts { CountsDone result (S.faults self.old.inner) (S.faults self.new.inner) }
        ensures keeps { Keeps piece.now self.new.line.items }
    {
        keep(&mut self.line, piece);
        self.inner.put(piece)
    }
}
