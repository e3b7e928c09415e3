ghost use Rattle.std.specs.Prelude.{◌≡◌, ℕ, [], true};
ghost use Rattle.telling_sink.specs.Told.{told_bytes};

use nwq_outside::{Done, Sink};
use proof_notes::Notes;
use std::marker::{Brand, PhantomData};

/// A piece that was put, and the answer.
#[derive(Clone, Copy, Drop)]
struct Put<'a> {
    piece: &'a [u8],
    answer: Done,
}

/// Which borrow of a sink it is that a [`Telling`] holds. A caller picks it at the call that is
/// handed the sink, so that it is known of which sink the end is told.
pub trait Loan {
    ghost name: { ℕ };
}

impl Loan for Brand {
    ghost name = { 0 };
}

/// A sink that hands each piece on to another one, and tells what was taken.
#[derive(Drop)]
pub struct Telling<'a, S: Sink, L: Loan> {
    pub sink: &'a mut S,
    /// The bytes of the pieces that were taken whole.
    pub noted: Notes<u8>,
    loan: PhantomData<L>,
    ghost same: { sink.ghost_name ≡ L.name },
}

impl<'a, S: Sink, L: Loan> Telling<'a, S, L> {
    pub fn new(sink: &'a mut S) -> Self
        requires loan { sink.ghost_name ≡ L.name }
        ensures sink { result.sink.now ≡ sink.old }
        ensures nothing { result.noted.all ≡ [] }
    {
        Telling {
            sink,
            noted: Notes::new(),
            loan: PhantomData,
        }
    }

    /// Gives the sink beneath back.
    pub fn into_sink(self) -> &'a mut S
        ensures loan { result.ghost_name ≡ L.name }
        ensures sink { result.now ≡ self.entry.sink.now }
    {
        let Telling {
            sink,
            noted: _,
            loan: _,
        } = self;
        sink
    }
}

/// It tells what the sink beneath tells, or else what was noted, and counts what that counts.
impl<'a, S: Sink, L: Loan> Sink for Telling<'a, S, L> {
    ghost tells = { true };

    ghost taken = { λ s. told_bytes S.tells (S.taken s.sink.now) s.noted.all };

    ghost faults = { λ s. S.faults s.sink.now };

    fn put(&mut self, piece: &[u8]) -> Done {
        let answer = self.sink.put(piece);
        self.noted = self.noted.then(&Put { piece, answer });
        answer
    }
}
