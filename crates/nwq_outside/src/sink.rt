ghost use Rattle.std.specs.Prelude.{◌≡◌, [], false};

use crate::answer::Done;
use crate::traits::Sink;
use std::io::{ErrorKind, Write};
use std::marker::Model;

/// A sink over a writer, as standard output. It does not tell what it took. Contracts see its count
/// of faults, and the bytes that the writer holds where a writer of its kind says so.
#[derive(Drop)]
pub struct RealSink<W: Write> {
    writer: W,
    faults: u64,
}

impl<W: Write> Model for RealSink<W> {
    ghost use Rattle.nwq_outside.specs.Written.{Written};

    ghost Value = { Written };

    ghost view = { λ s. record { faults = s.faults; known = W.contents s.writer } };
}

impl<W: Write> RealSink<W> {
    pub fn new(writer: W) -> Self
        ensures made { result ≡ record { faults = 0; known = W.contents writer } }
    {
        RealSink { writer, faults: 0 }
    }

    pub fn writer(&self) -> &W
        ensures known { W.contents result.now ≡ self.now.known }
    {
        &self.writer
    }
}

impl<W: Write> Sink for RealSink<W> {
    ghost use Rattle.nwq_outside.specs.Outside.{CountsDone};
    ghost use Rattle.nwq_outside.specs.Written.{Hands};

    ghost tells = { false };

    ghost taken = { λ _. [] };

    ghost faults = { λ s. s.faults };

    /// A writer that takes nothing of a piece that is not empty is a fault, as `write_all` has it.
    fn put(&mut self, piece: &[u8]) -> Done
        ensures counts { CountsDone result self.old.faults self.new.faults }
        ensures hands { Hands piece.now self.old.known self.new.known result }
    {
        match self.writer.write_all(piece) {
            Ok(()) => Done::Ok,
            Err(error) => match error.kind() {
                ErrorKind::OutOfMemory => Done::NoMemory,
                _ => {
                    self.faults = self.faults.saturating_add(1);
                    Done::Failed
                }
            },
        }
    }
}
