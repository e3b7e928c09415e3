//! Standard error, to which the end of the program is told.
ghost use Rattle.std.specs.Prelude.{◌≡◌, true};

use command_messages::{End, tell_end};
use nwq_outside::{Files, Sink};
use std::alloc::Global;

/// A sink for the message on the end of the program. It keeps whether the end was told: that comes
/// of `tell` alone.
#[derive(Drop)]
pub(crate) struct Messages<E: Sink> {
    pub(crate) inner: E,
    told: bool,
}

impl<E: Sink> Messages<E> {
    /// Nothing is told yet.
    pub(crate) fn new(inner: E) -> Self {
        Messages { inner, told: false }
    }

    /// Tells the end: why the program ended with its number, or what is to be noted of its work.
    pub(crate) fn tell<F: Files>(
        &mut self,
        alloc: Global,
        words: &[String],
        end: End<'_>,
        files: &mut F,
    )
        ensures told { self.new.told ≡ true }
    {
        tell_end(alloc, words, end, files, &mut self.inner);
        self.told = true;
    }
}
