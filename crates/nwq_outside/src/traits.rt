ghost use Rattle.std.specs.Prelude.{◌≡◌, ℕ, Bool, List, IsTrue};
ghost use Rattle.nwq_outside.specs.declared.counts.FileCounts.{FileCounts};
ghost use Rattle.nwq_outside.specs.Outside.{Contents, ContentsAreBytes, content, next};
ghost use Rattle.nwq_outside.specs.Outside.{CountsRead, CountsWrite, CountsDone, ReadsContent};
ghost use Rattle.nwq_outside.specs.Outside.{IsFileSize, KeepsOthers, Leaves, Takes};

use crate::answer::{Done, Read};
use std::alloc::Global;

/// Files under names. Kinds of files that tell their contents have every answer explained by them;
/// of the others, which say nothing of their contents, only the counts are known. What a name
/// leads to stays the same: no call makes, changes or removes a link.
pub trait Files {
    /// Whether this kind of files tells its contents.
    ghost tells: { Bool };

    ghost contents: { Self → Contents };

    /// How often the outside failed, a name was not there, and a file was too long. Each count
    /// rises only with its answer, and then by one, up to the greatest `u64`.
    ghost counts: { Self → FileCounts };

    /// How many reads there were, up to the greatest `u64`.
    ghost reads: { Self → ℕ };

    /// That what the files hold are bytes, where they tell it.
    fn contents_are_bytes(&self)
        ensures bytes { IsTrue tells → ContentsAreBytes (contents self.now) };

    /// What is under the name.
    fn read(&mut self, alloc: Global, name: &str) -> Read
        ensures content { IsTrue tells →
            ReadsContent (content (contents self.old) name.now) result }
        ensures size { IsFileSize result }
        ensures same { contents self.new ≡ contents self.old }
        ensures once { reads self.new ≡ next (reads self.old) }
        ensures counts { CountsRead result (counts self.old) (counts self.new) };

    /// Puts these bytes under the name, in place of what was there.
    fn write(&mut self, name: &str, bytes: &[u8]) -> Done
        ensures left { IsTrue tells →
            Leaves (contents self.old) (contents self.new) name.now bytes.now result }
        ensures others { KeepsOthers name.now (contents self.old) (contents self.new) }
        ensures unread { reads self.new ≡ reads self.old }
        ensures counts { CountsWrite result (counts self.old) (counts self.new) };
}

/// What takes the printed text, piece by piece.
pub trait Sink {
    /// Whether this kind of sink tells what it took.
    ghost tells: { Bool };

    ghost taken: { Self → List ℕ };

    /// How often the outside failed. It rises only with that answer, and then by one, up to the
    /// greatest `u64`.
    ghost faults: { Self → ℕ };

    /// Takes the piece after what was taken before.
    fn put(&mut self, piece: &[u8]) -> Done
        ensures taken { IsTrue tells → Takes piece.now (taken self.old) (taken self.new) result }
        ensures counts { CountsDone result (faults self.old) (faults self.new) };
}
