ghost use Rattle.std.specs.Prelude.{◌≡◌, ◌+◌, ◌∷◌, ◌++◌, [], IfOk};
ghost use Rattle.ncs_code.specs.File.{header_size};
ghost use Rattle.ncs_emit.specs.Labelled.{line_size, lines_size};
ghost use Rattle.ncs_emit.specs.Telling.{line_of};

use crate::told::Note;
use ncs_code::HEADER_BYTES;
use nwq_value::NoMemory;
use proof_notes::Notes;
use std::marker::Model;

/// The lines that an emitter was told, of which the size of their file is kept.
#[derive(Drop)]
pub(crate) struct Tally {
    size: u64,
    told: Notes<Note<'static>>,
}

impl Model for Tally {
    ghost use Rattle.std.specs.Prelude.{◌≡◌, ◌+◌, List, map};
    ghost use Rattle.ncs_code.specs.File.{header_size};
    ghost use Rattle.ncs_emit.specs.Labelled.{Line, lines_size};
    ghost use Rattle.ncs_emit.specs.Telling.{line_of};

    ghost Value = { List Line };

    ghost view = { λ t. map line_of t.told.all };

    ghost invariant = { λ t. t.size ≡ header_size + lines_size (map line_of t.told.all) };
}

impl Tally {
    /// Of no lines.
    pub(crate) fn new() -> Tally
        ensures { result ≡ [] }
    {
        Tally {
            size: HEADER_BYTES as u64,
            told: Notes::new(),
        }
    }

    /// How large the file is.
    pub(crate) fn size(&self) -> u64
        ensures { result ≡ header_size + lines_size self.now }
    {
        self.size
    }

    /// How large the file is with so many bytes more. A size that 64 bits don't hold is one that no
    /// memory holds.
    pub(crate) fn size_with(&self, more: u32) -> Result<u64, NoMemory>
        ensures { IfOk result (λ size. size ≡ header_size + lines_size self.now + more) }
    {
        self.size.checked_add(more as u64).ok_or(NoMemory)
    }

    /// Tells a line more, with which the file is so large.
    #[tactic(auto, using(crate::proofs::Standing::told_size_adds))]
    pub(crate) fn tell(&mut self, note: &Note<'_>, size: u64)
        requires { size ≡ header_size + lines_size self.old + line_size (line_of note.now) }
        ensures { self.new ≡ self.old ++ line_of note.now ∷ [] }
    {
        self.size = size;
        self.told = self.told.then(note);
    }
}
