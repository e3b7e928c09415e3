ghost use Rattle.std.specs.Prelude.{◌≡◌, [], ◌∷◌, OnOk, OnErr, MatchOption};

use nwq_value::NoMemory;
use std::alloc::Global;
use std::marker::Model;

/// A file that is read, and the place where it goes on.
#[derive(Clone, Copy)]
pub struct Open {
    pub file: u16,
    pub at: u32,
}

/// The files that are open. Contracts see the innermost first.
#[derive(Drop)]
pub struct OpenFiles {
    files: Vec<Open>,
}

impl Model for OpenFiles {
    ghost use Rattle.std.specs.Prelude.{List, reverse};
    ghost use Rattle.nss_include.specs.declared.opened.Open.{Open};

    ghost Value = { List Open };

    ghost view = { λ o. reverse o.files.items };
}

impl OpenFiles {
    pub fn new(alloc: Global) -> OpenFiles
        ensures { result ≡ [] }
    {
        OpenFiles {
            files: Vec::new(alloc),
        }
    }

    pub fn push(&mut self, file: Open) -> Result<(), NoMemory>
        ensures ok { OnOk result (self.new ≡ file ∷ self.old) }
        ensures err { OnErr result (self.new ≡ self.old) }
    {
        self.files.push(file)?;
        Ok(())
    }

    pub fn pop(&mut self) -> Option<Open>
        ensures { MatchOption result ((self.old ≡ []) × (self.new ≡ []))
            (λ file. self.old ≡ file ∷ self.new) }
    {
        self.files.pop()
    }
}
