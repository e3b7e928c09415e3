//! Files that keep what went through them.

ghost use Rattle.std.specs.Prelude.{◌≡◌, IsTrue};
ghost use Rattle.nwq_outside.specs.Outside.{content, next, ReadsContent, IsFileSize, CountsRead};
ghost use Rattle.nwq_outside.specs.Outside.{CountsWrite, KeepsOthers, Leaves};
ghost use Rattle.kept_files.specs.Kept.{Keeps, KeepsRead};

use nwq_outside::{Done, Files, MemFiles, Read};
use std::alloc::Global;

/// How the state of a play begins.
const STATE: &[u8] = b"NWQSAVE";

/// Files that keep for a message what each read of a name answered last, and each state of a play
/// that was written. The message is made of that alone: no file is opened again.
#[derive(Drop)]
pub struct KeptFiles<F: Files> {
    pub inner: F,
    pub kept: MemFiles,
}

impl<F: Files> KeptFiles<F> {
    /// Nothing has gone through yet.
    pub fn new(alloc: Global, inner: F) -> Self
        ensures inner { result.inner ≡ inner }
    {
        KeptFiles {
            inner,
            kept: MemFiles::new(alloc),
        }
    }
}

/// Keeps these bytes under the name, if there is memory for them.
fn keep(kept: &mut MemFiles, name: &str, bytes: &[u8])
    ensures kept { Keeps name.now bytes.now kept.old.contents kept.new.contents }
{
    let _held = kept.add(name, bytes);
}

/// Keeps the bytes that a read of the name answered.
fn keep_read(kept: &mut MemFiles, name: &str, answer: &Read)
    ensures kept { KeepsRead name.now answer.now kept.old.contents kept.new.contents }
{
    match answer {
        Read::Bytes(bytes) => keep(kept, name, bytes.as_slice()),
        _ => {}
    }
}

/// Keeps what is written under the name, where that is a state.
fn keep_written(kept: &mut MemFiles, name: &str, bytes: &[u8])
    ensures kept { Keeps name.now bytes.now kept.old.contents kept.new.contents }
{
    if bytes.starts_with(STATE) {
        keep(kept, name, bytes);
    }
}

/// They tell and count what the files beneath tell and count.
impl<F: Files> Files for KeptFiles<F> {
    ghost tells = { F.tells };

    ghost contents = { λ k. F.contents k.inner };

    ghost counts = { λ k. F.counts k.inner };

    ghost reads = { λ k. F.reads k.inner };

    fn contents_are_bytes(&self) {
        self.inner.contents_are_bytes();
    }

    fn read(&mut self, alloc: Global, name: &str) -> Read
        ensures content { IsTrue F.tells →
            ReadsContent (content (F.contents self.old.inner) name.now) result }
        ensures size { IsFileSize result }
        ensures same { F.contents self.new.inner ≡ F.contents self.old.inner }
        ensures once { F.reads self.new.inner ≡ next (F.reads self.old.inner) }
        ensures counts { CountsRead result (F.counts self.old.inner) (F.counts self.new.inner) }
        ensures kept { KeepsRead name.now result self.old.kept.contents self.new.kept.contents }
    {
        let answer = self.inner.read(alloc, name);
        keep_read(&mut self.kept, name, &answer);
        answer
    }

    fn write(&mut self, name: &str, bytes: &[u8]) -> Done
        ensures left { IsTrue F.tells → Leaves (F.contents self.old.inner)
            (F.contents self.new.inner) name.now bytes.now result }
        ensures others { KeepsOthers name.now
            (F.contents self.old.inner) (F.contents self.new.inner) }
        ensures unread { F.reads self.new.inner ≡ F.reads self.old.inner }
        ensures counts { CountsWrite result (F.counts self.old.inner) (F.counts self.new.inner) }
        ensures kept { Keeps name.now bytes.now self.old.kept.contents self.new.kept.contents }
    {
        keep_written(&mut self.kept, name, bytes);
        self.inner.write(name, bytes)
    }
}
