ghost use Rattle.std.specs.Prelude.{◌≡◌, ◌+◌, ◌-◌, ◌^◌, ◌<◌, ◌≤◌, ◌∷◌, ◌++◌, [], ℕ, List, false};
ghost use Rattle.std.specs.Prelude.{true, IfOk, IfErr, OnOk, OnErr};
ghost use Rattle.nwq_value.specs.Limits.{file_limit};
ghost use Rattle.ncs_code.specs.Plain.{plain};
ghost use Rattle.ncs_code.specs.Spelling.{HasRow};
ghost use Rattle.ncs_code.specs.File.{file_bytes, file_length};
ghost use Rattle.ncs_emit.specs.Labelled.{Line, Instruction, JumpTo, Label, placements, program};
ghost use Rattle.ncs_emit.specs.Faults.{EmitFails};
ghost use Rattle.ncs_emit.specs.Leading.{IsPlacedOnce, LineFits};
ghost use Rattle.std.specs.List.{AllByRecursion};

use crate::fault::EmitFault;
use crate::finishing::{places_of, put_lines};
use crate::fitting::op_fits;
use crate::jump::Jump;
use crate::line::{JUMP_BYTES, Kept, make_room};
use crate::tally::Tally;
use crate::told::Note;
use ncs_code::{Op, header, size_laws, spelling_laws};
use nwq_value::{FILE_BYTES, NoMemory};
use std::alloc::Global;
use std::marker::Model;

/// Labelled code that grows at its end. Contracts see the list of its lines, which are
/// instructions, jumps to labels and labels, and how many labels were made: they are the numbers
/// below that. Once the file would be too large, a further line is counted and not kept.
#[derive(Drop)]
pub struct Emitter {
    /// The spellings of the instructions, without those of jumps to labels.
    bytes: Vec<u8>,
    kept: Vec<Kept>,
    /// For each label: is it placed?
    placed: Vec<bool>,
    /// How many of the labels are not placed yet; `kept` has room for all of those.
    missing: u32,
    /// All lines, by their size.
    tally: Tally,
}

impl Model for Emitter {
    ghost use Rattle.std.specs.Prelude.{length};
    ghost use Rattle.std.specs.Vec.{vec_capacity};
    ghost use Rattle.ncs_emit.specs.Labelled.{LabelledCode};
    ghost use Rattle.ncs_emit.specs.Emitting.{IsKept};

    ghost Value = { LabelledCode };

    ghost view = { λ e. record {
      lines = e.tally;
      labels = length e.placed.items;
    } };

    ghost invariant = { λ e.
        IsKept e.tally e.bytes.items e.kept.items (vec_capacity e.kept) e.placed.items e.missing };
}

impl Emitter {
    /// The emitter without lines and labels.
    pub fn new(alloc: Global) -> Emitter
        ensures lines { result.lines ≡ [] }
        ensures labels { result.labels ≡ 0 }
    {
        Emitter {
            bytes: Vec::new(alloc),
            kept: Vec::new(alloc),
            placed: Vec::new(alloc),
            missing: 0,
            tally: Tally::new(),
        }
    }

    /// A new label, which is placed nowhere. After `NoMemory` the emitter is as before.
    #[tactic(auto, using(crate::proofs::Counting::label_lemmas))]
    pub fn label(&mut self) -> Result<u32, NoMemory>
        requires few { self.old.labels + 1 < 2 ^ 32 }
        ensures number { IfOk result (λ label. label ≡ self.old.labels) }
        ensures unplaced { IfOk result (λ label. placements self.new.lines label ≡ 0) }
        ensures made { OnOk result (self.new ≡ record self.old { labels = self.old.labels + 1 }) }
        ensures err { OnErr result (self.new ≡ self.old) }
    {
        let label = self.placed.len() as u32;
        make_room(&mut self.kept, self.missing as usize + 1, self.tally.size())?;
        self.placed.push(false)?;
        self.missing += 1;
        Ok(label)
    }

    /// Places a label: it stands behind all lines.
    #[tactic(auto, using(crate::proofs::Counting::place_lemmas))]
    pub fn place(&mut self, label: u32)
        requires made { label < self.old.labels }
        requires unplaced { placements self.old.lines label ≡ 0 }
        ensures placed { self.new ≡ record self.old { lines = self.old.lines ++ Label label ∷ [] } }
    {
        let size = self.tally.size();
        if size <= FILE_BYTES as u64 {
            self.kept.push(Kept::Label(label)).unwrap();
        }
        self.placed[label as usize] = true;
        self.missing -= 1;
        self.tally.tell(&Note::Label(label), size);
    }

    /// Puts an instruction last. After `NoMemory` the emitter is as before.
    #[tactic(auto, using(crate::proofs::Counting::op_lemmas))]
    pub fn op(&mut self, op: &Op<'_>) -> Result<(), NoMemory>
        requires row { HasRow (plain op.now) }
        ensures ok { OnOk result (self.new
            ≡ record self.old { lines = self.old.lines ++ Instruction (plain op.now) ∷ [] }) }
        ensures err { OnErr result (self.new ≡ self.old) }
    {
        spelling_laws();
        size_laws();
        op_fits(op);
        let size = self.tally.size_with(op.size())?;
        if size <= FILE_BYTES as u64 {
            self.kept.reserve(self.missing as usize + 1)?;
            op.encode(&mut self.bytes)?;
            self.kept.push(Kept::Instruction(op.size())).unwrap();
        }
        self.tally.tell(&Note::Instruction(op), size);
        Ok(())
    }

    /// Puts a jump to a label last. After `NoMemory` the emitter is as before.
    #[tactic(auto, using(crate::proofs::Counting::jump_lemmas))]
    pub fn jump(&mut self, jump: Jump, label: u32) -> Result<(), NoMemory>
        requires made { label < self.old.labels }
        ensures ok { OnOk result (self.new
            ≡ record self.old { lines = self.old.lines ++ JumpTo jump label ∷ [] }) }
        ensures err { OnErr result (self.new ≡ self.old) }
    {
        let size = self.tally.size_with(JUMP_BYTES)?;
        if size <= FILE_BYTES as u64 {
            self.kept.reserve(self.missing as usize + 1)?;
            self.kept.push(Kept::Jump(jump, label)).unwrap();
        }
        self.tally.tell(&Note::Jump(jump, label), size);
        Ok(())
    }

    /// What is known of every emitter's lines: each fits, and no label is placed twice.
    pub fn sound(&self)
        ensures fits { AllByRecursion (LineFits self.now.labels) self.now.lines }
        ensures once { IsPlacedOnce self.now.lines }
    {
        let _ = &self.missing;
    }

    /// The file of the code, where each jump has the distance from its own start to its label's
    /// place.
    pub fn finish(self, alloc: Global) -> Result<Vec<u8>, EmitFault>
        requires placed { (label : ℕ) → label < self.labels → 1 ≤ placements self.lines label }
        ensures file { IfOk result (λ bytes. bytes.items ≡ file_bytes (program self.lines)) }
        ensures bounded { OnOk result (file_length (program self.lines) ≤ file_limit) }
        ensures fault { IfErr result (λ fault. EmitFails fault self.lines) }
    {
        size_laws();
        let size = self.tally.size();
        if size > FILE_BYTES as u64 {
            return Err(EmitFault::Large(size));
        }
        let places = places_of(alloc, self.kept.as_slice(), self.placed.len())?;
        let mut file = Vec::with_capacity(alloc, size as usize)?;
        file.extend_from_slice(&header(size as u32))?;
        put_lines(
            &mut file,
            self.bytes.as_slice(),
            self.kept.as_slice(),
            places.as_slice(),
            size,
        )?;
        Ok(file)
    }
}
