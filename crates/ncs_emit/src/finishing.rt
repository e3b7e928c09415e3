//! The file of labelled code, once all of it is there.

ghost use Rattle.std.specs.Prelude.{◌≡◌, ◌+◌, ◌^◌, ◌<◌, ◌≤◌, ◌++◌, ℕ, length, vec_len, replicate};
ghost use Rattle.std.specs.Prelude.{unwrap_or, slice_index_or, None, IfOk, OnOk};
ghost use Rattle.std.specs.List.{AllByRecursion};
ghost use Rattle.nwq_value.specs.Limits.{file_limit};
ghost use Rattle.ncs_code.specs.Plain.{plain};
ghost use Rattle.ncs_code.specs.Spelling.{spelling};
ghost use Rattle.ncs_code.specs.File.{distance, spellings};
ghost use Rattle.ncs_emit.specs.Labelled.{jump_over, program};
ghost use Rattle.ncs_emit.specs.Emitting.{HasLabels, KeptFits, kept_place, kept_total, lines_of};

use crate::jump::Jump;
use crate::line::{JUMP_BYTES, Kept};
use ncs_code::{HEADER_BYTES, Op, size_laws};
use nwq_value::NoMemory;
use std::alloc::Global;

/// No place yet for any label.
fn no_places(alloc: Global, labels: usize) -> Result<Vec<Option<u64>>, NoMemory>
    ensures { IfOk result (λ places. places.items ≡ replicate labels None) }
{
    let mut places = Vec::with_capacity(alloc, labels)?;
    for _label in 0..labels {
        places.push(None)?;
    }
    Ok(places)
}

/// Where each label stands.
pub(crate) fn places_of(
    alloc: Global,
    kept: &[Kept],
    labels: usize,
) -> Result<Vec<Option<u64>>, NoMemory>
    requires bounded { 13 + kept_total kept.now < 2 ^ 64 }
    requires labelled { AllByRecursion (HasLabels labels) kept.now }
    ensures len { IfOk result (λ places. vec_len places ≡ labels) }
    ensures places { IfOk result (λ places. (label : ℕ) →
        unwrap_or (slice_index_or places.items label None) (13 + kept_total kept.now)
        ≡ kept_place 13 kept.now label) }
{
    let mut places = no_places(alloc, labels)?;
    let mut at = HEADER_BYTES as u64;
    for line in kept {
        match *line {
            Kept::Instruction(size) => at += size as u64,
            Kept::Jump(_, _) => at += JUMP_BYTES as u64,
            Kept::Label(label) => {
                let place = &mut places[label as usize];
                if place.is_none() {
                    *place = Some(at);
                }
            }
        }
    }
    Ok(places)
}

/// The jump over a distance.
fn jump_over(jump: Jump, distance: i32) -> Op<'static>
    ensures { plain result ≡ jump_over jump distance }
{
    match jump {
        Jump::Jmp => Op::Jmp { offset: distance },
        Jump::Jsr => Op::Jsr { offset: distance },
        Jump::Jz => Op::Jz { offset: distance },
        Jump::Jnz => Op::Jnz { offset: distance },
    }
}

/// Appends a jump that stands at the end of the file.
fn put_jump(file: &mut Vec<u8>, jump: Jump, place: u64) -> Result<(), NoMemory>
    requires long { length file.old.items ≤ file_limit }
    requires near { place ≤ file_limit }
    ensures { OnOk result (file.new.items
        ≡ file.old.items ++ spelling (jump_over jump (distance (length file.old.items) place))) }
{
    let distance = place as i32 - file.len() as i32;
    jump_over(jump, distance).encode(file)
}

/// Appends the lines, each jump with the distance from its own start to its label's place.
pub(crate) fn put_lines(
    file: &mut Vec<u8>,
    bytes: &[u8],
    kept: &[Kept],
    places: &[Option<u64>],
    size: u64,
) -> Result<(), NoMemory>
    requires begun { length file.old.items ≡ 13 }
    requires fits { KeptFits (length places.now) bytes.now kept.now }
    requires whole { size ≡ 13 + kept_total kept.now }
    requires bounded { size ≤ file_limit }
    requires placed { (label : ℕ) →
        unwrap_or (slice_index_or places.now label None) size ≡ kept_place 13 kept.now label }
    ensures { OnOk result (file.new.items
        ≡ file.old.items ++ spellings (program (lines_of bytes.now kept.now))) }
{
    size_laws();
    let mut rest = bytes;
    for line in kept {
        match *line {
            Kept::Instruction(count) => {
                let (spelled, others) = rest.split_at(count as usize);
                file.extend_from_slice(spelled)?;
                rest = others;
            }
            Kept::Jump(jump, label) => {
                let place = places[label as usize].unwrap_or(size);
                put_jump(file, jump, place)?;
            }
            Kept::Label(_) => {}
        }
    }
    Ok(())
}
