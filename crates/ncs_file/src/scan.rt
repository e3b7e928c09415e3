//! The tests that a file passes, one after another.

ghost use Rattle.std.specs.Prelude.{◌≡◌, ◌+◌, ◌-◌, ◌^◌, ◌<◌, ◌≤◌, ◌∷◌, ◌++◌, [], ℕ, List, length};
ghost use Rattle.std.specs.Prelude.{true, false, replicate, slice_index_or, take, IfOk, IfErr};
ghost use Rattle.std.specs.Prelude.{IfSome, OnOk, Some, None, MatchResult, MatchOption, OnErr};
ghost use Rattle.nwq_value.specs.Limits.{file_limit};
ghost use Rattle.ncs_code.specs.Plain.{PlainOp, plain};
ghost use Rattle.ncs_code.specs.Spelling.{op_size};
ghost use Rattle.ncs_code.specs.File.{AllLeadWell, leads_well};
ghost use Rattle.ncs_file.specs.Loading.{LoadFails, HasHeader};
ghost use Rattle.ncs_file.specs.Marks.{IsScanned, begins_there, listing, marks};

use crate::fault::LoadFault;
use ncs_code::{
    HEADER_BYTES, Op, decode, header, jump_place, place_laws, size_laws, spelling_laws,
};
use nwq_value::NoMemory;
use std::alloc::Global;

/// Where instructions begin, and how many there are.
#[derive(Drop)]
pub(crate) struct Starts {
    pub(crate) table: Vec<bool>,
    pub(crate) count: u32,
}

/// The first `n` bytes, or all where there are fewer.
#[tactic(auto, using(crate::proofs::Lists::take_all))]
fn prefix(bytes: &[u8], n: usize) -> &[u8]
    ensures { result.now ≡ take n bytes.now }
{
    if bytes.len() <= n { bytes } else { &bytes[..n] }
}

/// Does the file begin as it must?
#[tactic(auto, using(crate::proofs::Lists::magic_front))]
pub(crate) fn test_header(bytes: &[u8]) -> Result<(), LoadFault>
    requires { length bytes.now ≤ file_limit }
    ensures { MatchResult result (λ _. HasHeader bytes.now) (λ fault. LoadFails fault bytes.now) }
{
    let wanted = header(bytes.len() as u32);
    if prefix(bytes, 9) != &wanted[..9] {
        return Err(LoadFault::Magic);
    }
    if prefix(bytes, HEADER_BYTES) != wanted.as_slice() {
        return Err(LoadFault::Length);
    }
    Ok(())
}

/// Puts an entry for each byte of an instruction last.
#[tactic(auto, using(crate::proofs::Lists::mark_next))]
fn put_mark(table: &mut Vec<bool>, size: u32) -> Result<(), NoMemory>
    requires { 1 ≤ size }
    ensures { OnOk result (table.new.items ≡ table.old.items ++ true ∷ replicate (size - 1) false) }
{
    table.push(true)?;
    for _rest in 1..size {
        table.push(false)?;
    }
    Ok(())
}

/// The table of a file without instructions.
fn empty_table(alloc: Global, room: usize) -> Result<Vec<bool>, NoMemory>
    ensures { IfOk result (λ table. table.items ≡ replicate 13 false) }
{
    let mut table = Vec::with_capacity(alloc, room)?;
    for _place in 0..HEADER_BYTES {
        table.push(false)?;
    }
    Ok(table)
}

/// Goes over the instructions, which must fill the file.
#[tactic(auto, using(crate::proofs::Scanning::scan_lemmas))]
pub(crate) fn starts_of(alloc: Global, bytes: &[u8]) -> Result<Starts, LoadFault>
    requires bounded { length bytes.now ≤ file_limit }
    requires begun { HasHeader bytes.now }
    ensures scanned { IfOk result (λ starts. IsScanned bytes.now starts.table.items starts.count) }
    ensures fault { IfErr result (λ fault. LoadFails fault bytes.now) }
{
    spelling_laws();
    size_laws();
    let mut table = empty_table(alloc, bytes.len())?;
    let mut count = 0;
    let mut at = HEADER_BYTES;
    while at < bytes.len() {
        match decode(bytes, at as u32) {
            Err(fault) => return Err(LoadFault::At(at as u32, fault)),
            Ok((_op, size)) => {
                put_mark(&mut table, size)?;
                count += 1;
                at += size as usize;
            }
        }
    }
    Ok(Starts { table, count })
}

/// The entry of the table at a place; behind its end nothing begins.
pub(crate) fn is_marked(table: &[bool], place: usize) -> bool
    ensures { result ≡ slice_index_or table.now place false }
{
    place < table.len() && table[place]
}

/// Where an instruction leads besides the next one: a jump, or the code that a STORE_STATE stores.
fn target_of(op: &Op<'_>, at: u32) -> Option<u32>
    requires { at < 2 ^ 31 }
    ensures { (ops : List PlainOp) → begins_there ops result ≡ leads_well ops at (plain op.now) }
{
    match *op {
        Op::Jmp { offset } | Op::Jsr { offset } | Op::Jz { offset } | Op::Jnz { offset } => {
            Some(jump_place(at, offset))
        }
        Op::StoreState { .. } => Some(at + 16),
        _ => None,
    }
}

/// Does it lead to a beginning of an instruction, if it leads anywhere besides the next one?
#[tactic(auto, using(crate::proofs::Places::begins_marked))]
fn leads_well(table: &[bool], op: &Op<'_>, at: u32) -> bool
    requires { at < 2 ^ 31 }
    ensures { (ops : List PlainOp) → table.now ≡ marks ops →
        result ≡ leads_well ops at (plain op.now) }
{
    size_laws();
    match target_of(op, at) {
        None => true,
        Some(place) => is_marked(table, place as usize),
    }
}

/// Goes over the instructions again, each of which must lead to beginnings of instructions.

pub(crate) fn test_targets(bytes: &[u8], starts: &Starts) -> Result<(), LoadFault>
    requires bounded { length bytes.now ≤ file_limit }
    requires scanned { IsScanned bytes.now starts.now.table.items starts.now.count }
    ensures { MatchResult result (λ _. AllLeadWell (listing bytes.now))
        (λ fault. LoadFails fault bytes.now) }
{
    size_laws();
    place_laws();
    let mut at = HEADER_BYTES;
    while at < bytes.len() {
        match decode(bytes, at as u32) {
            Err(_) => unreachable!(),
            Ok((op, size)) => {
                if !leads_well(starts.table.as_slice(), &op, at as u32) {
                    return Err(LoadFault::Target(at as u32));
                }
                at += size as usize;
            }
        }
    }
    Ok(())
}
