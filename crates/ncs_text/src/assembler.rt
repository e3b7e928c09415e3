//! From a text to its file.

ghost use Rattle.std.specs.Prelude.{◌≡◌, ◌<◌, ◌≤◌, ◌^◌, ◌++◌, [], length, IfOk, IfErr};
ghost use Rattle.nwq_value.specs.Limits.{file_limit};
ghost use Rattle.ncs_code.specs.File.{magic};
ghost use Rattle.ncs_code.specs.Spelling.{four};
ghost use Rattle.ncs_text.specs.Assembly.{AssemblyFails, IsAssembled};
ghost use Rattle.ncs_text.specs.Steps.{HasCode, IsPassed, IsWhole};

use crate::fault::AsmFault;
use crate::putting::put_line;
use ncs_code::{HEADER_BYTES, header, one_name, place_laws, size_laws, spelling_laws};
use ncs_file::{LoadFault, load};
use nwq_text::Lines;
use nwq_value::{FILE_BYTES, NoMemory};
use std::alloc::Global;

/// What the lines of a text stand for, as far as they were read.
#[derive(Drop)]
struct Pass {
    /// The spellings of the instructions, where a file may be so large.
    body: Vec<u8>,
    /// How large the file is.
    size: u64,
    /// How many lines were read.
    number: u64,
}

/// Forgets the spellings of a file that is too large.
fn forget_large(body: &mut Vec<u8>, size: u64)
    ensures { size ≤ file_limit → body.new.items ≡ body.old.items }
{
    if size > FILE_BYTES as u64 {
        body.truncate(0);
    }
}

/// Reads the lines, up to the one whose instruction passes a place.
fn read_lines(alloc: Global, text: &[u8], stop: u64) -> Result<Pass, AsmFault>
    requires { length text.now < 2 ^ 32 }
    ensures passed { IfOk result (λ p.
        IsPassed text.now stop p.body.items p.size p.number) }
    ensures fault { IfErr result (λ fault. AssemblyFails fault text.now) }
{
    size_laws();
    let mut body = Vec::new(alloc);
    let mut size = HEADER_BYTES as u64;
    let mut number = 0u64;
    let mut lines = Lines::of(text);
    while let Some(line) = lines.next_line() {
        if size > stop {
            return Ok(Pass { body, size, number });
        }
        number = line.number;
        let Some(added) = put_line(alloc, &mut body, size, line.bytes)? else {
            return Err(AsmFault::Line(number));
        };
        size += u64::from(added);
        forget_large(&mut body, size);
    }
    Ok(Pass { body, size, number })
}

/// The file of these spellings.
fn file_of(alloc: Global, size: u64, body: &[u8]) -> Result<Vec<u8>, NoMemory>
    requires { size ≤ file_limit }
    ensures { IfOk result (λ file. file.items ≡ magic ++ (four size ++ body.now)) }
{
    let mut file = Vec::with_capacity(alloc, size as usize)?;
    file.extend_from_slice(&header(size as u32))?;
    file.extend_from_slice(body)?;
    Ok(file)
}

/// Is each jump led to an instruction? If not, the line of the first that is not is the fault.
fn test_targets(alloc: Global, text: &[u8], body: &[u8], size: u64) -> Result<(), AsmFault>
    requires short { length text.now < 2 ^ 32 }
    requires whole { IsWhole text.now body.now size }
    ensures code { IfOk result (λ _. HasCode text.now body.now size) }
    ensures fault { IfErr result (λ fault. AssemblyFails fault text.now) }
{
    spelling_laws();
    size_laws();
    place_laws();
    one_name();
    let file = file_of(alloc, size, body)?;
    match load(alloc, file) {
        Ok(_code) => Ok(()),
        Err(LoadFault::Target(place)) => {
            let found = read_lines(alloc, text, u64::from(place))?;
            Err(AsmFault::Target(found.number))
        }
        Err(LoadFault::NoMemory) => Err(AsmFault::NoMemory),
        Err(LoadFault::Magic) => unreachable!(),
        Err(LoadFault::Length) => unreachable!(),
        Err(LoadFault::At(_, _)) => unreachable!(),
    }
}

/// The file of a text.
pub fn assemble(alloc: Global, text: &[u8]) -> Result<Vec<u8>, AsmFault>
    requires size { length text.now < 2 ^ 32 }
    ensures file { IfOk result (λ file. IsAssembled text.now file.items) }
    ensures fault { IfErr result (λ fault. AssemblyFails fault text.now) }
{
    let Pass { body, size, .. } = read_lines(alloc, text, u64::MAX)?;
    if size > FILE_BYTES as u64 {
        return Err(AsmFault::Large(size));
    }
    test_targets(alloc, text, body.as_slice(), size)?;
    let file = file_of(alloc, size, body.as_slice())?;
    Ok(file)
}
