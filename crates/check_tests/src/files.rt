use engine_table::built_in;
use ncs_file::load;
use ncs_text::assemble;
use nwq_value::{FILE_BYTES, NoMemory, Table};
use stack_check::{CheckFault, check};
use std::alloc::Global;

/// What is said of a text's file.
#[derive(Clone, Copy, Debug, PartialEq, Eq)]
pub enum Verdict {
    Passed,
    Unstacked,
    /// It is no file, or memory ran out.
    Other,
}

fn verdict_of(alloc: Global, table: &Table, text: &[u8]) -> Verdict {
    if text.len() > FILE_BYTES {
        return Verdict::Other;
    }
    match assemble(alloc, text) {
        Err(_) => Verdict::Other,
        Ok(file) => {
            if file.len() > FILE_BYTES {
                return Verdict::Other;
            }
            match load(alloc, file) {
                Err(_) => Verdict::Other,
                Ok(code) => match check(alloc, code, table) {
                    Ok(_) => Verdict::Passed,
                    Err(CheckFault::Unstacked) => Verdict::Unstacked,
                    Err(CheckFault::NoMemory) => Verdict::Other,
                },
            }
        }
    }
}

/// The number of the first text with another verdict, counted from 0, or their count.
pub fn first_other(alloc: Global, texts: &[&[u8]], wanted: Verdict) -> Result<usize, NoMemory> {
    let table = built_in(alloc)?;
    for (i, text) in texts.iter().enumerate() {
        if verdict_of(alloc, &table, text) != wanted {
            return Ok(i);
        }
    }
    Ok(texts.len())
}
