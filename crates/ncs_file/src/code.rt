ghost use Rattle.std.specs.Prelude.{◌≡◌, ◌≤◌, List, length, IfOk, IfErr, MatchOption, MatchResult};
ghost use Rattle.std.specs.Prelude.{None, Some};
ghost use Rattle.nwq_value.specs.Limits.{file_limit};
ghost use Rattle.ncs_code.specs.Plain.{PlainOp, plain};
ghost use Rattle.ncs_code.specs.Spelling.{op_size};
ghost use Rattle.ncs_code.specs.File.{IsCode, file_bytes, op_at};
ghost use Rattle.ncs_file.specs.Loading.{LoadFails};
ghost use Rattle.ncs_file.specs.declared.fault.LoadFault.TheVariants.{NoMemory};

use crate::fault::LoadFault;
use crate::scan::{Starts, is_marked, starts_of, test_header, test_targets};
use ncs_code::{Op, decode, place_laws, size_laws, spelling_laws};
use std::alloc::Global;
use std::marker::Model;

/// A file of bytecode whose instructions fill it and lead to beginnings of instructions. Contracts
/// see it as the list of its instructions, which tells their places and the bytes of the file.
pub struct Code {
    bytes: Vec<u8>,
    /// For each place: does an instruction begin there?
    starts: Vec<bool>,
    count: u32,
}

impl Model for Code {
    ghost use Rattle.std.specs.Prelude.{List};
    ghost use Rattle.ncs_code.specs.Plain.{PlainOp};
    ghost use Rattle.ncs_file.specs.Marks.{IsLoaded, listing};

    ghost Value = { List PlainOp };

    ghost view = { λ c. listing c.bytes.items };

    ghost invariant = { λ c. IsLoaded c.bytes.items c.starts.items c.count };
}

impl Drop for Code {
    fn drop(self) {
        let Code {
            bytes,
            starts,
            count: _,
        } = self;
        drop(bytes);
        drop(starts);
    }
}

/// The file that these bytes are, which keeps them.
#[tactic(auto, using(crate::proofs::Loaded::load_lemmas))]
pub fn load(alloc: Global, bytes: Vec<u8>) -> Result<Code, LoadFault>
    requires size { length bytes.items ≤ file_limit }

    // What is loaded is a file, spelled so.
    ensures loaded { IfOk result (λ code. IsCode code × (bytes.items ≡ file_bytes code)) }
    // What is spelled as a file is loaded, unless memory runs out.
    ensures only { (ops : List PlainOp) → IsCode ops → bytes.items ≡ file_bytes ops →
        MatchResult result (λ code. code ≡ ops) (λ fault. fault ≡ NoMemory) }
    // The fault is the first that there is.
    ensures fault { IfErr result (λ fault. LoadFails fault bytes.items) }
{
    spelling_laws();
    size_laws();
    place_laws();
    test_header(bytes.as_slice())?;
    let starts = starts_of(alloc, bytes.as_slice())?;
    test_targets(bytes.as_slice(), &starts)?;
    let Starts { table, count } = starts;
    Ok(Code {
        bytes,
        starts: table,
        count,
    })
}

/// The bytes of the file, as they were loaded.
pub fn store(code: &Code) -> &[u8]
    ensures bytes { result.now ≡ file_bytes code.now }
{
    code.bytes.as_slice()
}

impl Code {
    /// The instruction that begins at a place, and how many bytes it takes.
    pub fn op_at(&self, at: u32) -> Option<(Op<'_>, u32)>
        ensures op { MatchOption result (op_at self.now at ≡ None)
            (λ x. (op_at self.now at ≡ Some (plain x.0)) × (x.1 ≡ op_size (plain x.0))) }
    {
        size_laws();
        place_laws();
        if !is_marked(self.starts.as_slice(), at as usize) {
            return None;
        }
        match decode(self.bytes.as_slice(), at) {
            Err(_) => unreachable!(),
            Ok(found) => Some(found),
        }
    }

    /// How many instructions there are.
    pub fn count(&self) -> u32
        ensures count { result ≡ length self.now }
    {
        self.count
    }

    /// What is known of every file that was loaded.
    pub fn sound(&self)
        ensures code { IsCode self.now }
    {
        size_laws();
        let _ = &self.count;
    }
}
