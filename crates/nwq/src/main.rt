//! The program: it takes its words, makes the real files, standard output and standard error, and
//! ends as `end::end_of` says. What that call promises is the whole program's contract: see
//! docs/COMMANDS.md and docs/THEOREMS.md.
#![tactic(auto)]

mod end;
mod messages;
#[cfg(test)]
mod tests;
mod whole;

ghost use Rattle.nwq.specs.Ending.{AreHandedIn};

use crate::end::{Words, end_of};
use crate::messages::Messages;
use command_messages::LastLine;
use kept_files::KeptFiles;
use nwq_outside::RealSink;
use nwq_value::NoMemory;
use real_files::{HostDisk, RealFiles};
use std::env::{Args, Env, FillError};
use std::io::ErrorKind;
use std::process::ExitCode;
use std::{env, io};

/// How many words are searched at most for the one that is no text, and how long it is.
const MOST_WORDS: usize = 64;

const MOST_OF_A_WORD: usize = 4_096;

/// The program's name and the words after it, by what the host answers.
fn words_by(rt: &HostRuntime, answer: io::Result<Args>) -> Words
    ensures handed { AreHandedIn answer result }
{
    match answer {
        Ok(all) => match all.collect(rt.alloc()) {
            Ok(all) => Words::All(all),
            Err(_) => Words::NoMemory,
        },
        Err(error) if error.kind() == ErrorKind::OutOfMemory => Words::NoMemory,
        Err(_) => match no_text(rt) {
            Ok(word) => Words::NoText(word),
            Err(NoMemory) => Words::NoText(Vec::new(rt.alloc())),
        },
    }
}

/// Whether a word of so many bytes, which stands at the front of a buffer, is no text.
fn is_no_text(buffer: &[u8], len: usize) -> bool {
    len <= buffer.len() && str::from_utf8(&buffer[..len]).is_err()
}

/// The first of the words that is no text, the empty one where none is found.
fn no_text(rt: &HostRuntime) -> Result<Vec<u8>, NoMemory> {
    let mut buffer = vec![in rt.alloc(); 0u8; MOST_OF_A_WORD]?;
    for i in 0..MOST_WORDS {
        match rt.arg(i, buffer.as_mut_slice()) {
            Err(FillError::NotPresent) => break,
            Err(FillError::TooLong) => {}
            Ok(len) => {
                if is_no_text(buffer.as_slice(), len) {
                    buffer.truncate(len);
                    return Ok(buffer);
                }
            }
        }
    }
    Ok(Vec::new(rt.alloc()))
}

/// The files of the host, unless there is no memory for them.
fn host_files(rt: &HostRuntime) -> Option<RealFiles<HostDisk<HostRuntime>>> {
    match rt.clone() {
        Ok(own) => Some(RealFiles::new(rt.alloc(), HostDisk::new(own, rt.stdout(), rt.stderr()))),
        Err(_) => None,
    }
}

fn main(rt: HostRuntime) -> ExitCode {
    let words = words_by(&rt, env::args(&rt));
    let mut files = match host_files(&rt) {
        Some(files) => KeptFiles::new(rt.alloc(), files),
        None => return ExitCode::from(8),
    };
    let mut out = LastLine::new(rt.alloc(), RealSink::new(rt.stdout()));
    let mut err = Messages::new(RealSink::new(rt.stderr()));
    end_of(rt.alloc(), words, &mut files, &mut out, &mut err)
}
