//! Messages on what the system or memory refused.

use crate::form::{put_kind, put_name, put_words};
use nwq_outside::{Done, Sink};
use nwq_value::NoMemory;
use real_files::Trouble;
use std::io::ErrorKind;

/// What the system's error is called.
fn error_text(kind: ErrorKind) -> &'static str {
    match kind {
        ErrorKind::NotFound => "no such file or folder",
        ErrorKind::PermissionDenied => "permission denied",
        ErrorKind::IsADirectory => "it is a directory",
        ErrorKind::NotADirectory => "a part of the name is no directory",
        ErrorKind::StorageFull => "no space left",
        ErrorKind::QuotaExceeded => "the quota is used up",
        ErrorKind::ReadOnlyFilesystem => "the file system is read-only",
        ErrorKind::FileTooLarge => "the file is too large for the system",
        ErrorKind::FilesystemLoop => "its links lead in a circle",
        ErrorKind::InvalidFilename => "the name is too long",
        ErrorKind::ExecutableFileBusy | ErrorKind::ResourceBusy => "it is in use",
        ErrorKind::BrokenPipe => "nothing reads the pipe any more",
        ErrorKind::TimedOut => "the system gave no answer in time",
        _ => "the system refused it",
    }
}

/// Appends the message on a name at which the system failed, or, where none did, on standard
/// output.
pub fn put_fault(out: &mut Vec<u8>, trouble: Option<&Trouble>) -> Result<(), NoMemory> {
    match trouble {
        Some(trouble) => {
            put_name(out, trouble.name.as_bytes())?;
            put_words(out, ": error: the file could not be read or written: ")?;
            put_words(out, error_text(trouble.kind))?;
        }
        None => put_words(out, "standard output: error: it could not be written")?,
    }
    put_kind(out, b"fault")
}

/// What more memory doesn't change.
#[derive(Clone, Copy)]
pub enum Budget {
    /// The bytes of a header's strings.
    Strings,
    /// The bytes that the tree of a GFF file is charged.
    Tree,
    /// The rows, nodes and joined slots for the shapes of a file of bytecode.
    Shapes,
}

fn budget_text(budget: Budget) -> &'static str {
    match budget {
        Budget::Strings => "268,435,456 bytes for the strings of the header",
        Budget::Tree => "268,435,456 bytes for the tree of the GFF file",
        Budget::Shapes => {
            "33,554,432 rows or nodes, or 134,217,728 joined slots, \
                for the shapes of a file of bytecode"
        }
    }
}

/// Whether a sink takes a text.
fn takes<E: Sink>(err: &mut E, text: &str) -> bool {
    matches!(err.put(text.as_bytes()), Done::Ok)
}

/// Puts these budgets. Whether the sink took all pieces.
fn put_budgets<E: Sink>(err: &mut E, budgets: &[Budget]) -> bool {
    for (i, budget) in budgets.iter().enumerate() {
        let before = if i == 0 {
            ", or a fixed budget is used up: "
        } else {
            ", or "
        };
        if !takes(err, before) || !takes(err, budget_text(*budget)) {
            return false;
        }
    }
    true
}

/// Says that memory was refused, or that one of these budgets is used up. It takes no memory: the
/// pieces are put one by one, as far as the sink takes them.
pub fn put_memory<E: Sink>(err: &mut E, budgets: &[Budget]) {
    if takes(err, "nwq: error: memory was refused by the system") && put_budgets(err, budgets) {
        let _whole = takes(err, " [memory]\n");
    }
}
