//! The forms of the words, and which word of a command line is wrong.

use crate::form::{put_sentence, put_words};
use nwq_text::put_count;
use nwq_value::NoMemory;

/// The version of the program.
pub const VERSION: &str = "1.1";

/// A form of words: a command, and what follows it.
struct Form {
    command: &'static str,
    words: &'static str,
    does: &'static str,
    /// How many words follow at least and at most.
    least: usize,
    most: usize,
    /// Which of them is the name of a script.
    script: Option<usize>,
    /// Which of them is a number, and what is said where it is none.
    number: Option<usize>,
}

const NO_SCRIPT: &str =
    "`%` is no name of a script: 1 to 16 of a to z, 0 to 9 and `_`, without `.nss`";

const NO_ENTRIES: &str = "`%` is no N: it is a number of 1 to 1,000,000, in digits";

const NO_NUMBER: &str = "`%` is no NUMBER: it is one of 0 to 1,000,000, in digits";

const FORMS: [Form; 10] = [
    Form {
        command: "run",
        words: "HEADER SCRIPT",
        does: "plays one start of a script",
        least: 2,
        most: 2,
        script: Some(1),
        number: None,
    },
    Form {
        command: "compile",
        words: "HEADER SCRIPT",
        does: "writes SCRIPT.ncs",
        least: 2,
        most: 2,
        script: Some(1),
        number: None,
    },
    Form {
        command: "tree",
        words: "FILE",
        does: "shows the tree of a GFF file",
        least: 1,
        most: 1,
        script: None,
        number: None,
    },
    Form {
        command: "check",
        words: "HEADER FILE",
        does: "checks a file of bytecode",
        least: 2,
        most: 2,
        script: None,
        number: None,
    },
    Form {
        command: "dis",
        words: "FILE TO",
        does: "writes a file of bytecode as text",
        least: 2,
        most: 2,
        script: None,
        number: None,
    },
    Form {
        command: "asm",
        words: "FILE TO",
        does: "writes a text as a file of bytecode",
        least: 2,
        most: 2,
        script: None,
        number: None,
    },
    Form {
        command: "play",
        words: "HEADER AREA PLAN TO [TABLES]",
        does: "plays a plan over an area, and leaves the area in TO",
        least: 4,
        most: 5,
        script: None,
        number: None,
    },
    Form {
        command: "save",
        words: "HEADER AREA PLAN N STATE [TABLES]",
        does: "plays N entries of a plan, 1 to 1,000,000, and leaves the play's state in STATE",
        least: 5,
        most: 6,
        script: None,
        number: Some(3),
    },
    Form {
        command: "resume",
        words: "STATE TO [TABLES]",
        does: "plays on from a state, and leaves the area in TO",
        least: 2,
        most: 3,
        script: None,
        number: None,
    },
    Form {
        command: "generate",
        words: "NUMBER",
        does: "plays what is made from a number of 0 to 1,000,000",
        least: 1,
        most: 1,
        script: None,
        number: Some(0),
    },
];

/// The form of this command.
fn form_of(command: &str) -> Option<&'static Form> {
    for form in FORMS.iter() {
        if form.command == command {
            return Some(form);
        }
    }
    None
}

/// A word that begins with `-` and isn't `-` alone.
fn dashed(words: &[String]) -> Option<&str> {
    for word in words {
        let bytes = word.as_bytes();
        if bytes.len() > 1 && bytes[0] == b'-' {
            return Some(word.as_str());
        }
    }
    None
}

/// Appends how many words a command takes and was given.
fn put_counts(out: &mut Vec<u8>, form: &Form, given: usize) -> Result<(), NoMemory> {
    put_sentence(out, "`%` takes ", form.command.as_bytes())?;
    put_words(out, form.words)?;
    put_words(out, ", and was given ")?;
    put_count(out, given as u64)?;
    put_words(out, if given == 1 { " word" } else { " words" })
}

/// What is said of a word that isn't the number that a command takes.
fn number_sentence(form: &Form) -> &'static str {
    if form.command == "save" {
        NO_ENTRIES
    } else {
        NO_NUMBER
    }
}

/// Appends that a word isn't what its command takes there, by one sentence for a word of its kind.
fn put_wrong_word(
    out: &mut Vec<u8>,
    form: &Form,
    rest: &[String],
    at: usize,
    sentence: &str,
) -> Result<(), NoMemory> {
    match rest.get(at) {
        Some(word) => put_sentence(out, sentence, word.as_bytes()),
        None => put_counts(out, form, rest.len()),
    }
}

/// Appends what is wrong with the words behind a command.
fn put_wrong_rest(out: &mut Vec<u8>, form: &Form, rest: &[String]) -> Result<(), NoMemory> {
    if rest.len() < form.least || rest.len() > form.most {
        return put_counts(out, form, rest.len());
    }
    match (form.script, form.number) {
        (Some(at), _) => put_wrong_word(out, form, rest, at, NO_SCRIPT),
        (None, Some(at)) => put_wrong_word(out, form, rest, at, number_sentence(form)),
        (None, None) => put_sentence(
            out,
            "`%` isn't given what it takes",
            form.command.as_bytes(),
        ),
    }
}

/// Appends which word is wrong. A command without words is asked for usage.
fn put_wrong(out: &mut Vec<u8>, words: &[String]) -> Result<(), NoMemory> {
    let Some((command, rest)) = words.split_first() else {
        return put_words(out, "no command is given");
    };
    if let Some(word) = dashed(words) {
        return put_sentence(
            out,
            "`%` begins with `-`: there are no options",
            word.as_bytes(),
        );
    }
    match form_of(command.as_str()) {
        None => put_sentence(out, "`%` is no command", command.as_bytes()),
        Some(form) => put_wrong_rest(out, form, rest),
    }
}

fn put_form(out: &mut Vec<u8>, form: &Form) -> Result<(), NoMemory> {
    put_words(out, "  nwq ")?;
    put_words(out, form.command)?;
    put_words(out, " ")?;
    put_words(out, form.words)?;
    put_words(out, "  (")?;
    put_words(out, form.does)?;
    put_words(out, ")\n")
}

/// What is asked of the program in place of a command.
#[derive(Clone, Copy)]
enum Asked {
    Usage,
    Version,
    Nothing,
}

fn asks_for_help(word: &str) -> bool {
    word == "help" || word == "--help" || word == "-h"
}

/// What these words ask for: nothing is said to be wrong with them.
fn asked_by(words: &[String]) -> Asked {
    match words {
        [] => Asked::Usage,
        [only] if only.as_str() == "--version" => Asked::Version,
        [first, ..] if asks_for_help(first.as_str()) => Asked::Usage,
        [_command, second, ..] if asks_for_help(second.as_str()) => Asked::Usage,
        _ => Asked::Nothing,
    }
}

fn put_version(out: &mut Vec<u8>) -> Result<(), NoMemory> {
    put_words(out, "nwq ")?;
    put_words(out, VERSION)
}

fn put_forms(out: &mut Vec<u8>) -> Result<(), NoMemory> {
    put_words(out, "usage:\n")?;
    for form in FORMS.iter() {
        put_form(out, form)?;
    }
    put_words(out, "HEADER is a header file, or - for the built-in one\n")
}

/// Appends what is said after words that are no form of a command: the program and its version,
/// which word is wrong, unless they ask for usage or for the version, and the forms.
pub fn put_usage(out: &mut Vec<u8>, words: &[String]) -> Result<(), NoMemory> {
    put_version(out)?;
    match asked_by(words) {
        Asked::Version => put_words(out, "\n"),
        Asked::Usage => {
            put_words(out, "\n")?;
            put_forms(out)
        }
        Asked::Nothing => {
            put_words(out, ": error: ")?;
            put_wrong(out, words)?;
            put_words(out, " [words]\n")?;
            put_forms(out)
        }
    }
}

/// Appends what is said after words of which this one is no text.
pub fn put_no_text(out: &mut Vec<u8>, word: &[u8]) -> Result<(), NoMemory> {
    put_version(out)?;
    put_sentence(out, ": error: `%` is no text: words are UTF-8", word)?;
    put_words(out, " [words]\n")?;
    put_forms(out)
}
