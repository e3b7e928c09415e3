//! The sentences for flaws of files that are no source texts. A `%` stands for the numbers.

ghost use Rattle.std.specs.Prelude.{◌≡◌, ◌++◌, ◌≤◌, length, OnOk};
ghost use Rattle.nwq_text.specs.Number.{number_of};
ghost use Rattle.message_sentences.specs.Rules.{rule_text, unfit_text};

use crate::form::{put_sentence, put_words};
use crate::told::{first_word, same, second_word};
use nwq_text::read_number;
use nwq_value::NoMemory;

struct Flaw {
    word: &'static [u8],
    sentence: &'static str,
}

/// Flaws that are told by their first word.
const FLAWS: [Flaw; 11] = [
    Flaw {
        word: b"short",
        sentence: "the file has fewer than 56 bytes, so no header of a GFF file",
    },
    Flaw {
        word: b"version",
        sentence: "bytes 4 to 7 aren't `V3.2`: it is no GFF file of this version",
    },
    Flaw {
        word: b"type",
        sentence: "field % has a type above 15",
    },
    Flaw {
        word: b"shared",
        sentence: "struct % is reached a second time",
    },
    Flaw {
        word: b"deep",
        sentence: "struct % is more than 64 deep",
    },
    Flaw {
        word: b"label",
        sentence: "field % has the label of an earlier field of its struct",
    },
    Flaw {
        word: b"large",
        sentence: "the file would have % bytes, more than 16,777,216",
    },
    Flaw {
        word: b"magic",
        sentence: "the file doesn't begin with `NCS V1.0` and the byte 0x42",
    },
    Flaw {
        word: b"length",
        sentence: "bytes 9 to 12 aren't the file's length: it was cut off, or has more",
    },
    Flaw {
        word: b"state",
        sentence: "the bytes stop being a state of a play at offset %",
    },
    Flaw {
        word: b"unstacked",
        sentence: "an instruction takes what isn't on the stack, two ways meet with other cells, \
            or the header is another one",
    },
];

/// Flaws of an instruction, which follow its offset.
const CODE_FLAWS: [Flaw; 4] = [
    Flaw {
        word: b"opcode",
        sentence: "the byte at offset % is no opcode",
    },
    Flaw {
        word: b"typebyte",
        sentence: "the instruction at offset % has a type byte that its opcode doesn't have",
    },
    Flaw {
        word: b"short",
        sentence: "the file ends inside the instruction at offset %",
    },
    Flaw {
        word: b"target",
        sentence: "the instruction at offset % leads to no beginning of one",
    },
];

const SECTIONS: [&str; 6] = [
    "structs",
    "fields",
    "labels",
    "field data",
    "field indices",
    "list indices",
];

const LISTS: [&str; 5] = ["creatures", "doors", "placeables", "triggers", "waypoints"];

/// The name of this number, counted from 0.
fn name_numbered(names: &[&'static str], number: u64) -> &'static str {
    match usize::try_from(number) {
        Ok(n) => names.get(n).copied().unwrap_or("?"),
        Err(_) => "?",
    }
}

/// The name of the number that these digits write.
fn name_at(names: &[&'static str], digits: &[u8]) -> &'static str {
    match read_number(digits) {
        Some(number) => name_numbered(names, number),
        None => "?",
    }
}

fn sentence_in(flaws: &[Flaw], word: &[u8]) -> Option<&'static str> {
    for flaw in flaws {
        if flaw.word == word {
            return Some(flaw.sentence);
        }
    }
    None
}

fn put_section(out: &mut Vec<u8>, number: &[u8]) -> Result<(), NoMemory> {
    put_sentence(out, "section %, the ", number)?;
    put_words(out, name_at(&SECTIONS, number))?;
    put_words(out, ", passes the end of the file")
}

/// Appends what is wrong with a part of a GFF file, a word and a number.
fn put_range(out: &mut Vec<u8>, part: &[u8]) -> Result<(), NoMemory> {
    let word = first_word(part);
    let number = second_word(part);
    if same(word, b"data") {
        put_sentence(
            out,
            "the data of field % isn't there, or isn't what its type needs",
            number,
        )
    } else if same(word, b"index") || same(word, b"list") {
        put_sentence(out, "there is nothing at offset % of the ", number)?;
        put_words(
            out,
            if same(word, b"list") {
                SECTIONS[5]
            } else {
                SECTIONS[4]
            },
        )
    } else {
        put_sentence(out, "there is no % ", word)?;
        put_sentence(out, "number %", number)
    }
}

/// Appends what is wrong with an area: the numbers of a list, a member and an entry.
fn put_shape(out: &mut Vec<u8>, numbers: &[u8]) -> Result<(), NoMemory> {
    let list = first_word(numbers);
    let behind = second_word(numbers);
    let member = first_word(behind);
    let entry = second_word(behind);
    put_words(out, "the list of ")?;
    put_words(out, name_at(&LISTS, list))?;
    if same(member, b"0") {
        return put_words(out, " has another type, or no structs");
    }
    put_sentence(out, ", member %", member)?;
    if same(entry, b"0") {
        return put_words(
            out,
            ": the tag, a field of a script or the VarTable has another type",
        );
    }
    put_sentence(
        out,
        ": variable % has no name, another type than its value, ",
        entry,
    )?;
    put_words(out, "or the name and the type of one before it")
}

/// The rule of the state of a play that is broken, by its number.
#[tactic(auto, unfolding(crate::specs::Rules::rule_text))]
fn rule_broken(number: u64) -> &'static str
    ensures { result.now ≡ rule_text number }
{
    match number {
        1 => "the header of the state has no table",
        2 => "a script of the state is no code, or isn't well stacked under its header",
        3 => "the area of the state is none, or has another number of objects",
        4 => "a number of the state passes its limit, a name is none or stands twice, or a text is \
            too long",
        5 => "the entries of the agenda can't wait so: their order, numbers, times or objects",
        6 => "a captured state of a script doesn't fit its script",
        7 => "the busy objects of the state and the Turns of its agenda don't go together",
        _ => "?",
    }
}

/// Appends what is wrong with the state of a play, by its number.
#[tactic(auto, using(crate::proofs::RuleLemmas::rule_told, crate::proofs::RuleLemmas::none_told))]
fn put_unfit(out: &mut Vec<u8>, number: &[u8]) -> Result<(), NoMemory>
    ensures appends { OnOk result (out.new.items
        ≡ out.old.items ++ unfit_text (number_of number.now)) }
{
    match read_number(number) {
        Some(n) => put_words(out, rule_broken(n)),
        None => put_words(out, "?"),
    }
}

/// Appends what is wrong with an instruction, its offset and a word.
fn put_instruction(out: &mut Vec<u8>, flaw: &[u8]) -> Result<(), NoMemory> {
    let offset = first_word(flaw);
    match sentence_in(&CODE_FLAWS, second_word(flaw)) {
        Some(sentence) => put_sentence(out, sentence, offset),
        None => put_sentence(out, "the file is refused: %", flaw),
    }
}

/// Appends the sentence for a flaw.
pub fn put_flaw(out: &mut Vec<u8>, flaw: &[u8]) -> Result<(), NoMemory> {
    let word = first_word(flaw);
    let numbers = second_word(flaw);
    if same(word, b"section") {
        put_section(out, numbers)
    } else if same(word, b"range") {
        put_range(out, numbers)
    } else if same(word, b"shape") {
        put_shape(out, numbers)
    } else if same(word, b"unfit") {
        put_unfit(out, numbers)
    } else {
        match sentence_in(&FLAWS, word) {
            Some(sentence) => put_sentence(out, sentence, numbers),
            None => put_instruction(out, flaw),
        }
    }
}

/// The word that names the kind of a flaw.
pub fn kind_of(flaw: &[u8]) -> &[u8] {
    let word = first_word(flaw);
    match read_number(word) {
        Some(_) => second_word(flaw),
        None => word,
    }
}

/// The number of the line at which a flaw of a text stands.
pub fn line_in(flaw: &[u8]) -> Option<u64> {
    let word = first_word(flaw);
    if same(word, b"line") || same(word, b"target") {
        read_number(second_word(flaw))
    } else {
        None
    }
}

/// The place where the line of this number begins.
pub fn place_of_line(bytes: &[u8], number: u64) -> usize
    ensures within { result ≤ length bytes.now }
{
    let mut line = 1u64;
    for (i, byte) in bytes.iter().enumerate() {
        if line == number {
            return i;
        }
        if *byte == b'\n' {
            line = line.saturating_add(1);
        }
    }
    bytes.len()
}
