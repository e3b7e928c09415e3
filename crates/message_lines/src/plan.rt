//! Plans.

use crate::fault::{LineFault, again, fault_at};
use crate::fields::{Field, blank_fault, field_behind, is_marked, is_number, line_numbered};
use message_sentences::same;
use nwq_text::{Lines, is_script_name};

/// The greatest time, and the greatest random number.
const MOST: u64 = 4_294_967_295;

/// The greatest number of an object with a tag.
const MOST_NTH: u64 = 2_147_483_647;

const NO_TIME: &str = "`%` is no time: milliseconds of 0 to 4,294,967,295, in digits";

const NO_NTH: &str = "`%` is no number of an object: 0 for the first with the tag, up to \
    2,147,483,647";

const NO_NAME: &str = "`%` is no name of a script: 1 to 16 of a to z, 0 to 9 and `_`, without \
    `.nss`";

const NO_LIMIT: &str = "`%` is no limit of instructions: 1 to 16,777,216, in digits";

const NO_ENTRIES: &str = "`%` is no limit of entries: 1 to 1,000,000, in digits";

const NO_WORD: &str = "`%` begins no line of a plan: limit, entries, until, random, script, \
    binary, event, start and `;` do";

/// The name that a line of a plan lists.
fn listed(line: &[u8]) -> &[u8] {
    match line {
        [b's', b'c', b'r', b'i', b'p', b't', b' ', name @ ..] => name,
        [b'b', b'i', b'n', b'a', b'r', b'y', b' ', name @ ..] => name,
        _ => b"",
    }
}

/// The number of the first line that lists this name.
fn first_listing(text: &[u8], name: &[u8]) -> Option<u64> {
    let mut lines = Lines::of(text);
    while let Some(line) = lines.next_line() {
        if !name.is_empty() && listed(line.bytes) == name {
            return Some(line.number);
        }
    }
    None
}

fn first_word(line: &[u8]) -> &[u8] {
    match field_behind(line, 0) {
        Some(word) => word.bytes,
        None => b"",
    }
}

/// The number of the first line that begins with this word.
fn first_beginning(text: &[u8], word: &[u8]) -> Option<u64> {
    let mut lines = Lines::of(text);
    while let Some(line) = lines.next_line() {
        if first_word(line.bytes) == word {
            return Some(line.number);
        }
    }
    None
}

/// What is wrong with the first line of a plan.
fn heading_fault<'a>(text: &[u8], line: &'a [u8]) -> LineFault<'a> {
    if is_marked(text) {
        return fault_at(
            0,
            "the file begins with the mark of a byte order; a plan begins with `NWQ PLAN 1` or \
                `NWQ PLAN 2`",
            b"",
        );
    }
    match line {
        [
            b'N',
            b'W',
            b'Q',
            b' ',
            b'P',
            b'L',
            b'A',
            b'N',
            b' ',
            version @ ..,
        ] => fault_at(9, "`%` is no version of plans: there are 1 and 2", version),
        _ => fault_at(
            0,
            "a plan begins with the line `NWQ PLAN 1` or `NWQ PLAN 2`, with nothing before it",
            b"",
        ),
    }
}

/// A field that isn't there, at the end of its line.
fn missing<'a>(line: &'a [u8], sentence: &'static str) -> LineFault<'a> {
    fault_at(line.len(), sentence, first_word(line))
}

/// What is wrong with a line that gives a limit.
fn limit_fault<'a>(
    text: &[u8],
    line: &'a [u8],
    number: u64,
    low: u64,
    high: u64,
    sentence: &'static str,
) -> LineFault<'a> {
    let Some(given) = field_behind(line, 1) else {
        return missing(line, "a number follows `%` and a blank");
    };
    if !is_number(given.bytes, low, high) {
        return fault_at(given.at, sentence, given.bytes);
    }
    if let Some(more) = field_behind(line, 2) {
        return fault_at(more.at, "`%` is one field too many", more.bytes);
    }
    match first_beginning(text, first_word(line)) {
        Some(first) if first < number => {
            again(
                0,
                "`%` is given once at most, and stands",
                first_word(line),
                first,
            )
        }
        _ => fault_at(0, "`%` can't be given here", first_word(line)),
    }
}

/// The first field behind the word of a line that is no random number.
fn first_odd(line: &[u8]) -> Option<Field<'_>> {
    let mut start = 0usize;
    for (i, byte) in line.iter().enumerate() {
        if *byte == b' ' && start <= i {
            let bytes = &line[start..i];
            if start > 0 && !is_number(bytes, 0, MOST) {
                return Some(Field { at: start, bytes });
            }
            start = i.saturating_add(1);
        }
    }
    if start == 0 || start > line.len() || is_number(&line[start..], 0, MOST) {
        return None;
    }
    Some(Field {
        at: start,
        bytes: &line[start..],
    })
}

/// What is wrong with a line of random numbers.
fn random_fault(line: &[u8]) -> LineFault<'_> {
    if field_behind(line, 1).is_none() {
        return missing(line, "a number follows `%` and a blank");
    }
    match first_odd(line) {
        Some(odd) => fault_at(
            odd.at,
            "`%` is no random number: 0 to 4,294,967,295, in digits",
            odd.bytes,
        ),
        None => fault_at(
            0,
            "with this line the plan has more than 65,536 random numbers",
            b"",
        ),
    }
}

/// What is wrong with a line that lists a script.
fn script_fault<'a>(text: &[u8], line: &'a [u8], number: u64) -> LineFault<'a> {
    let name = listed(line);
    let at = line.len() - name.len().min(line.len());
    if !is_script_name(name) {
        return fault_at(at, NO_NAME, name);
    }
    match first_listing(text, name) {
        Some(first) if first < number => again(at, "`%` is listed already,", name, first),
        _ => fault_at(
            at,
            "`%` is script number 257 of the plan, one too many",
            name,
        ),
    }
}

/// The field of this number, if it is there and isn't as it is to be.
fn bad_field<'a>(
    line: &'a [u8],
    number: u32,
    is_right: bool,
    sentence: &'static str,
) -> Option<LineFault<'a>> {
    if is_right {
        return None;
    }
    match field_behind(line, number) {
        Some(given) => Some(fault_at(given.at, sentence, given.bytes)),
        None => Some(missing(
            line,
            "this line ends too early: see what follows `%` in a plan",
        )),
    }
}

fn bytes_of(given: Option<Field<'_>>) -> &[u8] {
    match given {
        Some(given) => given.bytes,
        None => b"",
    }
}

fn is_label(label: &[u8]) -> bool {
    !label.is_empty() && label.len() <= 16
}

/// The first of the fields before the tag that isn't as it is to be.
fn aimed_fault<'a>(line: &'a [u8], third: bool, sentence: &'static str) -> Option<LineFault<'a>> {
    let time = bytes_of(field_behind(line, 1));
    let nth = bytes_of(field_behind(line, 2));
    if let Some(fault) = bad_field(line, 1, is_number(time, 0, MOST), NO_TIME) {
        return Some(fault);
    }
    if let Some(fault) = bad_field(line, 2, is_number(nth, 0, MOST_NTH), NO_NTH) {
        return Some(fault);
    }
    bad_field(line, 3, third, sentence)
}

/// What is wrong with the tag of a line, or with the number of such lines.
fn tag_fault(line: &[u8]) -> LineFault<'_> {
    match field_behind(line, 4) {
        None => missing(line, "a blank and a tag end this line"),
        Some(tag) => fault_at(
            tag.at,
            "this is no escaped tag, or the line is number 65,537 of the events and starts",
            b"",
        ),
    }
}

fn event_fault(line: &[u8]) -> LineFault<'_> {
    let label = bytes_of(field_behind(line, 3));
    match aimed_fault(
        line,
        is_label(label),
        "`%` is no label of a field: it has 1 to 16 bytes",
    ) {
        Some(fault) => fault,
        None => tag_fault(line),
    }
}

/// What is wrong with the start of a script for no object.
fn free_fault(line: &[u8]) -> LineFault<'_> {
    let time = bytes_of(field_behind(line, 1));
    let name = bytes_of(field_behind(line, 3));
    if let Some(fault) = bad_field(line, 1, is_number(time, 0, MOST), NO_TIME) {
        return fault;
    }
    if let Some(fault) = bad_field(line, 3, is_script_name(name), NO_NAME) {
        return fault;
    }
    match field_behind(line, 4) {
        Some(more) => fault_at(more.at, "`%` is one field too many", more.bytes),
        None => fault_at(0, "this is event or start number 65,537, one too many", b""),
    }
}

fn start_fault(line: &[u8]) -> LineFault<'_> {
    if same(bytes_of(field_behind(line, 2)), b"-") {
        return free_fault(line);
    }
    let name = bytes_of(field_behind(line, 3));
    match aimed_fault(line, is_script_name(name), NO_NAME) {
        Some(fault) => fault,
        None => tag_fault(line),
    }
}

/// What is wrong with a line of a plan that gives a limit, if it does.
fn limiting_fault<'a>(text: &[u8], line: &'a [u8], number: u64) -> Option<LineFault<'a>> {
    let word = first_word(line);
    let (low, high, sentence) = if same(word, b"limit") {
        (1, 16_777_216, NO_LIMIT)
    } else if same(word, b"entries") {
        (1, 1_000_000, NO_ENTRIES)
    } else if same(word, b"until") {
        (0, MOST, NO_TIME)
    } else {
        return None;
    };
    Some(limit_fault(text, line, number, low, high, sentence))
}

/// What is wrong with another line of a plan.
fn worded_fault<'a>(text: &[u8], line: &'a [u8], number: u64) -> LineFault<'a> {
    let word = first_word(line);
    if same(word, b"random") {
        random_fault(line)
    } else if same(word, b"script") || same(word, b"binary") {
        script_fault(text, line, number)
    } else if same(word, b"event") {
        event_fault(line)
    } else if same(word, b"start") {
        start_fault(line)
    } else {
        fault_at(0, NO_WORD, word)
    }
}

/// How many blanks of a line part its fields. A tag may have more.
fn blanks_of(word: &[u8]) -> u32 {
    if same(word, b"event") || same(word, b"start") {
        4
    } else {
        u32::MAX
    }
}

/// What is wrong with the line of a plan that is refused.
pub fn plan_fault(text: &[u8], number: u64) -> LineFault<'_> {
    let line = line_numbered(text, number).bytes;
    if number == 1 {
        return heading_fault(text, line);
    }
    let word = first_word(line);
    if let Some(fault) = blank_fault(line, blanks_of(word)) {
        return fault;
    }
    match limiting_fault(text, line, number) {
        Some(fault) => fault,
        None => worded_fault(text, line, number),
    }
}
