//! Scripts that are made from numbers, each with the sentence on it.
//!
//! In one place of a script values are drawn whose types are known by how they are made. So the
//! sentence that has to be told, if the script is refused, is made beside it, without any typing.

use nwq_value::NoMemory;
use std::alloc::Global;

/// What stands before the place: a variable, a function and a parameter of each type.
const PRELUDE: &str = "struct P { int n; }; int fi() { return 1; } string fs() { return \"\"; } \
    object fo() { return OBJECT_SELF; } struct P fp() { struct P p; return p; } void ti(int a) {} \
    void ts(string a) {} void to(object a) {} void tp(struct P a) {} void te(effect a) {} void \
    tv(event a) {} void c(int a, int b = 1, int d = 2) {} void main() { int i; string s; object o; \
    struct P p; effect e; event v; ";

/// The types as messages tell them. A type is known by its place here.
const TYPES: [&str; 6] = ["int", "string", "object", "a struct", "effect", "event"];

/// As they are written.
const WRITTEN: [&str; 6] = ["int", "string", "object", "struct P", "effect", "event"];

/// A variable of each.
const VARIABLES: [&str; 6] = ["i", "s", "o", "p", "e", "v"];

/// A function that takes one of each.
const TAKING: [&str; 6] = ["ti", "ts", "to", "tp", "te", "tv"];

/// Values of each.
const VALUES: [[&str; 6]; 6] = [
    ["1", "i", "fi()", "p.n", "(1 + i)", "(s == fs())"],
    ["\"a\"", "s", "fs()", "(s + \"b\")", "(fs())", "\"\""],
    [
        "OBJECT_SELF",
        "o",
        "fo()",
        "OBJECT_INVALID",
        "(o)",
        "(fo())",
    ],
    ["p", "fp()", "(p)", "(fp())", "((p))", "(p)"],
    ["e", "(e)", "((e))", "e", "(e)", "e"],
    ["v", "(v)", "((v))", "v", "(v)", "v"],
];

const OPERATORS: [&str; 18] = [
    "+", "-", "*", "/", "%", "==", "!=", "<", ">", "<=", ">=", "&&", "||", "&", "|", "^", "<<",
    ">>",
];

const BEFORE: [&str; 4] = ["!", "~", "-", "++"];

/// Statements with a condition: the word, and what stands before and behind the condition.
const CONDITIONS: [[&str; 3]; 5] = [
    ["if", "if (", ") ;"],
    ["while", "while (", ") ;"],
    ["switch", "switch (", ") { }"],
    ["for", "for (; ", "; ) ;"],
    ["do", "do ; while (", ");"],
];

/// Calls of a function that takes one to three arguments.
const CALLS: [&str; 5] = ["c();", "c(1);", "c(1, i);", "c(1, i, 2);", "c(1, i, 2, 3);"];

const COUNTS: [&str; 5] = [
    "0 are given",
    "1 is given",
    "2 are given",
    "3 are given",
    "4 are given",
];

/// A script, and what is told of it if it is refused.
#[derive(Drop)]
pub(crate) struct Made {
    pub source: Vec<u8>,
    pub said: Vec<u8>,
}

/// What is drawn from a number.
#[derive(Clone, Copy)]
struct Drawn {
    form: usize,
    left: usize,
    right: usize,
    first: usize,
    second: usize,
    sign: usize,
}

/// The next number of a row that goes on without end.
fn next(number: u32) -> u32 {
    number.wrapping_mul(1_664_525).wrapping_add(1_013_904_223)
}

/// The part of a number that is drawn last, below a count.
fn part(number: u32, count: u32) -> usize {
    if count == 0 {
        return 0;
    }
    ((number >> 16) % count) as usize
}

fn drawn_from(number: u32) -> Drawn {
    let form = next(next(number));
    let left = next(form);
    let right = next(left);
    let first = next(right);
    let second = next(first);
    let sign = next(second);
    Drawn {
        form: part(form, 8),
        left: part(left, 6),
        right: part(right, 6),
        first: part(first, 6),
        second: part(second, 6),
        sign: part(sign, 90),
    }
}

/// One of some texts, or nothing.
fn one_of(texts: &[&'static str], place: usize) -> &'static str {
    match texts.get(place) {
        Some(text) => *text,
        None => "",
    }
}

/// A value of a type.
fn value(ty: usize, place: usize) -> &'static str {
    match VALUES.get(ty) {
        Some(texts) => one_of(texts, place),
        None => "",
    }
}

/// Appends these texts.
fn put_all(out: &mut Vec<u8>, texts: &[&str]) -> Result<(), NoMemory> {
    for text in texts {
        out.extend_from_slice(text.as_bytes())?;
    }
    Ok(())
}

impl Made {
    /// Puts the place, and the sentence on it.
    fn put(&mut self, place: &[&str], said: &[&str]) -> Result<(), NoMemory> {
        put_all(&mut self.source, place)?;
        put_all(&mut self.said, said)
    }
}

fn remedy(sign: &str, left: usize, right: usize) -> &'static str {
    let is_sum = (left == 0 && right == 1) || (left == 1 && right == 0);
    if sign == "+" && is_sum {
        "; `IntToString` gives the string of an int"
    } else {
        ""
    }
}

/// Two values and an operator between them.
fn put_operator(made: &mut Made, d: Drawn) -> Result<(), NoMemory> {
    let sign = one_of(&OPERATORS, d.sign % 18);
    let (left, right) = (value(d.left, d.first), value(d.right, d.second));
    made.put(
        &[left, " ", sign, " ", right, ";"],
        &[
            "the types that `",
            sign,
            "` is given don't go together: ",
            one_of(&TYPES, d.left),
            " and ",
            one_of(&TYPES, d.right),
            remedy(sign, d.left, d.right),
        ],
    )
}

/// A value that is assigned to a variable.
fn put_assignment(made: &mut Made, d: Drawn) -> Result<(), NoMemory> {
    made.put(
        &[
            one_of(&VARIABLES, d.left),
            " = ",
            value(d.right, d.second),
            ";",
        ],
        &[
            "the types that `=` is given don't go together: ",
            one_of(&TYPES, d.left),
            " and ",
            one_of(&TYPES, d.right),
        ],
    )
}

/// An operator before a variable.
fn put_before(made: &mut Made, d: Drawn) -> Result<(), NoMemory> {
    let sign = one_of(&BEFORE, d.sign % 4);
    made.put(
        &[sign, one_of(&VARIABLES, d.left), ";"],
        &[
            "what `",
            sign,
            "` is given is no int: ",
            one_of(&TYPES, d.left),
        ],
    )
}

/// An operator behind a variable.
fn put_behind(made: &mut Made, d: Drawn) -> Result<(), NoMemory> {
    made.put(
        &[one_of(&VARIABLES, d.left), "++;"],
        &["what `++` is given is no int: ", one_of(&TYPES, d.left)],
    )
}

/// A statement with a condition.
fn put_condition(made: &mut Made, d: Drawn) -> Result<(), NoMemory> {
    let Some(texts) = CONDITIONS.get(d.sign % 5) else {
        return Ok(());
    };
    made.put(
        &[texts[1], value(d.left, d.first), texts[2]],
        &[
            "the condition of `",
            texts[0],
            "` is no int: ",
            one_of(&TYPES, d.left),
        ],
    )
}

/// A variable with a first value.
fn put_variable(made: &mut Made, d: Drawn) -> Result<(), NoMemory> {
    made.put(
        &[
            one_of(&WRITTEN, d.left),
            " x = ",
            value(d.right, d.second),
            ";",
        ],
        &[
            "the value has another type than `x`: ",
            one_of(&TYPES, d.right),
            ", where ",
            one_of(&TYPES, d.left),
            " is wanted",
        ],
    )
}

/// A call with one argument.
fn put_argument(made: &mut Made, d: Drawn) -> Result<(), NoMemory> {
    let name = one_of(&TAKING, d.left);
    made.put(
        &[name, "(", value(d.right, d.second), ");"],
        &[
            "an argument of `",
            name,
            "` has another type than its parameter: argument 1: ",
            one_of(&TYPES, d.right),
            ", where ",
            one_of(&TYPES, d.left),
            " is wanted",
        ],
    )
}

/// A call with a count of arguments.
fn put_count(made: &mut Made, d: Drawn) -> Result<(), NoMemory> {
    made.put(
        &[one_of(&CALLS, d.sign % 5)],
        &[
            "`c` takes 1 to 3 arguments, and ",
            one_of(&COUNTS, d.sign % 5),
        ],
    )
}

fn put_place(made: &mut Made, d: Drawn) -> Result<(), NoMemory> {
    match d.form {
        0 => put_operator(made, d),
        1 => put_assignment(made, d),
        2 => put_before(made, d),
        3 => put_behind(made, d),
        4 => put_condition(made, d),
        5 => put_variable(made, d),
        6 => put_argument(made, d),
        _ => put_count(made, d),
    }
}

/// The script of a number.
pub(crate) fn script(alloc: Global, number: u32) -> Result<Made, NoMemory> {
    let mut made = Made {
        source: Vec::new(alloc),
        said: Vec::new(alloc),
    };
    made.put(&[PRELUDE], &[])?;
    put_place(&mut made, drawn_from(number))?;
    made.put(&[" }"], &[])?;
    Ok(made)
}
