//! The sentences for causes of refusal in source texts. A `%` stands for the token at the place.

use crate::told::same;
use nss_lexer::{Token, TokenKind};

/// A cause of refusal whose sentence is always the same.
struct Cause {
    word: &'static [u8],
    sentence: &'static str,
}

const CAUSES: [Cause; 11] = [
    Cause {
        word: b"tokens",
        sentence: "the script has more than 100,000 tokens with its includes, and `%` is past them",
    },
    Cause {
        word: b"include",
        sentence: "`#include` names a file in quotes, of 1 to 16 letters, digits and `_`, without \
            `.nss`",
    },
    Cause {
        word: b"nested",
        sentence: "brackets, blocks, statements and operators nest deeper than 256 at `%`",
    },
    Cause {
        word: b"notconst",
        sentence: "`%` is no constant: here only one can stand, or in a global's value a call of \
            the engine",
    },
    Cause {
        word: b"noreturn",
        sentence: "`%` has a result, and a way through its body ends without `return`",
    },
    Cause {
        word: b"cells",
        sentence: "with `%` a struct has more than 64 cells, or a function or the globals more \
            than 4,000",
    },
    Cause {
        word: b"entry",
        sentence: "the script has no `void main()` and no `int StartingConditional()` with a body",
    },
    Cause {
        word: b"large",
        sentence: "the file of bytecode would have more than 16,777,216 bytes",
    },
    Cause {
        word: b"header",
        sentence: "`%` fits no line of a header",
    },
    Cause {
        word: b"twice",
        sentence: "`%` was declared before in the header, as a function or with another value",
    },
    Cause {
        word: b"many",
        sentence: "`%` is function number 65,536 of the header, one too many",
    },
];

/// The sentence for a place where no token begins.
pub fn bad_sentence(byte: Option<u8>) -> &'static str {
    match byte {
        None => "the file ends too early",
        Some(b'"') => "this string isn't closed on its line, or a `\\` in it begins no escape",
        Some(b'/') => "this comment isn't closed",
        Some(b'0'..=b'9') => "this number is greater than 4,294,967,295",
        Some(b'a'..=b'z' | b'A'..=b'Z' | b'_') => "this name has more than 255 letters",
        Some(128..) => {
            "a character that isn't ASCII begins no token: it stands in strings and comments alone"
        }
        Some(_) => "no token begins with this character",
    }
}

fn is(token: Option<Token<'_>>, text: &[u8]) -> bool {
    match token {
        Some(token) => token.text == text,
        None => false,
    }
}

fn is_name(token: Option<Token<'_>>) -> bool {
    match token {
        Some(token) => matches!(token.kind, TokenKind::Name),
        None => false,
    }
}

fn is_float(token: Option<Token<'_>>) -> bool {
    match token {
        Some(token) => matches!(token.kind, TokenKind::Float),
        None => false,
    }
}

fn refused_type(token: Option<Token<'_>>) -> &'static str {
    if is_float(token) {
        "`%` is of a type that is left out; times are whole milliseconds here: 2 seconds are 2000"
    } else if is_name(token) {
        "`%` has a result or a parameter of a type that is left out, so no script can call it"
    } else {
        "`%` is of a type that is left out"
    }
}

/// An unknown name. A member's place is its point, and then the piece is the name behind it.
fn unknown(token: Option<Token<'_>>, after: Option<Token<'_>>) -> &'static str {
    if is(token, b".") {
        "there is no member `%`: the struct has none, or what stands before the point is no struct"
    } else if is(token, b"struct") {
        "no struct of this name is declared before"
    } else if is(after, b"(") {
        "`%` isn't declared here with a body, and the header has no such routine"
    } else {
        "`%` isn't declared here, and the header has no such constant"
    }
}

fn redeclared(token: Option<Token<'_>>) -> &'static str {
    if is(token, b"case") {
        "the value of this `%` stands in an earlier one of its switch"
    } else if is(token, b"default") {
        "the switch has an earlier `%`"
    } else {
        "`%` stands here a second time, or has other types than where it was declared"
    }
}

fn outside(token: Option<Token<'_>>) -> &'static str {
    if is(token, b"break") {
        "`%` stands outside every loop and switch"
    } else if is(token, b"continue") {
        "`%` stands outside every loop"
    } else {
        "this label follows a declaration that stands directly in its switch"
    }
}

/// A mismatch at a sign. Some have one operand, which must be an int.
fn sign_mismatch(token: Option<Token<'_>>) -> &'static str {
    let takes_one = is(token, b"!") || is(token, b"~") || is(token, b"++") || is(token, b"--");
    if takes_one {
        "what `%` is given is no int"
    } else {
        "the types that `%` is given don't go together"
    }
}

/// A mismatch at a name.
fn name_mismatch(after: Option<Token<'_>>) -> &'static str {
    if is(after, b"(") {
        "an argument of `%` has another type than its parameter"
    } else if is(after, b"=") {
        "the value has another type than `%`"
    } else {
        "`%` has a type that can't stand here"
    }
}

/// Whether a token begins a statement with a condition.
fn is_conditioned(token: Option<Token<'_>>) -> bool {
    let words: [&[u8]; 5] = [b"if", b"while", b"do", b"for", b"switch"];
    words.iter().any(|word| is(token, word))
}

/// A mismatch at a word, with which a statement, a label, a type or a parameter begins.
fn word_mismatch(token: Option<Token<'_>>, after: Option<Token<'_>>) -> &'static str {
    if is(token, b"return") && is(after, b";") {
        "`%` gives no value, and the function has a result"
    } else if is(token, b"return") {
        "`%` gives a value of another type than the function's"
    } else if is(token, b"case") {
        "the value of `%` is no int"
    } else if is_conditioned(token) {
        "the condition of `%` is no int"
    } else if is(token, b"void") {
        "no variable, parameter or member is of the type `%`"
    } else if is(token, b"int") || is(token, b"string") {
        "the default has another type than its parameter, which begins with `%`"
    } else {
        "the default has another type than its parameter, or a constant is of the type `%`"
    }
}

/// Arguments that are too few or too many, or a parameter, which begins with its type.
fn arity(token: Option<Token<'_>>) -> &'static str {
    if is_name(token) {
        "`%` has too few or too many arguments"
    } else {
        "`%` begins a parameter without a default, behind one that has one"
    }
}

fn mismatch(token: Option<Token<'_>>, after: Option<Token<'_>>) -> &'static str {
    let is_sign = match token {
        Some(token) => matches!(token.kind, TokenKind::Sign),
        None => false,
    };
    if is_sign {
        sign_mismatch(token)
    } else if is_name(token) {
        name_mismatch(after)
    } else {
        word_mismatch(token, after)
    }
}

/// The sentence for a cause at a token, which is told with the token behind it.
pub fn sentence_of(
    cause: &[u8],
    token: Option<Token<'_>>,
    after: Option<Token<'_>>,
) -> &'static str {
    for entry in CAUSES.iter() {
        if entry.word == cause {
            return entry.sentence;
        }
    }
    if same(cause, b"refusedtype") {
        refused_type(token)
    } else if same(cause, b"unknown") {
        unknown(token, after)
    } else if same(cause, b"redeclared") {
        redeclared(token)
    } else if same(cause, b"outside") {
        outside(token)
    } else if same(cause, b"mismatch") {
        mismatch(token, after)
    } else if same(cause, b"notplace") {
        "`%` needs a variable, or a member of one, to be set"
    } else if same(cause, b"arity") {
        arity(token)
    } else {
        "`%` can't stand here"
    }
}

/// The sentence at the end of a file.
pub fn end_sentence(cause: &[u8]) -> &'static str {
    if same(cause, b"header") {
        "the last line of the header isn't whole"
    } else if same(cause, b"syntax") {
        "the script ends here, and isn't whole"
    } else {
        sentence_of(cause, None, None)
    }
}
