//! The sentences for reasons that tell types or counts.

ghost use Rattle.std.specs.Prelude.{◌≡◌, ◌++◌, ℕ, List, codes, is_some, not, IfOk, OnOk};
ghost use Rattle.std.specs.Fmt.{decimal, signed_decimal};
ghost use Rattle.expression_reasons.specs.declared.reason.Reason.TheVariants.{NoMember, Returned};
ghost use Rattle.message_types.specs.Sentences.{count_text, or_nothing, range_text, said, sum_text};
ghost use Rattle.message_types.specs.Sentences.{type_word, wanted_text};
ghost use Rattle.message_sentences.specs.Template.{filled};

use expression_reasons::Reason;
use message_sentences::{put_sentence, put_words, same};
use nwq_text::{put_count, put_number as put_signed};
use nwq_value::{NoMemory, Ty};

/// The word for a type.
pub(crate) fn type_word(ty: Ty) -> &'static str
    ensures word { result.now ≡ type_word ty }
{
    match ty {
        Ty::Void => "void",
        Ty::Int => "int",
        Ty::Text => "string",
        Ty::Object => "object",
        Ty::Effect => "effect",
        Ty::Event => "event",
        Ty::Action => "action",
        Ty::Struct(_) => "a struct",
        Ty::Refused => "a type that is left out",
    }
}

/// Appends a sentence, and the word for a type behind it.
fn put_typed(out: &mut Vec<u8>, sentence: &str, piece: &[u8], ty: Ty) -> Result<(), NoMemory>
    ensures appends { OnOk result
        (out.new.items ≡ out.old.items ++ (filled piece.now sentence.now ++ type_word ty)) }
{
    put_sentence(out, sentence, piece)?;
    put_words(out, type_word(ty))
}

/// Appends the type that stands there, and the one that is wanted.
fn put_wanted(out: &mut Vec<u8>, given: Ty, wanted: Ty) -> Result<(), NoMemory>
    ensures appends { OnOk result (out.new.items ≡ out.old.items ++ wanted_text given wanted) }
{
    put_words(out, type_word(given))?;
    put_words(out, ", where ")?;
    put_words(out, type_word(wanted))?;
    put_words(out, " is wanted")
}

/// Appends a sentence, and behind it the type that stands there and the one that is wanted.
fn put_value(
    out: &mut Vec<u8>,
    sentence: &str,
    piece: &[u8],
    given: Ty,
    wanted: Ty,
) -> Result<(), NoMemory>
    ensures appends { OnOk result (out.new.items
        ≡ out.old.items ++ (filled piece.now sentence.now ++ wanted_text given wanted)) }
{
    put_sentence(out, sentence, piece)?;
    put_wanted(out, given, wanted)
}

/// What makes a string of an int, where the two are added.
fn sum_text(piece: &[u8], left: Ty, right: Ty) -> &'static str
    ensures { result.now ≡ sum_text piece.now left right }
{
    if !same(piece, b"+") {
        return "";
    }
    match (left, right) {
        (Ty::Text, Ty::Int) | (Ty::Int, Ty::Text) => {
            "; `IntToString` gives the string of an int"
        }
        _ => "",
    }
}

/// Appends the types of the operands of an operator.
fn put_pair(out: &mut Vec<u8>, piece: &[u8], left: Ty, right: Ty) -> Result<(), NoMemory>
    ensures appends { OnOk result (out.new.items ≡ out.old.items
        ++ (type_word left ++ (codes " and " ++ (type_word right
        ++ sum_text piece.now left right)))) }
{
    put_words(out, type_word(left))?;
    put_words(out, " and ")?;
    put_words(out, type_word(right))?;
    put_words(out, sum_text(piece, left, right))
}

/// Appends the sentence on the operands of an operator.
fn put_operands(out: &mut Vec<u8>, piece: &[u8], left: Ty, right: Ty) -> Result<(), NoMemory>
    ensures appends { OnOk result (out.new.items ≡ out.old.items
        ++ (filled piece.now (codes "the types that `%` is given don't go together: ")
        ++ (type_word left ++ (codes " and " ++ (type_word right
        ++ sum_text piece.now left right))))) }
{
    put_sentence(
        out,
        "the types that `%` is given don't go together: ",
        piece,
    )?;
    put_pair(out, piece, left, right)
}

fn put_number(out: &mut Vec<u8>, number: usize) -> Result<(), NoMemory>
    ensures appends { OnOk result (out.new.items ≡ out.old.items ++ decimal number) }
{
    put_count(out, number as u64)
}

fn put_range(out: &mut Vec<u8>, least: usize, most: usize) -> Result<(), NoMemory>
    ensures appends { OnOk result (out.new.items ≡ out.old.items ++ range_text least most) }
{
    put_number(out, least)?;
    if least >= most {
        return Ok(());
    }
    put_words(out, " to ")?;
    put_number(out, most)
}

/// Appends how many arguments a function takes, and how many a call gives.
fn put_counts(out: &mut Vec<u8>, given: usize, least: usize, most: usize) -> Result<(), NoMemory>
    ensures appends { OnOk result
        (out.new.items ≡ out.old.items ++ count_text given least most) }
{
    let behind = if most == 1 {
        " argument, and "
    } else {
        " arguments, and "
    };
    let last = if given == 1 {
        " is given"
    } else {
        " are given"
    };
    put_range(out, least, most)?;
    put_words(out, behind)?;
    put_number(out, given)?;
    put_words(out, last)
}

/// Appends the number of an argument, its type and the one that is wanted.
fn put_numbered(out: &mut Vec<u8>, number: usize, given: Ty, wanted: Ty) -> Result<(), NoMemory>
    ensures appends { OnOk result (out.new.items ≡ out.old.items
        ++ (decimal number ++ (codes ": " ++ wanted_text given wanted))) }
{
    put_number(out, number)?;
    put_words(out, ": ")?;
    put_wanted(out, given, wanted)
}

/// Appends a sentence, and behind it the number of an argument, its type and the one that is
/// wanted.
fn put_argument(
    out: &mut Vec<u8>,
    sentence: &str,
    piece: &[u8],
    number: usize,
    given: Ty,
    wanted: Ty,
) -> Result<(), NoMemory>
    ensures appends { OnOk result (out.new.items ≡ out.old.items
        ++ (filled piece.now sentence.now
        ++ (decimal number ++ (codes ": " ++ wanted_text given wanted)))) }
{
    put_sentence(out, sentence, piece)?;
    put_numbered(out, number, given, wanted)
}

/// Appends the sentence on what a `return` gives back.
fn put_returned(
    out: &mut Vec<u8>,
    piece: &[u8],
    given: Option<Ty>,
    wanted: Ty,
) -> Result<(), NoMemory>
    ensures appends { OnOk result (out.new.items ≡ out.old.items
        ++ or_nothing (said piece.now (Returned given wanted))) }
{
    match given {
        None => put_sentence(
            out,
            "`%` gives no value, and the function has a result",
            piece,
        ),
        Some(given) => put_value(
            out,
            "`%` gives a value of another type than the function's: ",
            piece,
            given,
            wanted,
        ),
    }
}

/// Appends the sentence on how many arguments a call gives.
fn put_arguments(
    out: &mut Vec<u8>,
    piece: &[u8],
    given: usize,
    least: usize,
    most: usize,
) -> Result<(), NoMemory>
    ensures appends { OnOk result (out.new.items ≡ out.old.items
        ++ (filled piece.now (codes "`%` takes ") ++ count_text given least most)) }
{
    put_sentence(out, "`%` takes ", piece)?;
    put_counts(out, given, least, most)
}

/// Appends what a member is asked of, where that is no struct.
#[tactic(auto, using(crate::proofs::Members::of_struct, crate::proofs::Members::of_other))]
fn put_member(out: &mut Vec<u8>, piece: &[u8], of: Ty) -> Result<(), NoMemory>
    ensures appends { OnOk result (out.new.items ≡ out.old.items
        ++ or_nothing (said piece.now (NoMember of))) }
{
    if is_struct(of) {
        return Ok(());
    }
    put_typed(out, "what stands before `%` is no struct: ", piece, of)
}

fn put_int(out: &mut Vec<u8>, value: i32) -> Result<(), NoMemory>
    ensures appends { OnOk result (out.new.items ≡ out.old.items ++ signed_decimal value) }
{
    put_signed(out, i64::from(value))
}

/// Appends the value of a case that stands before.
fn put_again(out: &mut Vec<u8>, piece: &[u8], value: i32) -> Result<(), NoMemory>
    ensures appends { OnOk result (out.new.items ≡ out.old.items
        ++ (filled piece.now (codes "a `%` of this value stands before in its switch: ")
        ++ signed_decimal value)) }
{
    put_sentence(
        out,
        "a `%` of this value stands before in its switch: ",
        piece,
    )?;
    put_int(out, value)
}

fn is_struct(ty: Ty) -> bool
    ensures { (piece : List ℕ) → not result ≡ is_some (said piece (NoMember ty)) }
{
    matches!(ty, Ty::Struct(_))
}

/// Whether a reason has a sentence.
fn is_said(reason: Reason) -> bool
    ensures { (piece : List ℕ) → result ≡ is_some (said piece reason) }
{
    match reason {
        Reason::Operands { .. } => true,
        Reason::Operand { .. } => true,
        Reason::Arguments { .. } => true,
        Reason::Argument { .. } => true,
        Reason::Condition { .. } => true,
        Reason::Returned { .. } => true,
        Reason::Value { .. } => true,
        Reason::Default { .. } => true,
        Reason::Label { .. } => true,
        Reason::NoMember { of } => !is_struct(of),
        Reason::Again { .. } => true,
        Reason::NoVariable { .. } => true,
        Reason::NoConstant { .. } => true,
        Reason::NoPlace => false,
        Reason::Uncallable => false,
        Reason::NoFunction => false,
        Reason::Barred => false,
        Reason::Taken => false,
        Reason::Cells => false,
        Reason::Misplaced => false,
        Reason::NoDefault => false,
        Reason::LeftOut => false,
        Reason::NoStruct => false,
    }
}

/// Appends the sentence for a reason, if it has one.
fn put_said(out: &mut Vec<u8>, piece: &[u8], reason: Reason) -> Result<(), NoMemory>
    ensures appends { OnOk result
        (out.new.items ≡ out.old.items ++ or_nothing (said piece.now reason)) }
{
    match reason {
        Reason::Operands { left, right } => put_operands(out, piece, left, right),
        Reason::Operand { ty } => put_typed(out, "what `%` is given is no int: ", piece, ty),
        Reason::Arguments { given, least, most } => put_arguments(out, piece, given, least, most),
        Reason::Argument {
            number,
            given,
            wanted,
        } => put_argument(
            out,
            "an argument of `%` has another type than its parameter: argument ",
            piece,
            number,
            given,
            wanted,
        ),
        Reason::Condition { ty } => put_typed(out, "the condition of `%` is no int: ", piece, ty),
        Reason::Returned { given, wanted } => put_returned(out, piece, given, wanted),
        Reason::Value { given, wanted } => put_value(
            out,
            "the value has another type than `%`: ",
            piece,
            given,
            wanted,
        ),
        Reason::Default { given, wanted } => put_value(
            out,
            "the default has another type than its parameter, which begins with `%`: ",
            piece,
            given,
            wanted,
        ),
        Reason::Label { ty } => put_typed(out, "the value of `%` is no int: ", piece, ty),
        Reason::NoMember { of } => put_member(out, piece, of),
        Reason::Again { value } => put_again(out, piece, value),
        Reason::NoVariable { .. } => put_sentence(
            out,
            "no variable, parameter or member is of the type `%`",
            piece,
        ),
        Reason::NoConstant { .. } => put_sentence(
            out,
            "no constant is of the type `%`: one is an int or a string",
            piece,
        ),
        Reason::NoPlace => Ok(()),
        Reason::Uncallable => Ok(()),
        Reason::NoFunction => Ok(()),
        Reason::Barred => Ok(()),
        Reason::Taken => Ok(()),
        Reason::Cells => Ok(()),
        Reason::Misplaced => Ok(()),
        Reason::NoDefault => Ok(()),
        Reason::LeftOut => Ok(()),
        Reason::NoStruct => Ok(()),
    }
}

/// Appends the sentence for a reason at this token, if it has one. Whether it has.
pub fn put_reason(out: &mut Vec<u8>, piece: &[u8], reason: Reason) -> Result<bool, NoMemory>
    ensures told { IfOk result (λ told. told ≡ is_some (said piece.now reason)) }
    ensures appends { OnOk result
        (out.new.items ≡ out.old.items ++ or_nothing (said piece.now reason)) }
{
    put_said(out, piece, reason)?;
    Ok(is_said(reason))
}
