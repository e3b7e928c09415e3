//! The text of the lines that a world keeps.
ghost use Rattle.std.specs.Prelude.{◌≡◌, ◌++◌, ◌∷◌, [], codes, length, take, OnOk, OnErr};
ghost use Rattle.std.specs.Fmt.{decimal, signed_decimal};
ghost use Rattle.std.specs.List.{flat_map};
ghost use Rattle.nwq_text.specs.Escape.{escaped};
ghost use Rattle.nwq_text.specs.Values.{arguments_text, effect_text, object_text};
ghost use Rattle.world_rules.specs.Trace.{line_text, print_text, told_text, trace_text};

use nwq_text::{put_arguments, put_count, put_effect, put_number, put_object, put_text, put_value};
use nwq_value::{Effect, NoMemory, Value};
use world_rules::{Line, Told};

/// Appends a printed value; a string stands without quotes.
fn put_print(out: &mut Vec<u8>, value: &Value) -> Result<(), NoMemory>
    ensures ok { OnOk result (out.new.items ≡ out.old.items ++ print_text value.now) }
    ensures err { OnErr result (out.new.items ≡ out.old.items) }
{
    match value {
        Value::Text(text) => put_text(out, text.bytes()),
        Value::Int(_) | Value::Object(_) | Value::Effect(_) | Value::Event(_) => {
            put_value(out, value)
        }
    }
}

/// Appends a word and an effect.
#[tactic(auto, using(crate::proofs::TakenBack::taken_back))]
fn put_of_effect(out: &mut Vec<u8>, word: &[u8], effect: &Effect) -> Result<(), NoMemory>
    ensures ok { OnOk result (out.new.items ≡ out.old.items ++ word.now ++ effect_text effect.now) }
    ensures err { OnErr result (take (length out.old.items) out.new.items ≡ out.old.items) }
{
    out.extend_from_slice(word)?;
    put_effect(out, effect)
}

/// Appends a word and a text.
#[tactic(auto, using(crate::proofs::TakenBack::taken_back))]
fn put_of_text(out: &mut Vec<u8>, word: &[u8], text: &[u8]) -> Result<(), NoMemory>
    ensures ok { OnOk result (out.new.items ≡ out.old.items ++ word.now ++ escaped text.now) }
    ensures err { OnErr result (take (length out.old.items) out.new.items ≡ out.old.items) }
{
    out.extend_from_slice(word)?;
    put_text(out, text)
}

#[tactic(auto, using(crate::proofs::TakenBack::taken_back))]
fn put_printed(out: &mut Vec<u8>, value: &Value) -> Result<(), NoMemory>
    ensures ok { OnOk result (out.new.items
        ≡ out.old.items ++ codes "print " ++ print_text value.now) }
    ensures err { OnErr result (take (length out.old.items) out.new.items ≡ out.old.items) }
{
    out.extend_from_slice(b"print ")?;
    put_print(out, value)
}

#[tactic(auto, using(crate::proofs::TakenBack::takes_back))]
fn put_call(out: &mut Vec<u8>, name: &[u8], args: &[Value]) -> Result<(), NoMemory>
    ensures ok { OnOk result (out.new.items
        ≡ out.old.items ++ codes "call " ++ name.now ++ 40 ∷ arguments_text args.now ++ 41 ∷ []) }
    ensures err { OnErr result (take (length out.old.items) out.new.items ≡ out.old.items) }
{
    out.extend_from_slice(b"call ")?;
    out.extend_from_slice(name)?;
    out.push(b'(')?;
    put_arguments(out, args)?;
    out.push(b')')?;
    Ok(())
}

#[tactic(auto, using(crate::proofs::TakenBack::takes_back))]
fn put_applied(out: &mut Vec<u8>, duration: i32, effect: &Effect) -> Result<(), NoMemory>
    ensures ok { OnOk result (out.new.items ≡ out.old.items
        ++ codes "apply " ++ signed_decimal duration ++ 32 ∷ effect_text effect.now) }
    ensures err { OnErr result (take (length out.old.items) out.new.items ≡ out.old.items) }
{
    out.extend_from_slice(b"apply ")?;
    put_number(out, i64::from(duration))?;
    out.push(b' ')?;
    put_effect(out, effect)
}

#[tactic(auto, using(crate::proofs::TakenBack::taken_back))]
fn put_fault(out: &mut Vec<u8>) -> Result<(), NoMemory>
    ensures ok { OnOk result (out.new.items ≡ out.old.items ++ codes "fault divide") }
    ensures err { OnErr result (take (length out.old.items) out.new.items ≡ out.old.items) }
{
    out.extend_from_slice(b"fault divide")?;
    Ok(())
}

/// Appends what a line tells.
fn put_told(out: &mut Vec<u8>, told: &Told) -> Result<(), NoMemory>
    ensures ok { OnOk result (out.new.items ≡ out.old.items ++ told_text told.now) }
    ensures err { OnErr result (take (length out.old.items) out.new.items ≡ out.old.items) }
{
    match told {
        Told::Print(value) => put_printed(out, value),
        Told::Speak(text) => put_of_text(out, b"speak ".as_slice(), text.bytes()),
        Told::Call(name, args) => put_call(out, name.bytes(), args.as_slice()),
        Told::NoScript(name) => put_of_text(out, b"noscript ".as_slice(), name.bytes()),
        Told::Deep(name) => put_of_text(out, b"deep ".as_slice(), name.bytes()),
        Told::Divide => put_fault(out),
        Told::Apply(duration, effect) => put_applied(out, *duration, effect),
        Told::Remove(effect) => put_of_effect(out, b"remove ".as_slice(), effect),
        Told::Expire(effect) => put_of_effect(out, b"expire ".as_slice(), effect),
    }
}

/// Appends when and on which object.
#[tactic(auto, using(crate::proofs::TakenBack::takes_back))]
fn put_head(out: &mut Vec<u8>, clock: u64, object: u32) -> Result<(), NoMemory>
    ensures ok { OnOk result (out.new.items
        ≡ out.old.items ++ (decimal clock ++ 32 ∷ object_text object ++ 32 ∷ [])) }
    ensures err { OnErr result (take (length out.old.items) out.new.items ≡ out.old.items) }
{
    put_count(out, clock)?;
    out.push(b' ')?;
    put_object(out, object)?;
    out.push(b' ')?;
    Ok(())
}

/// Appends a line.
#[tactic(auto, using(crate::proofs::TakenBack::takes_back), unfolding(world_rules::specs::Trace::line_text))]
fn put_line(out: &mut Vec<u8>, line: &Line) -> Result<(), NoMemory>
    ensures ok { OnOk result (out.new.items ≡ out.old.items ++ line_text line.now) }
    ensures err { OnErr result (take (length out.old.items) out.new.items ≡ out.old.items) }
{
    put_head(out, line.clock, line.object)?;
    put_told(out, &line.told)?;
    out.push(b'\n')?;
    Ok(())
}

fn put_lines(out: &mut Vec<u8>, lines: &[Line]) -> Result<(), NoMemory>
    ensures ok { OnOk result (out.new.items ≡ out.old.items ++ flat_map line_text lines.now) }
    ensures err { OnErr result (take (length out.old.items) out.new.items ≡ out.old.items) }
{
    for line in lines {
        put_line(out, line)?;
    }
    Ok(())
}

/// The bytes that are asked for at once for each line; most take fewer.
const LINE_ROOM: usize = 32;

/// Appends the text of lines.
#[tactic(auto, unfolding(world_rules::specs::Trace::trace_text))]
pub(crate) fn put_trace(out: &mut Vec<u8>, lines: &[Line]) -> Result<(), NoMemory>
    ensures ok { OnOk result (out.new.items ≡ out.old.items ++ trace_text lines.now) }
    ensures err { OnErr result (out.new.items ≡ out.old.items) }
{
    out.reserve(lines.len().saturating_mul(LINE_ROOM))?;
    let start = out.len();
    let done = put_lines(out, lines);
    if done.is_err() {
        out.truncate(start);
    }
    done
}
