ghost use Rattle.std.specs.Prelude.{◌≡◌, ◌∷◌, ◌++◌, length, take, OnOk, OnErr};
ghost use Rattle.std.specs.List.{flat_map};
ghost use Rattle.std.specs.Fmt.{signed_decimal};
ghost use Rattle.nwq_text.specs.Values.{comma_parted, object_text, effect_text, event_text};
ghost use Rattle.nwq_text.specs.Values.{value_text, arguments_text};

use crate::escape::put_quoted;
use crate::number::{put_count, put_number};
use nwq_value::{Effect, NoMemory, Value};

/// Appends the text of an object: `#` and its number.
pub fn put_object(out: &mut Vec<u8>, object: u32) -> Result<(), NoMemory>
    ensures ok { OnOk result (out.new.items ≡ out.old.items ++ object_text object) }
    ensures err { OnErr result (out.new.items ≡ out.old.items) }
{
    let start = out.len();
    let done = put_object_parts(out, object);
    if done.is_err() {
        out.truncate(start);
    }
    done
}

/// Appends the text of an effect: its routine, and its ints in parentheses.
#[tactic(auto, unfolding(crate::specs::Values::effect_text))]
pub fn put_effect(out: &mut Vec<u8>, effect: &Effect) -> Result<(), NoMemory>
    ensures ok { OnOk result (out.new.items ≡ out.old.items ++ effect_text effect.now) }
    ensures err { OnErr result (out.new.items ≡ out.old.items) }
{
    let start = out.len();
    let done = put_effect_parts(out, effect);
    if done.is_err() {
        out.truncate(start);
    }
    done
}

/// Appends the text of a value; a string is quoted.
#[tactic(auto, unfolding(crate::specs::Values::value_text))]
pub fn put_value(out: &mut Vec<u8>, value: &Value) -> Result<(), NoMemory>
    ensures ok { OnOk result (out.new.items ≡ out.old.items ++ value_text value.now) }
    ensures err { OnErr result (out.new.items ≡ out.old.items) }
{
    match value {
        Value::Int(n) => put_number(out, i64::from(*n)),
        Value::Text(text) => put_quoted(out, text.bytes()),
        Value::Object(object) => put_object(out, *object),
        Value::Effect(effect) => put_effect(out, effect),
        Value::Event(n) => put_event(out, *n),
    }
}

/// Appends the texts of a call's arguments, first to last, parted by commas.
#[tactic(auto, unfolding(crate::specs::Values::arguments_text))]
pub fn put_arguments(out: &mut Vec<u8>, values: &[Value]) -> Result<(), NoMemory>
    ensures ok { OnOk result (out.new.items ≡ out.old.items ++ arguments_text values.now) }
    ensures err { OnErr result (out.new.items ≡ out.old.items) }
{
    let start = out.len();
    let done = put_values(out, values);
    if done.is_err() {
        out.truncate(start);
    }
    done
}

fn put_event(out: &mut Vec<u8>, number: i32) -> Result<(), NoMemory>
    ensures ok { OnOk result (out.new.items ≡ out.old.items ++ event_text number) }
    ensures err { OnErr result (out.new.items ≡ out.old.items) }
{
    let start = out.len();
    let done = put_event_parts(out, number);
    if done.is_err() {
        out.truncate(start);
    }
    done
}

#[tactic(auto, using(crate::proofs::TakenBack::taken_back))]
fn put_object_parts(out: &mut Vec<u8>, object: u32) -> Result<(), NoMemory>
    ensures ok { OnOk result (out.new.items ≡ out.old.items ++ object_text object) }
    ensures err { OnErr result (take (length out.old.items) out.new.items ≡ out.old.items) }
{
    out.push(b'#')?;
    put_count(out, u64::from(object))?;
    Ok(())
}

#[tactic(auto, using(crate::proofs::TakenBack::taken_back))]
fn put_event_parts(out: &mut Vec<u8>, number: i32) -> Result<(), NoMemory>
    ensures ok { OnOk result (out.new.items ≡ out.old.items ++ event_text number) }
    ensures err { OnErr result (take (length out.old.items) out.new.items ≡ out.old.items) }
{
    out.extend_from_slice(b"event(")?;
    put_number(out, i64::from(number))?;
    out.push(b')')?;
    Ok(())
}

#[tactic(auto, using(crate::proofs::TakenBack::taken_back, crate::proofs::TakenBack::taken_back_after), unfolding(crate::specs::Values::effect_text))]
fn put_effect_parts(out: &mut Vec<u8>, effect: &Effect) -> Result<(), NoMemory>
    ensures ok { OnOk result (out.new.items ≡ out.old.items ++ effect_text effect.now) }
    ensures err { OnErr result (take (length out.old.items) out.new.items ≡ out.old.items) }
{
    put_count(out, u64::from(effect.routine()))?;
    out.push(b'(')?;
    put_ints(out, effect.ints())?;
    out.push(b')')?;
    Ok(())
}

#[tactic(auto, using(crate::proofs::TakenBack::taken_back, crate::proofs::TakenBack::taken_back_after))]
fn put_ints(out: &mut Vec<u8>, ints: &[i32]) -> Result<(), NoMemory>
    ensures ok { OnOk result (out.new.items ≡ out.old.items
        ++ comma_parted signed_decimal ints.now) }
    ensures err { OnErr result (take (length out.old.items) out.new.items ≡ out.old.items) }
{
    let Some((first, rest)) = ints.split_first() else {
        return Ok(());
    };
    put_number(out, i64::from(*first))?;
    put_further_ints(out, rest)
}

fn put_further_ints(out: &mut Vec<u8>, ints: &[i32]) -> Result<(), NoMemory>
    ensures ok { OnOk result (out.new.items ≡ out.old.items
        ++ flat_map (λ n. 44 ∷ signed_decimal n) ints.now) }
    ensures err { OnErr result (take (length out.old.items) out.new.items ≡ out.old.items) }
{
    for n in ints {
        put_further_int(out, *n)?;
    }
    Ok(())
}

#[tactic(auto, using(crate::proofs::TakenBack::taken_back))]
fn put_further_int(out: &mut Vec<u8>, n: i32) -> Result<(), NoMemory>
    ensures ok { OnOk result (out.new.items ≡ out.old.items ++ 44 ∷ signed_decimal n) }
    ensures err { OnErr result (take (length out.old.items) out.new.items ≡ out.old.items) }
{
    out.push(b',')?;
    put_number(out, i64::from(n))?;
    Ok(())
}

#[tactic(auto, using(crate::proofs::TakenBack::taken_back, crate::proofs::TakenBack::taken_back_after))]
fn put_values(out: &mut Vec<u8>, values: &[Value]) -> Result<(), NoMemory>
    ensures ok { OnOk result (out.new.items ≡ out.old.items ++ comma_parted value_text values.now) }
    ensures err { OnErr result (take (length out.old.items) out.new.items ≡ out.old.items) }
{
    let Some((first, rest)) = values.split_first() else {
        return Ok(());
    };
    put_value(out, first)?;
    put_further_values(out, rest)
}

fn put_further_values(out: &mut Vec<u8>, values: &[Value]) -> Result<(), NoMemory>
    ensures ok { OnOk result (out.new.items ≡ out.old.items
        ++ flat_map (λ value. 44 ∷ value_text value) values.now) }
    ensures err { OnErr result (take (length out.old.items) out.new.items ≡ out.old.items) }
{
    for value in values {
        put_further_value(out, value)?;
    }
    Ok(())
}

#[tactic(auto, using(crate::proofs::TakenBack::taken_back))]
fn put_further_value(out: &mut Vec<u8>, value: &Value) -> Result<(), NoMemory>
    ensures ok { OnOk result (out.new.items ≡ out.old.items ++ 44 ∷ value_text value.now) }
    ensures err { OnErr result (take (length out.old.items) out.new.items ≡ out.old.items) }
{
    out.push(b',')?;
    put_value(out, value)?;
    Ok(())
}
