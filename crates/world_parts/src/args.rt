//! The arguments of a call, read at their places.
ghost use Rattle.std.specs.Prelude.{◌≡◌, IfOk};
ghost use Rattle.world_rules.specs.Arguments.{int_at, text_at, object_at, effect_at, event_at};

use nwq_value::{Args, Effect, NoMemory, Text, Value};
use shared_bytes::SharedBytes;
use std::alloc::Global;

pub(crate) fn int_at(args: &Args, i: usize) -> i32
    ensures int { result ≡ int_at i args.now }
{
    match args.get(i) {
        Some(Value::Int(n)) => *n,
        Some(Value::Text(_) | Value::Object(_) | Value::Effect(_) | Value::Event(_)) | None => 0,
    }
}

pub(crate) fn object_at(args: &Args, i: usize) -> u32
    ensures object { result ≡ object_at i args.now }
{
    match args.get(i) {
        Some(Value::Object(o)) => *o,
        Some(Value::Text(_) | Value::Int(_) | Value::Effect(_) | Value::Event(_)) | None => 0,
    }
}

pub(crate) fn event_at(args: &Args, i: usize) -> i32
    ensures event { result ≡ event_at i args.now }
{
    match args.get(i) {
        Some(Value::Event(n)) => *n,
        Some(Value::Text(_) | Value::Int(_) | Value::Effect(_) | Value::Object(_)) | None => 0,
    }
}

pub(crate) fn text_at(args: &Args, i: usize) -> &[u8]
    ensures text { result.now ≡ text_at i args.now }
{
    match args.get(i) {
        Some(Value::Text(text)) => text.bytes(),
        Some(Value::Event(_) | Value::Int(_) | Value::Effect(_) | Value::Object(_)) | None => &[],
    }
}

/// The string at a place, whose bytes are shared with it.
pub(crate) fn string_at(alloc: Global, args: &Args, i: usize) -> Result<SharedBytes, NoMemory>
    ensures text { IfOk result (λ text. text ≡ text_at i args.now) }
{
    match args.get(i) {
        Some(Value::Text(text)) => SharedBytes::of_text(alloc, text),
        Some(Value::Event(_) | Value::Int(_) | Value::Effect(_) | Value::Object(_)) | None => {
            Ok(SharedBytes::new(alloc))
        }
    }
}

/// A text equal to the string at a place, whose bytes are shared with it.
pub(crate) fn text_copy(alloc: Global, args: &Args, i: usize) -> Result<Text, NoMemory>
    ensures text { IfOk result (λ text. text ≡ text_at i args.now) }
{
    match args.get(i) {
        Some(Value::Text(text)) => text.copy(alloc),
        Some(Value::Event(_) | Value::Int(_) | Value::Effect(_) | Value::Object(_)) | None => {
            Text::empty(alloc)
        }
    }
}

/// An effect equal to the one at a place, which it shares.
pub(crate) fn effect_copy(alloc: Global, args: &Args, i: usize) -> Result<Effect, NoMemory>
    ensures effect { IfOk result (λ effect. effect ≡ effect_at i args.now) }
{
    match args.get(i) {
        Some(Value::Effect(effect)) => effect.copy(alloc),
        Some(Value::Event(_) | Value::Int(_) | Value::Text(_) | Value::Object(_)) | None => {
            Effect::empty(alloc)
        }
    }
}
