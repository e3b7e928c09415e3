ghost use Rattle.std.specs.Prelude.{◌≡◌, ◌++◌, ◌≤◌, ◌<◌, List, length, take, drop, IfOk, OnOk};
ghost use Rattle.std.specs.Fmt.{signed_decimal};
ghost use Rattle.nwq_text.specs.Escape.{hex_digit};
ghost use Rattle.nwq_value.specs.Limits.{text_limit};
ghost use Rattle.world_rules.specs.Arguments.{int_at, text_at, string_value};
ghost use Rattle.world_rules.specs.Pure.{CellLookup, pure, absolute, hex_digits, hex_string};
ghost use Rattle.world_rules.specs.Pure.{inserted};
ghost use Rattle.world_rules.specs.Pure.{leading_number, left_part, middle_part, right_part};
ghost use Rattle.world_rules.specs.Pure.{string_number};
ghost use Rattle.table_2da.specs.declared.tables.Named.{Named};
ghost use Rattle.nwq_value.specs.declared.value.Value.TheVariants.{Text as TextValue};
ghost use Rattle.table_2da.specs.Look.{look};
ghost use Rattle.hook_table.specs.Standard.{cell_function, function_numbered, IsAnswer};

use itoa::Buffer;
use nwq_value::{Args, NoMemory, Text, Value};
use std::alloc::Global;
use table_2da::Tables;
use world_rules::at_least_zero;

/// The int at a place of the arguments, 0 where there is none.
fn int_at(args: &Args, i: usize) -> i32
    ensures int { result ≡ int_at i args.now }
{
    match args.get(i) {
        Some(Value::Int(n)) => *n,
        Some(Value::Text(_)) | Some(Value::Object(_)) => 0,
        Some(Value::Effect(_)) | Some(Value::Event(_)) => 0,
        None => 0,
    }
}

/// The bytes of the string at a place of the arguments, none where there is no string.
fn text_at(args: &Args, i: usize) -> &[u8]
    ensures bytes { result.now ≡ text_at i args.now }
    ensures bound { length result.now ≤ text_limit }
{
    match args.get(i) {
        Some(Value::Text(text)) => text.bytes(),
        Some(Value::Int(_)) | Some(Value::Object(_)) => &[],
        Some(Value::Effect(_)) | Some(Value::Event(_)) => &[],
        None => &[],
    }
}

/// The string of these bytes, as a value.
fn string_value(alloc: Global, bytes: &[u8]) -> Result<Value, NoMemory>
    ensures value { IfOk result (λ v. v ≡ string_value bytes.now) }
{
    let text = Text::of(alloc, bytes)?;
    Ok(Value::Text(text))
}

/// The number without its sign; the least int stays as it is.
fn absolute(n: i32) -> i32
    ensures number { result ≡ absolute n }
{
    if n < 0 { n.wrapping_neg() } else { n }
}

/// The string of a number in decimal.
fn decimal(alloc: Global, n: i32) -> Result<Value, NoMemory>
    ensures value { IfOk result (λ v. v ≡ string_value (signed_decimal n)) }
{
    let mut digits = Buffer::new();
    string_value(alloc, digits.format(n).as_bytes())
}

/// The number that the digits in front write, in 32 bits.
#[tactic(auto, using(crate::proofs::NumberLemmas::digit_read, crate::proofs::NumberLemmas::digits_end, crate::proofs::NumberLemmas::no_digit))]
fn leading_number(bytes: &[u8]) -> i32
    ensures number { result ≡ leading_number bytes.now }
{
    let mut number = 0u32;
    let mut rest = bytes;
    while let Some((byte, after)) = rest.split_first() {
        if !byte.is_ascii_digit() {
            break;
        }
        number = number
            .wrapping_mul(10)
            .wrapping_add(u32::from(*byte - b'0'));
        rest = after;
    }
    number.cast_signed()
}

/// The number that a string begins with, where a `-` may stand before the digits.
fn string_number(bytes: &[u8]) -> i32
    ensures number { result ≡ string_number bytes.now }
{
    match bytes.split_first() {
        None => 0,
        Some((b'-', digits)) => leading_number(digits).wrapping_neg(),
        Some(_) => leading_number(bytes),
    }
}

fn hex_digit(value: u8) -> u8
    requires digit { value < 16 }
    ensures digit { result ≡ hex_digit value }
{
    if value < 10 {
        b'0' + value
    } else {
        b'a' + (value - 10)
    }
}

/// Appends so many hexadecimal digits of a number, the lowest last.
fn put_hex_digits(out: &mut Vec<u8>, count: u8, n: u32) -> Result<(), NoMemory>
    ensures ok { OnOk result (out.new.items ≡ out.old.items ++ hex_digits count n) }
{
    if count == 0 {
        return Ok(());
    }
    put_hex_digits(out, count - 1, n / 16)?;
    out.push(hex_digit((n % 16) as u8))?;
    Ok(())
}

/// `0x` and the eight hexadecimal digits of an int's bits, in lower case.
fn hex_string(alloc: Global, n: i32) -> Result<Value, NoMemory>
    ensures value { IfOk result (λ v. v ≡ string_value (hex_string n)) }
{
    let mut out = Vec::new(alloc);
    out.extend_from_slice(b"0x")?;
    put_hex_digits(&mut out, 8, n.cast_unsigned())?;
    string_value(alloc, out.as_slice())
}

/// The first `n` bytes, or all where there are fewer.
fn prefix(bytes: &[u8], n: u64) -> &[u8]
    ensures prefix { result.now ≡ take n bytes.now }
{
    if n < bytes.len() as u64 {
        &bytes[..n as usize]
    } else {
        bytes
    }
}

/// What follows the first `n` bytes.
fn suffix(bytes: &[u8], n: u64) -> &[u8]
    ensures suffix { result.now ≡ drop n bytes.now }
{
    if n < bytes.len() as u64 {
        &bytes[n as usize..]
    } else {
        &bytes[bytes.len()..]
    }
}

/// The last bytes of a string, so many or all of them.
fn right_part(bytes: &[u8], count: i32) -> &[u8]
    ensures part { result.now ≡ right_part bytes.now count }
{
    let before = (bytes.len() as u64).saturating_sub(at_least_zero(count));
    suffix(bytes, before)
}

/// So many bytes from a place on: none from a negative place, nor from one past the end.
fn middle_part(bytes: &[u8], start: i32, count: i32) -> &[u8]
    ensures part { result.now ≡ middle_part bytes.now start count }
{
    if start < 0 {
        return prefix(bytes, 0);
    }
    prefix(suffix(bytes, at_least_zero(start)), at_least_zero(count))
}

/// A string with another one put in at a place: a negative place is the beginning, and one past the
/// end the end.
fn inserted(alloc: Global, bytes: &[u8], piece: &[u8], place: i32) -> Result<Value, NoMemory>
    ensures value { IfOk result (λ v. v ≡ string_value (inserted bytes.now piece.now place)) }
{
    let place = at_least_zero(place);
    let mut out = Vec::new(alloc);
    out.extend_from_slice(prefix(bytes, place))?;
    out.extend_from_slice(piece)?;
    out.extend_from_slice(suffix(bytes, place))?;
    string_value(alloc, out.as_slice())
}

/// What the function of a number gives, of the nine that look nothing up.
fn value_of(alloc: Global, n: u8, args: &Args) -> Result<Value, NoMemory>
    requires number { n ≤ 8 }
    ensures value { IfOk result (λ v. (cell : CellLookup) → pure cell n args.now ≡ Some v) }
{
    let first = text_at(args, 0);
    match n {
        0 => Ok(Value::Int(absolute(int_at(args, 0)))),
        1 => decimal(alloc, int_at(args, 0)),
        2 => Ok(Value::Int(string_number(first))),
        3 => hex_string(alloc, int_at(args, 0)),
        4 => Ok(Value::Int(first.len() as i32)),
        5 => string_value(alloc, prefix(first, at_least_zero(int_at(args, 1)))),
        6 => string_value(alloc, right_part(first, int_at(args, 1))),
        7 => string_value(alloc, middle_part(first, int_at(args, 1), int_at(args, 2))),
        _ => inserted(alloc, first, text_at(args, 1), int_at(args, 2)),
    }
}

/// What the function of a number gives for these arguments, of the nine that look nothing up: it is
/// that function's answer, whatever tables there are. The program's closures call this.
pub fn pure_call(alloc: Global, n: u8, args: &Args) -> Result<Value, NoMemory>
    requires number { n ≤ 8 }
    ensures answer { IfOk result (λ v. (tables : List Named) → IsAnswer tables
        (function_numbered n).name (function_numbered n).result args.now v) }
{
    value_of(alloc, n, args)
}

fn cell_value(alloc: Global, tables: &Tables, args: &Args) -> Result<Value, NoMemory>
    ensures value { IfOk result (λ v. v ≡ TextValue
        (look tables.now (text_at 0 args.now) (text_at 1 args.now) (int_at 2 args.now))) }
{
    let cell = tables.look(alloc, text_at(args, 0), text_at(args, 1), int_at(args, 2))?;
    Ok(Value::Text(cell))
}

/// What the function that looks cells up gives for these arguments, in these tables. The closure of
/// a program's tenth hook calls this.
pub fn cell_call(alloc: Global, tables: &Tables, args: &Args) -> Result<Value, NoMemory>
    ensures answer { IfOk result (λ v. IsAnswer tables.now (function_numbered cell_function).name
        (function_numbered cell_function).result args.now v) }
{
    cell_value(alloc, tables, args)
}
