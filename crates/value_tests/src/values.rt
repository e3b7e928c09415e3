//! Texts, lists, values and indexes of names.

use crate::plain::{Plain, value_of};
use nwq_value::*;
use std::alloc::Global;
use std::mem::size_of;
use std::test::Fail;

/// The text of so many bytes, each a 7.
fn sevens(alloc: Global, count: usize) -> Result<Text, NoMemory> {
    let bytes = vec![in alloc; 7u8; count]?;
    Text::of(alloc, bytes.as_slice())
}

/// Whether a text that is joined to another keeps 8,192 bytes, of which the last is this.
fn is_joined(alloc: Global, first: &Text, rest: &Text, last: u8) -> Result<bool, NoMemory> {
    let joined = first.join(alloc, rest)?;
    Ok(joined.bytes().len() == 8192 && joined.bytes().last() == Some(&last))
}

#[test]
fn texts_keep_8192_bytes(rt: HostRuntime) -> Result<(), Fail> {
    let alloc = rt.alloc();
    assert_eq!(rt; sevens(alloc, 9000)?.bytes().len(), 8192);
    let rest = Text::of(alloc, b"abc")?;
    assert!(rt; is_joined(alloc, &sevens(alloc, 8190)?, &rest, b'b')?);
    assert!(rt; rest.copy(alloc)?.bytes() == b"abc".as_slice());
    Ok(())
}

/// Whether ints are put at the end of others.
fn are_added(ints: &mut Ints) -> Result<bool, NoMemory> {
    ints.push(3)?;
    ints.extend(&[4, 5])?;
    Ok(ints.as_slice() == [1, -2, 3, 4, 5].as_slice())
}

#[test]
fn lists_grow_at_their_end(rt: HostRuntime) -> Result<(), Fail> {
    let mut ints = Ints::of_slice(rt.alloc(), &[1, -2])?;
    assert!(rt; are_added(&mut ints)?);
    ints.clear();
    assert!(rt; ints.is_empty() && ints.get(0).is_none());
    Ok(())
}

/// Two values, and whether they are the same.
const PAIRS: &[(Plain, Plain, bool)] = &[
    (
        Plain::Effect(25, &[10, 8, 0]),
        Plain::Effect(26, &[10, 8, 0]),
        false,
    ),
    (Plain::StartEffect, Plain::EmptyEffect, true),
    (Plain::StartText, Plain::EmptyText, true),
    (Plain::StartEvent, Plain::Event(0), true),
    (Plain::Event(7), Plain::Int(7), false),
];

/// Whether two values are the same, where there was memory for them.
fn are_same(one: Result<Value, NoMemory>, other: Result<Value, NoMemory>) -> Option<bool> {
    match one {
        Err(NoMemory) => None,
        Ok(one) => match other {
            Err(NoMemory) => None,
            Ok(other) => Some(one.same(&other)),
        },
    }
}

#[test]
fn values_are_equal_by_type_and_content(rt: HostRuntime) -> Result<(), Fail> {
    let alloc = rt.alloc();
    for (place, (one, other, same)) in PAIRS.iter().enumerate() {
        let found = are_same(value_of(alloc, *one), value_of(alloc, *other));
        assert_eq!(rt; found, Some(*same), "pair {place}");
    }
    let damage = value_of(alloc, Plain::Effect(25, &[10, 8, 0]))?;
    assert_eq!(rt; are_same(damage.copy(alloc), Ok(damage)), Some(true));
    Ok(())
}

/// Puts so many copies of a value among others.
fn add_copies(alloc: Global, value: &Value, copies: &mut Args) -> Result<(), NoMemory> {
    for _ in 0..100_000 {
        copies.push(value.copy(alloc)?)?;
    }
    Ok(())
}

#[test]
fn a_value_has_16_bytes_and_copies_share(rt: HostRuntime) -> Result<(), Fail> {
    assert!(rt; size_of::<Value>() <= 16);
    let long = Value::Text(sevens(rt.alloc(), 8192)?);
    let mut copies = Args::new(rt.alloc());
    add_copies(rt.alloc(), &long, &mut copies)?;
    assert!(rt; matches!(copies.get(99_999), Some(last) if last.same(&long)));
    Ok(())
}

/// Gives names their numbers, one of them twice.
fn number_names(index: &mut NameIndex) -> Result<(), NoMemory> {
    index.set(b"ab", 0)?;
    index.set(b"", 1)?;
    index.set(b"a", 2)?;
    index.set(b"ab", 3)
}

#[test]
fn an_index_keeps_the_number_of_each_name(rt: HostRuntime) -> Result<(), Fail> {
    let mut index = NameIndex::new(rt.alloc());
    number_names(&mut index)?;
    assert!(rt; index.get(b"ab") == Some(3) && index.get(b"") == Some(1));
    index.remove(b"a");
    assert!(rt; index.get(b"a").is_none() && index.get(b"abc").is_none());
    index.clear();
    assert!(rt; index.get(b"").is_none());
    Ok(())
}
