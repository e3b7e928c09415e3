//! The texts that are put for numbers, texts and values.

use crate::plain::{Plain, value_of, values_of};
use nwq_text::{
    put_arguments, put_count, put_effect, put_number, put_object, put_quoted, put_text, put_value,
};
use nwq_value::{Effect, NoMemory};
use std::alloc::Global;
use std::test::Fail;

/// What is put.
#[derive(Clone, Copy)]
enum Put {
    Number(i64),
    Count(u64),
    Object(u32),
    Text(&'static [u8]),
    Quoted(&'static [u8]),
    Value(Plain),
    EmptyEffect,
    Arguments(&'static [Plain]),
}

fn put_one(alloc: Global, out: &mut Vec<u8>, what: Put) -> Result<(), NoMemory> {
    match what {
        Put::Number(n) => put_number(out, n),
        Put::Count(n) => put_count(out, n),
        Put::Object(object) => put_object(out, object),
        Put::Text(text) => put_text(out, text),
        Put::Quoted(text) => put_quoted(out, text),
        Put::Value(plain) => put_value(out, &value_of(alloc, plain)?),
        Put::EmptyEffect => put_effect(out, &Effect::empty(alloc)?),
        Put::Arguments(plains) => put_arguments(out, values_of(alloc, plains)?.as_slice()),
    }
}

/// What is put, one behind the other, and the whole text.
const TEXTS: &[(&[Put], &[u8])] = &[
    (
        &[Put::Number(0), Put::Number(-1), Put::Number(i64::MIN)],
        b"0-1-9223372036854775808",
    ),
    (
        &[Put::Count(u64::MAX), Put::Object(4_294_967_295)],
        b"18446744073709551615#4294967295",
    ),
    (
        &[Put::Text(b"a \\\n\"~\x7f\x00\xfe")],
        b"a \\\\\\n\"~\\x7f\\x00\\xfe",
    ),
    (&[Put::Quoted(b"say \"hi\"")], b"\"say \\x22hi\\x22\""),
    (
        &[Put::Arguments(&[
            Plain::Int(-3),
            Plain::Text(b"a \"b\""),
            Plain::Object(7),
            Plain::Event(-1),
        ])],
        b"-3,\"a \\x22b\\x22\",#7,event(-1)",
    ),
    (
        &[Put::Value(Plain::Effect(25, &[3, 8, 0])), Put::EmptyEffect],
        b"25(3,8,0)65535()",
    ),
];

fn put_all(alloc: Global, out: &mut Vec<u8>, all: &[Put]) -> Result<(), NoMemory> {
    for what in all {
        put_one(alloc, out, *what)?;
    }
    Ok(())
}

#[test]
fn texts_are_put(rt: HostRuntime) -> Result<(), Fail> {
    let mut out = Vec::new(rt.alloc());
    for (place, (all, text)) in TEXTS.iter().enumerate() {
        put_all(rt.alloc(), &mut out, all)?;
        assert!(rt; out.as_slice() == *text, "text {place}");
        out.clear();
    }
    Ok(())
}
