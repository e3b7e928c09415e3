ghost use Rattle.std.specs.Prelude.{◌≤◌, length};
ghost use Rattle.nwq_value.specs.Limits.{file_limit};

use crate::files::{BASE, MOVED, WRITTEN, changed};
use gff_bytes::{OpenFault, Part, View};
use gff_read::{TreeFault, read, read_within};
use gff_tree::Label;
use nwq_value::FILE_BYTES;
use std::alloc::Global;

/// What became of reading a file: its letter, a letter for the part, and the number.
fn outcome(alloc: Global, bytes: &[u8]) -> (char, char, u32) {
    if bytes.len() > FILE_BYTES {
        return ('l', ' ', 0);
    }
    match View::open(bytes) {
        Err(OpenFault::Version) => ('v', ' ', 0),
        Err(_) => ('o', ' ', 0),
        Ok(view) => match read(alloc, &view) {
            Ok(_) => ('t', ' ', 0),
            Err(fault) => refusal(fault),
        },
    }
}

fn refusal(fault: TreeFault) -> (char, char, u32) {
    match fault {
        TreeFault::Range(range) => ('r', part(range.part), range.at),
        TreeFault::Kind(n) => ('k', ' ', n),
        TreeFault::Shared(n) => ('s', ' ', n),
        TreeFault::Deep(n) => ('d', ' ', n),
        TreeFault::Label(n) => ('n', ' ', n),
        TreeFault::NoMemory => ('m', ' ', 0),
    }
}

fn part(part: Part) -> char {
    match part {
        Part::Struct => 's',
        Part::Field => 'f',
        Part::Label => 'l',
        Part::Data => 'd',
        Part::Index => 'i',
        Part::List => 'w',
    }
}

#[test]
fn broken_files_are_refused_at_the_first_failing_test(rt: HostRuntime) {
    let cases: [(&[(usize, u32)], (char, char, u32)); 9] = [
        (&[], ('t', ' ', 0)),
        (&[(4, 0x332e_3356)], ('v', ' ', 0)),
        (&[(12, 0)], ('r', 's', 0)),
        (&[(64, 2)], ('r', 'i', 0)),
        (&[(68, 16)], ('k', ' ', 0)),
        (&[(72, 1)], ('r', 'l', 1)),
        (&[(68, 7)], ('r', 'd', 0)),
        (&[(68, 14)], ('r', 's', 7)),
        (&[(68, 15)], ('r', 'w', 7)),
    ];
    for (changes, wanted) in cases.as_slice() {
        let bytes = changed(rt.alloc(), *changes).expect(&rt, "memory");
        assert_eq!(rt; outcome(rt.alloc(), &bytes), *wanted);
    }
    let shared = changed(rt.alloc(), &[(68, 14), (76, 0)]).expect(&rt, "memory");
    assert_eq!(rt; outcome(rt.alloc(), &shared), ('s', ' ', 0));
}

#[test]
fn a_tree_within_the_budget_is_read(rt: HostRuntime) {
    let view = View::open(BASE.as_slice()).ok().expect(&rt, "a file");
    let tree = read_within(rt.alloc(), &view, 160)
        .ok()
        .expect(&rt, "a tree of 160 bytes");
    assert_eq!(rt; tree.top.kind(), u32::MAX);
    assert_eq!(rt; tree.top.fields().len(), 1);
    let refused = read_within(rt.alloc(), &view, 159);
    assert!(rt; matches!(refused, Err(TreeFault::NoMemory)));
    let label = Label::of(b"A".as_slice()).expect(&rt, "a label");
    assert_eq!(rt; label.bytes(), b"A".as_slice());
    assert!(rt; Label::of(b"seventeen letters".as_slice()).is_none());
}

/// The least budget within which the file is read is this one.
fn costs(alloc: Global, bytes: &[u8], budget: u64) -> bool
    requires small { length bytes.now ≤ file_limit }
    requires some { 1 ≤ budget }
{
    match View::open(bytes) {
        Err(_) => false,
        Ok(view) => {
            let read = read_within(alloc, &view, budget).is_ok();
            let refused = read_within(alloc, &view, budget - 1);
            read && matches!(refused, Err(TreeFault::NoMemory))
        }
    }
}

#[test]
fn each_part_of_a_tree_is_charged(rt: HostRuntime) {
    // 5 structs of 64, 19 fields of 96, 2 numbers in a list of 8; texts of 9, 16 and 0 bytes, each
    // and 32; texts of 5 and 0 bytes of a localized string, each and 96.
    assert!(rt; costs(rt.alloc(), WRITTEN.as_slice(), 2478));
    assert!(rt; costs(rt.alloc(), MOVED.as_slice(), 2478));
}
