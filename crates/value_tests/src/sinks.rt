//! What a sink hands on, piece by piece, and what it answers.

use nwq_outside::{Done, MemSink, RealSink, Sink};
use std::io::{self, Write};
use std::test::Fail;

/// Pieces that are put, and what each is answered.
type Pieces = &'static [(&'static [u8], Done)];

/// The place of the first piece that is answered otherwise, if there is one.
fn first_wrong<S: Sink>(out: &mut S, pieces: Pieces) -> Option<usize> {
    for (place, (piece, done)) in pieces.iter().enumerate() {
        if out.put(piece) != *done {
            return Some(place);
        }
    }
    None
}

/// A writer that takes so many bytes at a time, and keeps them.
#[derive(Drop)]
struct Taking {
    at_once: usize,
    took: Vec<u8>,
}

impl Write for Taking {
    fn write(&mut self, bytes: &[u8]) -> io::Result<usize> {
        let taken = bytes.len().min(self.at_once);
        self.took.extend_from_slice(&bytes[..taken])?;
        Ok(taken)
    }

    fn flush(&mut self) -> io::Result<()> {
        Ok(())
    }
}

const PIECES: Pieces = &[
    (b"one ", Done::Ok),
    (b"", Done::Ok),
    (b"t\x00wo\n", Done::Ok),
];

/// What a writer takes at once, the pieces, and all that it took.
const WRITERS: &[(usize, Pieces, &[u8])] = &[
    (1, PIECES, b"one t\x00wo\n"),
    (0, &[(b"", Done::Ok), (b"x", Done::Failed)], b""),
];

#[test]
fn writers(rt: HostRuntime) {
    for (at_once, pieces, all) in WRITERS {
        let mut out = RealSink::new(Taking {
            at_once: *at_once,
            took: Vec::new(rt.alloc()),
        });
        assert_eq!(rt; first_wrong(&mut out, pieces), None, "{at_once} at once");
        assert!(rt; out.writer().took.as_slice() == *all, "{at_once} at once");
    }
}

#[test]
fn a_vector_takes_all(rt: HostRuntime) {
    let mut out = RealSink::new(Vec::new(rt.alloc()));
    assert_eq!(rt; first_wrong(&mut out, PIECES), None);
    assert!(rt; out.writer().as_slice() == b"one t\x00wo\n".as_slice());
}

/// Pieces of which the second is to fail.
const SECOND_FAILS: Pieces = &[
    (b"text", Done::Ok),
    (b"lost", Done::Failed),
    (b"!", Done::Ok),
];

#[test]
fn sink_in_memory(rt: HostRuntime) -> Result<(), Fail> {
    let mut out = MemSink::new(rt.alloc());
    out.fail_at(1)?;
    assert_eq!(rt; first_wrong(&mut out, SECOND_FAILS), None);
    assert!(rt; out.bytes() == b"text!".as_slice() && out.calls() == 3);
    Ok(())
}
