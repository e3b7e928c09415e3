//! The part of a line that is shown.

ghost use Rattle.std.specs.Prelude.{◌≤◌, length};
ghost use Rattle.message_text.specs.Shown.{IsPast, IsShownEnd, IsShownFrom, IsShownTo, IsWindow};

use crate::place::{is_inner, line_end, line_start};

/// How many bytes of a line are shown at most on each side of a place, but for the rest of one
/// character behind it.
const MOST_BYTES: usize = 70;

/// A part of a line, and whether the line has more before it and behind it.
#[derive(Clone, Copy)]
pub struct Window {
    pub from: usize,
    pub to: usize,
    pub before: bool,
    pub behind: bool,
}

/// The place behind the further bytes of a character, of which there are three at most.
fn past_inner(bytes: &[u8], from: usize, end: usize) -> usize
    requires from { from ≤ end }
    requires end { end ≤ length bytes.now }
    ensures past { IsPast bytes.now from end result }
{
    let mut at = from;
    for _step in 0u8..3 {
        if at < end && is_inner(bytes[at]) {
            at += 1;
        }
    }
    at
}

/// Where a line ends for a reader: before the carriage return in front of its newline.
fn shown_end(bytes: &[u8], at: usize) -> usize
    requires { at ≤ length bytes.now }
    ensures end { IsShownEnd bytes.now at result }
    ensures after { at ≤ result }
    ensures within { result ≤ length bytes.now }
{
    let end = line_end(bytes, at);
    if end > at && bytes[end - 1] == b'\r' {
        end - 1
    } else {
        end
    }
}

/// Where the shown part begins of a line that begins at a place.
fn shown_from(bytes: &[u8], at: usize, start: usize) -> usize
    requires at { at ≤ length bytes.now }
    requires start { start ≤ at }
    ensures from { IsShownFrom bytes.now at start result }
    ensures within { result ≤ at }
{
    if at - start <= MOST_BYTES {
        start
    } else {
        past_inner(bytes, at - MOST_BYTES, at)
    }
}

/// Where the shown part ends of a line that ends at a place.
fn shown_to(bytes: &[u8], at: usize, end: usize) -> usize
    requires at { at ≤ end }
    requires end { end ≤ length bytes.now }
    ensures to { IsShownTo bytes.now at end result }
    ensures after { at ≤ result }
    ensures within { result ≤ end }
{
    if end - at <= MOST_BYTES {
        end
    } else {
        past_inner(bytes, at + MOST_BYTES, end)
    }
}

/// The part of its line that is shown of a place.
pub(crate) fn window_of(bytes: &[u8], at: usize) -> Window
    requires { at ≤ length bytes.now }
    ensures window { IsWindow bytes.now at result }
    ensures from { result.from ≤ at }
    ensures to { at ≤ result.to }
    ensures within { result.to ≤ length bytes.now }
{
    let start = line_start(bytes, at);
    let end = shown_end(bytes, at);
    let from = shown_from(bytes, at, start);
    let to = shown_to(bytes, at, end);
    Window {
        from,
        to,
        before: start < from,
        behind: to < end,
    }
}
