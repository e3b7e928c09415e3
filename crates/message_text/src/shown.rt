//! A line of a text, with a caret under a place of it.

ghost use Rattle.std.specs.Prelude.{◌≡◌, ◌++◌, ◌≤◌, length, OnOk};
ghost use Rattle.std.specs.List.{flat_map};
ghost use Rattle.message_text.specs.Shown as spec;
ghost use Rattle.message_text.specs.Shown.{blank_byte, points, points_blank};
ghost use Rattle.message_text.specs.Shown.{shown_byte, Appends, ShowsPlace};

use crate::place::is_inner;
use crate::readable::is_readable;
use crate::window::{Window, window_of};
use nwq_text::put_text;
use nwq_value::NoMemory;

/// Whether a byte is shown as it is.
fn is_shown_plain(text: bool, b: u8) -> bool
    ensures { result ≡ spec.is_shown_plain text b }
{
    if b < 128 {
        if b == b'\t' {
            true
        } else {
            (32..127).contains(&b)
        }
    } else {
        text
    }
}

fn put_bytes(out: &mut Vec<u8>, bytes: &[u8]) -> Result<(), NoMemory>
    ensures { OnOk result (out.new.items ≡ out.old.items ++ bytes.now) }
{
    out.extend_from_slice(bytes)?;
    Ok(())
}

#[tactic(auto, unfolding(crate::specs::Shown::shown_byte))]
fn put_shown_byte(out: &mut Vec<u8>, text: bool, b: u8) -> Result<(), NoMemory>
    ensures { OnOk result (out.new.items ≡ out.old.items ++ shown_byte text b) }
{
    if is_shown_plain(text, b) {
        put_bytes(out, &[b])
    } else {
        put_text(out, &[b])
    }
}

/// What stands under a byte that is shown as it is.
fn plain_blank(b: u8) -> &'static [u8]
    ensures { result.now ≡ spec.plain_blank b }
{
    if b == b'\t' {
        b"\t"
    } else if is_inner(b) {
        b""
    } else {
        b" "
    }
}

#[tactic(auto, unfolding(crate::specs::Shown::blank_byte))]
fn put_blank_byte(out: &mut Vec<u8>, text: bool, b: u8) -> Result<(), NoMemory>
    ensures { OnOk result (out.new.items ≡ out.old.items ++ blank_byte text b) }
{
    if is_shown_plain(text, b) {
        put_bytes(out, plain_blank(b))
    } else {
        put_bytes(out, b"    ")
    }
}

/// Appends the bytes of a line as they are shown.
fn put_shown(out: &mut Vec<u8>, text: bool, bytes: &[u8]) -> Result<(), NoMemory>
    ensures { OnOk result (out.new.items ≡ out.old.items
        ++ flat_map (shown_byte text) bytes.now) }
{
    for byte in bytes {
        put_shown_byte(out, text, *byte)?;
    }
    Ok(())
}

/// Appends what stands under these bytes.
fn put_blanks(out: &mut Vec<u8>, text: bool, bytes: &[u8]) -> Result<(), NoMemory>
    ensures { OnOk result (out.new.items ≡ out.old.items
        ++ flat_map (blank_byte text) bytes.now) }
{
    for byte in bytes {
        put_blank_byte(out, text, *byte)?;
    }
    Ok(())
}

fn points_of(cut: bool) -> &'static [u8]
    ensures { result.now ≡ points cut }
{
    if cut { b"..." } else { b"" }
}

fn points_blank_of(cut: bool) -> &'static [u8]
    ensures { result.now ≡ points_blank cut }
{
    if cut { b"   " } else { b"" }
}

/// Appends the shown part of a line.
fn put_line(out: &mut Vec<u8>, text: bool, bytes: &[u8], window: Window) -> Result<(), NoMemory>
    requires from { window.from ≤ window.to }
    requires to { window.to ≤ length bytes.now }
    ensures { OnOk result (out.new.items ≡ out.old.items ++ spec.line_text text bytes.now window) }
{
    put_bytes(out, points_of(window.before))?;
    put_shown(out, text, &bytes[window.from..window.to])?;
    put_bytes(out, points_of(window.behind))?;
    put_bytes(out, b"\n")
}

/// Appends the line under it, with a caret under the place.
fn put_caret(
    out: &mut Vec<u8>,
    text: bool,
    bytes: &[u8],
    at: usize,
    window: Window,
) -> Result<(), NoMemory>
    requires from { window.from ≤ at }
    requires to { at ≤ length bytes.now }
    ensures { OnOk result (out.new.items ≡ out.old.items
        ++ spec.caret_text text bytes.now at window) }
{
    put_bytes(out, points_blank_of(window.before))?;
    put_blanks(out, text, &bytes[window.from..at])?;
    put_bytes(out, b"^\n")
}

/// Appends the line of a place, and a line with a caret under the place.
pub fn put_place(out: &mut Vec<u8>, bytes: &[u8], at: usize) -> Result<(), NoMemory>
    requires { at ≤ length bytes.now }
    ensures shows { OnOk result (Appends (ShowsPlace bytes.now at) out.old.items out.new.items) }
{
    let window = window_of(bytes, at);
    let text = is_readable(&bytes[window.from..window.to]);
    put_line(out, text, bytes, window)?;
    put_caret(out, text, bytes, at, window)
}
