//! The value of a field that holds no struct.

ghost use Rattle.std.specs.Prelude.{◌≡◌, ◌≤◌, ◌+◌, length, Ok, Err, OnOk, IfOk, MatchResult};
ghost use Rattle.gff_tree.specs.Tree.{plain_leaf};
ghost use Rattle.gff_read.specs.Rows.{Gives, bytes_for, number_for, counted_for, name_for, part_in};
ghost use Rattle.gff_read.specs.Rows.{parts_in, localized_in, number_in, leaf_for};
ghost use Rattle.nwq_value.specs.Limits.{file_limit};

use crate::fault::TreeFault;
use crate::kind::FieldKind;
use byteorder::{ByteOrder, LittleEndian};
use gff_bytes::{Part, Range, View};
use gff_tree::{Leaf, Loc, LocPart, Parts};
use nwq_value::Items;
use shared_bytes::SharedBytes;
use std::alloc::Global;

/// How many bytes the name of a resource has at most.
const NAME_BYTES: u32 = 16;

fn bad_data(field: u32) -> TreeFault
    ensures { result ≡ TreeFault.Range (record { part = Part.Data; at = field }) }
{
    TreeFault::Range(Range {
        part: Part::Data,
        at: field,
    })
}

#[tactic(auto, unfolding(crate::specs::Rows::number_in))]
fn word_in(bytes: &[u8]) -> u32
    requires { 4 ≤ length bytes.now }
    ensures { result ≡ number_in 4 bytes.now }
{
    LittleEndian::read_u32(bytes)
}

#[tactic(auto, unfolding(crate::specs::Rows::number_in))]
fn wide_in(bytes: &[u8]) -> u64
    requires { 8 ≤ length bytes.now }
    ensures { result ≡ number_in 8 bytes.now }
{
    LittleEndian::read_u64(bytes)
}

#[tactic(auto, unfolding(crate::specs::Rows::number_in))]
fn byte_in(bytes: &[u8]) -> u8
    requires { 1 ≤ length bytes.now }
    ensures { result ≡ number_in 1 bytes.now }
{
    bytes[0]
}

/// So many bytes of the field data.
fn bytes_at<'a>(view: &View<'a>, field: u32, place: u32, count: u32) -> Result<&'a [u8], TreeFault>
    ensures bytes { MatchResult result
        (λ read. bytes_for view.now field place count ≡ Ok read.now)
        (λ e. bytes_for view.now field place count ≡ Err e) }
    ensures inside { OnOk result (place + count ≤ file_limit) }
    ensures length { IfOk result (λ read. length read.now ≡ count) }
{
    match view.data_at(place, count) {
        Ok(read) => Ok(read),
        Err(_) => Err(bad_data(field)),
    }
}

/// The length before a text, of four bytes.
#[tactic(auto, unfolding(crate::specs::Rows::number_for))]
fn count_at(view: &View<'_>, field: u32, place: u32) -> Result<u32, TreeFault>
    ensures count { result ≡ number_for view.now field place 4 }
    ensures inside { OnOk result (place + 4 ≤ file_limit) }
{
    match bytes_at(view, field, place, 4) {
        Ok(read) => Ok(word_in(read)),
        Err(e) => Err(e),
    }
}

#[tactic(auto, unfolding(crate::specs::Rows::number_for))]
fn wide_at(view: &View<'_>, field: u32, place: u32) -> Result<u64, TreeFault>
    ensures { result ≡ number_for view.now field place 8 }
{
    match bytes_at(view, field, place, 8) {
        Ok(read) => Ok(wide_in(read)),
        Err(e) => Err(e),
    }
}

/// The length before the name of a resource, of one byte.
#[tactic(auto, unfolding(crate::specs::Rows::number_for))]
fn short_count_at(view: &View<'_>, field: u32, place: u32) -> Result<u8, TreeFault>
    ensures count { result ≡ number_for view.now field place 1 }
    ensures inside { OnOk result (place + 1 ≤ file_limit) }
{
    match bytes_at(view, field, place, 1) {
        Ok(read) => Ok(byte_in(read)),
        Err(e) => Err(e),
    }
}

/// The bytes behind a length of four bytes.
#[tactic(auto, unfolding(crate::specs::Rows::counted_for))]
fn counted_at<'a>(view: &View<'a>, field: u32, place: u32) -> Result<&'a [u8], TreeFault>
    ensures { MatchResult result
        (λ text. counted_for view.now field place ≡ Ok text.now)
        (λ e. counted_for view.now field place ≡ Err e) }
{
    match count_at(view, field, place) {
        Ok(count) => bytes_at(view, field, place + 4, count),
        Err(e) => Err(e),
    }
}

/// The name of a resource.
#[tactic(auto, unfolding(crate::specs::Rows::name_for))]
fn name_at<'a>(view: &View<'a>, field: u32, place: u32) -> Result<&'a [u8], TreeFault>
    ensures { MatchResult result
        (λ text. name_for view.now field place ≡ Ok text.now)
        (λ e. name_for view.now field place ≡ Err e) }
{
    match short_count_at(view, field, place) {
        Ok(count) => {
            if u32::from(count) > NAME_BYTES {
                return Err(bad_data(field));
            }
            bytes_at(view, field, place + 1, u32::from(count))
        }
        Err(e) => Err(e),
    }
}

/// One text of a localized string, and the bytes behind it.
#[tactic(auto, unfolding(crate::specs::Rows::part_in))]
fn part_of(alloc: Global, field: u32, bytes: &[u8]) -> Result<(LocPart, &[u8]), TreeFault>
    ensures { Gives (λ read. (read.0, read.1.now)) result (part_in field bytes.now) }
{
    if bytes.len() < 8 {
        return Err(bad_data(field));
    }
    let id = word_in(bytes).cast_signed();
    let count = word_in(&bytes[4..]) as usize;
    if bytes.len() < 8 + count {
        return Err(bad_data(field));
    }
    let text = Items::of_slice(alloc, &bytes[8..8 + count])?;
    Ok((LocPart { id, text }, &bytes[8 + count..]))
}

/// So many texts of a localized string.
fn parts_of(alloc: Global, field: u32, count: u32, bytes: &[u8]) -> Result<Parts, TreeFault>
    ensures { Gives (λ parts. parts) result (parts_in field count bytes.now) }
{
    let mut parts = Items::new(alloc);
    let mut rest = bytes;
    for _done in 0..count {
        let (part, behind) = part_of(alloc, field, rest)?;
        parts.push(part)?;
        rest = behind;
    }
    Ok(parts)
}

#[tactic(auto, unfolding(crate::specs::Rows::localized_in))]
fn localized(alloc: Global, field: u32, body: &[u8]) -> Result<Loc, TreeFault>
    ensures { Gives (λ loc. loc) result (localized_in field body.now) }
{
    if body.len() < 8 {
        return Err(bad_data(field));
    }
    let str_ref = word_in(body);
    let count = word_in(&body[4..]);
    let parts = parts_of(alloc, field, count, &body[8..])?;
    Ok(Loc { str_ref, parts })
}

/// The value of a field of a type that stands in the field data.
#[tactic(auto, unfolding(crate::specs::Rows::leaf_for, crate::specs::Rows::scalar_for))]
fn wide_leaf(view: &View<'_>, field: u32, word: u32) -> Result<Leaf, TreeFault>
    ensures { Gives plain_leaf result (leaf_for view.now field FieldKind.Dword64 word) }
{
    match wide_at(view, field, word) {
        Ok(n) => Ok(Leaf::Dword64(n)),
        Err(e) => Err(e),
    }
}

#[tactic(auto, unfolding(crate::specs::Rows::leaf_for, crate::specs::Rows::scalar_for))]
fn signed_leaf(view: &View<'_>, field: u32, word: u32) -> Result<Leaf, TreeFault>
    ensures { Gives plain_leaf result (leaf_for view.now field FieldKind.Int64 word) }
{
    match wide_at(view, field, word) {
        Ok(n) => Ok(Leaf::Int64(n.cast_signed())),
        Err(e) => Err(e),
    }
}

#[tactic(auto, unfolding(crate::specs::Rows::leaf_for, crate::specs::Rows::scalar_for))]
fn double_leaf(view: &View<'_>, field: u32, word: u32) -> Result<Leaf, TreeFault>
    ensures { Gives plain_leaf result (leaf_for view.now field FieldKind.Double word) }
{
    match bytes_at(view, field, word, 8) {
        Ok(read) => {
            let mut bits = [0; 8];
            bits.copy_from_slice(read);
            Ok(Leaf::Double(bits))
        }
        Err(e) => Err(e),
    }
}

#[tactic(auto, unfolding(crate::specs::Rows::leaf_for, crate::specs::Rows::scalar_for))]
fn text_leaf(alloc: Global, view: &View<'_>, field: u32, word: u32) -> Result<Leaf, TreeFault>
    ensures { Gives plain_leaf result (leaf_for view.now field FieldKind.Str word) }
{
    match counted_at(view, field, word) {
        Ok(text) => Ok(Leaf::Str(SharedBytes::of_slice(alloc, text)?)),
        Err(e) => Err(e),
    }
}

#[tactic(auto, unfolding(crate::specs::Rows::leaf_for, crate::specs::Rows::scalar_for))]
fn void_leaf(alloc: Global, view: &View<'_>, field: u32, word: u32) -> Result<Leaf, TreeFault>
    ensures { Gives plain_leaf result (leaf_for view.now field FieldKind.Void word) }
{
    match counted_at(view, field, word) {
        Ok(bytes) => Ok(Leaf::Void(Items::of_slice(alloc, bytes)?)),
        Err(e) => Err(e),
    }
}

#[tactic(auto, unfolding(crate::specs::Rows::leaf_for, crate::specs::Rows::scalar_for))]
fn name_leaf(alloc: Global, view: &View<'_>, field: u32, word: u32) -> Result<Leaf, TreeFault>
    ensures { Gives plain_leaf result (leaf_for view.now field FieldKind.Res word) }
{
    match name_at(view, field, word) {
        Ok(name) => Ok(Leaf::Res(Items::of_slice(alloc, name)?)),
        Err(e) => Err(e),
    }
}

#[tactic(auto, unfolding(crate::specs::Rows::leaf_for, crate::specs::Rows::scalar_for))]
fn localized_leaf(alloc: Global, view: &View<'_>, field: u32, word: u32) -> Result<Leaf, TreeFault>
    ensures { Gives plain_leaf result (leaf_for view.now field FieldKind.Loc word) }
{
    match counted_at(view, field, word) {
        Ok(body) => match localized(alloc, field, body) {
            Ok(loc) => Ok(Leaf::Loc(loc)),
            Err(e) => Err(e),
        },
        Err(e) => Err(e),
    }
}

/// The value of a field that holds no struct, by its type and its DataOrDataOffset.
#[tactic(auto, unfolding(crate::specs::Rows::leaf_for, crate::specs::Rows::scalar_for))]
pub fn leaf(
    alloc: Global,
    view: &View<'_>,
    field: u32,
    kind: FieldKind,
    word: u32,
) -> Result<Leaf, TreeFault>
    ensures { Gives plain_leaf result (leaf_for view.now field kind word) }
{
    match kind {
        FieldKind::Byte => Ok(Leaf::Byte((word % 256) as u8)),
        FieldKind::Char => Ok(Leaf::Char(((word % 256) as u8).cast_signed())),
        FieldKind::Word => Ok(Leaf::Word((word % 65536) as u16)),
        FieldKind::Short => Ok(Leaf::Short(((word % 65536) as u16).cast_signed())),
        FieldKind::Dword => Ok(Leaf::Dword(word)),
        FieldKind::Int => Ok(Leaf::Int(word.cast_signed())),
        FieldKind::Dword64 => wide_leaf(view, field, word),
        FieldKind::Int64 => signed_leaf(view, field, word),
        FieldKind::Float => Ok(Leaf::Float(word.to_le_bytes())),
        FieldKind::Double => double_leaf(view, field, word),
        FieldKind::Str => text_leaf(alloc, view, field, word),
        FieldKind::Res => name_leaf(alloc, view, field, word),
        FieldKind::Loc => localized_leaf(alloc, view, field, word),
        FieldKind::Void => void_leaf(alloc, view, field, word),
        FieldKind::Struct | FieldKind::List => Err(bad_data(field)),
    }
}
