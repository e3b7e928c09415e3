//! Areas: what is read, changed and put back.

ghost use Rattle.std.specs.Prelude.{◌≤◌, IsTrue, length};

use crate::files::{BASE, changed_file};
use area_back::into_tree;
use area_rules::AreaFault;
use area_tree::Area;
use gff_bytes::View;
use gff_read::read;
use gff_write::write;
use local_variables::{Var, Vars};
use nwq_value::{FILE_BYTES, NoMemory};
use shared_bytes::SharedBytes;
use std::alloc::Global;

/// An area of six objects with all five lists, the waypoints' before the doors'.
const AREA: [u8; 1104] = [
    71, 73, 84, 32, 86, 51, 46, 50, 56, 0, 0, 0, 12, 0, 0, 0, 200, 0, 0, 0, 32, 0, 0, 0, 72, 2, 0,
    0, 14, 0, 0, 0, 40, 3, 0, 0, 100, 0, 0, 0, 140, 3, 0, 0, 120, 0, 0, 0, 4, 4, 0, 0, 76, 0, 0, 0,
    255, 255, 255, 255, 0, 0, 0, 0, 6, 0, 0, 0, 4, 0, 0, 0, 24, 0, 0, 0, 3, 0, 0, 0, 0, 0, 0, 0,
    36, 0, 0, 0, 3, 0, 0, 0, 0, 0, 0, 0, 48, 0, 0, 0, 3, 0, 0, 0, 0, 0, 0, 0, 60, 0, 0, 0, 3, 0, 0,
    0, 0, 0, 0, 0, 72, 0, 0, 0, 3, 0, 0, 0, 4, 0, 0, 0, 84, 0, 0, 0, 2, 0, 0, 0, 5, 0, 0, 0, 23, 0,
    0, 0, 1, 0, 0, 0, 8, 0, 0, 0, 92, 0, 0, 0, 2, 0, 0, 0, 0, 0, 0, 0, 100, 0, 0, 0, 3, 0, 0, 0, 9,
    0, 0, 0, 112, 0, 0, 0, 2, 0, 0, 0, 1, 0, 0, 0, 31, 0, 0, 0, 1, 0, 0, 0, 15, 0, 0, 0, 0, 0, 0,
    0, 0, 0, 0, 0, 10, 0, 0, 0, 1, 0, 0, 0, 0, 0, 0, 0, 15, 0, 0, 0, 2, 0, 0, 0, 12, 0, 0, 0, 15,
    0, 0, 0, 3, 0, 0, 0, 20, 0, 0, 0, 15, 0, 0, 0, 4, 0, 0, 0, 28, 0, 0, 0, 15, 0, 0, 0, 5, 0, 0,
    0, 36, 0, 0, 0, 10, 0, 0, 0, 6, 0, 0, 0, 8, 0, 0, 0, 11, 0, 0, 0, 7, 0, 0, 0, 17, 0, 0, 0, 15,
    0, 0, 0, 8, 0, 0, 0, 44, 0, 0, 0, 10, 0, 0, 0, 9, 0, 0, 0, 26, 0, 0, 0, 4, 0, 0, 0, 10, 0, 0,
    0, 1, 0, 0, 0, 5, 0, 0, 0, 11, 0, 0, 0, 5, 0, 0, 0, 10, 0, 0, 0, 9, 0, 0, 0, 31, 0, 0, 0, 4, 0,
    0, 0, 10, 0, 0, 0, 2, 0, 0, 0, 8, 0, 0, 0, 11, 0, 0, 0, 0, 0, 192, 63, 10, 0, 0, 0, 9, 0, 0, 0,
    36, 0, 0, 0, 4, 0, 0, 0, 10, 0, 0, 0, 3, 0, 0, 0, 10, 0, 0, 0, 11, 0, 0, 0, 41, 0, 0, 0, 10, 0,
    0, 0, 9, 0, 0, 0, 48, 0, 0, 0, 4, 0, 0, 0, 10, 0, 0, 0, 1, 0, 0, 0, 5, 0, 0, 0, 11, 0, 0, 0, 9,
    0, 0, 0, 11, 0, 0, 0, 6, 0, 0, 0, 53, 0, 0, 0, 11, 0, 0, 0, 12, 0, 0, 0, 57, 0, 0, 0, 10, 0, 0,
    0, 6, 0, 0, 0, 67, 0, 0, 0, 10, 0, 0, 0, 6, 0, 0, 0, 75, 0, 0, 0, 15, 0, 0, 0, 8, 0, 0, 0, 64,
    0, 0, 0, 10, 0, 0, 0, 9, 0, 0, 0, 83, 0, 0, 0, 4, 0, 0, 0, 10, 0, 0, 0, 1, 0, 0, 0, 5, 0, 0, 0,
    11, 0, 0, 0, 0, 0, 0, 0, 10, 0, 0, 0, 6, 0, 0, 0, 91, 0, 0, 0, 15, 0, 0, 0, 8, 0, 0, 0, 72, 0,
    0, 0, 5, 0, 0, 0, 13, 0, 0, 0, 3, 0, 0, 0, 67, 114, 101, 97, 116, 117, 114, 101, 32, 76, 105,
    115, 116, 0, 0, 0, 65, 114, 101, 97, 78, 97, 109, 101, 0, 0, 0, 0, 0, 0, 0, 0, 87, 97, 121,
    112, 111, 105, 110, 116, 76, 105, 115, 116, 0, 0, 0, 0, 68, 111, 111, 114, 32, 76, 105, 115,
    116, 0, 0, 0, 0, 0, 0, 0, 80, 108, 97, 99, 101, 97, 98, 108, 101, 32, 76, 105, 115, 116, 0, 0,
    84, 114, 105, 103, 103, 101, 114, 76, 105, 115, 116, 0, 0, 0, 0, 0, 84, 97, 103, 0, 0, 0, 0, 0,
    0, 0, 0, 0, 0, 0, 0, 0, 83, 99, 114, 105, 112, 116, 72, 101, 97, 114, 116, 98, 101, 97, 116, 0,
    86, 97, 114, 84, 97, 98, 108, 101, 0, 0, 0, 0, 0, 0, 0, 0, 78, 97, 109, 101, 0, 0, 0, 0, 0, 0,
    0, 0, 0, 0, 0, 0, 84, 121, 112, 101, 0, 0, 0, 0, 0, 0, 0, 0, 0, 0, 0, 0, 86, 97, 108, 117, 101,
    0, 0, 0, 0, 0, 0, 0, 0, 0, 0, 0, 79, 110, 68, 101, 97, 116, 104, 0, 0, 0, 0, 0, 0, 0, 0, 0, 88,
    0, 0, 0, 0, 0, 0, 0, 0, 0, 0, 0, 0, 0, 0, 0, 4, 0, 0, 0, 89, 97, 114, 100, 5, 0, 0, 0, 103,
    117, 97, 114, 100, 8, 104, 98, 95, 103, 117, 97, 114, 100, 1, 0, 0, 0, 110, 1, 0, 0, 0, 102, 1,
    0, 0, 0, 115, 3, 0, 0, 0, 111, 108, 100, 1, 0, 0, 0, 115, 3, 114, 97, 116, 9, 114, 97, 116, 95,
    100, 101, 97, 116, 104, 4, 0, 0, 0, 112, 111, 115, 116, 4, 0, 0, 0, 103, 97, 116, 101, 4, 0, 0,
    0, 111, 112, 101, 110, 5, 0, 0, 0, 103, 117, 97, 114, 100, 0, 0, 0, 0, 1, 0, 0, 0, 2, 0, 0, 0,
    3, 0, 0, 0, 4, 0, 0, 0, 5, 0, 0, 0, 6, 0, 0, 0, 7, 0, 0, 0, 8, 0, 0, 0, 9, 0, 0, 0, 10, 0, 0,
    0, 11, 0, 0, 0, 12, 0, 0, 0, 13, 0, 0, 0, 14, 0, 0, 0, 15, 0, 0, 0, 16, 0, 0, 0, 17, 0, 0, 0,
    18, 0, 0, 0, 19, 0, 0, 0, 20, 0, 0, 0, 21, 0, 0, 0, 22, 0, 0, 0, 24, 0, 0, 0, 25, 0, 0, 0, 26,
    0, 0, 0, 27, 0, 0, 0, 28, 0, 0, 0, 29, 0, 0, 0, 30, 0, 0, 0, 2, 0, 0, 0, 1, 0, 0, 0, 6, 0, 0,
    0, 1, 0, 0, 0, 7, 0, 0, 0, 1, 0, 0, 0, 8, 0, 0, 0, 1, 0, 0, 0, 10, 0, 0, 0, 1, 0, 0, 0, 11, 0,
    0, 0, 4, 0, 0, 0, 2, 0, 0, 0, 3, 0, 0, 0, 4, 0, 0, 0, 5, 0, 0, 0, 1, 0, 0, 0, 9, 0, 0, 0, 0, 0,
    0, 0,
];

/// The same area after its variables were changed.
const AREA_CHANGED: [u8; 1198] = [
    71, 73, 84, 32, 86, 51, 46, 50, 56, 0, 0, 0, 13, 0, 0, 0, 212, 0, 0, 0, 36, 0, 0, 0, 132, 2, 0,
    0, 14, 0, 0, 0, 100, 3, 0, 0, 110, 0, 0, 0, 210, 3, 0, 0, 136, 0, 0, 0, 90, 4, 0, 0, 84, 0, 0,
    0, 255, 255, 255, 255, 0, 0, 0, 0, 6, 0, 0, 0, 4, 0, 0, 0, 24, 0, 0, 0, 3, 0, 0, 0, 0, 0, 0, 0,
    36, 0, 0, 0, 3, 0, 0, 0, 0, 0, 0, 0, 48, 0, 0, 0, 3, 0, 0, 0, 0, 0, 0, 0, 60, 0, 0, 0, 3, 0, 0,
    0, 4, 0, 0, 0, 72, 0, 0, 0, 3, 0, 0, 0, 0, 0, 0, 0, 84, 0, 0, 0, 3, 0, 0, 0, 0, 0, 0, 0, 96, 0,
    0, 0, 3, 0, 0, 0, 5, 0, 0, 0, 27, 0, 0, 0, 1, 0, 0, 0, 8, 0, 0, 0, 108, 0, 0, 0, 2, 0, 0, 0, 0,
    0, 0, 0, 116, 0, 0, 0, 3, 0, 0, 0, 9, 0, 0, 0, 128, 0, 0, 0, 2, 0, 0, 0, 1, 0, 0, 0, 35, 0, 0,
    0, 1, 0, 0, 0, 15, 0, 0, 0, 0, 0, 0, 0, 0, 0, 0, 0, 10, 0, 0, 0, 1, 0, 0, 0, 0, 0, 0, 0, 15, 0,
    0, 0, 2, 0, 0, 0, 12, 0, 0, 0, 15, 0, 0, 0, 3, 0, 0, 0, 20, 0, 0, 0, 15, 0, 0, 0, 4, 0, 0, 0,
    28, 0, 0, 0, 15, 0, 0, 0, 5, 0, 0, 0, 36, 0, 0, 0, 10, 0, 0, 0, 6, 0, 0, 0, 8, 0, 0, 0, 11, 0,
    0, 0, 7, 0, 0, 0, 17, 0, 0, 0, 15, 0, 0, 0, 8, 0, 0, 0, 44, 0, 0, 0, 10, 0, 0, 0, 9, 0, 0, 0,
    26, 0, 0, 0, 4, 0, 0, 0, 10, 0, 0, 0, 1, 0, 0, 0, 5, 0, 0, 0, 11, 0, 0, 0, 249, 255, 255, 255,
    10, 0, 0, 0, 9, 0, 0, 0, 31, 0, 0, 0, 4, 0, 0, 0, 10, 0, 0, 0, 2, 0, 0, 0, 8, 0, 0, 0, 11, 0,
    0, 0, 0, 0, 192, 63, 10, 0, 0, 0, 9, 0, 0, 0, 36, 0, 0, 0, 4, 0, 0, 0, 10, 0, 0, 0, 3, 0, 0, 0,
    10, 0, 0, 0, 11, 0, 0, 0, 41, 0, 0, 0, 11, 0, 0, 0, 6, 0, 0, 0, 48, 0, 0, 0, 11, 0, 0, 0, 12,
    0, 0, 0, 52, 0, 0, 0, 15, 0, 0, 0, 8, 0, 0, 0, 60, 0, 0, 0, 10, 0, 0, 0, 9, 0, 0, 0, 62, 0, 0,
    0, 4, 0, 0, 0, 10, 0, 0, 0, 1, 0, 0, 0, 5, 0, 0, 0, 11, 0, 0, 0, 1, 0, 0, 0, 10, 0, 0, 0, 9, 0,
    0, 0, 67, 0, 0, 0, 4, 0, 0, 0, 10, 0, 0, 0, 3, 0, 0, 0, 10, 0, 0, 0, 11, 0, 0, 0, 72, 0, 0, 0,
    10, 0, 0, 0, 6, 0, 0, 0, 77, 0, 0, 0, 10, 0, 0, 0, 6, 0, 0, 0, 85, 0, 0, 0, 15, 0, 0, 0, 8, 0,
    0, 0, 72, 0, 0, 0, 10, 0, 0, 0, 9, 0, 0, 0, 93, 0, 0, 0, 4, 0, 0, 0, 10, 0, 0, 0, 1, 0, 0, 0,
    5, 0, 0, 0, 11, 0, 0, 0, 0, 0, 0, 0, 10, 0, 0, 0, 6, 0, 0, 0, 101, 0, 0, 0, 15, 0, 0, 0, 8, 0,
    0, 0, 80, 0, 0, 0, 5, 0, 0, 0, 13, 0, 0, 0, 3, 0, 0, 0, 67, 114, 101, 97, 116, 117, 114, 101,
    32, 76, 105, 115, 116, 0, 0, 0, 65, 114, 101, 97, 78, 97, 109, 101, 0, 0, 0, 0, 0, 0, 0, 0, 87,
    97, 121, 112, 111, 105, 110, 116, 76, 105, 115, 116, 0, 0, 0, 0, 68, 111, 111, 114, 32, 76,
    105, 115, 116, 0, 0, 0, 0, 0, 0, 0, 80, 108, 97, 99, 101, 97, 98, 108, 101, 32, 76, 105, 115,
    116, 0, 0, 84, 114, 105, 103, 103, 101, 114, 76, 105, 115, 116, 0, 0, 0, 0, 0, 84, 97, 103, 0,
    0, 0, 0, 0, 0, 0, 0, 0, 0, 0, 0, 0, 83, 99, 114, 105, 112, 116, 72, 101, 97, 114, 116, 98, 101,
    97, 116, 0, 86, 97, 114, 84, 97, 98, 108, 101, 0, 0, 0, 0, 0, 0, 0, 0, 78, 97, 109, 101, 0, 0,
    0, 0, 0, 0, 0, 0, 0, 0, 0, 0, 84, 121, 112, 101, 0, 0, 0, 0, 0, 0, 0, 0, 0, 0, 0, 0, 86, 97,
    108, 117, 101, 0, 0, 0, 0, 0, 0, 0, 0, 0, 0, 0, 79, 110, 68, 101, 97, 116, 104, 0, 0, 0, 0, 0,
    0, 0, 0, 0, 88, 0, 0, 0, 0, 0, 0, 0, 0, 0, 0, 0, 0, 0, 0, 0, 4, 0, 0, 0, 89, 97, 114, 100, 5,
    0, 0, 0, 103, 117, 97, 114, 100, 8, 104, 98, 95, 103, 117, 97, 114, 100, 1, 0, 0, 0, 110, 1, 0,
    0, 0, 102, 1, 0, 0, 0, 115, 3, 0, 0, 0, 110, 101, 119, 3, 114, 97, 116, 9, 114, 97, 116, 95,
    100, 101, 97, 116, 104, 1, 0, 0, 0, 107, 1, 0, 0, 0, 116, 1, 0, 0, 0, 120, 4, 0, 0, 0, 112,
    111, 115, 116, 4, 0, 0, 0, 103, 97, 116, 101, 4, 0, 0, 0, 111, 112, 101, 110, 5, 0, 0, 0, 103,
    117, 97, 114, 100, 0, 0, 0, 0, 1, 0, 0, 0, 2, 0, 0, 0, 3, 0, 0, 0, 4, 0, 0, 0, 5, 0, 0, 0, 6,
    0, 0, 0, 7, 0, 0, 0, 8, 0, 0, 0, 9, 0, 0, 0, 10, 0, 0, 0, 11, 0, 0, 0, 12, 0, 0, 0, 13, 0, 0,
    0, 14, 0, 0, 0, 15, 0, 0, 0, 16, 0, 0, 0, 17, 0, 0, 0, 18, 0, 0, 0, 19, 0, 0, 0, 20, 0, 0, 0,
    21, 0, 0, 0, 22, 0, 0, 0, 23, 0, 0, 0, 24, 0, 0, 0, 25, 0, 0, 0, 26, 0, 0, 0, 28, 0, 0, 0, 29,
    0, 0, 0, 30, 0, 0, 0, 31, 0, 0, 0, 32, 0, 0, 0, 33, 0, 0, 0, 34, 0, 0, 0, 2, 0, 0, 0, 1, 0, 0,
    0, 5, 0, 0, 0, 1, 0, 0, 0, 8, 0, 0, 0, 1, 0, 0, 0, 9, 0, 0, 0, 1, 0, 0, 0, 11, 0, 0, 0, 1, 0,
    0, 0, 12, 0, 0, 0, 3, 0, 0, 0, 2, 0, 0, 0, 3, 0, 0, 0, 4, 0, 0, 0, 2, 0, 0, 0, 6, 0, 0, 0, 7,
    0, 0, 0, 1, 0, 0, 0, 10, 0, 0, 0, 0, 0, 0, 0,
];

/// The area of a file, or the place of its first fault; 9 0 0 where it has no tree.
pub fn area_of(alloc: Global, bytes: &[u8]) -> Result<Area, (u8, u32, u32)> {
    if bytes.len() > FILE_BYTES {
        return Err((9, 0, 0));
    }
    match View::open(bytes) {
        Err(_) => Err((9, 0, 0)),
        Ok(view) => match read(alloc, &view) {
            Err(_) => Err((9, 0, 0)),
            Ok(tree) => match Area::of(alloc, tree) {
                Ok(area) => Ok(area),
                Err(
                    AreaFault::Shape {
                        list,
                        member,
                        entry,
                    },
                ) => Err((list, member, entry)),
                Err(AreaFault::NoMemory) => Err((9, 0, 0)),
            },
        },
    }
}

/// The file of an area.
fn file_of(alloc: Global, area: Area) -> Option<Vec<u8>> {
    match into_tree(alloc, area) {
        Err(_) => None,
        Ok(tree) => write(alloc, &tree).ok(),
    }
}

/// Is this the number of an object?
fn has(area: &Area, o: u32) -> bool
    ensures { IsTrue result → (1 ≤ o) × (o ≤ length area.now.objects) }
{
    1 <= o && o <= area.count()
}

fn tag_of<'a>(area: &'a Area, o: u32) -> Option<&'a [u8]> {
    if has(area, o) {
        Some(area.tag(o))
    } else {
        None
    }
}

/// The script under a label, if there is such an object.
pub fn script_of<'a>(area: &'a Area, o: u32, label: &[u8]) -> Option<&'a [u8]> {
    if has(area, o) {
        Some(area.script_of(o, label))
    } else {
        None
    }
}

/// Whether an object has this int, and this text, under a name.
fn holds(area: &Area, o: u32, name: &[u8], int: i32, text: &[u8]) -> bool {
    has(area, o) && area.get_int(o, name) == int && area.get_text(o, name) == text
}

/// How many variables an object has.
fn count_of(area: &Area, o: u32) -> Option<usize> {
    if has(area, o) {
        Some(area.vars(o).len())
    } else {
        None
    }
}

/// Whether the first variable of an object is this int.
fn begins_with(area: &Area, o: u32, name: &[u8], int: i32) -> bool {
    if !has(area, o) {
        return false;
    }
    match area.vars(o).get(0) {
        Some(Var::Int(first, n)) => first == name && n == int,
        _ => false,
    }
}

/// Gives an int of an object a value; false where memory ran out or there is no such object.
fn set_int(area: &mut Area, o: u32, name: &[u8], n: i32) -> bool {
    has(area, o) && area.set_int(o, name, n).is_ok()
}

fn set_text(alloc: Global, area: &mut Area, o: u32, name: &[u8], text: &[u8]) -> bool {
    match SharedBytes::of_slice(alloc, text) {
        Ok(text) => has(area, o) && area.set_text(o, name, text).is_ok(),
        Err(NoMemory) => false,
    }
}

fn delete_int(area: &mut Area, o: u32, name: &[u8]) -> bool {
    if has(area, o) {
        area.delete_int(o, name);
        return true;
    }
    false
}

fn delete_text(area: &mut Area, o: u32, name: &[u8]) -> bool {
    if has(area, o) {
        area.delete_text(o, name);
        return true;
    }
    false
}

fn put_vars(area: &mut Area, o: u32, vars: Vars) -> bool {
    if has(area, o) {
        area.put_vars(o, vars);
        return true;
    }
    drop(vars);
    false
}

#[test]
fn objects_are_those_of_the_five_lists(rt: HostRuntime) {
    let area = area_of(rt.alloc(), AREA.as_slice())
        .ok()
        .expect(&rt, "an area");
    let tags: [(u32, &[u8]); 6] = [
        (1, b"guard"),
        (2, b"rat"),
        (3, b"gate"),
        (4, b"guard"),
        (5, b""),
        (6, b"post"),
    ];
    for (o, tag) in tags.as_slice() {
        assert!(rt; tag_of(&area, *o) == Some(*tag));
    }
    assert_eq!(rt; area.count(), 6);
}

#[test]
fn objects_are_found_by_tag_and_number(rt: HostRuntime) {
    let area = area_of(rt.alloc(), AREA.as_slice())
        .ok()
        .expect(&rt, "an area");
    assert_eq!(rt; area.by_tag(b"guard", 0), 1);
    assert_eq!(rt; area.by_tag(b"guard", 1), 4);
    assert_eq!(rt; area.by_tag(b"guard", 2), 0);
    assert_eq!(rt; area.by_tag(b"guard", -1), 0);
    assert_eq!(rt; area.by_tag(b"", 0), 5);
    assert!(rt; script_of(&area, 1, b"ScriptHeartbeat") == Some(b"hb_guard".as_slice()));
    assert!(rt; script_of(&area, 2, b"Tag") == Some(b"rat".as_slice()));
    assert!(rt; script_of(&area, 1, b"OnDeath") == Some(b"".as_slice()));
}

#[test]
fn ints_and_strings_of_one_name_are_apart(rt: HostRuntime) {
    let mut area = area_of(rt.alloc(), AREA.as_slice())
        .ok()
        .expect(&rt, "an area");
    assert!(rt; holds(&area, 1, b"s", 9, b"old"));
    assert!(rt; holds(&area, 1, b"f", 0, b""));
    assert!(rt; delete_int(&mut area, 1, b"s"));
    assert!(rt; holds(&area, 1, b"s", 0, b"old"));
    assert!(rt; count_of(&area, 1) == Some(2));
    assert!(rt; begins_with(&area, 1, b"n", 5));
}

/// Whether a file's area, which nobody changes, goes back to this file.
fn goes_back(alloc: Global, bytes: &[u8]) -> bool {
    match area_of(alloc, bytes) {
        Err(_) => false,
        Ok(area) => match file_of(alloc, area) {
            None => false,
            Some(file) => file.as_slice() == bytes,
        },
    }
}

#[test]
fn what_nobody_changed_goes_back_as_it_was(rt: HostRuntime) {
    assert!(rt; goes_back(rt.alloc(), AREA.as_slice()));
    assert!(rt; goes_back(rt.alloc(), BASE.as_slice()));
    assert_eq!(rt; Area::empty(rt.alloc()).count(), 0);
}

/// Changes variables of the two creatures; false where memory ran out.
fn change(alloc: Global, area: &mut Area) -> bool {
    set_int(area, 1, b"n", -7)
        && delete_int(area, 1, b"s")
        && delete_text(area, 1, b"s")
        && set_text(alloc, area, 1, b"s", b"new")
        && set_int(area, 2, b"k", 1)
        && set_text(alloc, area, 2, b"t", b"x")
}

#[test]
fn changed_variables_go_back_in_their_places(rt: HostRuntime) {
    let mut area = area_of(rt.alloc(), AREA.as_slice())
        .ok()
        .expect(&rt, "an area");
    let changed = change(rt.alloc(), &mut area);
    let file = file_of(rt.alloc(), area).expect(&rt, "a file");
    assert!(rt; changed);
    assert_eq!(rt; file.as_slice(), AREA_CHANGED.as_slice());
}

/// A string that is long enough to be shared.
const LONG: &[u8] = &[b'x'; 200];

/// Whether an object of this number has the long string.
fn has_long(area: &Area, o: u32) -> bool {
    o >= 1 && o <= area.count() && area.get_text(o, b"s") == LONG
}

/// The area that is left where the long string takes the place of one and comes last.
fn with_long(alloc: Global) -> Option<Area> {
    let mut area = area_of(alloc, AREA.as_slice()).ok()?;
    let first = set_text(alloc, &mut area, 1, b"s", LONG);
    let second = set_text(alloc, &mut area, 2, b"s", LONG);
    let file = file_of(alloc, area)?;
    if first && second {
        area_of(alloc, file.as_slice()).ok()
    } else {
        None
    }
}

#[test]
fn a_long_string_goes_back_for_each_that_has_it(rt: HostRuntime) {
    let area = with_long(rt.alloc()).expect(&rt, "an area");
    assert!(rt; has_long(&area, 1));
    assert!(rt; has_long(&area, 2));
}

/// The variables `s`, a text and an int; nothing where memory ran out.
fn two_vars(alloc: Global) -> Option<Vars> {
    let mut vars = Vars::new(alloc);
    match vars.push(Var::Text(b"s", b"old")) {
        Err(_) => None,
        Ok(()) => match vars.push(Var::Int(b"s", 9)) {
            Err(_) => None,
            Ok(()) => Some(vars),
        },
    }
}

/// The file of the changed area once its creatures have other variables.
fn other_file(alloc: Global) -> Option<Vec<u8>> {
    let vars = two_vars(alloc)?;
    match area_of(alloc, AREA_CHANGED.as_slice()) {
        Err(_) => {
            drop(vars);
            None
        }
        Ok(mut area) => {
            let put = put_vars(&mut area, 1, vars) && put_vars(&mut area, 2, Vars::new(alloc));
            let file = file_of(alloc, area);
            if put { file } else { None }
        }
    }
}

#[test]
fn an_object_is_given_other_variables(rt: HostRuntime) {
    let file = other_file(rt.alloc()).expect(&rt, "a file");
    let area = area_of(rt.alloc(), &file).ok().expect(&rt, "an area");
    assert!(rt; holds(&area, 1, b"s", 9, b"old"));
    assert!(rt; holds(&area, 1, b"n", 0, b""));
    assert!(rt; count_of(&area, 2) == Some(0));
}

/// Whether the area's file so changed is refused at this place.
fn refused_at(alloc: Global, changes: &[(usize, u32)], place: (u8, u32, u32)) -> bool {
    match changed_file(alloc, AREA.as_slice(), changes) {
        Err(_) => false,
        Ok(bytes) => match area_of(alloc, &bytes) {
            Err(found) => found == place,
            Ok(_) => false,
        },
    }
}

#[test]
fn a_broken_area_is_refused_at_its_first_place(rt: HostRuntime) {
    let cases: [(&[(usize, u32)], (u8, u32, u32)); 9] = [
        (&[(248, 4)], (2, 0, 0)),
        (&[(272, 5)], (0, 1, 0)),
        (&[(296, 4)], (0, 1, 0)),
        (&[(356, 5)], (0, 1, 2)),
        (&[(332, 4)], (0, 1, 1)),
        (&[(404, 11)], (0, 1, 3)),
        (&[(424, 26)], (0, 1, 4)),
        (&[(524, 5)], (1, 1, 1)),
        (&[(488, 5), (452, 5)], (0, 2, 0)),
    ];
    for (changes, place) in cases.as_slice() {
        assert!(rt; refused_at(rt.alloc(), *changes, *place));
    }
}

#[test]
fn an_entry_of_another_type_is_not_looked_at(rt: HostRuntime) {
    let bytes = changed_file(rt.alloc(), AREA.as_slice(), &[(344, 5)]).expect(&rt, "memory");
    assert!(rt; area_of(rt.alloc(), &bytes).is_ok());
}
