//! How much memory a tree may take.

ghost use Rattle.std.specs.Prelude.{◌≡◌, ◌<◌, ◌+◌, OnOk, OnErr};
ghost use Rattle.gff_tree.specs.Tree.{plain_leaf};
ghost use Rattle.gff_read.specs.Charge.{IsScalar, leaf_charge, parts_charge, text_charge};

use gff_tree::{Leaf, Parts};
use nwq_value::NoMemory;

/// How many bytes a tree may be charged. Fields and lists of a file may be shared, so a small file
/// can stand for a tree that no memory holds; the reader gives up past this size.
pub const TREE_BYTES: u64 = 1 << 28;

/// What is charged for a struct.
pub const STRUCT_BYTES: u64 = 64;

/// What is charged for a field.
pub const FIELD_BYTES: u64 = 96;

/// What is charged for the number of a struct in a list.
pub const WORD_BYTES: u64 = 8;

/// What is charged for a text of the field data, beside its bytes.
const TEXT_BYTES: u64 = 32;

/// What is charged for a text of a localized string, beside that.
const PART_BYTES: u64 = 64;

/// Takes bytes from what is left.
pub fn charge(left: &mut u64, bytes: u64) -> Result<(), NoMemory>
    ensures taken { OnOk result (left.old ≡ left.new + bytes) }
    ensures passed { OnErr result (left.old < bytes) }
{
    match left.checked_sub(bytes) {
        Some(rest) => {
            *left = rest;
            Ok(())
        }
        None => Err(NoMemory),
    }
}

fn charge_text(left: &mut u64, text: &[u8]) -> Result<(), NoMemory>
    ensures taken { OnOk result (left.old ≡ left.new + text_charge text.now) }
    ensures passed { OnErr result (left.old < text_charge text.now) }
{
    charge(left, TEXT_BYTES)?;
    charge(left, text.len() as u64)
}

fn charge_parts(left: &mut u64, parts: &Parts) -> Result<(), NoMemory>
    ensures taken { OnOk result (left.old ≡ left.new + parts_charge parts.now) }
    ensures passed { OnErr result (left.old < parts_charge parts.now) }
{
    for part in parts.as_slice() {
        charge(left, PART_BYTES)?;
        charge_text(left, part.text.as_slice())?;
    }
    Ok(())
}

/// Takes what is charged for the field data of a value.
pub fn charge_data(left: &mut u64, value: &Leaf) -> Result<(), NoMemory>
    requires { IsScalar (plain_leaf value.now) }
    ensures taken { OnOk result (left.old ≡ left.new + leaf_charge (plain_leaf value.now)) }
    ensures passed { OnErr result (left.old < leaf_charge (plain_leaf value.now)) }
{
    match value {
        Leaf::Str(text) => charge_text(left, text.as_slice()),
        Leaf::Res(text) | Leaf::Void(text) => charge_text(left, text.as_slice()),
        Leaf::Loc(loc) => charge_parts(left, &loc.parts),
        _ => Ok(()),
    }
}
