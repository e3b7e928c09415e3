//! The type and the value of what a field holds.

ghost use Rattle.std.specs.Prelude.{◌≡◌, ◌++◌, ◌∷◌, length, codes, OnOk};
ghost use Rattle.std.specs.Fmt.{decimal, signed_decimal};
ghost use Rattle.nwq_text.specs.Escape.{quoted};
ghost use Rattle.gff_tree.specs.Tree.{plain_leaf};
ghost use Rattle.gff_text.specs.Text.{digits, number_digits, leaf_text};

use crate::lines::{put_bytes, put_digits};
use gff_tree::{Leaf, Loc, fields_tell, readings_tell};
use nwq_text::{put_count, put_number, put_quoted};
use nwq_value::NoMemory;

fn put_unsigned(out: &mut Vec<u8>, word: &[u8], n: u64) -> Result<(), NoMemory>
    ensures { OnOk result (out.new.items ≡ out.old.items ++ word.now ++ decimal n) }
{
    put_bytes(out, word)?;
    put_count(out, n)
}

fn put_signed(out: &mut Vec<u8>, word: &[u8], n: i64) -> Result<(), NoMemory>
    ensures { OnOk result (out.new.items ≡ out.old.items ++ word.now ++ signed_decimal n) }
{
    put_bytes(out, word)?;
    put_number(out, n)
}

fn put_string(out: &mut Vec<u8>, word: &[u8], text: &[u8]) -> Result<(), NoMemory>
    ensures { OnOk result (out.new.items ≡ out.old.items ++ word.now ++ quoted text.now) }
{
    put_bytes(out, word)?;
    put_quoted(out, text)
}

fn put_void(out: &mut Vec<u8>, bytes: &[u8]) -> Result<(), NoMemory>
    ensures { OnOk result (out.new.items ≡ out.old.items ++ codes "void " ++ digits bytes.now) }
{
    put_bytes(out, b"void ".as_slice())?;
    put_digits(out, bytes)
}

fn put_float(out: &mut Vec<u8>, mut bits: [u8; 4]) -> Result<(), NoMemory>
    ensures { OnOk result (out.new.items ≡ out.old.items ++ codes "float " ++ number_digits bits) }
{
    bits.reverse();
    put_bytes(out, b"float ".as_slice())?;
    put_digits(out, &bits)
}

fn put_double(out: &mut Vec<u8>, mut bits: [u8; 8]) -> Result<(), NoMemory>
    ensures { OnOk result (out.new.items ≡ out.old.items ++ codes "double " ++ number_digits bits) }
{
    bits.reverse();
    put_bytes(out, b"double ".as_slice())?;
    put_digits(out, &bits)
}

fn put_localized(out: &mut Vec<u8>, loc: &Loc) -> Result<(), NoMemory>
    ensures { OnOk result (out.new.items ≡ out.old.items ++ codes "locstring "
        ++ decimal loc.now.str_ref ++ 32 ∷ decimal (length loc.now.parts)) }
{
    put_bytes(out, b"locstring ".as_slice())?;
    put_count(out, u64::from(loc.str_ref))?;
    out.push(b' ')?;
    put_count(out, loc.parts.len() as u64)
}

pub fn put_leaf(out: &mut Vec<u8>, leaf: &Leaf) -> Result<(), NoMemory>
    ensures { OnOk result (out.new.items ≡ out.old.items ++ leaf_text (plain_leaf leaf.now)) }
{
    fields_tell();
    readings_tell();
    match leaf {
        Leaf::Byte(n) => put_unsigned(out, b"byte ".as_slice(), u64::from(*n)),
        Leaf::Char(n) => put_signed(out, b"char ".as_slice(), i64::from(*n)),
        Leaf::Word(n) => put_unsigned(out, b"word ".as_slice(), u64::from(*n)),
        Leaf::Short(n) => put_signed(out, b"short ".as_slice(), i64::from(*n)),
        Leaf::Dword(n) => put_unsigned(out, b"dword ".as_slice(), u64::from(*n)),
        Leaf::Int(n) => put_signed(out, b"int ".as_slice(), i64::from(*n)),
        Leaf::Dword64(n) => put_unsigned(out, b"dword64 ".as_slice(), *n),
        Leaf::Int64(n) => put_signed(out, b"int64 ".as_slice(), *n),
        Leaf::Float(bits) => put_float(out, *bits),
        Leaf::Double(bits) => put_double(out, *bits),
        Leaf::Str(text) => put_string(out, b"string ".as_slice(), text.as_slice()),
        Leaf::Res(name) => put_string(out, b"resref ".as_slice(), name.as_slice()),
        Leaf::Loc(loc) => put_localized(out, loc),
        Leaf::Void(bytes) => put_void(out, bytes.as_slice()),
        Leaf::Struct(_) => put_bytes(out, b"struct".as_slice()),
        Leaf::List(nodes) => put_unsigned(out, b"list ".as_slice(), nodes.len() as u64),
    }
}
