ghost use Rattle.std.specs.Prelude.{◌≡◌, ◌≤◌, ◌<◌, ◌+◌, ◌*◌, ◌↔◌, length, take, drop, IsTrue, OnOk};
ghost use Rattle.std.specs.Prelude.{IfOk, MatchResult, Some, None, Ok, Err};
ghost use Rattle.gff_bytes.specs.File.{word_at, header_place, row_bytes, start_of, count_of};
ghost use Rattle.gff_bytes.specs.File.{row_place, passes_end, section_fault, has_version};
ghost use Rattle.gff_bytes.specs.File.{open_fault, file_type_of, struct_row, field_row, label_row};
ghost use Rattle.gff_bytes.specs.File.{index_at, list_word, section_word, data_at};
ghost use Rattle.nwq_value.specs.Limits.{file_limit};

use crate::rows::{FieldRow, OpenFault, Part, Range, StructRow};
use byteorder::{ByteOrder, LittleEndian};
use std::marker::Model;

/// How many bytes the header has.
const HEADER_BYTES: usize = 56;

/// The bytes of a GFF V3.2 file whose six sections lie inside it. Contracts see it as those bytes.
#[derive(Drop)]
pub struct View<'a> {
    bytes: &'a [u8],
}

impl<'a> Model for View<'a> {
    ghost use Rattle.std.specs.Prelude.{◌≡◌, ◌≤◌, List, ℕ, length, None};
    ghost use Rattle.gff_bytes.specs.File.{open_fault};
    ghost use Rattle.nwq_value.specs.Limits.{file_limit};

    ghost Value = { List ℕ };

    ghost view = { λ v. v.bytes.now };

    ghost invariant = { λ v. (open_fault v.bytes.now ≡ None) × (length v.bytes.now ≤ file_limit) };
}

/// The little-endian number in the four bytes from `place`.
#[tactic(auto, unfolding(crate::specs::File::word_at))]
fn word(bytes: &[u8], place: usize) -> u32
    requires { place + 4 ≤ length bytes.now }
    ensures { result ≡ word_at bytes.now place }
{
    LittleEndian::read_u32(&bytes[place..])
}

fn header_offset(part: Part) -> usize
    ensures place { result ≡ header_place part }
    ensures bound { result ≤ 48 }
{
    match part {
        Part::Struct => 8,
        Part::Field => 16,
        Part::Label => 24,
        Part::Data => 32,
        Part::Index => 40,
        Part::List => 48,
    }
}

fn bytes_per_row(part: Part) -> usize
    ensures bytes { result ≡ row_bytes part }
    ensures bound { result ≤ 16 }
{
    match part {
        Part::Struct | Part::Field => 12,
        Part::Label => 16,
        Part::Data | Part::Index | Part::List => 1,
    }
}

fn start(bytes: &[u8], part: Part) -> usize
    requires { 56 ≤ length bytes.now }
    ensures place { result ≡ start_of bytes.now part }
    ensures bound { result < 4294967296 }
{
    word(bytes, header_offset(part)) as usize
}

fn count(bytes: &[u8], part: Part) -> u32
    requires { 56 ≤ length bytes.now }
    ensures { result ≡ count_of bytes.now part }
{
    word(bytes, header_offset(part) + 4)
}

fn row(bytes: &[u8], part: Part, n: u32) -> usize
    requires { 56 ≤ length bytes.now }
    ensures { result ≡ row_place bytes.now part n }
{
    start(bytes, part) + bytes_per_row(part) * n as usize
}

fn passes(bytes: &[u8], part: Part) -> bool
    requires { 56 ≤ length bytes.now }
    ensures { result ≡ passes_end bytes.now part }
{
    bytes.len() < row(bytes, part, count(bytes, part))
}

/// The first section that passes the end of the file.
fn passing_section(bytes: &[u8]) -> Option<OpenFault>
    requires { 56 ≤ length bytes.now }
    ensures { result ≡ section_fault bytes.now }
{
    if passes(bytes, Part::Struct) {
        Some(OpenFault::Section(0))
    } else if passes(bytes, Part::Field) {
        Some(OpenFault::Section(1))
    } else if passes(bytes, Part::Label) {
        Some(OpenFault::Section(2))
    } else if passes(bytes, Part::Data) {
        Some(OpenFault::Section(3))
    } else if passes(bytes, Part::Index) {
        Some(OpenFault::Section(4))
    } else if passes(bytes, Part::List) {
        Some(OpenFault::Section(5))
    } else {
        None
    }
}

fn is_version(bytes: &[u8]) -> bool
    requires { 56 ≤ length bytes.now }
    ensures { result ≡ has_version bytes.now }
{
    let version = &bytes[4..8];
    version == b"V3.2".as_slice()
}

#[tactic(auto, unfolding(crate::specs::File::open_fault))]
fn fault(bytes: &[u8]) -> Option<OpenFault>
    ensures { result ≡ open_fault bytes.now }
{
    if bytes.len() < HEADER_BYTES {
        Some(OpenFault::Short)
    } else if is_version(bytes) {
        passing_section(bytes)
    } else {
        Some(OpenFault::Version)
    }
}

impl<'a> View<'a> {
    /// The view of a file, or the first of the header's tests that fails.
    pub fn open(bytes: &'a [u8]) -> Result<View<'a>, OpenFault>
        requires size { length bytes.now ≤ file_limit }
        ensures exact { MatchResult result
            (λ view. (open_fault bytes.now ≡ None) × (view ≡ bytes.now))
            (λ e. open_fault bytes.now ≡ Some e) }
    {
        match fault(bytes) {
            Some(fault) => Err(fault),
            None => Ok(View { bytes }),
        }
    }

    /// The four bytes that name the kind of file.
    #[tactic(auto, using(crate::proofs::FileLemmas::header_fits))]
    pub fn file_type(&self) -> [u8; 4]
        ensures bytes { result ≡ file_type_of self.now }
        ensures is_file { open_fault self.now ≡ None }
    {
        let bytes = self.bytes;
        [bytes[0], bytes[1], bytes[2], bytes[3]]
    }

    /// How many structs the file has.
    #[tactic(auto, using(crate::proofs::FileLemmas::header_fits))]
    pub fn struct_count(&self) -> u32
        ensures count { result ≡ count_of self.now Part.Struct }
    {
        count(self.bytes, Part::Struct)
    }

    #[tactic(auto, unfolding(crate::specs::File::struct_row), using(crate::proofs::FileLemmas::header_fits, crate::proofs::FileLemmas::struct_fits))]
    pub fn struct_at(&self, n: u32) -> Result<StructRow, Range>
        ensures row { result ≡ struct_row self.now n }
        ensures inside { OnOk result (n < count_of self.now Part.Struct) }
    {
        let bytes = self.bytes;
        if n >= count(bytes, Part::Struct) {
            return Err(Range {
                part: Part::Struct,
                at: n,
            });
        }
        let place = row(bytes, Part::Struct, n);
        Ok(StructRow {
            kind: word(bytes, place),
            word: word(bytes, place + 4),
            count: word(bytes, place + 8),
        })
    }

    #[tactic(auto, unfolding(crate::specs::File::field_row), using(crate::proofs::FileLemmas::header_fits, crate::proofs::FileLemmas::field_fits))]
    pub fn field_at(&self, n: u32) -> Result<FieldRow, Range>
        ensures row { result ≡ field_row self.now n }
    {
        let bytes = self.bytes;
        if n >= count(bytes, Part::Field) {
            return Err(Range {
                part: Part::Field,
                at: n,
            });
        }
        let place = row(bytes, Part::Field, n);
        Ok(FieldRow {
            kind: word(bytes, place),
            label: word(bytes, place + 4),
            word: word(bytes, place + 8),
        })
    }

    /// The sixteen bytes of a label, its filling included.
    #[tactic(auto, unfolding(crate::specs::File::label_row), using(crate::proofs::FileLemmas::header_fits, crate::proofs::FileLemmas::label_fits))]
    pub fn label_at(&self, n: u32) -> Result<&'a [u8], Range>
        ensures bytes { MatchResult result (λ part. label_row self.now n ≡ Ok part.now)
            (λ e. label_row self.now n ≡ Err e) }
        ensures length { IfOk result (λ part. length part.now ≡ 16) }
    {
        let bytes = self.bytes;
        if n >= count(bytes, Part::Label) {
            return Err(Range {
                part: Part::Label,
                at: n,
            });
        }
        let place = row(bytes, Part::Label, n);
        Ok(&bytes[place..place + 16])
    }

    /// The number at a byte offset into the field indices.
    #[tactic(auto, unfolding(crate::specs::File::index_at), using(crate::proofs::FileLemmas::header_fits, crate::proofs::FileLemmas::index_fits))]
    pub fn index_at(&self, at: u32) -> Result<u32, Range>
        ensures word { result ≡ index_at self.now at }
        ensures inside { OnOk result (at + 4 ≤ file_limit) }
    {
        let bytes = self.bytes;
        if at as usize + 4 > count(bytes, Part::Index) as usize {
            return Err(Range {
                part: Part::Index,
                at,
            });
        }
        Ok(word(bytes, start(bytes, Part::Index) + at as usize))
    }

    /// The number at a byte offset into the list indices.
    #[tactic(auto, unfolding(crate::specs::File::list_word), using(crate::proofs::FileLemmas::header_fits, crate::proofs::FileLemmas::list_fits))]
    pub fn list_word(&self, at: u32) -> Result<u32, Range>
        ensures word { result ≡ list_word self.now at }
        ensures inside { OnOk result (at + 4 ≤ file_limit) }
    {
        let bytes = self.bytes;
        if at as usize + 4 > count(bytes, Part::List) as usize {
            return Err(Range {
                part: Part::List,
                at,
            });
        }
        Ok(word(bytes, start(bytes, Part::List) + at as usize))
    }

    /// So many bytes from a byte offset into the field data.
    #[tactic(auto, unfolding(crate::specs::File::data_at), using(crate::proofs::FileLemmas::header_fits, crate::proofs::FileLemmas::data_fits))]
    pub fn data_at(&self, at: u32, len: u32) -> Result<&'a [u8], Range>
        ensures bytes { MatchResult result (λ part. data_at self.now at len ≡ Ok part.now)
            (λ e. data_at self.now at len ≡ Err e) }
        ensures inside { OnOk result (at + len ≤ file_limit) }
        ensures length { IfOk result (λ part. length part.now ≡ len) }
    {
        let bytes = self.bytes;
        if at as usize + len as usize > count(bytes, Part::Data) as usize {
            return Err(Range {
                part: Part::Data,
                at,
            });
        }
        let place = start(bytes, Part::Data) + at as usize;
        Ok(&bytes[place..place + len as usize])
    }
}
