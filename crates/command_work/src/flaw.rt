//! What is wrong with a file that is no source text.

ghost use Rattle.std.specs.Prelude.{◌≡◌, ◌++◌, OnOk};
ghost use Rattle.command_work.specs.Flaws.{code_flaw_text, area_flaw_text, part_word, range_text};
ghost use Rattle.command_work.specs.Flaws.{shape_text};

use crate::text::{put_ascii, put_numbered, put_placed};
use gff_bytes::Part;
use nwq_value::NoMemory;

/// Why a file of bytecode, or an assembler text, is refused.
#[derive(Clone, Copy)]
pub enum CodeFlaw {
    /// The file doesn't begin as a file of bytecode.
    Magic,
    /// The length that the file gives isn't its own.
    Length,
    /// No table of shapes fits the file's instructions.
    Unstacked,
    /// The byte at this offset is no opcode.
    Opcode(u32),
    /// The instruction at this offset has a type byte that its opcode doesn't have.
    TypeByte(u32),
    /// The file ends inside the instruction at this offset.
    Short(u32),
    /// The instruction at this offset leads to no beginning of one.
    Target(u32),
    /// The line of this number is no line of an assembler text.
    Line(u64),
    /// The instruction in the line of this number leads to no beginning of one.
    LineTarget(u64),
    /// The file of the text would have so many bytes, more than a file may have.
    Large(u64),
}

/// Why a GFF file, the area in it, a plan, a table or the state of a play is refused.
#[derive(Clone, Copy)]
pub enum AreaFlaw {
    /// The file is too short for a header.
    Short,
    /// The file is of another version.
    Version,
    /// The section of this number, counted from 0, passes the end of the file.
    Section(u8),
    /// The file has nothing at this number, or offset, of the part.
    Range(Part, u32),
    /// The field of this number is of no type.
    Type(u32),
    /// The struct of this number is reached twice.
    Shared(u32),
    /// The struct of this number is too deep.
    Deep(u32),
    /// The field of this number has a label that its struct has already.
    Label(u32),
    /// The tree is no area: lists count from 0, members and entries from 1, and 0 says that the
    /// flaw lies above them.
    Shape { list: u8, member: u32, entry: u32 },
    /// The line of this number is no line of a plan.
    Line(u64),
    /// The file of the tree or state would have so many bytes, more than a file may have.
    Large(u64),
    /// The bytes stop being those of a state at this offset.
    State(u64),
    /// The state breaks the rule of this number, from 1 on.
    Unfit(u8),
}

fn word_of(part: Part) -> &'static str
    ensures { result.now ≡ part_word part }
{
    match part {
        Part::Struct => "struct",
        Part::Field => "field",
        Part::Label => "label",
        Part::Data => "data",
        Part::Index => "index",
        Part::List => "list",
    }
}

/// Appends the words for what is wrong with code.
pub(crate) fn put_code_flaw(out: &mut Vec<u8>, flaw: CodeFlaw) -> Result<(), NoMemory>
    ensures { OnOk result (out.new.items ≡ out.old.items ++ code_flaw_text flaw) }
{
    match flaw {
        CodeFlaw::Magic => put_ascii(out, "magic"),
        CodeFlaw::Length => put_ascii(out, "length"),
        CodeFlaw::Unstacked => put_ascii(out, "unstacked"),
        CodeFlaw::Opcode(at) => put_placed(out, at, " opcode"),
        CodeFlaw::TypeByte(at) => put_placed(out, at, " typebyte"),
        CodeFlaw::Short(at) => put_placed(out, at, " short"),
        CodeFlaw::Target(at) => put_placed(out, at, " target"),
        CodeFlaw::Line(number) => put_numbered(out, "line ", number),
        CodeFlaw::LineTarget(number) => put_numbered(out, "target ", number),
        CodeFlaw::Large(size) => put_numbered(out, "large ", size),
    }
}

fn put_range(out: &mut Vec<u8>, part: Part, at: u32) -> Result<(), NoMemory>
    ensures { OnOk result (out.new.items ≡ out.old.items ++ range_text part at) }
{
    put_ascii(out, "range ")?;
    put_ascii(out, word_of(part))?;
    put_numbered(out, " ", u64::from(at))
}

fn put_shape(out: &mut Vec<u8>, list: u8, member: u32, entry: u32) -> Result<(), NoMemory>
    ensures { OnOk result (out.new.items ≡ out.old.items ++ shape_text list member entry) }
{
    put_numbered(out, "shape ", u64::from(list))?;
    put_numbered(out, " ", u64::from(member))?;
    put_numbered(out, " ", u64::from(entry))
}

/// Appends the words for what is wrong with an area, its file, a plan, a table or a state.
pub(crate) fn put_area_flaw(out: &mut Vec<u8>, flaw: AreaFlaw) -> Result<(), NoMemory>
    ensures { OnOk result (out.new.items ≡ out.old.items ++ area_flaw_text flaw) }
{
    match flaw {
        AreaFlaw::Short => put_ascii(out, "short"),
        AreaFlaw::Version => put_ascii(out, "version"),
        AreaFlaw::Section(number) => put_numbered(out, "section ", u64::from(number)),
        AreaFlaw::Range(part, at) => put_range(out, part, at),
        AreaFlaw::Type(field) => put_numbered(out, "type ", u64::from(field)),
        AreaFlaw::Shared(at) => put_numbered(out, "shared ", u64::from(at)),
        AreaFlaw::Deep(at) => put_numbered(out, "deep ", u64::from(at)),
        AreaFlaw::Label(field) => put_numbered(out, "label ", u64::from(field)),
        AreaFlaw::Shape {
            list,
            member,
            entry,
        } => put_shape(out, list, member, entry),
        AreaFlaw::Line(number) => put_numbered(out, "line ", number),
        AreaFlaw::Large(size) => put_numbered(out, "large ", size),
        AreaFlaw::State(at) => put_numbered(out, "state ", at),
        AreaFlaw::Unfit(rule) => put_numbered(out, "unfit ", u64::from(rule)),
    }
}
