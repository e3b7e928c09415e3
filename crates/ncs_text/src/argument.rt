ghost use Rattle.std.specs.Prelude.{◌≡◌, ◌≤◌, ◌∷◌, [], ◌==◌, if◌then◌else◌, length};
ghost use Rattle.ncs_text.specs.Arguments.{arguments, literal};
ghost use Rattle.ncs_text.specs.declared.argument.Argument.TheVariants.{Short};

/// What stands behind the type byte of an instruction's line, by how its bytes are written.
#[derive(Clone, Copy)]
pub enum Argument {
    /// A number of 32 bits with a sign.
    Signed,
    /// A number of 8 bits.
    Byte,
    /// A number of 16 bits.
    Short,
    /// A number of 32 bits.
    Word,
    /// `@` and the place that a jump leads to.
    Place,
    /// The four bytes of a float, as hexadecimal digits.
    Float,
    /// A quoted string.
    Text,
}

/// The arguments of the instructions with this opcode and type byte.
#[tactic(auto, unfolding(crate::specs::Arguments::arguments))]
pub fn arguments_of(code: u8, kind: u8) -> &'static [Argument]
    ensures arguments { result.now ≡ arguments code kind }
    ensures few { length result.now ≤ 3 }
{
    match code {
        0x01 | 0x03 | 0x26 | 0x27 => &[Argument::Signed, Argument::Short],
        0x04 => literal_of(kind),
        0x05 => &[Argument::Short, Argument::Byte],
        0x0B | 0x0C => run_size_of(kind),
        0x1D | 0x1E | 0x1F | 0x25 => &[Argument::Place],
        0x21 => &[Argument::Short, Argument::Short, Argument::Short],
        0x2C => &[Argument::Word, Argument::Word],
        0x1B | 0x23 | 0x24 | 0x28 | 0x29 => &[Argument::Signed],
        _ => &[],
    }
}

/// What CONST pushes.
fn literal_of(kind: u8) -> &'static [Argument]
    ensures { result.now ≡ literal kind ∷ [] }
{
    match kind {
        0x03 => &[Argument::Signed],
        0x04 => &[Argument::Float],
        0x05 => &[Argument::Text],
        _ => &[Argument::Word],
    }
}

/// The size of a comparison of two runs of cells.
fn run_size_of(kind: u8) -> &'static [Argument]
    ensures { result.now ≡ (if kind == 0x24 then Short ∷ [] else []) }
{
    match kind {
        0x24 => &[Argument::Short],
        _ => &[],
    }
}
