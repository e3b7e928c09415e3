ghost use Rattle.std.specs.Prelude.{◌≡◌};
ghost use Rattle.std.specs.Int.{cast_signed, w32};
ghost use Rattle.nss_tree.specs.declared.constants.Constant.TheVariants as constant;

use nwq_value::Text;

/// A type as it is written.
#[derive(Drop)]
pub enum TypeName {
    Void,
    Int,
    Float,
    String,
    Object,
    Vector,
    Location,
    Effect,
    Event,
    Talent,
    ItemProperty,
    Action,
    /// `struct` and a name
    Struct(Text),
}

/// A constant: the value of a const line, of a parameter's default or of a case.
///
/// The token is that of the literal or word, also where a `-` stands before it. An int keeps the
/// literal's value and whether it is negated. A float keeps no value, since no type of a float is
/// ever accepted.
#[derive(Drop)]
pub enum Constant {
    Int {
        token: u32,
        negated: bool,
        value: i32,
    },
    Float {
        token: u32,
        negated: bool,
    },
    Text {
        token: u32,
        value: Text,
    },
    Name {
        token: u32,
        name: Text,
    },
    ObjectSelf {
        token: u32,
    },
    ObjectInvalid {
        token: u32,
    },
}

impl Constant {
    /// An int, whose number is taken as a signed one of 32 bits; `negated` where a `-` stands
    /// before it.
    pub fn int(token: u32, negated: bool, value: u32) -> Constant
        ensures made { result ≡ constant.Int token negated (cast_signed w32 value) }
    {
        Constant::Int {
            token,
            negated,
            value: value.cast_signed(),
        }
    }
}
