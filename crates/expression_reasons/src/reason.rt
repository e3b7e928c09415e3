use nwq_value::Ty;

/// Why a node of a unit is refused by the rule of its kind: the types of its parts, and the one
/// that is wanted, the counts of its arguments, or what else the rule asks for.
#[derive(Clone, Copy)]
pub enum Reason {
    /// The operator joins values of these types, and they don't go together.
    Operands {
        left: Ty,
        right: Ty,
    },
    /// The operator is given a value of this type, which is no int.
    Operand {
        ty: Ty,
    },
    /// What is written is no variable and no member of one.
    NoPlace,
    /// A result or a parameter of the routine is of a type that is left out.
    Uncallable,
    /// No function with a body and no routine has the name.
    NoFunction,
    /// So many arguments are given; the function takes from `least` to `most`.
    Arguments {
        given: usize,
        least: usize,
        most: usize,
    },
    /// The call may not stand in a global's first value.
    Barred,
    /// The first argument that its parameter doesn't take, counted from 1: its type, and the
    /// parameter's.
    Argument {
        number: usize,
        given: Ty,
        wanted: Ty,
    },
    /// A value of this type has no such member.
    NoMember {
        of: Ty,
    },
    /// The condition is of this type, which is no int.
    Condition {
        ty: Ty,
    },
    /// A value of this type, or none, is given back by a function with this result.
    Returned {
        given: Option<Ty>,
        wanted: Ty,
    },
    /// The name stands a second time where it may stand once.
    Taken,
    /// The value has one type, and what it is given to the other.
    Value {
        given: Ty,
        wanted: Ty,
    },
    /// The default of a parameter has one type, and the parameter the other.
    Default {
        given: Ty,
        wanted: Ty,
    },
    /// With it there are more cells than there may be.
    Cells,
    /// A case of this value stands before in the switch.
    Again {
        value: i32,
    },
    /// No label may stand here.
    Misplaced,
    /// The case is of this type, which is no int.
    Label {
        ty: Ty,
    },
    /// The parameter has no default, and one before it has.
    NoDefault,
    /// No variable, field or parameter is of this type.
    NoVariable {
        ty: Ty,
    },
    /// No constant is of this type.
    NoConstant {
        ty: Ty,
    },
    /// The type as it is written is left out.
    LeftOut,
    /// No struct has the name.
    NoStruct,
}
