//! Laws about the definitions, each the contract of a function that does nothing.
ghost use Rattle.source_meaning.specs.Laws.{EntriesSpendSteps, FieldsAreParts, MembersAreFields};

/// An entry is out of steps only where none is left; and where it ends, it ends equally with more
/// steps, which are left besides.
pub fn entries_spend_steps()
    ensures spend { EntriesSpendSteps }
{}

/// In the value of a struct the parts behind those of the fields before one are that field's value,
/// when they are read and when they are written. So a typed member is a field: it stands as many
/// cells behind the first one as the fields before it have.
pub fn fields_are_parts()
    ensures are { FieldsAreParts }
    ensures members { MembersAreFields }
{}
