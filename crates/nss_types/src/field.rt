//! Structs, with their fields.

ghost use Rattle.std.specs.Prelude.{◌≡◌, ◌≤◌, ◌&&◌, not, IfOk, OnOk, is_some};
ghost use Rattle.std.specs.Option.{option_map};
ghost use Rattle.nwq_value.specs.Limits.{struct_cell_limit};
ghost use Rattle.typing_rules.specs.declared.fault.FaultKind.TheVariants as kind;
ghost use Rattle.typing_rules.specs.Nodes.{at, fine, first_kind, kept, no_row, row, two};
ghost use Rattle.typing_rules.specs.Rules.{is_among, when};
ghost use Rattle.typing_rules.specs.Sight.{cells_if};
ghost use Rattle.typing_rules.specs.Verdicts.{after_fields, after_line, field_added, field_verdict};
ghost use Rattle.typing_rules.specs.Verdicts.{fields_faults, fields_fine, line_faults, line_fine};
ghost use Rattle.typing_rules.specs.Verdicts.{lines_faults, lines_fine, members_of_line};
ghost use Rattle.typing_rules.specs.Verdicts.{line_of, members_of_lines, struct_members};
ghost use Rattle.nss_scopes.specs.Entries.{members_of};
ghost use Rattle.nss_statements.specs.Faults.{fault_unless};
ghost use Rattle.nss_types.specs.Fields.{fields_of};

use nss_expressions::line::line_type;
use nss_expressions::note::note;
use nss_expressions::row::and_last;
use nss_scopes::sight::{counted, crosses};
use nss_scopes::{Member, Members, Places, Structs};
use nss_tree::{FieldLine, Identifier};
use nwq_value::{Items, NoMemory, Ty};
use std::alloc::Global;
use typing_rules::{Fault, FaultKind, TypedLine};

/// How many cells a struct has at most.
const STRUCT_CELLS: u32 = 64;

/// The names and the cells of a struct's fields so far.
#[derive(Drop)]
pub struct Fields {
    pub names: Places,
    pub count: u32,
}

/// Whether a field of this name stood before.
fn is_among(names: &Places, name: &[u8]) -> bool
    ensures { result ≡ is_among name.now names.now }
{
    names.first(name).is_some()
}

fn cells_if(structs: &Structs, ty: Option<Ty>) -> u32
    ensures { result ≡ cells_if structs.now ty }
{
    match ty {
        Some(ty) => structs.cells(ty),
        None => 0,
    }
}

/// The fault of a field, if it has one.
fn field_fault(is_among: bool, crosses: bool) -> Option<FaultKind>
    ensures { result ≡ fault_unless (not is_among && not crosses)
        (first_kind (row kind.Redeclared is_among (row kind.Cells crosses no_row))) }
{
    if is_among {
        Some(FaultKind::Redeclared)
    } else if crosses {
        Some(FaultKind::Cells)
    } else {
        None
    }
}

/// Whether a field of this type is typed.
fn judge_field(
    least: &mut Option<Fault>,
    structs: &Structs,
    fields: &Fields,
    ty: Option<Ty>,
    x: &Identifier,
) -> bool
    ensures value { result
        ≡ is_some (fine (field_verdict structs.now (fields_of fields.now) ty x.now)) }
    ensures least { least.new ≡ kept least.old
        (at x.now.token (field_verdict structs.now (fields_of fields.now) ty x.now)) }
{
    match ty {
        None => false,
        Some(ty) => {
            let stood = is_among(&fields.names, x.name.bytes());
            let count = counted(STRUCT_CELLS, fields.count, structs.cells(ty));
            let over = crosses(STRUCT_CELLS, fields.count, count);
            match field_fault(stood, over) {
                None => true,
                Some(kind) => {
                    note(least, kind, x.token);
                    false
                }
            }
        }
    }
}

/// A field by its name, if it is typed.
fn field_if(alloc: Global, fits: bool, x: &Identifier) -> Result<Option<Identifier>, NoMemory>
    ensures { IfOk result (λ r. r ≡ when fits x.now) }
{
    if !fits {
        return Ok(None);
    }
    let name = x.name.copy(alloc)?;
    Ok(Some(Identifier {
        token: x.token,
        name,
    }))
}

/// A field; it is seen behind it.
fn field(
    alloc: Global,
    least: &mut Option<Fault>,
    structs: &Structs,
    fields: &mut Fields,
    ty: Option<Ty>,
    x: &Identifier,
) -> Result<Option<Identifier>, NoMemory>
    ensures value { IfOk result
        (λ r. r ≡ fine (field_verdict structs.now (fields_of fields.old) ty x.now)) }
    ensures least { OnOk result (least.new ≡ kept least.old
        (at x.now.token (field_verdict structs.now (fields_of fields.old) ty x.now))) }
    ensures fields { OnOk result (fields_of fields.new
        ≡ field_added structs.now (fields_of fields.old) ty x.now) }
{
    let fits = judge_field(least, structs, fields, ty, x);
    let count = counted(STRUCT_CELLS, fields.count, cells_if(structs, ty));
    let name = x.name.copy(alloc)?;
    fields.names.push(name)?;
    fields.count = count;
    field_if(alloc, fits, x)
}

/// The fields of a line of this type.
fn fields_of_line(
    alloc: Global,
    least: &mut Option<Fault>,
    structs: &Structs,
    fields: &mut Fields,
    ty: Option<Ty>,
    xs: &[Identifier],
) -> Result<Option<Items<Identifier>>, NoMemory>
    ensures value { IfOk result
        (λ r. r ≡ fields_fine structs.now (fields_of fields.old) ty xs.now) }
    ensures least { OnOk result (least.new ≡ kept least.old
        (fields_faults structs.now (fields_of fields.old) ty xs.now)) }
    ensures fields { OnOk result (fields_of fields.new
        ≡ after_fields structs.now (fields_of fields.old) ty xs.now) }
{
    let mut all = Some(Items::new(alloc));
    for x in xs {
        let one = field(alloc, least, structs, fields, ty, x)?;
        all = and_last(all, one)?;
    }
    Ok(all)
}

fn made_line(token: u32, ty: Option<Ty>, names: Option<Items<Identifier>>) -> Option<TypedLine>
    ensures { result ≡ option_map (line_of token) (two ty names) }
{
    match ty {
        Some(ty) => match names {
            Some(names) => Some(FieldLine { token, ty, names }),
            None => None,
        },
        None => {
            drop(names);
            None
        }
    }
}

/// A line of fields.
fn line(
    alloc: Global,
    least: &mut Option<Fault>,
    structs: &Structs,
    fields: &mut Fields,
    l: &FieldLine,
) -> Result<Option<TypedLine>, NoMemory>
    ensures value { IfOk result (λ r. r ≡ line_fine structs.now (fields_of fields.old) l.now) }
    ensures least { OnOk result (least.new ≡ kept least.old
        (line_faults structs.now (fields_of fields.old) l.now)) }
    ensures fields { OnOk result (fields_of fields.new
        ≡ after_line structs.now (fields_of fields.old) l.now) }
{
    let ty = line_type(least, l.token, structs, &l.ty);
    let names = fields_of_line(alloc, least, structs, fields, ty, l.names.as_slice())?;
    Ok(made_line(l.token, ty, names))
}

/// The lines of a struct.
pub fn lines(
    alloc: Global,
    least: &mut Option<Fault>,
    structs: &Structs,
    fields: &mut Fields,
    ls: &[FieldLine],
) -> Result<Option<Items<TypedLine>>, NoMemory>
    ensures value { IfOk result (λ r. r ≡ lines_fine structs.now (fields_of fields.old) ls.now) }
    ensures least { OnOk result (least.new ≡ kept least.old
        (lines_faults structs.now (fields_of fields.old) ls.now)) }
{
    let mut all = Some(Items::new(alloc));
    for l in ls {
        let one = line(alloc, least, structs, fields, l)?;
        all = and_last(all, one)?;
    }
    Ok(all)
}

/// Where the fields of a line stand in a value of their struct, behind the ones before.
fn line_members(
    alloc: Global,
    structs: &Structs,
    members: &mut Members,
    ty: Ty,
    xs: &[Identifier],
) -> Result<(), NoMemory>
    requires few { (members_of_line structs.now ty (members_of members.old) xs.now).cells
        ≤ struct_cell_limit }
    ensures { OnOk result (members_of members.new
        ≡ members_of_line structs.now ty (members_of members.old) xs.now) }
{
    for x in xs {
        let cells = members.cells + structs.cells(ty);
        let called = x.name.copy(alloc)?;
        let before = members.cells;
        members.fields.push(Member { called, ty, before })?;
        members.cells = cells;
    }
    Ok(())
}

fn lines_members(
    alloc: Global,
    structs: &Structs,
    members: &mut Members,
    ls: &[TypedLine],
) -> Result<(), NoMemory>
    requires few { (members_of_lines structs.now (members_of members.old) ls.now).cells
        ≤ struct_cell_limit }
    ensures { OnOk result (members_of members.new
        ≡ members_of_lines structs.now (members_of members.old) ls.now) }
{
    for l in ls {
        line_members(alloc, structs, members, l.ty, l.names.as_slice())?;
    }
    Ok(())
}

/// Where the fields of a struct stand in a value of it.
pub fn struct_members(
    alloc: Global,
    structs: &Structs,
    ls: &[TypedLine],
) -> Result<Members, NoMemory>
    requires few { (struct_members structs.now ls.now).cells ≤ struct_cell_limit }
    ensures members { IfOk result (λ m. members_of m ≡ struct_members structs.now ls.now) }
{
    let mut members = Members {
        fields: Items::new(alloc),
        cells: 0,
    };
    match lines_members(alloc, structs, &mut members, ls) {
        Ok(()) => Ok(members),
        Err(error) => {
            drop(members);
            Err(error)
        }
    }
}
