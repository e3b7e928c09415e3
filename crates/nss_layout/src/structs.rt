//! The cells of structs and of types.

ghost use Rattle.std.specs.Prelude.{◌≡◌, ◌++◌, ◌∷◌, [], List, slice_index_or};
ghost use Rattle.std.specs.Prelude.{IfOk, OnOk};
ghost use Rattle.std.specs.List.{flat_map};
ghost use Rattle.typing_rules.specs.Typed as typed;
ghost use Rattle.typing_rules.specs.UnitReading.{typed_item, typed_items};
ghost use Rattle.typing_rules.specs.Cells.{cell_types, cells, line_cells, structs_from};

use nss_tree::Item;
use nwq_value::{Items, NoMemory, Ty};
use std::alloc::Global;
use typing_rules::{TypedItem, TypedLine};

/// The types of the cells of the struct of this number, or none.
pub(crate) fn struct_types(structs: &[Items<Ty>], number: u16) -> &[Ty]
    ensures { result.now ≡ slice_index_or structs.now number [] }
{
    match structs.get(number as usize) {
        Some(types) => types.as_slice(),
        None => &[],
    }
}

/// How many cells a value of the type has.
pub(crate) fn cells_of(structs: &[Items<Ty>], ty: Ty) -> usize
    ensures { result ≡ cells structs.now ty }
{
    match ty {
        Ty::Void => 0,
        Ty::Struct(number) => struct_types(structs, number).len(),
        Ty::Int | Ty::Text | Ty::Object | Ty::Effect | Ty::Event | Ty::Action | Ty::Refused => 1,
    }
}

/// Puts the types of a value's cells last.
fn put_cells(structs: &[Items<Ty>], types: &mut Items<Ty>, ty: Ty) -> Result<(), NoMemory>
    ensures { OnOk result (types.new ≡ types.old ++ cell_types structs.now ty) }
{
    match ty {
        Ty::Void => Ok(()),
        Ty::Struct(number) => types.extend(struct_types(structs, number)),
        Ty::Int | Ty::Text | Ty::Object | Ty::Effect | Ty::Event | Ty::Action | Ty::Refused =>
            types.push(ty),
    }
}

/// Puts the types of the cells of a line's fields last.
fn put_line(structs: &[Items<Ty>], types: &mut Items<Ty>, line: &TypedLine) -> Result<(), NoMemory>
    ensures { OnOk result (types.new ≡ types.old ++ line_cells structs.now line.now) }
{
    for _name in line.names.as_slice() {
        put_cells(structs, types, line.ty)?;
    }
    Ok(())
}

/// The types of the cells of the fields of these lines, in order.
fn fields_cells(
    alloc: Global,
    structs: &[Items<Ty>],
    lines: &[TypedLine],
) -> Result<Items<Ty>, NoMemory>
    ensures { IfOk result (λ types. types ≡ flat_map (line_cells structs.now) lines.now) }
{
    let mut types = Items::new(alloc);
    for line in lines {
        put_line(structs, &mut types, line)?;
    }
    Ok(types)
}

/// The structs among these items, each as the types of its cells.
pub(crate) fn structs_of(alloc: Global, items: &[TypedItem]) -> Result<Vec<Items<Ty>>, NoMemory>
    ensures { IfOk result (λ structs. structs.items ≡ structs_from [] (typed_items items.now)) }
{
    let mut structs = Vec::new(alloc);
    for item in items {
        put_struct(alloc, &mut structs, item)?;
    }
    Ok(structs)
}

/// Puts the struct last that an item declares, if it is one.
fn put_struct(alloc: Global, structs: &mut Vec<Items<Ty>>, item: &TypedItem) -> Result<(), NoMemory>
    ensures { OnOk result ((rest : List typed.TypedItem) →
        structs_from structs.old.items (typed_item item.now ∷ rest)
        ≡ structs_from structs.new.items rest) }
{
    match item {
        Item::Struct { fields, .. } => {
            let types = fields_cells(alloc, structs.as_slice(), fields.as_slice())?;
            structs.push(types)?;
            Ok(())
        }
        Item::Const { .. } => Ok(()),
        Item::Global { .. } => Ok(()),
        Item::Function { .. } => Ok(()),
    }
}
