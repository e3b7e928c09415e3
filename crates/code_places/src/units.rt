//! The way through the code of a unit.

ghost use Rattle.std.specs.Prelude.{◌≡◌, Some, true};
ghost use Rattle.nss_tree.specs.Reading.{plain_tree};
ghost use Rattle.typing_rules.specs.UnitReading.{typed_item, typed_items, typed_stmts};
ghost use Rattle.typing_rules.specs.UnitReading.{typed_unit};
ghost use Rattle.emission_rules.specs.Layout.{layout_of};
ghost use Rattle.emission_rules.specs.Units as code;
ghost use Rattle.code_places.specs.Marks as marks;
ghost use Rattle.code_places.specs.Functions.{function_among, function_at, function_behind};
ghost use Rattle.code_places.specs.Seeking.{node_at, sought, token_at};

use crate::cells::{all_declare, either, parameters_have_cells};
use crate::frame::first_frame;
use crate::numbers::{behind_item, behind_parameters, next};
use crate::seek::{Seek, is_found, node_of, pass, pass_if};
use crate::statements::{seek_names, seek_stmts};
use nss_layout::Layout;
use nss_tree::{Item, Tree};
use typing_rules::{EntryPoint, Typed, TypedItem, TypedParameter, TypedStmt};

/// Whether an item is a declaration of globals.
fn is_global(item: &TypedItem) -> bool
    ensures { result ≡ marks.is_global (typed_item item.now) }
{
    match item {
        Item::Struct { .. } => false,
        Item::Const { .. } => false,
        Item::Global { .. } => true,
        Item::Function { .. } => false,
    }
}

/// Whether one of these items is.
fn has_globals(items: &[TypedItem]) -> bool
    ensures { result ≡ code.has_globals (typed_items items.now) }
{
    let mut any = false;
    for item in items {
        any = either(any, is_global(item));
    }
    any
}

/// The way behind the first values of an item's globals.
#[tactic(auto, using(crate::proofs::Seeking::seek_laws))]
fn seek_global(layout: &Layout, item: &TypedItem, node: Option<u32>, seek: Seek) -> Seek
    ensures { result ≡ sought (marks.global_marks layout.now node (typed_item item.now)) seek }
{
    match item {
        Item::Struct { .. } => seek,
        Item::Const { .. } => seek,
        Item::Global { names, .. } => seek_names(layout, names.as_slice(), next(node), seek),
        Item::Function { .. } => seek,
    }
}

/// The way behind all first values.
fn seek_globals(layout: &Layout, items: &[TypedItem], mut seek: Seek) -> Seek
    ensures { result
        ≡ sought (marks.globals_marks layout.now (Some 0) (typed_items items.now)) seek }
{
    let mut node = Some(0);
    for item in items {
        seek = seek_global(layout, item, node, seek);
        node = behind_item(node, item);
    }
    seek
}

/// The way behind the code of a function.
fn seek_function(
    layout: &Layout,
    parameters: &[TypedParameter],
    body: &[TypedStmt],
    node: Option<u32>,
    seek: Seek,
) -> Seek
    ensures { result ≡ sought
        (marks.function_marks layout.now node parameters.now (typed_stmts body.now)) seek }
{
    let any = parameters_have_cells(layout, parameters);
    let first = behind_parameters(next(node), parameters);
    let seek = seek_stmts(layout, first_frame(any), body, first, seek);
    let seek = pass_if(seek, all_declare(layout, body), 6, node);
    pass(pass_if(seek, any, 6, node), 2, node)
}

/// The way behind the code of an item, if it is a function with a body.
#[tactic(auto, using(crate::proofs::Seeking::seek_laws))]
fn seek_item(layout: &Layout, item: &TypedItem, node: Option<u32>, seek: Seek) -> Seek
    ensures { result ≡ sought (marks.item_marks layout.now node (typed_item item.now)) seek }
{
    match item {
        Item::Struct { .. } => seek,
        Item::Const { .. } => seek,
        Item::Global { .. } => seek,
        Item::Function {
            parameters,
            body,
            ..
        } => match body {
            None => seek,
            Some(body) => {
                seek_function(layout, parameters.as_slice(), body.as_slice(), node, seek)
            }
        },
    }
}

/// The way behind the code of all functions.
fn seek_functions(layout: &Layout, items: &[TypedItem], mut seek: Seek) -> Seek
    ensures { result
        ≡ sought (marks.functions_marks layout.now (Some 0) (typed_items items.now)) seek }
{
    let mut node = Some(0);
    for item in items {
        seek = seek_item(layout, item, node, seek);
        node = behind_item(node, item);
    }
    seek
}

/// The way behind the call of the function that a script begins with.
#[tactic(auto, using(crate::proofs::Seeking::seek_laws))]
fn seek_entry(entry: EntryPoint, seek: Seek) -> Seek
    ensures { result ≡ sought (marks.entry_marks entry) seek }
{
    match entry {
        EntryPoint::Main(_) => pass(seek, 6, None),
        EntryPoint::Conditional(_) => {
            let seek = pass(seek, 2, None);
            pass(pass(seek, 6, None), 6, None)
        }
    }
}

/// The way behind the start of a unit with globals.
fn seek_begin(layout: &Layout, items: &[TypedItem], entry: EntryPoint, seek: Seek) -> Seek
    ensures { result
        ≡ sought (marks.start_marks layout.now true (typed_items items.now) entry) seek }
{
    let seek = pass(pass(seek, 6, None), 2, None);
    let seek = pass(seek_globals(layout, items, seek), 2, None);
    let seek = pass(seek_entry(entry, seek), 2, None);
    pass(pass_if(seek, layout.globals() > 0, 6, None), 2, None)
}

/// The way behind the start of a unit.
fn seek_start(layout: &Layout, items: &[TypedItem], entry: EntryPoint, seek: Seek) -> Seek
    ensures { result ≡ sought (marks.start_marks layout.now
        (code.has_globals (typed_items items.now)) (typed_items items.now) entry) seek }
{
    if has_globals(items) {
        seek_begin(layout, items, entry, seek)
    } else {
        pass(seek_entry(entry, seek), 2, None)
    }
}

/// The number of the node whose code the byte at this place of the unit's file lies in, of the
/// nodes in preorder: None in the header, at the start but for first values, and behind the code.
pub fn node_at(unit: &Typed, layout: &Layout, place: u32) -> Option<u32>
    requires laid { layout.now ≡ layout_of (typed_unit unit.now) }
    ensures node { result ≡ node_at (typed_unit unit.now) place }
{
    if place < 13 {
        return None;
    }
    let items = unit.items.as_slice();
    let seek = seek_start(layout, items, unit.entry, Seek::Ahead(place - 13));
    node_of(seek_functions(layout, items, seek))
}

/// The token of that node, by its number in the tree that the unit is the typed one of.
pub fn token_at(tree: &Tree, unit: &Typed, layout: &Layout, place: u32) -> Option<u32>
    requires laid { layout.now ≡ layout_of (typed_unit unit.now) }
    ensures token { result ≡ token_at (plain_tree tree.now) (typed_unit unit.now) place }
{
    match node_at(unit, layout, place) {
        None => None,
        Some(node) => tree.place(node),
    }
}

/// The number, among these items, of the function that the way ends in.
fn function_among(layout: &Layout, items: &[TypedItem], mut seek: Seek) -> Option<usize>
    ensures { result
        ≡ function_among layout.now (Some 0) 0 (typed_items items.now) seek }
{
    let mut node = Some(0);
    for (i, item) in items.iter().enumerate() {
        seek = seek_item(layout, item, node, seek);
        if is_found(seek) {
            return Some(i);
        }
        node = behind_item(node, item);
    }
    None
}

/// The same, unless the way ended at the start.
fn function_behind(layout: &Layout, items: &[TypedItem], seek: Seek) -> Option<usize>
    ensures { result ≡ function_behind layout.now (typed_items items.now) seek }
{
    if is_found(seek) {
        None
    } else {
        function_among(layout, items, seek)
    }
}

/// The number, among the unit's items, of the function whose code the byte at this place of the
/// unit's file lies in: None in the header, at the start with its first values, and behind the
/// code.
pub fn function_at(unit: &Typed, layout: &Layout, place: u32) -> Option<usize>
    requires laid { layout.now ≡ layout_of (typed_unit unit.now) }
    ensures function { result ≡ function_at (typed_unit unit.now) place }
{
    if place < 13 {
        return None;
    }
    let items = unit.items.as_slice();
    let seek = seek_start(layout, items, unit.entry, Seek::Ahead(place - 13));
    function_behind(layout, items, seek)
}
