//! Places of a script's sources.

ghost use Rattle.std.specs.Prelude.{◌≡◌, ◌≤◌, length, slice_get, IfOk, IfSome};
ghost use Rattle.std.specs.Option.{option_map};
ghost use Rattle.nwq_value.specs.Limits.{file_limit};
ghost use Rattle.nss_tree.specs.Reading.{plain_tree};
ghost use Rattle.typing_rules.specs.UnitReading.{typed_item, typed_unit};
ghost use Rattle.run_places.specs.Spots as spots;
ghost use Rattle.run_places.specs.Spots.{plain_spot};

use crate::compiled::Compiled;
use nss_include::Unit;
use nss_lexer::Token;
use nss_tree::Item;
use nwq_value::NoMemory;
use std::alloc::Global;
use typing_rules::{Typed, TypedItem};

/// A place of a source: the file's name and its bytes, and the offset in them.
#[derive(Clone, Copy)]
pub struct Spot<'a> {
    pub name: &'a [u8],
    pub bytes: &'a [u8],
    pub at: u32,
}

fn token_of<'a>(tokens: &[Token<'a>], token: u32) -> Option<Token<'a>>
    ensures { result ≡ slice_get tokens.now token }
{
    tokens.get(token as usize).copied()
}

/// Where the token of this number begins.
fn spot_of_token<'a>(
    alloc: Global,
    unit: &'a Unit,
    token: u32,
) -> Result<Option<Spot<'a>>, NoMemory>
    ensures spot { IfOk result (λ found. option_map plain_spot found
        ≡ spots.spot_of unit.now.files unit.now.tokens token) }
    ensures inside { IfOk result (λ found. IfSome found
        (λ spot. spot.at ≤ length spot.bytes.now)) }
    ensures size { IfOk result (λ found. IfSome found
        (λ spot. length spot.bytes.now ≤ file_limit)) }
{
    let tokens = unit.tokens(alloc)?;
    match token_of(tokens.as_slice(), token) {
        None => Ok(None),
        Some(token) => {
            Ok(Some(Spot {
                name: unit.file_name(token.file),
                bytes: unit.file_bytes(token.file),
                at: token.start,
            }))
        }
    }
}

/// The token of the node whose code the byte at this place of the script's file lies in.
pub fn spot_at<'a>(
    alloc: Global,
    script: &'a Compiled,
    place: u32,
) -> Result<Option<Spot<'a>>, NoMemory>
    ensures spot { IfOk result (λ found. option_map plain_spot found
        ≡ spots.spot_at script.now.unit (plain_tree script.now.tree)
        (typed_unit script.now.typed) place) }
    ensures inside { IfOk result (λ found. IfSome found
        (λ spot. spot.at ≤ length spot.bytes.now)) }
    ensures size { IfOk result (λ found. IfSome found
        (λ spot. length spot.bytes.now ≤ file_limit)) }
{
    match code_places::token_at(&script.tree, &script.typed, &script.layout, place) {
        None => Ok(None),
        Some(token) => spot_of_token(alloc, &script.unit, token),
    }
}

/// The name of an item, if it is a function.
fn name_of(item: &TypedItem) -> Option<&[u8]>
    ensures { option_map (λ name. name.now) result ≡ spots.name_of (typed_item item.now) }
{
    match item {
        Item::Struct { .. } => None,
        Item::Const { .. } => None,
        Item::Global { .. } => None,
        Item::Function { name, .. } => Some(name.bytes()),
    }
}

/// The name of the function whose code the byte at this place of the script's file lies in.
pub fn function_at(script: &Compiled, place: u32) -> Option<&[u8]>
    ensures named { option_map (λ name. name.now) result
        ≡ spots.function_named (typed_unit script.now.typed) place }
{
    match code_places::function_at(&script.typed, &script.layout, place) {
        None => None,
        Some(number) => match script.typed.items.get(number) {
            None => None,
            Some(item) => name_of(item),
        },
    }
}
