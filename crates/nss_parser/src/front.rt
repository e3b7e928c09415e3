ghost use Rattle.std.specs.Prelude.{◌+◌, ◌^◌, ◌<◌, ◌≤◌, length, map, take, IfOk};
ghost use Rattle.nss_symbols.specs.Cursor.{plain_symbol, AreSound};
ghost use Rattle.nss_parser.specs.Front.{AreItems, TellsPrefix};

use crate::unit::{item, unit};
use nss_symbols::{Cursor, Seen, Stop};
use nwq_value::NoMemory;
use std::alloc::Global;

/// How many tokens at the front are whole items of a unit, up to where reading stops.
pub fn whole_items(alloc: Global, symbols: &[Seen<'_>]) -> Result<usize, NoMemory>
    requires count { length symbols.now < 2 ^ 32 }
    requires sound { AreSound symbols.now }
    ensures within { IfOk result (λ count. count ≤ length symbols.now) }
    ensures items { IfOk result (λ count. AreItems (take count (map plain_symbol symbols.now))) }
{
    let mut cursor = Cursor::new(symbols);
    let mut count = 0;
    for _turn in 0..symbols.len() {
        match item(alloc, &mut cursor, symbols.len() + 2) {
            Ok(read) => drop(read),
            Err(Stop::NoMemory) => return Err(NoMemory),
            Err(_) => return Ok(count),
        }
        count = symbols.len() - cursor.left();
    }
    Ok(count)
}

/// Whether tokens can be completed to a unit behind whole items of this many tokens. What these are
/// is not looked at, so that it takes as long as the tokens are many.
pub fn is_prefix(alloc: Global, count: u32, rest: &[Seen<'_>]) -> Result<bool, NoMemory>
    requires count { count + length rest.now < 2 ^ 32 }
    requires sound { AreSound rest.now }
    ensures { IfOk result (TellsPrefix count (map plain_symbol rest.now)) }
{
    let mut cursor = Cursor::numbered(rest, count);
    match unit(alloc, &mut cursor, rest.len() + 2) {
        Ok(items) => {
            drop(items);
            Ok(true)
        }
        Err(Stop::NoMemory) => Err(NoMemory),
        Err(Stop::Syntax) => Ok(cursor.left() == 0),
        Err(Stop::TooDeep) => unreachable!(),
    }
}
