ghost use Rattle.std.specs.Prelude.{◌≡◌, IfOk};
ghost use Rattle.stack_shape.specs.Stored.{found_types, stored_types};

use crate::range::cell_count;
use crate::top_first::{TopFirst, top_types};
use nwq_value::{NoMemory, Tys};
use std::alloc::Global;

/// The types of what STORE_STATE stores, the top one first.
#[derive(Drop)]
pub struct StoredTypes {
    pub globals: Tys,
    pub locals: Tys,
}

/// The types of so many slots beneath BP and of so many on top.
fn found_types<U: TopFirst, C: TopFirst>(
    alloc: Global,
    globals: usize,
    locals: usize,
    under: &U,
    cells: &C,
) -> Result<Option<StoredTypes>, NoMemory>
    ensures { IfOk result (λ types. types
        ≡ found_types globals locals (U.slots under.now) (C.slots cells.now)) }
{
    match top_types(alloc, under, globals)? {
        None => Ok(None),
        Some(globals) => match top_types(alloc, cells, locals)? {
            None => Ok(None),
            Some(locals) => Ok(Some(StoredTypes { globals, locals })),
        },
    }
}

/// The types of so many bytes of globals and of locals, or `None` where one of these cells isn't
/// there or is a base.
#[tactic(auto, unfolding(crate::specs::Stored::stored_types))]
pub fn stored_types<U: TopFirst, C: TopFirst>(
    alloc: Global,
    globals: u32,
    locals: u32,
    under: &U,
    cells: &C,
) -> Result<Option<StoredTypes>, NoMemory>
    ensures types { IfOk result (λ types. types
        ≡ stored_types globals locals (U.slots under.now) (C.slots cells.now)) }
{
    match (cell_count(globals), cell_count(locals)) {
        (Some(globals), Some(locals)) => found_types(alloc, globals, locals, under, cells),
        _ => Ok(None),
    }
}
