ghost use Rattle.std.specs.Prelude.{◌≡◌, ◌<◌, ◌^◌, slice_index_or, IfOk};
ghost use Rattle.std.specs.Prelude.{[]};
ghost use Rattle.typing_rules.specs.UnitReading.{typed_unit};
ghost use Rattle.typing_rules.specs.Cells.{cells};
ghost use Rattle.emission_rules.specs.Layout.{layout_of, position};

use crate::frames::items_positions;
use crate::structs::{cells_of, struct_types, structs_of};
use nwq_value::{Items, NoMemory, Ty};
use std::alloc::Global;
use std::marker::Model;
use typing_rules::Typed;

/// Where the values of a typed unit stand.
#[derive(Drop)]
pub struct Layout {
    /// The types of the cells of each struct.
    structs: Vec<Items<Ty>>,
    /// Of each variable, by its number.
    positions: Items<u32>,
    /// The cells of all globals.
    globals: u32,
}

impl Model for Layout {
    ghost use Rattle.emission_rules.specs.Layout as laid;

    ghost Value = { laid.Layout };

    ghost view = { λ l. record {
      structs = l.structs.items;
      positions = l.positions;
      globals = l.globals;
    } };
}

impl Layout {
    /// The cells of all globals.
    pub fn globals(&self) -> u32
        ensures globals { result ≡ self.now.globals }
    {
        self.globals
    }

    /// How many cells a value of the type has.
    pub fn cells(&self, ty: Ty) -> u32
        requires few { cells self.now.structs ty < 2 ^ 32 }
        ensures cells { result ≡ cells self.now.structs ty }
    {
        cells_of(self.structs.as_slice(), ty) as u32
    }

    /// How many cells of the frame, or of the globals, stand beneath the variable of this number.
    pub fn position(&self, variable: u32) -> u32
        ensures position { result ≡ position self.now variable }
    {
        let positions = self.positions.as_slice();
        let variable = variable as usize;
        if variable < positions.len() {
            positions[variable]
        } else {
            0
        }
    }

    /// The types of the cells of the struct of this number: none where the unit has no such struct.
    pub fn struct_cells(&self, number: u16) -> &[Ty]
        ensures types { result.now ≡ slice_index_or self.now.structs number [] }
    {
        struct_types(self.structs.as_slice(), number)
    }
}

/// The layout of a unit. `NoMemory` comes where memory is refused, and where a frame, or the
/// globals, pass the budget of 4,294,967,295 cells.
pub fn lay(alloc: Global, unit: &Typed) -> Result<Layout, NoMemory>
    ensures laid { IfOk result (λ layout. layout ≡ layout_of (typed_unit unit.now)) }
{
    let items = unit.items.as_slice();
    let structs = structs_of(alloc, items)?;
    let mut positions = Items::new(alloc);
    let globals = items_positions(structs.as_slice(), &mut positions, items)?;
    Ok(Layout {
        structs,
        positions,
        globals,
    })
}
