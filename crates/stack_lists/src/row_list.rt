ghost use Rattle.std.specs.Prelude.{◌≡◌, ◌<◌, ◌↔◌, [], ◌∷◌, ◌++◌, Some, length, slice_get};
ghost use Rattle.std.specs.Prelude.{IfOk, IsTrue, OnErr, OnOk};
ghost use Rattle.stack_lists.specs.RowLists.{StillThere, row_of, setting_of};

use crate::budget::{MOST, room};
use crate::held::Held;
use crate::rows::ShapeRow;
use nwq_value::{Items, NoMemory};
use std::alloc::Global;
use std::marker::Model;

/// What rows that are found one after another mostly have alike.
#[derive(Clone, Copy, PartialEq, Eq)]
pub struct Setting {
    pub trial: u32,
    pub under: u32,
    pub saved: u32,
    pub pending: u32,
}

/// A row, with the number of its setting.
#[derive(Clone, Copy)]
pub struct ShortRow {
    pub place: u32,
    pub cells: u32,
    pub setting: u32,
}

/// A list of rows that grows at its end. A setting is kept once for all rows in a row that have it.
pub struct RowList {
    rows: Items<ShortRow>,
    settings: Items<Setting>,
}

impl Model for RowList {
    ghost use Rattle.std.specs.Prelude.{List};
    ghost use Rattle.stack_lists.specs.declared.rows.ShapeRow.{ShapeRow};
    ghost use Rattle.stack_lists.specs.RowLists.{HaveSettings, rows_of};

    ghost Value = { List ShapeRow };

    ghost view = { λ l. rows_of l.settings l.rows };

    ghost invariant = { λ l. HaveSettings l.settings l.rows };
}

impl Drop for RowList {
    fn drop(self) {
        let RowList { rows, settings } = self;
        drop(rows);
        drop(settings);
    }
}

fn setting_of(row: ShapeRow) -> Setting
    ensures { result ≡ setting_of row }
{
    Setting {
        trial: row.trial,
        under: row.held.under,
        saved: row.held.saved,
        pending: row.held.pending,
    }
}

/// The row in full.
#[tactic(auto, using(crate::proofs::RowListLemmas::filling))]
fn row_of(settings: &Items<Setting>, short: ShortRow) -> ShapeRow
    requires there { short.setting < length settings.now }
    ensures { result ≡ row_of settings.now short }
{
    match settings.get(short.setting as usize) {
        None => unreachable!(),
        Some(setting) => ShapeRow {
            trial: setting.trial,
            place: short.place,
            held: Held {
                cells: short.cells,
                under: setting.under,
                saved: setting.saved,
                pending: setting.pending,
            },
        },
    }
}

fn same_setting(a: Setting, b: Setting) -> bool
    ensures { IsTrue result ↔ (a ≡ b) }
{
    a == b
}

/// The number of a setting, which is the last one or is added.
#[tactic(auto, using(crate::proofs::RowListLemmas::numbering))]
fn number_of(settings: &mut Items<Setting>, setting: Setting) -> Result<u32, NoMemory>
    ensures is { IfOk result (λ number. slice_get settings.new number ≡ Some setting) }
    ensures kept { StillThere settings.old settings.new }
{
    let count = settings.len();
    if count > 0 && count <= MOST {
        if let Some(last) = settings.get(count - 1) {
            if same_setting(*last, setting) {
                return Ok(count as u32 - 1);
            }
        }
    }
    room(count)?;
    settings.push(setting)?;
    Ok(count as u32)
}

impl RowList {
    #[tactic(auto, using(crate::proofs::RowListLemmas::beginning))]
    pub fn new(alloc: Global) -> Self
        ensures empty { result ≡ [] }
    {
        RowList {
            rows: Items::new(alloc),
            settings: Items::new(alloc),
        }
    }

    #[tactic(auto, using(crate::proofs::RowListLemmas::counting))]
    pub fn len(&self) -> usize
        ensures len { result ≡ length self.now }
    {
        self.rows.len()
    }

    /// The row with a number.
    #[tactic(auto, using(crate::proofs::RowListLemmas::getting))]
    pub fn get(&self, number: usize) -> Option<ShapeRow>
        ensures row { result ≡ slice_get self.now number }
    {
        match self.rows.get(number) {
            None => None,
            Some(short) => Some(row_of(&self.settings, *short)),
        }
    }

    /// Puts a row last.
    #[tactic(auto, using(crate::proofs::RowListLemmas::pushing))]
    pub fn push(&mut self, row: ShapeRow) -> Result<(), NoMemory>
        ensures ok { OnOk result (self.new ≡ self.old ++ row ∷ []) }
        ensures err { OnErr result (self.new ≡ self.old) }
    {
        let setting = number_of(&mut self.settings, setting_of(row))?;
        self.rows.push(ShortRow {
            place: row.place,
            cells: row.held.cells,
            setting,
        })
    }
}
