ghost use Rattle.std.specs.Prelude.{◌≡◌, ◌≤◌, ◌^◌, [], None, Some, OnOk, ◌<◌, length};
ghost use Rattle.std.specs.Prelude.{slice_get};
ghost use Rattle.stack_lists.specs.Budget.{most};
ghost use Rattle.stack_lists.specs.Rows.{IsKept, IsNumberOf, RowAdded, StillKept, held_in, row_in};
ghost use Rattle.stack_lists.specs.Rows.{row_key};

use crate::budget::room;
use crate::held::Held;
use crate::places::Places;
use crate::row_list::RowList;
use nwq_value::NoMemory;
use std::alloc::Global;
use std::collections::BTreeMap;
use std::marker::Model;

/// The shape at a place, of a trial.
#[derive(Clone, Copy)]
pub struct ShapeRow {
    pub trial: u32,
    pub place: u32,
    pub held: Held,
}

/// The rows, each of a trial and a place of its own. The first row of a place is found by the place
/// alone, so code that control enters at few places needs no index.
pub struct Rows {
    rows: RowList,
    /// By half of the place, since an instruction takes two bytes at least: one more than the
    /// number of the first row there.
    firsts: Places,
    /// By trial and place: the numbers of the other rows.
    index: BTreeMap<u64, u32>,
}

impl Model for Rows {
    ghost use Rattle.std.specs.Prelude.{List};
    ghost use Rattle.stack_lists.specs.declared.rows.ShapeRow.{ShapeRow};
    ghost use Rattle.stack_lists.specs.Rows.{AreIndexed};

    ghost Value = { List ShapeRow };

    ghost view = { λ r. r.rows };

    ghost invariant = { λ r. AreIndexed r.rows r.firsts r.index };
}

impl Drop for Rows {
    fn drop(self) {
        let Rows {
            rows,
            firsts,
            index,
        } = self;
        drop(rows);
        drop(firsts);
        drop(index);
    }
}

/// The key of a trial's row at a place.
fn key_of(trial: u32, place: u32) -> u64
    ensures { result ≡ row_key trial place }
{
    trial as u64 * (1 << 32) + place as u64
}

/// Has the row found that is added with this number.
#[tactic(auto, using(crate::proofs::RowLemmas::noting))]
fn note(
    firsts: &mut Places,
    index: &mut BTreeMap<u64, u32>,
    trial: u32,
    place: u32,
    number: u32,
) -> Result<(), NoMemory>
    requires few { number < most }
    ensures kept { OnOk result (IsKept firsts.new index.new number trial place) }
    ensures others { StillKept firsts.old index.old firsts.new index.new trial place }
{
    if firsts.get(place / 2) == 0 {
        return firsts.put(place / 2, number + 1);
    }
    match index.insert(key_of(trial, place), number) {
        Ok(_) => Ok(()),
        Err(_) => Err(NoMemory),
    }
}

impl Rows {
    #[tactic(auto, using(crate::proofs::RowLemmas::beginning))]
    pub fn new(alloc: Global) -> Rows
        ensures empty { result ≡ [] }
    {
        Rows {
            rows: RowList::new(alloc),
            firsts: Places::new(alloc),
            index: BTreeMap::new(alloc),
        }
    }

    /// How many rows there are.
    pub fn len(&self) -> usize
        ensures count { result ≡ length self.now }
        ensures few { result ≤ 2 ^ 25 }
    {
        self.rows.len()
    }

    /// What the row with a number holds, if it is of this trial and place.
    #[tactic(auto, using(crate::proofs::RowLemmas::holding))]
    fn held_of(&self, number: usize, trial: u32, place: u32) -> Option<Held>
        ensures held { result ≡ held_in (slice_get self.now number) trial place }
    {
        match self.rows.get(number) {
            None => None,
            Some(row) => {
                if row.trial == trial && row.place == place {
                    Some(row.held)
                } else {
                    None
                }
            }
        }
    }

    /// The shape at a place, of a trial.
    #[tactic(auto, using(crate::proofs::RowLemmas::finding))]
    pub fn find(&self, trial: u32, place: u32) -> Option<Held>
        ensures row { result ≡ row_in self.now trial place }
    {
        let first = self.firsts.get(place / 2);
        if first == 0 {
            return None;
        }
        match self.held_of(first as usize - 1, trial, place) {
            Some(held) => Some(held),
            None => match self.index.get(&key_of(trial, place)) {
                None => None,
                Some(number) => self.held_of(*number as usize, trial, place),
            },
        }
    }

    /// The number of the row of a trial at a place, 0 where it has none.
    #[tactic(auto, using(crate::proofs::RowLemmas::finding, crate::proofs::RowLemmas::counting))]
    pub fn number(&self, trial: u32, place: u32) -> u32
        ensures number { IsNumberOf self.now trial place result }
    {
        let first = self.firsts.get(place / 2);
        if first == 0 {
            return 0;
        }
        match self.held_of(first as usize - 1, trial, place) {
            Some(_) => first - 1,
            None => match self.index.get(&key_of(trial, place)) {
                None => 0,
                Some(number) => *number,
            },
        }
    }

    /// Adds the shape at a place, of a trial that has none there.
    #[tactic(auto, using(crate::proofs::RowLemmas::adding))]
    pub fn add(&mut self, trial: u32, place: u32, held: Held) -> Result<(), NoMemory>
        requires new { row_in self.old trial place ≡ None }
        ensures added { OnOk result (RowAdded self.old self.new trial place held) }
    {
        let number = self.rows.len();
        room(number)?;
        note(
            &mut self.firsts,
            &mut self.index,
            trial,
            place,
            number as u32,
        )?;
        self.rows.push(ShapeRow { trial, place, held })
    }
}
