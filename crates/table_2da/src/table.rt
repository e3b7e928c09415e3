ghost use Rattle.std.specs.Prelude.{◌≡◌, [], List, ℕ, IfOk, position, unwrap_or};
ghost use Rattle.std.specs.Option.{option_copied};
ghost use Rattle.table_2da.specs.Look.{same_name, row_numbered, cell_in};
ghost use Rattle.table_2da.specs.Ranges.{bytes_at, cells_at, rows_at};

use crate::range::{Range, Ranges, Rows, bytes_at};
use nwq_value::NoMemory;
use std::alloc::Global;
use std::marker::Model;
use std::rc::Rc;

/// The bytes of a file, and where the names of its columns and the cells of its rows stand there.
#[derive(Drop)]
struct Parts {
    file: Vec<u8>,
    columns: Ranges,
    rows: Rows,
}

/// A table: the names of its columns, and its rows of cells. Copies share what they hold.
#[derive(Drop)]
pub struct Table2 {
    parts: Rc<Parts>,
}

impl Model for Table2 {
    ghost use Rattle.table_2da.specs.Ranges.{cells_at, rows_at};
    ghost use Rattle.table_2da.specs.Table.{PlainTable};

    ghost Value = { PlainTable };

    ghost view = { λ t. record {
      columns = cells_at t.parts.value.file.items t.parts.value.columns;
      rows = rows_at t.parts.value.file.items t.parts.value.rows;
    } };
}

/// Whether two names are equal, whatever the case of their letters.
pub fn same_name(a: &[u8], b: &[u8]) -> bool
    ensures test { result ≡ same_name a.now b.now }
{
    a.eq_ignore_ascii_case(b)
}

/// The place of the column of this name.
fn column_named(file: &[u8], columns: &[Range], name: &[u8]) -> Option<usize>
    ensures place { result
        ≡ position (λ column. same_name (bytes_at file.now column) name.now) columns.now }
{
    columns
        .iter()
        .position(|column| same_name(bytes_at(file, *column), name))
}

/// The row of this number.
fn row_numbered(rows: &[Ranges], row: i32) -> Option<&Ranges>
    ensures cells { (file : List ℕ) → cells_at file (unwrap_or (option_copied result) [])
        ≡ row_numbered row (rows_at file rows.now) }
{
    if row < 0 {
        return None;
    }
    rows.get(row as usize)
}

impl Parts {
    /// The cell in the column of this name and the row of this number; `None` stands for an empty
    /// one.
    fn cell(&self, column: &[u8], row: i32) -> Option<&[u8]>
        ensures cell { unwrap_or (option_copied result) [] ≡ cell_in column.now row (record {
          columns = cells_at self.now.file.items self.now.columns;
          rows = rows_at self.now.file.items self.now.rows;
        }) }
    {
        let file = self.file.as_slice();
        let place = column_named(file, self.columns.as_slice(), column)?;
        let cells = row_numbered(self.rows.as_slice(), row)?;
        let cell = cells.get(place)?;
        Some(bytes_at(file, *cell))
    }
}

impl Table2 {
    /// The table of these columns and rows, which are ranges of a file's bytes.
    pub(crate) fn of(
        alloc: Global,
        file: &[u8],
        columns: Ranges,
        rows: Rows,
    ) -> Result<Table2, NoMemory>
        ensures parts { IfOk result (λ table. table ≡ record {
          columns = cells_at file.now columns;
          rows = rows_at file.now rows;
        }) }
    {
        let file = Vec::from_slice(alloc, file)?;
        let parts = Parts {
            file,
            columns,
            rows,
        };
        Ok(Table2 {
            parts: Rc::new(alloc, parts)?,
        })
    }

    /// The cell in the column of this name and the row of this number; `None` stands for an empty
    /// one.
    pub fn cell(&self, column: &[u8], row: i32) -> Option<&[u8]>
        ensures cell { unwrap_or (option_copied result) [] ≡ cell_in column.now row self.now }
    {
        self.parts.as_ref().cell(column, row)
    }

    /// An equal table, which takes no memory of its own.
    pub fn copy(&self, _alloc: Global) -> Result<Table2, NoMemory>
        ensures ok { IfOk result (λ table. table ≡ self.now) }
    {
        Ok(Table2 {
            parts: self.parts.clone()?,
        })
    }
}
