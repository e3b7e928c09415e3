ghost use Rattle.std.specs.Prelude.{◌≡◌, [], ◌∷◌, ◌++◌, None, IfOk, OnOk, OnErr, unwrap_or};
ghost use Rattle.std.specs.Option.{option_copied};
ghost use Rattle.table_2da.specs.Look.{cell_of, look, table_named};

use crate::table::{Table2, same_name};
use nwq_value::{Items, NoMemory, Text};
use std::alloc::Global;
use std::marker::Model;

/// A table under its name.
pub struct Named {
    pub name: Text,
    pub table: Table2,
}

impl Drop for Named {
    fn drop(self) {
        let Named { name, table } = self;
        drop(name);
        drop(table);
    }
}

/// Tables under their names, in the order in which they were put.
pub struct Tables {
    all: Items<Named>,
}

impl Model for Tables {
    ghost use Rattle.std.specs.Prelude.{List};
    ghost use Rattle.table_2da.specs.declared.tables.Named.{Named};

    ghost Value = { List Named };

    ghost view = { λ t. t.all };
}

impl Drop for Tables {
    fn drop(self) {
        let Tables { all } = self;
        drop(all);
    }
}

/// The table of this name.
fn table_named<'a>(tables: &'a [Named], name: &[u8]) -> Option<&'a Named>
    ensures table { option_copied result ≡ table_named name.now tables.now }
{
    tables
        .iter()
        .find(|named| same_name(named.name.bytes(), name))
}

impl Tables {
    /// No tables; takes no memory.
    pub fn new(alloc: Global) -> Tables
        ensures empty { result ≡ [] }
    {
        Tables {
            all: Items::new(alloc),
        }
    }

    /// Puts a table under a name last. After `NoMemory` the pair is dropped and the tables are as
    /// before.
    pub fn push(&mut self, name: Text, table: Table2) -> Result<(), NoMemory>
        requires new_name { table_named name self.old ≡ None }
        ensures ok { OnOk result
            (self.new ≡ self.old ++ record { name = name; table = table } ∷ []) }
        ensures err { OnErr result (self.new ≡ self.old) }
    {
        self.all.push(Named { name, table })
    }

    /// The whole cell of a table's column and row; `None` stands for an empty one.
    #[tactic(auto, unfolding(crate::specs::Look::cell_of))]
    fn cell(&self, name: &[u8], column: &[u8], row: i32) -> Option<&[u8]>
        ensures cell { unwrap_or (option_copied result) []
            ≡ cell_of self.now name.now column.now row }
    {
        let named = table_named(self.all.as_slice(), name)?;
        named.table.cell(column, row)
    }

    /// The cell of a table's column and row, the empty text where there is no such table, column or
    /// row. Names of tables and columns mean the same in either case.
    pub fn look(
        &self,
        alloc: Global,
        name: &[u8],
        column: &[u8],
        row: i32,
    ) -> Result<Text, NoMemory>
        ensures cell { IfOk result (λ text. text ≡ look self.now name.now column.now row) }
    {
        match self.cell(name, column, row) {
            Some(bytes) => Text::of(alloc, bytes),
            None => Text::empty(alloc),
        }
    }

    /// Equal tables.
    pub fn copy(&self, alloc: Global) -> Result<Tables, NoMemory>
        ensures ok { IfOk result (λ tables. tables ≡ self.now) }
    {
        let mut all = Items::new(alloc);
        for named in self.all.as_slice() {
            let name = named.name.copy(alloc)?;
            let table = named.table.copy(alloc)?;
            all.push(Named { name, table })?;
        }
        Ok(Tables { all })
    }
}
