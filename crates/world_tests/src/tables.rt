use nwq_text::put_count;
use nwq_value::{NoMemory, Text};
use std::alloc::Global;
use std::test::*;
use table_2da::*;

const SWORDS: &[u8] = b"2DA V2.0\n\n LABEL COST\n0 Sword 10\n1 **** 5\n";

/// The first line of a file that breaks a rule, 0 where none does.
fn bad_line(alloc: Global, bytes: &[u8]) -> Result<u64, NoMemory> {
    match read_table(alloc, bytes) {
        Ok(table) => {
            drop(table);
            Ok(0)
        }
        Err(TableFault::Line(n)) => Ok(n),
        Err(TableFault::NoMemory) => Err(NoMemory),
    }
}

/// Tables with this table as `x`.
fn tables_with(alloc: Global, table: Table2) -> Result<Tables, NoMemory> {
    let name = Text::of(alloc, b"x")?;
    let mut tables = Tables::new(alloc);
    tables.push(name, table)?;
    Ok(tables)
}

/// Tables with the table of this file as `x`, or none where it has none.
fn tables_of(alloc: Global, bytes: &[u8]) -> Result<Tables, NoMemory> {
    match read_table(alloc, bytes) {
        Ok(table) => tables_with(alloc, table),
        Err(TableFault::Line(_)) => Ok(Tables::new(alloc)),
        Err(TableFault::NoMemory) => Err(NoMemory),
    }
}

/// A column and a row of the table `x`, and the cell there.
type CellRow = (&'static [u8], i32, &'static [u8]);

/// Files, and cells of theirs.
const FILES: &[(&[u8], &[CellRow])] = &[
    (
        SWORDS,
        &[
            (b"cost", 0, b"10"),
            (b"LABEL", 0, b"Sword"),
            (b"LABEL", 1, b""),
            (b"COST", 1, b"5"),
            (b"COST", 7, b""),
            (b"COST", -1, b""),
            (b"PRICE", 0, b""),
        ],
    ),
    // Quotes and blanks part words.
    (
        b"2DA V2.0 \t\r\nDEFAULT: 7\r\n\t\"A B\"c\t D\r\n\r\n0 \"****\"x\"y a\"b\r\n1 \"\"",
        &[
            (b"a b", 0, b"****"),
            (b"C", 0, b"x\"y"),
            (b"d", 0, b"a\"b"),
            (b"a b", 1, b""),
            (b"c", 1, b""),
        ],
    ),
    // A carriage return ends a line before a newline alone.
    (
        b"2DA V2.0\r\n\r\nA B\r\n0 a\rb c\r\r\n1 d e\r",
        &[(b"A", 0, b"a\rb"), (b"B", 0, b"c\r"), (b"B", 1, b"e\r")],
    ),
];

/// Whether the cell of a table is this.
fn is_cell(alloc: Global, tables: &Tables, name: &[u8], row: &CellRow) -> Result<bool, NoMemory> {
    let (column, number, cell) = *row;
    let found = tables.look(alloc, name, column, number)?;
    Ok(found.bytes() == cell)
}

/// The place of the first cell of `x` that is another, if there is one.
fn first_other(
    alloc: Global,
    tables: &Tables,
    rows: &[CellRow],
) -> Result<Option<usize>, NoMemory> {
    for (place, row) in rows.iter().enumerate() {
        if !is_cell(alloc, tables, b"x", row)? {
            return Ok(Some(place));
        }
    }
    Ok(None)
}

#[test]
fn cells_are_looked_up(rt: HostRuntime) -> Result<(), Fail> {
    for (bytes, rows) in FILES {
        let tables = tables_of(rt.alloc(), bytes)?;
        assert_eq!(rt; first_other(rt.alloc(), &tables, rows)?, None, "{bytes:?}");
    }
    Ok(())
}

#[test]
fn names_of_tables_fold(rt: HostRuntime) -> Result<(), Fail> {
    let copy = tables_of(rt.alloc(), SWORDS)?.copy(rt.alloc())?;
    assert!(rt; is_cell(rt.alloc(), &copy, b"X", &(b"Cost", 1, b"5"))?);
    assert!(rt; is_cell(rt.alloc(), &copy, b"y", &(b"COST", 0, b""))?);
    Ok(())
}

/// Files and their first lines that break a rule.
const BAD: &[(&[u8], u64)] = &[
    (b"", 1),
    (b"2DA V2.0", 2),
    (b"2DA V2.0\n \t\n", 3),
    (b"2DA V2.0\n\nA\n", 0),
    (b"2DA V2.0x\n\nA\n", 1),
    (b"2DA V2.0\n DEFAULT: 1\nA\n", 2),
    (b"2DA V2.0\n\nA B a\n", 3),
    (b"2DA V2.0\n\n\n0 1\n", 3),
    (b"2DA V2.0\n\nA\n\n0 1 2\n", 5),
    (b"2DA V2.0\n\nA\n0 \"1\n1 2 3\n", 4),
];

#[test]
fn the_first_bad_line_is_told(rt: HostRuntime) -> Result<(), Fail> {
    for (bytes, line) in BAD {
        assert_eq!(rt; bad_line(rt.alloc(), bytes)?, *line, "{bytes:?}");
    }
    Ok(())
}

/// Puts a file's heading and so many columns, `c0` and so on.
fn put_columns(file: &mut Vec<u8>, columns: u32) -> Result<(), NoMemory> {
    file.extend_from_slice(b"2DA V2.0\n\n")?;
    for n in 0..columns {
        file.extend_from_slice(b" c")?;
        put_count(file, u64::from(n))?;
    }
    Ok(())
}

/// Puts so many rows, each of so many cells `x`.
fn put_rows(file: &mut Vec<u8>, rows: u32, cells: u32) -> Result<(), NoMemory> {
    for _ in 0..rows {
        file.extend_from_slice(b"\n0")?;
        for _ in 0..cells {
            file.extend_from_slice(b" x")?;
        }
    }
    Ok(())
}

/// A file with so many columns, and so many rows, each of so many cells.
fn grid(alloc: Global, columns: u32, rows: u32, cells: u32) -> Result<Vec<u8>, NoMemory> {
    let mut file = Vec::new(alloc);
    put_columns(&mut file, columns)?;
    put_rows(&mut file, rows, cells)?;
    Ok(file)
}

/// Numbers of columns, rows and cells, and the first line of such a file that breaks a rule.
const SIZES: &[(u32, u32, u32, u64)] = &[
    (1024, 2, 1024, 0),
    (1024, 1, 1025, 4),
    (1024, 1, 1_000_000, 4),
    (1025, 1, 1, 3),
    (1_000_000, 0, 0, 3),
    (1, 65_536, 1, 0),
    (1, 65_537, 1, 65_540),
];

#[test]
fn columns_and_rows_have_limits(rt: HostRuntime) -> Result<(), Fail> {
    for (columns, rows, cells, bad) in SIZES {
        let file = grid(rt.alloc(), *columns, *rows, *cells)?;
        let found = bad_line(rt.alloc(), file.as_slice())?;
        assert!(rt; found == *bad, "{columns} {rows} {cells}");
    }
    Ok(())
}

/// The last of 64 copies of tables, all of which there are at once.
fn last_copy(alloc: Global, tables: Tables) -> Result<Option<Tables>, NoMemory> {
    let mut copies = Vec::new(alloc);
    for _ in 0..64 {
        copies.push(tables.copy(alloc)?)?;
    }
    drop(tables);
    Ok(copies.pop())
}

/// Whether the last cell of a grid is there, and none behind it.
fn has_last(alloc: Global, tables: &Tables) -> Result<bool, NoMemory> {
    Ok(
        is_cell(alloc, tables, b"x", &(b"C1023", 8_179, b"x"))?
            && is_cell(alloc, tables, b"x", &(b"c1024", 0, b""))?,
    )
}

#[test]
fn copies_of_a_large_table(rt: HostRuntime) -> Result<(), Fail> {
    let file = grid(rt.alloc(), 1024, 8_180, 1024)?;
    let tables = tables_of(rt.alloc(), file.as_slice())?;
    match last_copy(rt.alloc(), tables)? {
        None => assert!(rt; false, "no copy"),
        Some(last) => assert!(rt; has_last(rt.alloc(), &last)?),
    }
    Ok(())
}
