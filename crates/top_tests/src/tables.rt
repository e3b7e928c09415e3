//! The tables that a list names, and what they hold.

use command_tables::read_tables;
use command_work::Status;
use nwq_outside::{MemFiles, MemSink};
use nwq_value::{NoMemory, Text};
use std::alloc::Global;
use std::test::Fail;

const TABLE: &[u8] = b"2DA V2.0\n\n LABEL COST\n0 Sword 10\n1 **** 5\n";

const BAD: &[u8] = b"2DA V2.0\n\n LABEL COST\n0 Sword 10\n1 **** 5 9\n";

/// A list, what `t.txt` and `x.2da` hold, the call of files that fails, what comes of the list, and
/// what is put.
type Given = (
    Option<&'static str>,
    &'static [u8],
    &'static [u8],
    Option<u64>,
    Result<&'static [u8], Status>,
    &'static [u8],
);

const ROWS: &[Given] = &[
    (None, b"x\n", TABLE, None, Ok(b""), b""),
    (Some("t.txt"), b"x\n", TABLE, None, Ok(b"10"), b""),
    (Some("t.txt"), b"", TABLE, None, Ok(b""), b""),
    (
        Some("t.txt"),
        b"x\nx\n",
        TABLE,
        None,
        Err(Status::Area),
        b"refused t.txt line 2\n",
    ),
    (
        Some("t.txt"),
        b"X\n",
        TABLE,
        None,
        Err(Status::Area),
        b"refused t.txt line 1\n",
    ),
    (
        Some("t.txt"),
        b"x\n",
        BAD,
        None,
        Err(Status::Area),
        b"refused x.2da line 5\n",
    ),
    (
        Some("t.txt"),
        b"x\ny\n",
        TABLE,
        None,
        Err(Status::Missing),
        b"missing y.2da\n",
    ),
    (
        Some("u.txt"),
        b"x\n",
        TABLE,
        None,
        Err(Status::Missing),
        b"missing u.txt\n",
    ),
    (
        Some("t.txt"),
        b"x\n",
        TABLE,
        Some(0),
        Err(Status::Fault),
        b"",
    ),
    (
        Some("t.txt"),
        b"x\n",
        TABLE,
        Some(1),
        Err(Status::Fault),
        b"",
    ),
];

/// The cell `cost` of the first row of the table `x`, among the tables of a list.
fn cell_of(
    alloc: Global,
    list: Option<&str>,
    files: &mut MemFiles,
    out: &mut MemSink,
) -> Result<Text, Status> {
    match read_tables(alloc, list, files, out) {
        Err(status) => Err(status),
        Ok(tables) => match tables.look(alloc, b"X", b"cost", 0) {
            Err(NoMemory) => Err(Status::Memory),
            Ok(cell) => Ok(cell),
        },
    }
}

fn is_as(found: &Result<Text, Status>, want: &Result<&[u8], Status>) -> bool {
    match (found, want) {
        (Ok(cell), Ok(bytes)) => cell.bytes() == *bytes,
        (Err(status), Err(other)) => status == other,
        _ => false,
    }
}

/// Whether what is to come of a row does.
fn comes(alloc: Global, row: &Given) -> Result<bool, NoMemory> {
    let (list, listing, table, call, want, text) = row;
    let mut files = MemFiles::new(alloc);
    let mut out = MemSink::new(alloc);
    files.add("t.txt", listing)?;
    files.add("x.2da", table)?;
    if let Some(number) = call {
        files.fail_at(*number)?;
    }
    let found = cell_of(alloc, *list, &mut files, &mut out);
    Ok(is_as(&found, want) && out.bytes() == *text)
}

#[test]
fn tables(rt: HostRuntime) -> Result<(), Fail> {
    for (place, row) in ROWS.iter().enumerate() {
        assert!(rt; comes(rt.alloc(), row)?, "row {place}");
    }
    Ok(())
}
