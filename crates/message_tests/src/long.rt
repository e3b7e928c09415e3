//! Faults behind thousands of tokens.

use command_messages::{End, tell_end};
use nwq_outside::{MemFiles, MemSink};
use nwq_value::NoMemory;
use std::alloc::Global;

/// The last lines of a script, the line of its refusal and what is said of it.
struct Row {
    last: &'static [u8],
    line: &'static [u8],
    said: &'static str,
}

const ROWS: &[Row] = &[
    Row {
        last: b"\nint n = \"a\";\n}\n",
        line: b"refused p.nss 3 4219 mismatch\n",
        said: "p.nss:3:5: error: the value has another type than `n`: string, where int is wanted \
            [mismatch]\nint n = \"a\";\n    ^\n",
    },
    Row {
        last: b"\nint = 1;\n}\n",
        line: b"refused p.nss 3 4219 syntax\n",
        said: "p.nss:3:5: error: `=` can't stand here; here could stand a name [syntax]\nint = 1;\n    \
            ^\n",
    },
];

/// A script with 4,200 empty statements before its last lines.
fn script(alloc: Global, last: &[u8]) -> Result<Vec<u8>, NoMemory> {
    let mut text = Vec::from_slice(alloc, b"void main() {\n")?;
    for _ in 0..4_200 {
        text.push(b';')?;
    }
    text.extend_from_slice(last)?;
    Ok(text)
}

fn words(alloc: Global) -> Result<Vec<String>, NoMemory> {
    let mut all = Vec::new(alloc);
    for word in ["nwq", "compile", "-", "p"] {
        all.push(String::from_str(alloc, word)?)?;
    }
    Ok(all)
}

fn is_told(alloc: Global, row: &Row) -> Result<bool, NoMemory> {
    let text = script(alloc, row.last)?;
    let words = words(alloc)?;
    let mut files = MemFiles::new(alloc);
    files.add("p.nss", text.as_slice())?;
    let mut err = MemSink::new(alloc);
    let end = End {
        number: 2,
        line: row.line,
        trouble: None,
        random_used_up: false,
        remarks: &[],
        names: &[],
        no_text: None,
    };
    tell_end(alloc, words.as_slice(), end, &mut files, &mut err);
    Ok(err.bytes() == row.said.as_bytes())
}

#[test]
fn behind_thousands_of_tokens(rt: HostRuntime) {
    let alloc = rt.alloc();
    assert!(rt;
        ROWS.iter()
            .all(|row| matches!(is_told(alloc, row), Ok(true)))
    );
}
