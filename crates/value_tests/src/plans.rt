//! Plans: what they list, and the first lines without a reading.

use nwq_text::put_number;
use nwq_value::NoMemory;
use plan_text::{Line, Plan, PlanFault, Script, read_plan};
use std::alloc::Global;
use std::test::Fail;

/// The first line without a reading, where there is one.
fn bad_line(alloc: Global, text: &[u8]) -> Result<Option<u64>, NoMemory> {
    match read_plan(alloc, text) {
        Ok(plan) => {
            drop(plan);
            Ok(None)
        }
        Err(PlanFault::Line(line)) => Ok(Some(line)),
        Err(PlanFault::NoMemory) => Err(NoMemory),
    }
}

/// Texts that are no plan, and their first line without a reading.
const BAD: &[(&[u8], u64)] = &[
    (b"", 1),
    (b"NWQ PLAN 9", 1),
    (b"NWQ PLAN 3", 1),
    (b"NWQ PLAN 21", 1),
    (b"\nNWQ PLAN 1\n", 1),
    (b"NWQ PLAN 1\nlimit 0\n", 2),
    (b"NWQ PLAN 1\nscript a\nscript a\n", 3),
    (b"NWQ PLAN 1\n\n; a\nscript a\nbinary a", 5),
    (b"NWQ PLAN 1\nlimit 5\nlimit 5\n", 3),
    (b"NWQ PLAN 1\nlimit 5\r", 2),
    (b"NWQ PLAN 1\nlimit 16777217\n", 2),
    (b"NWQ PLAN 1\nentries 0\n", 2),
    (b"NWQ PLAN 1\nentries 1000001\n", 2),
    (b"NWQ PLAN 1\nuntil 4294967296\n", 2),
    (b"NWQ PLAN 1\nuntil 00000000001\n", 2),
    (b"NWQ PLAN 1\nrandom 4294967296\n", 2),
    (b"NWQ PLAN 1\nrandom 1  2\n", 2),
    (b"NWQ PLAN 1\nrandom \n", 2),
    (b"NWQ PLAN 1\nscript A\n", 2),
    (b"NWQ PLAN 1\nscript abcdefghijklmnopq\n", 2),
    (b"NWQ PLAN 1\nevent 0 0 L\n", 2),
    (b"NWQ PLAN 1\nevent 4294967296 0 L \n", 2),
    (b"NWQ PLAN 1\nevent 0 2147483648 L \n", 2),
    (b"NWQ PLAN 1\nevent 0 0 12345678901234567 \n", 2),
    (b"NWQ PLAN 1\nevent 0 0 L \\x41\n", 2),
    (b"NWQ PLAN 1\nevent 0 - L\n", 2),
    (b"NWQ PLAN 1\nstart 0 - p t\n", 2),
    (b"NWQ PLAN 1\nstart 0 0 p\n", 2),
    (b"NWQ PLAN 1\nlimits 5\n", 2),
    (b"NWQ PLAN 1\nlimit\n", 2),
];

#[test]
fn bad_lines(rt: HostRuntime) -> Result<(), Fail> {
    for (place, (text, line)) in BAD.iter().enumerate() {
        assert_eq!(rt; bad_line(rt.alloc(), text)?, Some(*line), "text {place}");
    }
    Ok(())
}

/// A plan of so many lines, each with its number at its end.
fn numbered(alloc: Global, line: &[u8], count: u32) -> Result<Vec<u8>, NoMemory> {
    let mut text = Vec::from_slice(alloc, b"NWQ PLAN 1")?;
    for number in 0..count {
        text.push(b'\n')?;
        text.extend_from_slice(line)?;
        put_number(&mut text, i64::from(number))?;
    }
    Ok(text)
}

/// A plan of many lines of one kind.
#[derive(Clone, Copy)]
struct Many {
    line: &'static [u8],
    count: u32,
    /// The first line without a reading, where there is one.
    bad: Option<u64>,
}

const MANY: &[Many] = &[
    Many {
        line: b"script s",
        count: 256,
        bad: None,
    },
    Many {
        line: b"script s",
        count: 257,
        bad: Some(258),
    },
    Many {
        line: b"random 1",
        count: 65_536,
        bad: None,
    },
    Many {
        line: b"random 1",
        count: 65_537,
        bad: Some(65_538),
    },
    Many {
        line: b"start 0 - p",
        count: 65_536,
        bad: None,
    },
    Many {
        line: b"start 0 - p",
        count: 65_537,
        bad: Some(65_538),
    },
];

#[test]
fn most_lines(rt: HostRuntime) -> Result<(), Fail> {
    for (place, many) in MANY.iter().enumerate() {
        let text = numbered(rt.alloc(), many.line, many.count)?;
        let found = bad_line(rt.alloc(), text.as_slice())?;
        assert_eq!(rt; found, many.bad, "plan {place}");
    }
    Ok(())
}

/// A line of a plan, with its time first.
#[derive(Clone, Copy)]
enum Due {
    /// The number of the object, the label and the tag.
    Event(u64, u32, &'static [u8], &'static [u8]),
    /// The number of the object, the script and the tag.
    Start(u64, u32, &'static [u8], &'static [u8]),
    /// The script.
    Free(u64, &'static [u8]),
}

/// What a plan lists.
#[derive(Clone, Copy)]
struct Listing {
    text: &'static [u8],
    version: u8,
    limit: u64,
    entries: u64,
    until: u64,
    random: &'static [u32],
    /// Their names, and whether they are binaries.
    scripts: &'static [(&'static [u8], bool)],
    events: &'static [Due],
}

/// A plan of its heading alone, and one with lines of each kind.
const LISTINGS: &[Listing] = &[
    Listing {
        text: b"NWQ PLAN 1",
        version: 1,
        limit: 131_072,
        entries: 10_000,
        until: 60_000,
        random: &[],
        scripts: &[],
        events: &[],
    },
    Listing {
        text: b"NWQ PLAN 2\r\n; all\n\nlimit 16777216\nentries 1000000\r\n\
            until 4294967295\nrandom 0 4294967295\nrandom 07\nscript a_0\nbinary b\n\
            event 1 2147483647 ScriptHeartbeat \\\\\\n\nevent 0 0 L \nstart 2 3 p t u\n\
            start 4294967295 - p",
        version: 2,
        limit: 16_777_216,
        entries: 1_000_000,
        until: 4_294_967_295,
        random: &[0, 4_294_967_295, 7],
        scripts: &[(b"a_0", false), (b"b", true)],
        events: &[
            Due::Event(1, 2_147_483_647, b"ScriptHeartbeat", b"\\\n"),
            Due::Event(0, 0, b"L", b""),
            Due::Start(2, 3, b"p", b"t u"),
            Due::Free(4_294_967_295, b"p"),
        ],
    },
];

fn are_scripts(scripts: &[Script], names: &[(&[u8], bool)]) -> bool {
    for (script, (name, binary)) in scripts.iter().zip(names) {
        if script.name.bytes() != *name || script.binary != *binary {
            return false;
        }
    }
    scripts.len() == names.len()
}

fn is_due(line: &Line, wanted: Due) -> bool {
    match (line, wanted) {
        (
            Line::Event {
                due,
                nth,
                label,
                tag,
            },
            Due::Event(at, n, its_label, its_tag),
        ) => { *due == at && *nth == n && label.bytes() == its_label && tag.bytes() == its_tag }
        (
            Line::Start {
                due,
                nth,
                name,
                tag,
            },
            Due::Start(at, n, its_name, its_tag),
        ) => { *due == at && *nth == n && name.bytes() == its_name && tag.bytes() == its_tag }
        (Line::Free { due, name }, Due::Free(at, its_name)) => {
            *due == at && name.bytes() == its_name
        }
        _ => false,
    }
}

fn are_due(lines: &[Line], wanted: &[Due]) -> bool {
    for (line, due) in lines.iter().zip(wanted) {
        if !is_due(line, *due) {
            return false;
        }
    }
    lines.len() == wanted.len()
}

fn has(plan: &Plan, listing: &Listing) -> bool {
    plan.version == listing.version
        && plan.limit == listing.limit
        && plan.entries == listing.entries
        && plan.until == listing.until
        && plan.random.as_slice() == listing.random
        && are_scripts(plan.scripts.as_slice(), listing.scripts)
        && are_due(plan.events.as_slice(), listing.events)
}

/// Whether a text is read as the plan that it is.
fn is_read(alloc: Global, listing: &Listing) -> bool {
    match read_plan(alloc, listing.text) {
        Err(_) => false,
        Ok(plan) => {
            let is = has(&plan, listing);
            drop(plan);
            is
        }
    }
}

#[test]
fn plans_are_read(rt: HostRuntime) {
    for (place, listing) in LISTINGS.iter().enumerate() {
        assert!(rt; is_read(rt.alloc(), listing), "plan {place}");
    }
}
