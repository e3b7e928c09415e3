//! Why files are refused, in whole sentences.
use engine_table::built_in;
use message_stacks::put_why;
use ncs_text::assemble;
use nwq_value::{FILE_BYTES, NoMemory, Table};
use std::alloc::Global;
use std::test::*;

/// A text of a file, and the sentence that tells why it is refused.
#[derive(Clone, Copy)]
struct Told {
    text: &'static [u8],
    sentence: &'static [u8],
}

const PLAIN: &[Told] = &[
    Told {
        text: b"NOP 00\n",
        sentence: b"at offset 15, behind the last instruction: no instruction begins there; in the \
            script's start",
    },
    Told {
        text: b"ADD 21\nRETN 00\n",
        sentence: b"at offset 13, ADD of two floats: floats are left out of this profile; in the \
            script's start",
    },
    Told {
        text: b"RSADD 03\nCPTOPSP 01 -8 4\nRETN 00\n",
        sentence: b"at offset 15, CPTOPSP: it reaches 2 cells down, and 1 is there; in the \
            script's start",
    },
    Told {
        text: b"MOVSP 00 -4\nRETN 00\n",
        sentence: b"at offset 13, MOVSP: it takes 1 cell, and 0 are there; in the script's start",
    },
    Told {
        text: b"RSADD 05\nJZ 00 @21\nRETN 00\n",
        sentence: b"at offset 15, JZ: it takes an int, and the top cell is string; in the script's \
            start",
    },
    Told {
        text: b"RSADD 03\nRSADD 05\nADD 20\nRETN 00\n",
        sentence: b"at offset 17, ADD of two ints: the top two cells are string, int; in the \
            script's start",
    },
    Told {
        text: b"RSADD 03\nRSADD 05\nCPDOWNSP 01 -8 4\nRETN 00\n",
        sentence: b"at offset 17, CPDOWNSP: it writes string over int, cell 2 from the top; in the \
            script's start",
    },
];

const ROUTINES: &[Told] = &[
    Told {
        text: b"RSADD 03\nJSR 00 @31\nRSADD 05\nJSR 00 @31\nRETN 00\nINCISP 03 -4\nRETN 00\n",
        sentence: b"at offset 31, INCISP: it changes an int, and cell 1 from the top is string; in \
            the routine at 31, called at 23",
    },
    Told {
        text: b"RSADD 03\nJSR 00 @23\nRETN 00\nCPTOPSP 01 -4 4\nJZ 00 @39\nRETN 00\nRSADD 03\n\
            RETN 00\n",
        sentence: b"at offset 41, RETN: it leaves other cells than the RETN at 37: cell 2 from the \
            top is int on one and isn't there on the other; in the routine at 23, called at 15",
    },
    Told {
        text: b"JSR 00 @21\nRETN 00\nSAVEBP 00\nRETN 00\n",
        sentence: b"at offset 23, RETN: the routine ends with a base that no RESTOREBP has taken \
            off; in the routine at 21, called at 13",
    },
    Told {
        text: b"JSR 00 @21\nRETN 00\nSTORE_STATE 10 0 0\nJMP 00 @39\nRETN 00\nRETN 00\n",
        sentence: b"at offset 39, RETN: the routine ends with a stored state that no ACTION has \
            taken; in the routine at 21, called at 13",
    },
    Told {
        text: b"JSR 00 @27\nMOVSP 00 -4\nRETN 00\nRETN 00\n",
        sentence: b"at offset 19, MOVSP: it takes 1 cell, and 0 are there; in the script's start",
    },
    // A recursion that takes a cell off with each call.
    Told {
        text: b"RSADD 03\nRSADD 03\nJSR 00 @25\nRETN 00\nMOVSP 00 -4\nJSR 00 @25\nRETN 00\n",
        sentence: b"at offset 25, MOVSP: it takes 1 cell, and 0 are there; in the routine at 25, \
            called at 31",
    },
];

const JOINS: &[Told] = &[
    Told {
        text: b"CONST 03 1\nJZ 00 @33\nRSADD 03\nJMP 00 @35\nRSADD 05\nRETN 00\n",
        sentence: b"at offset 35, RETN: two ways come here with other cells: cell 1 from the top \
            is int on one and is string on the other; in the script's start",
    },
    Told {
        text: b"RSADD 03\nJMP 00 @13\n",
        sentence: b"at offset 13, RSADD of an int: two ways come here with other cells: cell 1 \
            from the top isn't there on one and is int on the other; in the script's start",
    },
];

const CALLS: &[Told] = &[
    Told {
        text: b"CONST 05 \"a\"\nCONST 06 0\nACTION 00 8 2\nRETN 00\n",
        sentence: b"at offset 24, ACTION: ExecuteScript takes string, object, and the code gives \
            object, string; in the script's start",
    },
    Told {
        text: b"CONST 03 1\nACTION 00 4 2\nRETN 00\n",
        sentence: b"at offset 19, ACTION: PrintInteger takes 1 argument, and the code gives 2; in \
            the script's start",
    },
    Told {
        text: b"ACTION 00 999 0\nRETN 00\n",
        sentence: b"at offset 13, ACTION: the header has no routine 999; in the script's start",
    },
    Told {
        text: b"CONST 06 0\nACTION 00 6 2\nRETN 00\n",
        sentence: b"at offset 19, ACTION: AssignCommand takes an action, and no STORE_STATE has \
            stored one; in the script's start",
    },
];

const OTHERS: &[Told] = &[
    Told {
        text: b"RESTOREBP 00\nRETN 00\n",
        sentence: b"at offset 13, RESTOREBP: it takes a base, and no cell is there; in the \
            script's start",
    },
    Told {
        text: b"SAVEBP 00\nMOVSP 00 -4\nRETN 00\n",
        sentence: b"at offset 15, MOVSP: cell 1 from the top is a base; in the script's start",
    },
    Told {
        text: b"RSADD 03\nSTORE_STATE 10 0 0\nJMP 00 @39\nINCISP 03 -8\nRETN 00\nRETN 00\n",
        sentence: b"at offset 31, INCISP: it reaches 2 cells down, and 1 is there; in what the \
            STORE_STATE at 15 stores",
    },
];

fn file_of(alloc: Global, text: &[u8]) -> Option<Vec<u8>> {
    if text.len() > FILE_BYTES {
        return None;
    }
    match assemble(alloc, text) {
        Err(_) => None,
        Ok(file) => Some(file),
    }
}

fn is_told(alloc: Global, table: &Table, told: &Told) -> Result<bool, NoMemory> {
    match file_of(alloc, told.text) {
        None => Ok(false),
        Some(file) => {
            let mut out = Vec::new(alloc);
            let found = put_why(alloc, file.as_slice(), table, &mut out)?;
            Ok(found && out.as_slice() == told.sentence)
        }
    }
}

/// Whether the text is a file of which nothing is told.
fn is_silent(alloc: Global, table: &Table, text: &[u8]) -> Result<bool, NoMemory> {
    match file_of(alloc, text) {
        None => Ok(false),
        Some(file) => {
            let mut out = Vec::new(alloc);
            let found = put_why(alloc, file.as_slice(), table, &mut out)?;
            Ok(!found && out.is_empty())
        }
    }
}

/// The number of the first text with another sentence, counted from 0, or their count.
fn first_other(alloc: Global, rows: &[Told]) -> Result<usize, NoMemory> {
    let table = built_in(alloc)?;
    for (i, told) in rows.iter().enumerate() {
        if !is_told(alloc, &table, told)? {
            return Ok(i);
        }
    }
    Ok(rows.len())
}

#[test]
fn plain_sentences(rt: HostRuntime) -> Result<(), Fail> {
    assert_eq!(rt; first_other(rt.alloc(), PLAIN)?, PLAIN.len());
    Ok(())
}

#[test]
fn sentences_of_routines(rt: HostRuntime) -> Result<(), Fail> {
    assert_eq!(rt; first_other(rt.alloc(), ROUTINES)?, ROUTINES.len());
    Ok(())
}

#[test]
fn sentences_of_joins(rt: HostRuntime) -> Result<(), Fail> {
    assert_eq!(rt; first_other(rt.alloc(), JOINS)?, JOINS.len());
    Ok(())
}

#[test]
fn sentences_of_calls(rt: HostRuntime) -> Result<(), Fail> {
    assert_eq!(rt; first_other(rt.alloc(), CALLS)?, CALLS.len());
    Ok(())
}

#[test]
fn other_sentences(rt: HostRuntime) -> Result<(), Fail> {
    assert_eq!(rt; first_other(rt.alloc(), OTHERS)?, OTHERS.len());
    Ok(())
}

/// What passes has no sentence, and so has a routine that calls itself for ever.
#[test]
fn nothing_told(rt: HostRuntime) -> Result<(), Fail> {
    let table = built_in(rt.alloc())?;
    let texts: [&[u8]; 2] = [
        b"RETN 00\n",
        b"RSADD 03\nRSADD 03\nJSR 00 @25\nRETN 00\nRSADD 03\nJSR 00 @25\nRETN 00\n",
    ];
    for text in texts {
        assert!(rt; is_silent(rt.alloc(), &table, text)?);
    }
    Ok(())
}
