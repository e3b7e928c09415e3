//! Messages on lines of plans, of lists of tables, of 2DA files and of assembler texts.

use crate::rows::{Refused, first_untold};
use std::test::Fail;

/// Words that give a plan and a list of tables.
const PLAY: &[&str] = &["nwq", "play", "-", "a.git", "a.plan", "b.git", "t.txt"];

const ASSEMBLE: &[&str] = &["nwq", "asm", "a.txt", "a.ncs"];

const PLANS: &[Refused] = &[
    Refused {
        bytes: b"NWQ PLAN 3\n",
        line: b"refused a.plan line 1\n",
        said: "a.plan:1:10: error: `3` is no version of plans: there are 1 and 2 [line]\nNWQ PLAN \
            3\n         ^\n",
    },
    Refused {
        bytes: b"nwq plan 1\n",
        line: b"refused a.plan line 1\n",
        said: "a.plan:1:1: error: a plan begins with the line `NWQ PLAN 1` or `NWQ PLAN 2`, with \
            nothing before it [line]\nnwq plan 1\n^\n",
    },
    Refused {
        bytes: b"\xef\xbb\xbfNWQ PLAN 1\n",
        line: b"refused a.plan line 1\n",
        said: "a.plan:1:1: error: the file begins with the mark of a byte order; a plan begins \
            with `NWQ PLAN 1` or `NWQ PLAN 2` [line]\n\u{feff}NWQ PLAN 1\n^\n",
    },
    Refused {
        bytes: b"NWQ PLAN 1\nlimit 0\n",
        line: b"refused a.plan line 2\n",
        said: "a.plan:2:7: error: `0` is no limit of instructions: 1 to 16,777,216, in digits \
            [line]\nlimit 0\n      ^\n",
    },
    Refused {
        bytes: b"NWQ PLAN 1\nentries 9\n; again\nentries 9\n",
        line: b"refused a.plan line 4\n",
        said: "a.plan:4:1: error: `entries` is given once at most, and stands in line 2 \
            [line]\nentries 9\n^\n",
    },
    Refused {
        bytes: b"NWQ PLAN 1\nentries 1000001\n",
        line: b"refused a.plan line 2\n",
        said: "a.plan:2:9: error: `1000001` is no limit of entries: 1 to 1,000,000, in digits \
            [line]\nentries 1000001\n        ^\n",
    },
    Refused {
        bytes: b"NWQ PLAN 1\nuntil soon\n",
        line: b"refused a.plan line 2\n",
        said: "a.plan:2:7: error: `soon` is no time: milliseconds of 0 to 4,294,967,295, in digits \
            [line]\nuntil soon\n      ^\n",
    },
    Refused {
        bytes: b"NWQ PLAN 1\nuntil 5 6\n",
        line: b"refused a.plan line 2\n",
        said: "a.plan:2:9: error: `6` is one field too many [line]\nuntil 5 6\n        ^\n",
    },
    Refused {
        bytes: b"NWQ PLAN 1\nlimit\n",
        line: b"refused a.plan line 2\n",
        said: "a.plan:2:6: error: a number follows `limit` and a blank [line]\nlimit\n     ^\n",
    },
    Refused {
        bytes: b"NWQ PLAN 1\nrandom 1 x 3\n",
        line: b"refused a.plan line 2\n",
        said: "a.plan:2:10: error: `x` is no random number: 0 to 4,294,967,295, in digits \
            [line]\nrandom 1 x 3\n         ^\n",
    },
    Refused {
        bytes: b"NWQ PLAN 1\nscripts p\n",
        line: b"refused a.plan line 2\n",
        said: "a.plan:2:1: error: `scripts` begins no line of a plan: limit, entries, until, \
            random, script, binary, event, start and `;` do [line]\nscripts p\n^\n",
    },
    Refused {
        bytes: b"NWQ PLAN 1\nscript p.nss\n",
        line: b"refused a.plan line 2\n",
        said: "a.plan:2:8: error: `p.nss` is no name of a script: 1 to 16 of a to z, 0 to 9 and \
            `_`, without `.nss` [line]\nscript p.nss\n       ^\n",
    },
    Refused {
        bytes: b"NWQ PLAN 1\nscript p\nbinary p\n",
        line: b"refused a.plan line 3\n",
        said: "a.plan:3:8: error: `p` is listed already, in line 2 [line]\nbinary p\n       ^\n",
    },
    Refused {
        bytes: b"NWQ PLAN 1\nevent 2.5 0 OnUsed A\n",
        line: b"refused a.plan line 2\n",
        said: "a.plan:2:7: error: `2.5` is no time: milliseconds of 0 to 4,294,967,295, in digits \
            [line]\nevent 2.5 0 OnUsed A\n      ^\n",
    },
    Refused {
        bytes: b"NWQ PLAN 1\nevent 5 -1 OnUsed A\n",
        line: b"refused a.plan line 2\n",
        said: "a.plan:2:9: error: `-1` is no number of an object: 0 for the first with the tag, up \
            to 2,147,483,647 [line]\nevent 5 -1 OnUsed A\n        ^\n",
    },
    Refused {
        bytes: b"NWQ PLAN 1\nevent 5 0 OnUserDefinedXYZW A\n",
        line: b"refused a.plan line 2\n",
        said: "a.plan:2:11: error: `OnUserDefinedXYZW` is no label of a field: it has 1 to 16 \
            bytes [line]\nevent 5 0 OnUserDefinedXYZW A\n          ^\n",
    },
    Refused {
        bytes: b"NWQ PLAN 1\nevent 5 0 OnUsed\n",
        line: b"refused a.plan line 2\n",
        said: "a.plan:2:17: error: a blank and a tag end this line [line]\nevent 5 0 \
            OnUsed\n                ^\n",
    },
    Refused {
        bytes: b"NWQ PLAN 1\nstart 5 0 Open A\n",
        line: b"refused a.plan line 2\n",
        said: "a.plan:2:11: error: `Open` is no name of a script: 1 to 16 of a to z, 0 to 9 and \
            `_`, without `.nss` [line]\nstart 5 0 Open A\n          ^\n",
    },
    Refused {
        bytes: b"NWQ PLAN 1\nstart 5 - open A\n",
        line: b"refused a.plan line 2\n",
        said: "a.plan:2:16: error: `A` is one field too many [line]\nstart 5 - open \
            A\n               ^\n",
    },
    Refused {
        bytes: b"NWQ PLAN 1\nlimit  4\n",
        line: b"refused a.plan line 2\n",
        said: "a.plan:2:7: error: two blanks stand here, and one parts fields [line]\nlimit  \
            4\n      ^\n",
    },
    Refused {
        bytes: b"NWQ PLAN 1\n limit 4\n",
        line: b"refused a.plan line 2\n",
        said: "a.plan:2:1: error: a blank stands at the beginning of this line [line]\n limit \
            4\n^\n",
    },
    Refused {
        bytes: b"NWQ PLAN 1\nlimit 4 \n",
        line: b"refused a.plan line 2\n",
        said: "a.plan:2:8: error: a blank stands at the end of this line [line]\nlimit 4 \n       \
            ^\n",
    },
];

const LISTS: &[Refused] = &[
    Refused {
        bytes: b"Prices\n",
        line: b"refused t.txt line 1\n",
        said: "t.txt:1:1: error: `Prices` is no name of a table: 1 to 16 of a to z, 0 to 9 and \
            `_`, without `.2da` [line]\nPrices\n^\n",
    },
    Refused {
        bytes: b"a\n\nb\n",
        line: b"refused t.txt line 2\n",
        said: "t.txt:2:1: error: this line is empty, and each names a table [line]\n\n^\n",
    },
    Refused {
        bytes: b"a\nb\na\n",
        line: b"refused t.txt line 3\n",
        said: "t.txt:3:1: error: `a` stands here again, and before in line 1 [line]\na\n^\n",
    },
    Refused {
        bytes: b"\xef\xbb\xbfa\n",
        line: b"refused t.txt line 1\n",
        said: "t.txt:1:1: error: the file begins with the mark of a byte order, which is no part \
            of a name [line]\n\u{feff}a\n^\n",
    },
];

const TABLES: &[Refused] = &[
    Refused {
        bytes: b"2DA V1.0\n",
        line: b"refused x.2da line 1\n",
        said: "x.2da:1:1: error: a 2DA file begins with the line `2DA V2.0` [line]\n2DA V1.0\n^\n",
    },
    Refused {
        bytes: b"2DA V2.0\n\n\n",
        line: b"refused x.2da line 3\n",
        said: "x.2da:3:1: error: the third line names the columns, and no name stands here \
            [line]\n\n^\n",
    },
    Refused {
        bytes: b"2DA V2.0\n\n A a\n",
        line: b"refused x.2da line 3\n",
        said: "x.2da:3:1: error: two columns have one name, in upper or lower case, or there are \
            more than 1,024 [line]\n A a\n^\n",
    },
    Refused {
        bytes: b"2DA V2.0\n\n A\n0 \"b\n",
        line: b"refused x.2da line 4\n",
        said: "x.2da:4:3: error: this quote isn't closed on its line [line]\n0 \"b\n  ^\n",
    },
    Refused {
        bytes: b"2DA V2.0\n\n A\n0 b c\n",
        line: b"refused x.2da line 4\n",
        said: "x.2da:4:1: error: this row has more cells than there are columns, or is number \
            65,537 [line]\n0 b c\n^\n",
    },
];

const CODES: &[Refused] = &[
    Refused {
        bytes: b"RSADD 03\nMOVESP 00 -4\n",
        line: b"refused a.txt line 2\n",
        said: "a.txt:2:1: error: `MOVESP` is no name of an instruction [line]\nMOVESP 00 -4\n^\n",
    },
    Refused {
        bytes: b"RSADD\n",
        line: b"refused a.txt line 1\n",
        said: "a.txt:1:6: error: a blank and a type byte follow the name of an instruction \
            [line]\nRSADD\n     ^\n",
    },
    Refused {
        bytes: b"RSADD 77\n",
        line: b"refused a.txt line 1\n",
        said: "a.txt:1:7: error: the instruction takes another type byte, or other arguments \
            behind `77` [line]\nRSADD 77\n      ^\n",
    },
    Refused {
        bytes: b"RSADD  03\n",
        line: b"refused a.txt line 1\n",
        said: "a.txt:1:7: error: two blanks stand here, and one parts fields [line]\nRSADD  \
            03\n      ^\n",
    },
    Refused {
        bytes: b"JMP 00 @14\nRETN 00\n",
        line: b"refused a.txt target 1\n",
        said: "a.txt:1:1: error: this instruction leads to no beginning of one [target]\nJMP 00 \
            @14\n^\n",
    },
];

#[test]
fn plans(rt: HostRuntime) -> Result<(), Fail> {
    assert_eq!(rt; first_untold(rt.alloc(), PLAY, "a.plan", 4, PLANS)?, None);
    Ok(())
}

#[test]
fn lists(rt: HostRuntime) -> Result<(), Fail> {
    assert_eq!(rt; first_untold(rt.alloc(), PLAY, "t.txt", 4, LISTS)?, None);
    Ok(())
}

#[test]
fn tables(rt: HostRuntime) -> Result<(), Fail> {
    assert_eq!(rt; first_untold(rt.alloc(), PLAY, "x.2da", 4, TABLES)?, None);
    Ok(())
}

#[test]
fn codes(rt: HostRuntime) -> Result<(), Fail> {
    assert_eq!(rt;
        first_untold(rt.alloc(), ASSEMBLE, "a.txt", 3, CODES)?,
        None
    );
    Ok(())
}
