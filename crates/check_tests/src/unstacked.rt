//! Files that are not well stacked.
use crate::files::{Verdict, first_other};
use std::test::*;

const PLAIN: &[&[u8]] = &[
    // No instruction at all.
    b"",
    // Off the end.
    b"NOP 00\n",
    b"ADD 21\nRETN 00\n",
    // Beneath the window.
    b"CPTOPSP 01 -4 4\nRETN 00\n",
    b"RSADD 03\nCPTOPSP 01 -8 4\nRETN 00\n",
    b"MOVSP 00 -4\nRETN 00\n",
    b"MOVSP 00 4\nRETN 00\n",
    b"RSADD 03\nRSADD 03\nMOVSP 00 -6\nRETN 00\n",
    // The place to which a jump leads.
    b"JMP 00 @21\nRETN 00\nADD 20\nRETN 00\n",
    b"RSADD 05\nJZ 00 @21\nRETN 00\n",
    b"RSADD 03\nRSADD 05\nEQUAL 20\nRETN 00\n",
    b"RSADD 03\nRSADD 05\nRSADD 06\nDESTRUCT 01 8 8 4\nRETN 00\n",
    b"RSADD 03\nRSADD 05\nCPDOWNSP 01 -8 4\nRETN 00\n",
    b"RSADD 04\nRETN 00\n",
];

const JOINS: &[&[u8]] = &[
    // Two ways with other types, or another depth.
    b"CONST 03 1\nJZ 00 @33\nRSADD 03\nJMP 00 @35\nRSADD 05\nRETN 00\n",
    b"CONST 03 1\nJZ 00 @27\nRSADD 03\nRETN 00\n",
    b"RSADD 03\nJMP 00 @13\n",
    // Another list beneath BP, another saved one, another number of pending states.
    b"CONST 03 1\nJZ 00 @35\nSAVEBP 00\nRSADD 03\nJMP 00 @39\nRSADD 03\nSAVEBP 00\nRETN 00\n",
    b"CONST 03 1\nJZ 00 @41\nSTORE_STATE 10 0 0\nJMP 00 @41\nRETN 00\nRETN 00\n",
];

const ROUTINES: &[&[u8]] = &[
    // A routine is called from two stacks, and one of them has no int on top.
    b"RSADD 03\nJSR 00 @31\nRSADD 05\nJSR 00 @31\nRETN 00\nINCISP 03 -4\nRETN 00\n",
    b"JSR 00 @21\nRETN 00\nINCISP 03 -4\nRETN 00\n",
    // It gives different cells.
    b"RSADD 03\nJSR 00 @23\nRETN 00\nCPTOPSP 01 -4 4\nJZ 00 @39\nRETN 00\nRSADD 03\nRETN 00\n",
    // It returns with a list saved, or with a state pending.
    b"JSR 00 @21\nRETN 00\nSAVEBP 00\nRETN 00\n",
    b"JSR 00 @21\nRETN 00\nSTORE_STATE 10 0 0\nJMP 00 @39\nRETN 00\nRETN 00\n",
    // It reads a global where its first caller has none.
    b"RSADD 03\nJSR 00 @39\nSAVEBP 00\nJSR 00 @39\nRESTOREBP 00\nMOVSP 00 -4\nRETN 00\n\
      CPTOPBP 01 -4 4\nMOVSP 00 -4\nRETN 00\n",
    // What it leaves is not what its caller takes.
    b"JSR 00 @27\nMOVSP 00 -4\nRETN 00\nRETN 00\n",
    // A recursion that takes a cell off with each call.
    b"RSADD 03\nRSADD 03\nJSR 00 @25\nRETN 00\nMOVSP 00 -4\nJSR 00 @25\nRETN 00\n",
];

const BASES: &[&[u8]] = &[
    b"SAVEBP 00\nCPTOPSP 01 -4 4\nRETN 00\n",
    b"SAVEBP 00\nMOVSP 00 -4\nRETN 00\n",
    b"RESTOREBP 00\nRETN 00\n",
    b"SAVEBP 00\nCPTOPBP 01 -4 4\nRETN 00\n",
    b"RSADD 03\nSAVEBP 00\nRSADD 05\nCPDOWNBP 01 -4 4\nRETN 00\n",
    // A routine can't end what its caller saved.
    b"SAVEBP 00\nJSR 00 @23\nRETN 00\nRESTOREBP 00\nRETN 00\n",
];

const STATES: &[&[u8]] = &[
    b"SAVEBP 00\nSTORE_STATE 10 0 4\nJMP 00 @33\nRETN 00\nRETN 00\n",
    b"STORE_STATE 10 4 0\nJMP 00 @31\nRETN 00\nRETN 00\n",
    b"STORE_STATE 10 0 2\nJMP 00 @31\nRETN 00\nRETN 00\n",
    // The stored code prints its text as an int.
    b"RSADD 03\nSAVEBP 00\nRSADD 05\nSTORE_STATE 10 4 4\nJMP 00 @50\n\
      CPTOPSP 01 -4 4\nACTION 00 4 1\nRETN 00\n\
      CONST 06 0\nACTION 00 6 2\nMOVSP 00 -4\nRESTOREBP 00\nMOVSP 00 -4\nRETN 00\n",
    // The stored code reaches beneath what was stored.
    b"RSADD 03\nSTORE_STATE 10 0 0\nJMP 00 @39\nINCISP 03 -8\nRETN 00\nRETN 00\n",
];

const CALLS: &[&[u8]] = &[
    // The arguments in the other order.
    b"CONST 05 \"a\"\nCONST 06 0\nACTION 00 8 2\nRETN 00\n",
    b"CONST 03 1\nACTION 00 4 2\nRETN 00\n",
    b"ACTION 00 2 3\nRETN 00\n",
    b"ACTION 00 999 0\nRETN 00\n",
    // No state is pending.
    b"CONST 06 0\nACTION 00 6 2\nRETN 00\n",
];

#[test]
fn plain_files(rt: HostRuntime) -> Result<(), Fail> {
    assert_eq!(rt;
        first_other(rt.alloc(), PLAIN, Verdict::Unstacked)?,
        PLAIN.len()
    );
    Ok(())
}

#[test]
fn joins(rt: HostRuntime) -> Result<(), Fail> {
    assert_eq!(rt;
        first_other(rt.alloc(), JOINS, Verdict::Unstacked)?,
        JOINS.len()
    );
    Ok(())
}

#[test]
fn routines(rt: HostRuntime) -> Result<(), Fail> {
    assert_eq!(rt;
        first_other(rt.alloc(), ROUTINES, Verdict::Unstacked)?,
        ROUTINES.len()
    );
    Ok(())
}

#[test]
fn bases(rt: HostRuntime) -> Result<(), Fail> {
    assert_eq!(rt;
        first_other(rt.alloc(), BASES, Verdict::Unstacked)?,
        BASES.len()
    );
    Ok(())
}

#[test]
fn states(rt: HostRuntime) -> Result<(), Fail> {
    assert_eq!(rt;
        first_other(rt.alloc(), STATES, Verdict::Unstacked)?,
        STATES.len()
    );
    Ok(())
}

#[test]
fn calls(rt: HostRuntime) -> Result<(), Fail> {
    assert_eq!(rt;
        first_other(rt.alloc(), CALLS, Verdict::Unstacked)?,
        CALLS.len()
    );
    Ok(())
}
