//! Files that are well stacked.
use crate::files::{Verdict, first_other};
use std::test::*;

const PLAIN: &[&[u8]] = &[
    b"RETN 00\n",
    // What is never reached is not asked.
    b"RETN 00\nADD 21\n",
    b"MOVSP 00 0\nRETN 00\n",
    // Two runs of no cells.
    b"EQUAL 24 0\nMOVSP 00 -4\nRETN 00\n",
    b"RSADD 03\nRSADD 05\nRSADD 06\nDESTRUCT 01 12 4 4\nMOVSP 00 -4\nRETN 00\n",
    // Nothing is kept.
    b"RSADD 03\nDESTRUCT 01 4 0 0\nRETN 00\n",
    // A script ends with whatever is on its stack.
    b"RSADD 03\nRSADD 05\nRETN 00\n",
    // Two ways with the same types.
    b"CONST 03 1\nJZ 00 @33\nRSADD 03\nJMP 00 @35\nRSADD 03\nRETN 00\n",
    // A loop.
    b"CONST 03 1\nCPTOPSP 01 -4 4\nJZ 00 @45\nDECISP 03 -4\nJMP 00 @19\nMOVSP 00 -4\nRETN 00\n",
    b"CONST 05 \"a\"\nCONST 05 \"b\"\nADD 23\nACTION 00 1 1\nRETN 00\n",
];

const ROUTINES: &[&[u8]] = &[
    // A recursion with the int of its caller.
    b"RSADD 03\nJSR 00 @29\nMOVSP 00 -4\nRETN 00\n\
      CPTOPSP 01 -4 4\nJZ 00 @49\nJSR 00 @29\nRETN 00\n",
    // Recursions that never return, and code behind them that is never reached.
    b"JSR 00 @21\nRETN 00\nJSR 00 @21\nRETN 00\n",
    b"JSR 00 @21\nRETN 00\nJMP 00 @21\n",
    b"JSR 00 @21\nADD 21\nJMP 00 @21\n",
    // Each call of the recursion stands on a higher stack.
    b"JSR 00 @21\nRETN 00\nRSADD 03\nJSR 00 @21\nMOVSP 00 -4\nRETN 00\n",
    b"JSR 00 @21\nRETN 00\nCONST 03 1\nJZ 00 @47\nRSADD 05\nJSR 00 @21\n\
      MOVSP 00 -4\nRETN 00\n",
    // A routine that is called from two stacks.
    b"RSADD 03\nJSR 00 @39\nRSADD 05\nRSADD 03\nJSR 00 @39\nMOVSP 00 -12\nRETN 00\n\
      INCISP 03 -4\nRETN 00\n",
    // A result in a cell of the caller.
    b"RSADD 03\nJSR 00 @29\nMOVSP 00 -4\nRETN 00\n\
      CONST 03 5\nCPDOWNSP 01 -8 4\nMOVSP 00 -4\nRETN 00\n",
    // Two routines that call one another.
    b"JSR 00 @21\nRETN 00\nCONST 03 0\nJZ 00 @39\nJSR 00 @41\nRETN 00\nJSR 00 @21\nRETN 00\n",
    // A routine that no one calls may be anything.
    b"RETN 00\nMOVSP 00 -4\nRETN 00\n",
];

const BASES: &[&[u8]] = &[
    b"SAVEBP 00\nRESTOREBP 00\nRETN 00\n",
    b"SAVEBP 00\nSAVEBP 00\nRESTOREBP 00\nRESTOREBP 00\nRETN 00\n",
    b"RSADD 03\nSAVEBP 00\nCPTOPBP 01 -4 4\nMOVSP 00 -4\nRESTOREBP 00\nMOVSP 00 -4\nRETN 00\n",
    b"RSADD 03\nSAVEBP 00\nRSADD 03\nCPDOWNBP 01 -4 4\nRETN 00\n",
    // A routine reads the global of its caller.
    b"RSADD 03\nSAVEBP 00\nJSR 00 @33\nRESTOREBP 00\nMOVSP 00 -4\nRETN 00\n\
      CPTOPBP 01 -4 4\nMOVSP 00 -4\nRETN 00\n",
    // A routine with globals of its own, which leaves those of its caller.
    b"RSADD 03\nSAVEBP 00\nJSR 00 @33\nINCIBP 03 -4\nRESTOREBP 00\nRETN 00\nRETN 00\n\
      RSADD 05\nSAVEBP 00\nRESTOREBP 00\nMOVSP 00 -4\nRETN 00\n",
];

const STATES: &[&[u8]] = &[
    b"STORE_STATE 10 0 0\nJMP 00 @31\nRETN 00\nRETN 00\n",
    // A captured global and a local; the stored code prints either.
    b"RSADD 03\nSAVEBP 00\nRSADD 05\nSTORE_STATE 10 4 4\nJMP 00 @50\n\
      CPTOPBP 01 -4 4\nACTION 00 4 1\nRETN 00\n\
      CONST 06 0\nACTION 00 6 2\nMOVSP 00 -4\nRESTOREBP 00\nMOVSP 00 -4\nRETN 00\n",
    b"RSADD 03\nSAVEBP 00\nRSADD 05\nSTORE_STATE 10 4 4\nJMP 00 @50\n\
      CPTOPSP 01 -4 4\nACTION 00 1 1\nRETN 00\n\
      CONST 06 0\nACTION 00 6 2\nMOVSP 00 -4\nRESTOREBP 00\nMOVSP 00 -4\nRETN 00\n",
];

const CALLS: &[&[u8]] = &[
    // ExecuteScript takes the script's name from the top.
    b"CONST 06 0\nCONST 05 \"a\"\nACTION 00 8 2\nRETN 00\n",
    b"CONST 03 6\nACTION 00 0 1\nMOVSP 00 -4\nRETN 00\n",
    b"CONST 03 1\nACTION 00 38 1\nCONST 06 0\nACTION 00 39 2\nRETN 00\n",
    b"CONST 03 0\nCONST 03 8\nCONST 03 1\nACTION 00 25 3\nRSADD 10\nEQUAL 30\nRETN 00\n",
];

#[test]
fn plain_files(rt: HostRuntime) -> Result<(), Fail> {
    assert_eq!(rt;
        first_other(rt.alloc(), PLAIN, Verdict::Passed)?,
        PLAIN.len()
    );
    Ok(())
}

#[test]
fn routines(rt: HostRuntime) -> Result<(), Fail> {
    assert_eq!(rt;
        first_other(rt.alloc(), ROUTINES, Verdict::Passed)?,
        ROUTINES.len()
    );
    Ok(())
}

#[test]
fn bases(rt: HostRuntime) -> Result<(), Fail> {
    assert_eq!(rt;
        first_other(rt.alloc(), BASES, Verdict::Passed)?,
        BASES.len()
    );
    Ok(())
}

#[test]
fn states(rt: HostRuntime) -> Result<(), Fail> {
    assert_eq!(rt;
        first_other(rt.alloc(), STATES, Verdict::Passed)?,
        STATES.len()
    );
    Ok(())
}

#[test]
fn calls(rt: HostRuntime) -> Result<(), Fail> {
    assert_eq!(rt;
        first_other(rt.alloc(), CALLS, Verdict::Passed)?,
        CALLS.len()
    );
    Ok(())
}
