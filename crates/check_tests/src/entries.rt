//! Bases, routines and stored states, and the places where two ways meet.
use crate::files::{Verdict, first_other};
use std::test::*;

const MORE_BASES: &[&[u8]] = &[
    // Two bases, and what is beneath the upper one.
    b"RSADD 03\nSAVEBP 00\nRSADD 05\nSAVEBP 00\nCPTOPBP 01 -4 4\nCPTOPBP 01 -12 4\n\
      NEG 03\nRETN 00\n",
    b"RSADD 03\nSAVEBP 00\nRSADD 05\nSAVEBP 00\nRESTOREBP 00\nINCIBP 03 -4\nMOVSP 00 -4\n\
      RESTOREBP 00\nDECISP 03 -4\nRETN 00\n",
    b"RSADD 03\nRSADD 05\nSAVEBP 00\nCPTOPBP 01 -8 8\nCPDOWNBP 01 -8 8\nDECIBP 03 -8\n\
      RETN 00\n",
    // A script ends with its base on the stack.
    b"SAVEBP 00\nRETN 00\n",
    // Two routines, each beneath its own base.
    b"RSADD 03\nSAVEBP 00\nJSR 00 @35\nRSADD 05\nSAVEBP 00\nJSR 00 @43\nRETN 00\n\
      INCIBP 03 -4\nRETN 00\n\
      CPTOPBP 01 -4 4\nCONST 05 \"a\"\nADD 23\nMOVSP 00 -4\nRETN 00\n",
    b"RSADD 05\nRSADD 03\nSAVEBP 00\nJSR 00 @37\nRESTOREBP 00\nSAVEBP 00\nJSR 00 @37\n\
      RETN 00\n\
      INCIBP 03 -4\nRETN 00\n",
];

const WRONG_BASES: &[&[u8]] = &[
    // Nothing is beneath the base.
    b"INCIBP 03 -4\nRETN 00\n",
    b"CPTOPBP 01 -4 4\nRETN 00\n",
    // What is on the stack is beneath no base.
    b"RSADD 03\nCPTOPBP 01 -4 4\nRETN 00\n",
    // The range passes the base.
    b"RSADD 03\nSAVEBP 00\nCPTOPBP 01 -4 8\nRETN 00\n",
    b"RSADD 03\nSAVEBP 00\nCPTOPBP 01 -8 4\nRETN 00\n",
    b"RSADD 03\nSAVEBP 00\nCPTOPBP 01 0 4\nRETN 00\n",
    b"RSADD 05\nSAVEBP 00\nINCIBP 03 -4\nRETN 00\n",
    b"RSADD 05\nSAVEBP 00\nDECIBP 03 -4\nRETN 00\n",
    b"RSADD 03\nSAVEBP 00\nRSADD 03\nCPDOWNBP 01 -8 4\nRETN 00\n",
    b"RSADD 03\nSAVEBP 00\nCPTOPBP 01 -4 0\nRETN 00\n",
    // The base is not on top.
    b"SAVEBP 00\nRSADD 03\nRESTOREBP 00\nRETN 00\n",
    // A base is copied, from beneath the base.
    b"SAVEBP 00\nSAVEBP 00\nCPTOPBP 01 -4 4\nRETN 00\n",
    // A base is written.
    b"SAVEBP 00\nSAVEBP 00\nRSADD 03\nCPDOWNBP 01 -4 4\nRETN 00\n",
    b"SAVEBP 00\nRSADD 03\nCPDOWNSP 01 -8 4\nRETN 00\n",
    b"SAVEBP 00\nINCISP 03 -4\nRETN 00\n",
    // Bases are compared.
    b"SAVEBP 00\nSAVEBP 00\nEQUAL 24 4\nRETN 00\n",
    // A base is removed.
    b"SAVEBP 00\nRSADD 03\nDESTRUCT 01 8 4 4\nRETN 00\n",
    b"SAVEBP 00\nDESTRUCT 01 4 0 4\nRETN 00\n",
    // The base is gone.
    b"RSADD 03\nSAVEBP 00\nRESTOREBP 00\nCPTOPBP 01 -4 4\nRETN 00\n",
    // The outer base counts again.
    b"RSADD 05\nSAVEBP 00\nRSADD 03\nSAVEBP 00\nRESTOREBP 00\nINCIBP 03 -4\nRETN 00\n",
    // A routine reaches further than its caller has.
    b"RSADD 03\nSAVEBP 00\nJSR 00 @25\nRETN 00\nRSADD 03\nCPDOWNBP 01 -8 4\nRETN 00\n",
];

const RETURNS: &[&[u8]] = &[
    // A call at the end of the file, of a routine that never returns.
    b"JMP 00 @25\nJMP 00 @19\nJSR 00 @19\n",
    // A recursion with a result.
    b"RSADD 03\nCONST 03 5\nJSR 00 @29\nRETN 00\n\
      CPTOPSP 01 -4 4\nJNZ 00 @65\nCONST 03 1\nCPDOWNSP 01 -12 4\nMOVSP 00 -8\nRETN 00\n\
      CPTOPSP 01 -4 4\nRSADD 03\nCPTOPSP 01 -12 4\nCONST 03 1\nSUB 20\nJSR 00 @29\n\
      MUL 20\nCPDOWNSP 01 -12 4\nMOVSP 00 -8\nRETN 00\n",
    // A recursion without one.
    b"CONST 03 3\nJSR 00 @27\nRETN 00\n\
      CPTOPSP 01 -4 4\nJZ 00 @63\nCPTOPSP 01 -4 4\nCONST 03 1\nSUB 20\nJSR 00 @27\n\
      MOVSP 00 -4\nRETN 00\n",
    b"RSADD 03\nJSR 00 @37\nRSADD 05\nJSR 00 @45\nMOVSP 00 -8\nRETN 00\n\
      INCISP 03 -4\nRETN 00\n\
      DECISP 03 -8\nRETN 00\n",
    // From two stacks, of which the routine takes an int.
    b"RSADD 03\nJSR 00 @37\nNEG 03\nRSADD 05\nRSADD 03\nJSR 00 @37\nNEG 03\nRETN 00\n\
      MOVSP 00 -4\nCONST 03 1\nRETN 00\n",
    // A routine that takes nothing and gives an int.
    b"JSR 00 @29\nJSR 00 @29\nNEG 03\nRETN 00\nCONST 03 1\nRETN 00\n",
    // What is never reached is not asked.
    b"RSADD 05\nJSR 00 @23\nRETN 00\nRETN 00\nADD 21\nRSADD 04\nJMP 00 @23\n",
    // Two routines that call one another, with the int of their caller.
    b"RSADD 03\nJSR 00 @23\nRETN 00\n\
      CPTOPSP 01 -4 4\nJZ 00 @43\nJSR 00 @45\n\
      RETN 00\n\
      DECISP 03 -4\nJSR 00 @23\nRETN 00\n",
];

const WRONG_RETURNS: &[&[u8]] = &[
    // A call at the end of the file, of a routine that returns.
    b"JMP 00 @21\nRETN 00\nJSR 00 @19\n",
    // Two ways out with other cells.
    b"JSR 00 @21\nRETN 00\n\
      RSADD 03\nCONST 03 1\nJZ 00 @37\nRETN 00\n\
      MOVSP 00 -4\nRETN 00\n",
    // What the routine gives is one int.
    b"RSADD 03\nJSR 00 @25\nADD 20\nRETN 00\nMOVSP 00 -4\nCONST 03 1\nRETN 00\n",
    b"RSADD 03\nJSR 00 @25\nNEG 03\nRETN 00\nMOVSP 00 -4\nCONST 05 \"a\"\nRETN 00\n",
    // A recursion whose ways out give other cells.
    b"CONST 03 1\nJSR 00 @27\nRETN 00\n\
      JZ 00 @45\nRSADD 03\nJSR 00 @27\nRSADD 03\nRETN 00\n\
      RETN 00\n",
    // A recursion that is called with another type.
    b"RSADD 03\nJSR 00 @23\nRETN 00\n\
      CPTOPSP 01 -4 4\nJZ 00 @51\nRSADD 05\nJSR 00 @23\nMOVSP 00 -4\n\
      NEG 03\nRETN 00\n",
    // A recursion that leaves a cell on each level.
    b"CONST 03 1\nJSR 00 @27\nRETN 00\n\
      CPTOPSP 01 -4 4\nJZ 00 @51\nRSADD 03\nRSADD 03\nJSR 00 @27\n\
      RETN 00\n",
];

const WAITS: &[&[u8]] = &[
    // One site is reached at two depths, with the same type on top.
    b"RSADD 03\nJSR 00 @29\nRSADD 03\nJMP 00 @29\n\
      STORE_STATE 10 0 4\nJMP 00 @49\nNEG 03\nRETN 00\n\
      CONST 06 0\nACTION 00 6 2\nRETN 00\n",
    // Two states that wait at once.
    b"RSADD 05\nRSADD 03\nSTORE_STATE 10 0 4\nJMP 00 @37\nNEG 03\nRETN 00\n\
      STORE_STATE 10 0 8\nJMP 00 @70\nNEG 03\nMOVSP 00 -4\nCONST 05 \"x\"\nADD 23\n\
      RETN 00\n\
      CONST 06 0\nACTION 00 6 2\nCONST 06 0\nACTION 00 6 2\nRETN 00\n",
    // Stored code stores a state of its own.
    b"STORE_STATE 10 0 0\nJMP 00 @60\nSTORE_STATE 10 0 0\nJMP 00 @47\nRETN 00\n\
      CONST 06 0\nACTION 00 6 2\nRETN 00\n\
      CONST 03 5\nACTION 00 7 2\nRETN 00\n",
    // Stored code ends with whatever is there.
    b"STORE_STATE 10 0 0\nJMP 00 @53\nSAVEBP 00\nSTORE_STATE 10 0 0\nJMP 00 @49\nRETN 00\n\
      RSADD 03\nRETN 00\n\
      ACTION 00 10 1\nRETN 00\n",
    // A routine is called from stored code too.
    b"RSADD 03\nSAVEBP 00\nSTORE_STATE 10 4 0\nJMP 00 @41\nJSR 00 @54\nRETN 00\n\
      JSR 00 @54\nACTION 00 10 1\nRETN 00\n\
      INCIBP 03 -4\nRETN 00\n",
    // The upper global alone is stored.
    b"RSADD 03\nRSADD 05\nSAVEBP 00\nRSADD 06\nSTORE_STATE 10 4 4\nJMP 00 @58\n\
      CPTOPBP 01 -4 4\nMOVSP 00 -4\nACTION 00 5 1\nRETN 00\n\
      CONST 03 1\nACTION 00 7 2\nRETN 00\n",
    // In a loop each state is taken.
    b"STORE_STATE 10 0 0\nJMP 00 @31\nRETN 00\nACTION 00 10 1\nJMP 00 @13\n",
];

const WRONG_WAITS: &[&[u8]] = &[
    // In a loop the pending states grow.
    b"STORE_STATE 10 0 0\nJMP 00 @31\nRETN 00\nCONST 03 1\nJNZ 00 @13\nRETN 00\n",
    // The stored code ends no base.
    b"STORE_STATE 10 0 0\nJMP 00 @33\nRESTOREBP 00\nRETN 00\nRETN 00\n",
    // It removes its base.
    b"STORE_STATE 10 0 0\nJMP 00 @37\nMOVSP 00 -4\nRETN 00\nRETN 00\n",
    b"STORE_STATE 10 0 0\nJMP 00 @39\nCPTOPSP 01 -4 4\nRETN 00\nRETN 00\n",
    // It has no global.
    b"STORE_STATE 10 0 0\nJMP 00 @39\nCPTOPBP 01 -4 4\nRETN 00\nRETN 00\n",
    // No whole cells.
    b"RSADD 03\nSAVEBP 00\nSTORE_STATE 10 2 0\nJMP 00 @35\nRETN 00\nRETN 00\n",
    // More globals than there are.
    b"RSADD 03\nSAVEBP 00\nSTORE_STATE 10 8 0\nJMP 00 @35\nRETN 00\nRETN 00\n",
    b"RSADD 03\nSTORE_STATE 10 0 8\nJMP 00 @33\nRETN 00\nRETN 00\n",
    // A base among the globals.
    b"SAVEBP 00\nSAVEBP 00\nSTORE_STATE 10 4 0\nJMP 00 @35\nRETN 00\nRETN 00\n",
    // A text is stored, and negated.
    b"RSADD 05\nSTORE_STATE 10 0 4\nJMP 00 @35\nNEG 03\nRETN 00\n\
      CONST 06 0\nACTION 00 6 2\nRETN 00\n",
    // One site is reached with an int and with a text on top.
    b"RSADD 03\nJSR 00 @35\nMOVSP 00 -4\nRSADD 05\nJMP 00 @35\n\
      STORE_STATE 10 0 4\nJMP 00 @53\nRETN 00\n\
      CONST 06 0\nACTION 00 6 2\nRETN 00\n",
    // One state is taken twice.
    b"STORE_STATE 10 0 0\nJMP 00 @31\nRETN 00\n\
      CONST 06 0\nACTION 00 6 2\nCONST 06 0\nACTION 00 6 2\nRETN 00\n",
    // A routine takes no state of its caller.
    b"STORE_STATE 10 0 0\nJMP 00 @31\nRETN 00\n\
      JSR 00 @39\nRETN 00\n\
      CONST 06 0\nACTION 00 6 2\nRETN 00\n",
];

const WRONG_JOINS: &[&[u8]] = &[
    // Either way is asked.
    b"CONST 03 1\nJZ 00 @27\nRETN 00\nADD 20\nRETN 00\n",
    b"CONST 03 1\nJNZ 00 @27\nADD 20\nRETN 00\n",
    // Other lists are saved, and other ones are beneath the base.
    b"CONST 03 1\nJZ 00 @37\nRSADD 03\nSAVEBP 00\nSAVEBP 00\nJMP 00 @43\n\
      SAVEBP 00\nRSADD 03\nSAVEBP 00\n\
      RETN 00\n",
    // A base meets an int.
    b"CONST 03 1\nJZ 00 @33\nSAVEBP 00\nJMP 00 @35\nRSADD 03\nRETN 00\n",
    // A state is taken one way only.
    b"STORE_STATE 10 0 0\nJMP 00 @31\nRETN 00\n\
      CONST 03 1\nJZ 00 @54\nCONST 06 0\nACTION 00 6 2\n\
      RETN 00\n",
    // In a routine too, also where the cells go at once.
    b"RSADD 03\nJSR 00 @23\nRETN 00\n\
      CPTOPSP 01 -4 4\nJZ 00 @45\nMOVSP 00 -4\nRSADD 05\n\
      MOVSP 00 -4\nRETN 00\n",
    // A loop that leaves a cell each time.
    b"RSADD 05\nCONST 03 1\nJNZ 00 @13\nRETN 00\n",
    // A loop that changes a type.
    b"RSADD 03\nNEG 03\nMOVSP 00 -4\nRSADD 05\nCONST 03 1\nJNZ 00 @15\nRETN 00\n",
];

#[test]
fn more_bases(rt: HostRuntime) -> Result<(), Fail> {
    assert_eq!(rt;
        first_other(rt.alloc(), MORE_BASES, Verdict::Passed)?,
        MORE_BASES.len()
    );
    Ok(())
}

#[test]
fn wrong_bases(rt: HostRuntime) -> Result<(), Fail> {
    assert_eq!(rt;
        first_other(rt.alloc(), WRONG_BASES, Verdict::Unstacked)?,
        WRONG_BASES.len()
    );
    Ok(())
}

#[test]
fn returns(rt: HostRuntime) -> Result<(), Fail> {
    assert_eq!(rt;
        first_other(rt.alloc(), RETURNS, Verdict::Passed)?,
        RETURNS.len()
    );
    Ok(())
}

#[test]
fn wrong_returns(rt: HostRuntime) -> Result<(), Fail> {
    assert_eq!(rt;
        first_other(rt.alloc(), WRONG_RETURNS, Verdict::Unstacked)?,
        WRONG_RETURNS.len()
    );
    Ok(())
}

#[test]
fn waits(rt: HostRuntime) -> Result<(), Fail> {
    assert_eq!(rt;
        first_other(rt.alloc(), WAITS, Verdict::Passed)?,
        WAITS.len()
    );
    Ok(())
}

#[test]
fn wrong_waits(rt: HostRuntime) -> Result<(), Fail> {
    assert_eq!(rt;
        first_other(rt.alloc(), WRONG_WAITS, Verdict::Unstacked)?,
        WRONG_WAITS.len()
    );
    Ok(())
}

#[test]
fn wrong_joins(rt: HostRuntime) -> Result<(), Fail> {
    assert_eq!(rt;
        first_other(rt.alloc(), WRONG_JOINS, Verdict::Unstacked)?,
        WRONG_JOINS.len()
    );
    Ok(())
}
