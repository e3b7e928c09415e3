//! What each instruction takes: operands, ranges and arguments, right and wrong.
use crate::files::{Verdict, first_other};
use std::test::*;

const OPERANDS: &[&[u8]] = &[
    // Each takes two ints, or one, and gives one.
    b"CONST 03 1\nCONST 03 2\nLOGAND 20\nCONST 03 3\nLOGOR 20\nCONST 03 4\nINCOR 20\n\
      CONST 03 5\nEXCOR 20\nCONST 03 6\nBOOLAND 20\nCONST 03 7\nGEQ 20\nCONST 03 8\n\
      GT 20\nCONST 03 9\nLT 20\nCONST 03 10\nLEQ 20\nCONST 03 1\nSHLEFT 20\nCONST 03 2\n\
      SHRIGHT 20\nCONST 03 3\nUSHRIGHT 20\nCONST 03 4\nADD 20\nCONST 03 5\nSUB 20\n\
      CONST 03 6\nMUL 20\nCONST 03 7\nDIV 20\nCONST 03 8\nMOD 20\nNEG 03\nCOMP 03\n\
      NOT 03\nJNZ 00 @167\n\
      RETN 00\n",
    // Each comparison gives an int.
    b"RSADD 05\nRSADD 05\nEQUAL 23\nRSADD 06\nRSADD 06\nNEQUAL 22\nLOGAND 20\nRSADD 10\n\
      RSADD 10\nNEQUAL 30\nLOGAND 20\nRSADD 11\nRSADD 11\nEQUAL 31\nLOGAND 20\nJZ 00 @49\n\
      RETN 00\n",
    // Two runs of two cells.
    b"RSADD 03\nRSADD 05\nRSADD 03\nRSADD 05\nEQUAL 24 8\nNEG 03\nMOVSP 00 -4\nRETN 00\n",
    b"RSADD 05\nCONST 05 \"a\"\nADD 23\nCONST 05 \"b\"\nEQUAL 23\nNOT 03\nRETN 00\n",
    b"NOP 00\nCONST 06 7\nRSADD 06\nNEQUAL 22\nRETN 00\n",
];

const WRONG_OPERANDS: &[&[u8]] = &[
    // Two ints are wanted, and a string is on top.
    b"RSADD 03\nRSADD 05\nLOGAND 20\nRETN 00\n",
    b"RSADD 03\nRSADD 05\nLOGOR 20\nRETN 00\n",
    b"RSADD 03\nRSADD 05\nINCOR 20\nRETN 00\n",
    b"RSADD 03\nRSADD 05\nEXCOR 20\nRETN 00\n",
    b"RSADD 03\nRSADD 05\nBOOLAND 20\nRETN 00\n",
    b"RSADD 03\nRSADD 05\nGEQ 20\nRETN 00\n",
    b"RSADD 03\nRSADD 05\nGT 20\nRETN 00\n",
    b"RSADD 03\nRSADD 05\nLT 20\nRETN 00\n",
    b"RSADD 03\nRSADD 05\nLEQ 20\nRETN 00\n",
    b"RSADD 03\nRSADD 05\nSHLEFT 20\nRETN 00\n",
    b"RSADD 03\nRSADD 05\nSHRIGHT 20\nRETN 00\n",
    b"RSADD 03\nRSADD 05\nUSHRIGHT 20\nRETN 00\n",
    b"RSADD 03\nRSADD 05\nSUB 20\nRETN 00\n",
    b"RSADD 03\nRSADD 05\nMUL 20\nRETN 00\n",
    b"RSADD 03\nRSADD 05\nDIV 20\nRETN 00\n",
    b"RSADD 03\nRSADD 05\nMOD 20\nRETN 00\n",
    // The lower one is a string.
    b"RSADD 05\nRSADD 03\nLOGAND 20\nRETN 00\n",
    // One int is there, and no second one.
    b"RSADD 03\nADD 20\nRETN 00\n",
    b"RSADD 05\nRSADD 03\nADD 23\nRETN 00\n",
    b"RSADD 03\nRSADD 03\nADD 23\nRETN 00\n",
    // An int is wanted.
    b"RSADD 05\nNEG 03\nRETN 00\n",
    b"RSADD 05\nCOMP 03\nRETN 00\n",
    b"RSADD 05\nNOT 03\nRETN 00\n",
    // Nothing is there.
    b"NOT 03\nRETN 00\n",
    // Floats have no rule.
    b"RSADD 03\nNEG 04\nRETN 00\n",
    b"CONST 04 3f800000\nRETN 00\n",
    b"RSADD 03\nRSADD 03\nLT 21\nRETN 00\n",
    b"RSADD 03\nRSADD 03\nEQUAL 21\nRETN 00\n",
    // Of the engine types effects and events alone have a rule.
    b"RSADD 12\nRETN 00\n",
    b"RSADD 10\nRSADD 10\nEQUAL 32\nRETN 00\n",
    b"RSADD 10\nRSADD 11\nEQUAL 30\nRETN 00\n",
    b"RSADD 10\nRSADD 10\nNEQUAL 31\nRETN 00\n",
    b"RSADD 06\nRSADD 05\nEQUAL 22\nRETN 00\n",
    b"RSADD 05\nRSADD 06\nNEQUAL 23\nRETN 00\n",
    // Two runs with other types.
    b"RSADD 03\nRSADD 05\nRSADD 05\nRSADD 03\nEQUAL 24 8\nRETN 00\n",
    // The second run isn't whole.
    b"RSADD 03\nRSADD 03\nRSADD 03\nEQUAL 24 8\nRETN 00\n",
    // No whole cells.
    b"RSADD 03\nRSADD 03\nEQUAL 24 6\nRETN 00\n",
    b"RSADD 05\nJNZ 00 @21\nRETN 00\n",
    b"JZ 00 @19\nRETN 00\n",
];

const RANGES: &[&[u8]] = &[
    b"RSADD 03\nRSADD 05\nCPTOPSP 01 -8 8\nCPTOPSP 01 -12 8\nMOVSP 00 -24\nRETN 00\n",
    // The range is that of the top cells themselves.
    b"RSADD 03\nRSADD 05\nCPDOWNSP 01 -8 8\nRETN 00\n",
    // The range and the top cells have one in common.
    b"RSADD 03\nRSADD 03\nRSADD 03\nCPDOWNSP 01 -12 8\nRETN 00\n",
    b"RSADD 03\nRSADD 05\nINCISP 03 -8\nDECISP 03 -8\nRETN 00\n",
    b"DESTRUCT 01 0 0 0\nRETN 00\n",
    // The text and the object are kept.
    b"RSADD 03\nRSADD 05\nRSADD 06\nDESTRUCT 01 12 4 8\nMOVSP 00 -4\nCONST 05 \"b\"\n\
      ADD 23\nRETN 00\n",
    b"RSADD 03\nRSADD 05\nRSADD 06\nDESTRUCT 01 8 0 4\nCONST 05 \"b\"\nADD 23\n\
      MOVSP 00 -4\nNEG 03\nRETN 00\n",
];

const WRONG_RANGES: &[&[u8]] = &[
    // A copy of nothing.
    b"RSADD 03\nCPTOPSP 01 -4 0\nRETN 00\n",
    // No whole cells.
    b"RSADD 03\nRSADD 03\nCPTOPSP 01 -8 6\nRETN 00\n",
    b"RSADD 03\nRSADD 03\nCPTOPSP 01 -6 4\nRETN 00\n",
    // Above the stack.
    b"RSADD 03\nCPTOPSP 01 0 4\nRETN 00\n",
    // The range passes the top.
    b"RSADD 03\nCPTOPSP 01 -4 8\nRETN 00\n",
    b"RSADD 03\nCPDOWNSP 01 -4 8\nRETN 00\n",
    b"RSADD 03\nCPDOWNSP 01 -8 4\nRETN 00\n",
    b"RSADD 03\nRSADD 03\nCPDOWNSP 01 -8 0\nRETN 00\n",
    // One of two cells has another type.
    b"RSADD 03\nRSADD 05\nRSADD 03\nRSADD 03\nCPDOWNSP 01 -16 8\nRETN 00\n",
    // An int is wanted at the offset.
    b"RSADD 05\nINCISP 03 -4\nRETN 00\n",
    b"RSADD 05\nRSADD 03\nDECISP 03 -8\nRETN 00\n",
    b"RSADD 03\nINCISP 03 -8\nRETN 00\n",
    b"RSADD 03\nINCISP 03 -2\nRETN 00\n",
    // More than is there.
    b"RSADD 03\nRSADD 03\nDESTRUCT 01 12 0 4\nRETN 00\n",
    // What is kept passes the top.
    b"RSADD 03\nRSADD 03\nDESTRUCT 01 8 4 8\nRETN 00\n",
    b"RSADD 03\nRSADD 03\nDESTRUCT 01 6 0 4\nRETN 00\n",
    b"RSADD 03\nRSADD 03\nDESTRUCT 01 8 2 4\nRETN 00\n",
    b"RSADD 03\nMOVSP 00 -8\nRETN 00\n",
];

const MORE_CALLS: &[&[u8]] = &[
    b"CONST 03 0\nRSADD 06\nRSADD 10\nCONST 03 1\nACTION 00 23 4\nRETN 00\n",
    // An event is made, and signalled.
    b"CONST 03 3\nACTION 00 38 1\nRSADD 06\nACTION 00 39 2\nACTION 00 40 0\nNEG 03\n\
      RETN 00\n",
    b"CONST 03 3\nACTION 00 29 1\nACTION 00 32 1\nACTION 00 28 1\nJZ 00 @40\nRETN 00\n",
];

const WRONG_CALLS: &[&[u8]] = &[
    // PrintString takes a text.
    b"RSADD 03\nACTION 00 1 1\nRETN 00\n",
    // The count is that of the parameters.
    b"RSADD 03\nACTION 00 0 0\nRETN 00\n",
    // No argument is there.
    b"ACTION 00 29 1\nRETN 00\n",
    // Defaults are filled in by the compiler, not by the engine.
    b"RSADD 06\nRSADD 10\nCONST 03 1\nACTION 00 23 3\nRETN 00\n",
    // A text in place of an effect.
    b"CONST 03 0\nRSADD 06\nRSADD 05\nCONST 03 1\nACTION 00 23 4\nRETN 00\n",
    // A routine with a float in its type.
    b"RSADD 03\nRSADD 03\nRSADD 03\nACTION 00 3 3\nRETN 00\n",
    // DelayCommand takes an int.
    b"STORE_STATE 10 0 0\nJMP 00 @31\nRETN 00\nCONST 05 \"a\"\nACTION 00 7 2\nRETN 00\n",
    // IntToString gives a text.
    b"RSADD 03\nACTION 00 29 1\nNEG 03\nRETN 00\n",
    // PrintInteger gives nothing.
    b"RSADD 03\nACTION 00 4 1\nNEG 03\nRETN 00\n",
];

#[test]
fn operands(rt: HostRuntime) -> Result<(), Fail> {
    assert_eq!(rt;
        first_other(rt.alloc(), OPERANDS, Verdict::Passed)?,
        OPERANDS.len()
    );
    Ok(())
}

#[test]
fn wrong_operands(rt: HostRuntime) -> Result<(), Fail> {
    assert_eq!(rt;
        first_other(rt.alloc(), WRONG_OPERANDS, Verdict::Unstacked)?,
        WRONG_OPERANDS.len()
    );
    Ok(())
}

#[test]
fn ranges(rt: HostRuntime) -> Result<(), Fail> {
    assert_eq!(rt;
        first_other(rt.alloc(), RANGES, Verdict::Passed)?,
        RANGES.len()
    );
    Ok(())
}

#[test]
fn wrong_ranges(rt: HostRuntime) -> Result<(), Fail> {
    assert_eq!(rt;
        first_other(rt.alloc(), WRONG_RANGES, Verdict::Unstacked)?,
        WRONG_RANGES.len()
    );
    Ok(())
}

#[test]
fn more_calls(rt: HostRuntime) -> Result<(), Fail> {
    assert_eq!(rt;
        first_other(rt.alloc(), MORE_CALLS, Verdict::Passed)?,
        MORE_CALLS.len()
    );
    Ok(())
}

#[test]
fn wrong_calls(rt: HostRuntime) -> Result<(), Fail> {
    assert_eq!(rt;
        first_other(rt.alloc(), WRONG_CALLS, Verdict::Unstacked)?,
        WRONG_CALLS.len()
    );
    Ok(())
}
