//! Routines that look at more or fewer of the cells which their callers have.
use crate::files::{Verdict, first_other};
use std::test::*;

const DROPS: &[&[u8]] = &[
    // A routine that drops a cell of its caller.
    b"RSADD 03\nJSR 00 @23\nRETN 00\nMOVSP 00 -4\nRETN 00\n",
    // Two calls of one that drops a cell.
    b"RSADD 03\nRSADD 03\nJSR 00 @25\nRETN 00\nJSR 00 @39\nJSR 00 @39\nRETN 00\nMOVSP 00 -4\n\
      RETN 00\n",
    // Eight cells, dropped four routines deep.
    b"RSADD 03\nRSADD 03\nRSADD 03\nRSADD 03\nRSADD 03\nRSADD 03\nRSADD 03\nRSADD 03\n\
      JSR 00 @37\nRETN 00\nJSR 00 @51\nJSR 00 @51\nRETN 00\nJSR 00 @65\nJSR 00 @65\nRETN 00\n\
      MOVSP 00 -4\nMOVSP 00 -4\nRETN 00\n",
    // Two calls that have the dropped cell in common.
    b"RSADD 03\nJSR 00 @33\nRSADD 05\nRSADD 03\nJSR 00 @33\nRETN 00\nMOVSP 00 -4\nRETN 00\n",
    // What lies beneath the read cell may differ.
    b"RSADD 05\nRSADD 03\nJSR 00 @35\nRSADD 06\nRSADD 03\nJSR 00 @35\nRETN 00\n\
      CPTOPSP 01 -4 4\nMOVSP 00 -4\nRETN 00\n",
    b"RSADD 05\nRSADD 03\nJSR 00 @35\nRSADD 05\nRSADD 03\nJSR 00 @35\nRETN 00\n\
      CPTOPSP 01 -8 4\nMOVSP 00 -4\nRETN 00\n",
    // The routine is called from its caller and from another routine.
    b"RSADD 03\nJSR 00 @31\nRSADD 03\nJSR 00 @39\nRETN 00\nMOVSP 00 -4\nRETN 00\nJSR 00 @31\n\
      RETN 00\n",
];

const DOUBLES: &[&[u8]] = &[
    // A routine that doubles a cell of its caller.
    b"RSADD 03\nJSR 00 @35\nMOVSP 00 -4\nMOVSP 00 -4\nRETN 00\nCPTOPSP 01 -4 4\nRETN 00\n",
    // Twice, by another one.
    b"RSADD 03\nJSR 00 @41\nMOVSP 00 -4\nMOVSP 00 -4\nMOVSP 00 -4\nRETN 00\nJSR 00 @55\n\
      JSR 00 @55\nRETN 00\nCPTOPSP 01 -4 4\nRETN 00\n",
    // The copy has the type of the cell.
    b"RSADD 05\nJSR 00 @31\nADD 23\nMOVSP 00 -4\nRETN 00\nCPTOPSP 01 -4 4\nRETN 00\n",
    b"RSADD 03\nJSR 00 @63\nMOVSP 00 -4\nMOVSP 00 -4\nRSADD 05\nRSADD 03\nJSR 00 @63\n\
      MOVSP 00 -4\nMOVSP 00 -4\nMOVSP 00 -4\nRETN 00\nCPTOPSP 01 -4 4\nRETN 00\n",
    // Two cells, with their order.
    b"RSADD 03\nRSADD 05\nJSR 00 @49\nMOVSP 00 -4\nMOVSP 00 -4\nMOVSP 00 -4\nMOVSP 00 -4\n\
      RETN 00\nCPTOPSP 01 -8 8\nRETN 00\n",
    // Routines that push more the higher they are.
    b"JSR 00 @69\nMOVSP 00 -4\nMOVSP 00 -4\nMOVSP 00 -4\nMOVSP 00 -4\nMOVSP 00 -4\n\
      MOVSP 00 -4\nMOVSP 00 -4\nMOVSP 00 -4\nRETN 00\nJSR 00 @83\nJSR 00 @83\nRETN 00\n\
      JSR 00 @97\nJSR 00 @97\nRETN 00\nRSADD 03\nRSADD 03\nRETN 00\n",
];

const PUTS_BACK: &[&[u8]] = &[
    // A routine that drops a cell and puts such a one back.
    b"RSADD 03\nJSR 00 @29\nMOVSP 00 -4\nRETN 00\nMOVSP 00 -4\nRSADD 03\nRETN 00\n",
    // It puts back another type.
    b"RSADD 05\nJSR 00 @35\nINCISP 03 -4\nMOVSP 00 -4\nRETN 00\nMOVSP 00 -4\nRSADD 03\n\
      RETN 00\n",
    b"RSADD 05\nJSR 00 @35\nJSR 00 @35\nMOVSP 00 -4\nRETN 00\nMOVSP 00 -4\nRSADD 05\nRETN 00\n",
    // One routine drops the cell, and another puts one back.
    b"RSADD 03\nJSR 00 @29\nMOVSP 00 -4\nRETN 00\nJSR 00 @43\nJSR 00 @51\nRETN 00\n\
      MOVSP 00 -4\nRETN 00\nRSADD 03\nRETN 00\n",
    b"RSADD 03\nRSADD 03\nJSR 00 @43\nINCISP 03 -4\nMOVSP 00 -4\nMOVSP 00 -4\nRETN 00\n\
      JSR 00 @61\nJSR 00 @61\nRSADD 05\nRSADD 03\nRETN 00\nMOVSP 00 -4\nRETN 00\n",
    // A cell is written that lies below another.
    b"RSADD 03\nRSADD 05\nJSR 00 @37\nMOVSP 00 -4\nMOVSP 00 -4\nRETN 00\nCONST 03 1\n\
      CPDOWNSP 01 -12 4\nMOVSP 00 -4\nRETN 00\n",
    // The lower of two cells is kept.
    b"RSADD 03\nRSADD 03\nJSR 00 @31\nMOVSP 00 -4\nRETN 00\nDESTRUCT 01 8 0 4\nRETN 00\n",
];

const RECURSIONS: &[&[u8]] = &[
    // A cell is pushed at each call, and dropped behind it.
    b"JSR 00 @21\nRETN 00\nCONST 03 0\nJZ 00 @47\nRSADD 03\nJSR 00 @21\nMOVSP 00 -4\nRETN 00\n",
    // Each call takes a copy of what its caller took.
    b"RSADD 03\nJSR 00 @29\nMOVSP 00 -4\nRETN 00\nCPTOPSP 01 -4 4\nJZ 00 @63\n\
      CPTOPSP 01 -4 4\nJSR 00 @29\nMOVSP 00 -4\nRETN 00\n",
    // Each call drops the copy that it took.
    b"RSADD 03\nJSR 00 @23\nRETN 00\nCPTOPSP 01 -4 4\nJZ 00 @51\nCPTOPSP 01 -4 4\nJSR 00 @23\n\
      MOVSP 00 -4\nRETN 00\n",
    // Two routines call one another.
    b"RSADD 03\nJSR 00 @29\nMOVSP 00 -4\nRETN 00\nCPTOPSP 01 -4 4\nJZ 00 @63\n\
      CPTOPSP 01 -4 4\nJSR 00 @65\nMOVSP 00 -4\nRETN 00\nCPTOPSP 01 -4 4\nJZ 00 @99\n\
      CPTOPSP 01 -4 4\nJSR 00 @29\nMOVSP 00 -4\nRETN 00\n",
    // It pushes for ever, and never returns.
    b"JSR 00 @21\nRETN 00\nRSADD 03\nJSR 00 @21\nRETN 00\n",
];

const BASES: &[&[u8]] = &[
    // A routine reads its caller's cell beneath BP.
    b"RSADD 03\nSAVEBP 00\nJSR 00 @33\nRESTOREBP 00\nMOVSP 00 -4\nRETN 00\nCPTOPBP 01 -4 4\n\
      MOVSP 00 -4\nRETN 00\n",
    b"RSADD 03\nSAVEBP 00\nJSR 00 @33\nRESTOREBP 00\nMOVSP 00 -4\nRETN 00\nJSR 00 @41\n\
      RETN 00\nCPTOPBP 01 -4 4\nMOVSP 00 -4\nRETN 00\n",
    // A routine puts BP over the cells that it found.
    b"RSADD 03\nJSR 00 @29\nMOVSP 00 -4\nRETN 00\nSAVEBP 00\nCPTOPBP 01 -4 4\nMOVSP 00 -4\n\
      RESTOREBP 00\nRETN 00\n",
    b"RSADD 03\nJSR 00 @33\nRSADD 05\nRSADD 03\nJSR 00 @33\nRETN 00\nSAVEBP 00\n\
      CPTOPBP 01 -4 4\nMOVSP 00 -4\nRESTOREBP 00\nRETN 00\n",
    b"RSADD 05\nRSADD 03\nJSR 00 @37\nMOVSP 00 -4\nMOVSP 00 -4\nRETN 00\nSAVEBP 00\n\
      CPTOPBP 01 -8 8\nCPDOWNBP 01 -8 8\nMOVSP 00 -8\nRESTOREBP 00\nRETN 00\n",
    // And a routine that it calls reads them.
    b"RSADD 03\nJSR 00 @29\nMOVSP 00 -4\nRETN 00\nSAVEBP 00\nJSR 00 @41\nRESTOREBP 00\n\
      RETN 00\nCPTOPBP 01 -4 4\nMOVSP 00 -4\nRETN 00\n",
    // It has a cell of its own there.
    b"RSADD 03\nJSR 00 @31\nRSADD 05\nJSR 00 @31\nRETN 00\nRSADD 03\nSAVEBP 00\nJSR 00 @51\n\
      RESTOREBP 00\nMOVSP 00 -4\nRETN 00\nCPTOPBP 01 -4 4\nMOVSP 00 -4\nRETN 00\n",
    b"RSADD 03\nJSR 00 @33\nRSADD 05\nRSADD 03\nJSR 00 @33\nRETN 00\nSAVEBP 00\nCONST 03 1\n\
      CPDOWNBP 01 -4 4\nMOVSP 00 -4\nRESTOREBP 00\nRETN 00\n",
    b"RSADD 03\nSAVEBP 00\nJSR 00 @35\nRSADD 05\nSAVEBP 00\nJSR 00 @35\nRETN 00\nRSADD 03\n\
      MOVSP 00 -4\nRETN 00\n",
];

const FIFTY: &[&[u8]] = &[
    // A routine that looks at nothing.
    b"RSADD 03\nJSR 00 @415\nRSADD 05\nJSR 00 @415\nRSADD 06\nJSR 00 @415\nRSADD 03\n\
      JSR 00 @415\nRSADD 05\nJSR 00 @415\nRSADD 06\nJSR 00 @415\nRSADD 03\nJSR 00 @415\n\
      RSADD 05\nJSR 00 @415\nRSADD 06\nJSR 00 @415\nRSADD 03\nJSR 00 @415\nRSADD 05\n\
      JSR 00 @415\nRSADD 06\nJSR 00 @415\nRSADD 03\nJSR 00 @415\nRSADD 05\nJSR 00 @415\n\
      RSADD 06\nJSR 00 @415\nRSADD 03\nJSR 00 @415\nRSADD 05\nJSR 00 @415\nRSADD 06\n\
      JSR 00 @415\nRSADD 03\nJSR 00 @415\nRSADD 05\nJSR 00 @415\nRSADD 06\nJSR 00 @415\n\
      RSADD 03\nJSR 00 @415\nRSADD 05\nJSR 00 @415\nRSADD 06\nJSR 00 @415\nRSADD 03\n\
      JSR 00 @415\nRSADD 05\nJSR 00 @415\nRSADD 06\nJSR 00 @415\nRSADD 03\nJSR 00 @415\n\
      RSADD 05\nJSR 00 @415\nRSADD 06\nJSR 00 @415\nRSADD 03\nJSR 00 @415\nRSADD 05\n\
      JSR 00 @415\nRSADD 06\nJSR 00 @415\nRSADD 03\nJSR 00 @415\nRSADD 05\nJSR 00 @415\n\
      RSADD 06\nJSR 00 @415\nRSADD 03\nJSR 00 @415\nRSADD 05\nJSR 00 @415\nRSADD 06\n\
      JSR 00 @415\nRSADD 03\nJSR 00 @415\nRSADD 05\nJSR 00 @415\nRSADD 06\nJSR 00 @415\n\
      RSADD 03\nJSR 00 @415\nRSADD 05\nJSR 00 @415\nRSADD 06\nJSR 00 @415\nRSADD 03\n\
      JSR 00 @415\nRSADD 05\nJSR 00 @415\nRSADD 06\nJSR 00 @415\nRSADD 03\nJSR 00 @415\n\
      RSADD 05\nJSR 00 @415\nRETN 00\nNOP 00\nRETN 00\n",
    // One that looks at the top cell.
    b"RSADD 03\nRSADD 03\nJSR 00 @515\nRSADD 05\nRSADD 03\nJSR 00 @515\nRSADD 06\nRSADD 03\n\
      JSR 00 @515\nRSADD 03\nRSADD 03\nJSR 00 @515\nRSADD 05\nRSADD 03\nJSR 00 @515\n\
      RSADD 06\nRSADD 03\nJSR 00 @515\nRSADD 03\nRSADD 03\nJSR 00 @515\nRSADD 05\nRSADD 03\n\
      JSR 00 @515\nRSADD 06\nRSADD 03\nJSR 00 @515\nRSADD 03\nRSADD 03\nJSR 00 @515\n\
      RSADD 05\nRSADD 03\nJSR 00 @515\nRSADD 06\nRSADD 03\nJSR 00 @515\nRSADD 03\nRSADD 03\n\
      JSR 00 @515\nRSADD 05\nRSADD 03\nJSR 00 @515\nRSADD 06\nRSADD 03\nJSR 00 @515\n\
      RSADD 03\nRSADD 03\nJSR 00 @515\nRSADD 05\nRSADD 03\nJSR 00 @515\nRSADD 06\nRSADD 03\n\
      JSR 00 @515\nRSADD 03\nRSADD 03\nJSR 00 @515\nRSADD 05\nRSADD 03\nJSR 00 @515\n\
      RSADD 06\nRSADD 03\nJSR 00 @515\nRSADD 03\nRSADD 03\nJSR 00 @515\nRSADD 05\nRSADD 03\n\
      JSR 00 @515\nRSADD 06\nRSADD 03\nJSR 00 @515\nRSADD 03\nRSADD 03\nJSR 00 @515\n\
      RSADD 05\nRSADD 03\nJSR 00 @515\nRSADD 06\nRSADD 03\nJSR 00 @515\nRSADD 03\nRSADD 03\n\
      JSR 00 @515\nRSADD 05\nRSADD 03\nJSR 00 @515\nRSADD 06\nRSADD 03\nJSR 00 @515\n\
      RSADD 03\nRSADD 03\nJSR 00 @515\nRSADD 05\nRSADD 03\nJSR 00 @515\nRSADD 06\nRSADD 03\n\
      JSR 00 @515\nRSADD 03\nRSADD 03\nJSR 00 @515\nRSADD 05\nRSADD 03\nJSR 00 @515\n\
      RSADD 06\nRSADD 03\nJSR 00 @515\nRSADD 03\nRSADD 03\nJSR 00 @515\nRSADD 05\nRSADD 03\n\
      JSR 00 @515\nRSADD 06\nRSADD 03\nJSR 00 @515\nRSADD 03\nRSADD 03\nJSR 00 @515\n\
      RSADD 05\nRSADD 03\nJSR 00 @515\nRSADD 06\nRSADD 03\nJSR 00 @515\nRSADD 03\nRSADD 03\n\
      JSR 00 @515\nRSADD 05\nRSADD 03\nJSR 00 @515\nRSADD 06\nRSADD 03\nJSR 00 @515\n\
      RSADD 03\nRSADD 03\nJSR 00 @515\nRSADD 05\nRSADD 03\nJSR 00 @515\nRSADD 06\nRSADD 03\n\
      JSR 00 @515\nRSADD 03\nRSADD 03\nJSR 00 @515\nRSADD 05\nRSADD 03\nJSR 00 @515\nRETN 00\n\
      INCISP 03 -4\nRETN 00\n",
];

/// Each of 20 routines calls the next one in two ways, with 2^i cells more the one time, and the
/// last drops 2^20 cells; the first is called at 41 places. What makes the cells are 20 routines
/// that push twice what the next one does.
const WAYS: &[&[u8]] = &[
    b"JSR 00 @1279\nRSADD 03\nJZ 00 @35\nJSR 00 @667\nRETN 00\nRSADD 03\nJZ 00 @51\nJSR 00 @667\n\
      RETN 00\nRSADD 03\nJZ 00 @67\nJSR 00 @667\nRETN 00\nRSADD 03\nJZ 00 @83\nJSR 00 @667\n\
      RETN 00\nRSADD 03\nJZ 00 @99\nJSR 00 @667\nRETN 00\nRSADD 03\nJZ 00 @115\nJSR 00 @667\n\
      RETN 00\nRSADD 03\nJZ 00 @131\nJSR 00 @667\nRETN 00\nRSADD 03\nJZ 00 @147\nJSR 00 @667\n\
      RETN 00\nRSADD 03\nJZ 00 @163\nJSR 00 @667\nRETN 00\nRSADD 03\nJZ 00 @179\nJSR 00 @667\n\
      RETN 00\nRSADD 03\nJZ 00 @195\nJSR 00 @667\nRETN 00\nRSADD 03\nJZ 00 @211\nJSR 00 @667\n\
      RETN 00\nRSADD 03\nJZ 00 @227\nJSR 00 @667\nRETN 00\nRSADD 03\nJZ 00 @243\nJSR 00 @667\n\
      RETN 00\nRSADD 03\nJZ 00 @259\nJSR 00 @667\nRETN 00\nRSADD 03\nJZ 00 @275\nJSR 00 @667\n\
      RETN 00\nRSADD 03\nJZ 00 @291\nJSR 00 @667\nRETN 00\nRSADD 03\nJZ 00 @307\nJSR 00 @667\n\
      RETN 00\nRSADD 03\nJZ 00 @323\nJSR 00 @667\nRETN 00\nRSADD 03\nJZ 00 @339\nJSR 00 @667\n\
      RETN 00\nRSADD 03\nJZ 00 @355\nJSR 00 @667\nRETN 00\nRSADD 03\nJZ 00 @371\nJSR 00 @667\n\
      RETN 00\nRSADD 03\nJZ 00 @387\nJSR 00 @667\nRETN 00\nRSADD 03\nJZ 00 @403\nJSR 00 @667\n\
      RETN 00\nRSADD 03\nJZ 00 @419\nJSR 00 @667\nRETN 00\nRSADD 03\nJZ 00 @435\nJSR 00 @667\n\
      RETN 00\nRSADD 03\nJZ 00 @451\nJSR 00 @667\nRETN 00\nRSADD 03\nJZ 00 @467\nJSR 00 @667\n\
      RETN 00\nRSADD 03\nJZ 00 @483\nJSR 00 @667\nRETN 00\nRSADD 03\nJZ 00 @499\nJSR 00 @667\n\
      RETN 00\nRSADD 03\nJZ 00 @515\nJSR 00 @667\nRETN 00\nRSADD 03\nJZ 00 @531\nJSR 00 @667\n\
      RETN 00\nRSADD 03\nJZ 00 @547\nJSR 00 @667\nRETN 00\nRSADD 03\nJZ 00 @563\nJSR 00 @667\n\
      RETN 00\nRSADD 03\nJZ 00 @579\nJSR 00 @667\nRETN 00\nRSADD 03\nJZ 00 @595\nJSR 00 @667\n\
      RETN 00\nRSADD 03\nJZ 00 @611\nJSR 00 @667\nRETN 00\nRSADD 03\nJZ 00 @627\nJSR 00 @667\n\
      RETN 00\nRSADD 03\nJZ 00 @643\nJSR 00 @667\nRETN 00\nRSADD 03\nJZ 00 @659\nJSR 00 @667\n\
      RETN 00\nJSR 00 @667\nRETN 00\nRSADD 03\nJZ 00 @683\nJSR 00 @697\nRETN 00\nJSR 00 @1559\n\
      JSR 00 @697\nRETN 00\nRSADD 03\nJZ 00 @713\nJSR 00 @727\nRETN 00\nJSR 00 @1545\n\
      JSR 00 @727\nRETN 00\nRSADD 03\nJZ 00 @743\nJSR 00 @757\nRETN 00\nJSR 00 @1531\n\
      JSR 00 @757\nRETN 00\nRSADD 03\nJZ 00 @773\nJSR 00 @787\nRETN 00\nJSR 00 @1517\n\
      JSR 00 @787\nRETN 00\nRSADD 03\nJZ 00 @803\nJSR 00 @817\nRETN 00\nJSR 00 @1503\n\
      JSR 00 @817\nRETN 00\nRSADD 03\nJZ 00 @833\nJSR 00 @847\nRETN 00\nJSR 00 @1489\n\
      JSR 00 @847\nRETN 00\nRSADD 03\nJZ 00 @863\nJSR 00 @877\nRETN 00\nJSR 00 @1475\n\
      JSR 00 @877\nRETN 00\nRSADD 03\nJZ 00 @893\nJSR 00 @907\nRETN 00\nJSR 00 @1461\n\
      JSR 00 @907\nRETN 00\nRSADD 03\nJZ 00 @923\nJSR 00 @937\nRETN 00\nJSR 00 @1447\n\
      JSR 00 @937\nRETN 00\nRSADD 03\nJZ 00 @953\nJSR 00 @967\nRETN 00\nJSR 00 @1433\n\
      JSR 00 @967\nRETN 00\nRSADD 03\nJZ 00 @983\nJSR 00 @997\nRETN 00\nJSR 00 @1419\n\
      JSR 00 @997\nRETN 00\nRSADD 03\nJZ 00 @1013\nJSR 00 @1027\nRETN 00\nJSR 00 @1405\n\
      JSR 00 @1027\nRETN 00\nRSADD 03\nJZ 00 @1043\nJSR 00 @1057\nRETN 00\nJSR 00 @1391\n\
      JSR 00 @1057\nRETN 00\nRSADD 03\nJZ 00 @1073\nJSR 00 @1087\nRETN 00\nJSR 00 @1377\n\
      JSR 00 @1087\nRETN 00\nRSADD 03\nJZ 00 @1103\nJSR 00 @1117\nRETN 00\nJSR 00 @1363\n\
      JSR 00 @1117\nRETN 00\nRSADD 03\nJZ 00 @1133\nJSR 00 @1147\nRETN 00\nJSR 00 @1349\n\
      JSR 00 @1147\nRETN 00\nRSADD 03\nJZ 00 @1163\nJSR 00 @1177\nRETN 00\nJSR 00 @1335\n\
      JSR 00 @1177\nRETN 00\nRSADD 03\nJZ 00 @1193\nJSR 00 @1207\nRETN 00\nJSR 00 @1321\n\
      JSR 00 @1207\nRETN 00\nRSADD 03\nJZ 00 @1223\nJSR 00 @1237\nRETN 00\nJSR 00 @1307\n\
      JSR 00 @1237\nRETN 00\nRSADD 03\nJZ 00 @1253\nJSR 00 @1267\nRETN 00\nJSR 00 @1293\n\
      JSR 00 @1267\nRETN 00\nMOVSP 00 -4194304\nJMP 00 @1273\nJSR 00 @1293\nJSR 00 @1293\n\
      RETN 00\nJSR 00 @1307\nJSR 00 @1307\nRETN 00\nJSR 00 @1321\nJSR 00 @1321\nRETN 00\n\
      JSR 00 @1335\nJSR 00 @1335\nRETN 00\nJSR 00 @1349\nJSR 00 @1349\nRETN 00\nJSR 00 @1363\n\
      JSR 00 @1363\nRETN 00\nJSR 00 @1377\nJSR 00 @1377\nRETN 00\nJSR 00 @1391\nJSR 00 @1391\n\
      RETN 00\nJSR 00 @1405\nJSR 00 @1405\nRETN 00\nJSR 00 @1419\nJSR 00 @1419\nRETN 00\n\
      JSR 00 @1433\nJSR 00 @1433\nRETN 00\nJSR 00 @1447\nJSR 00 @1447\nRETN 00\nJSR 00 @1461\n\
      JSR 00 @1461\nRETN 00\nJSR 00 @1475\nJSR 00 @1475\nRETN 00\nJSR 00 @1489\nJSR 00 @1489\n\
      RETN 00\nJSR 00 @1503\nJSR 00 @1503\nRETN 00\nJSR 00 @1517\nJSR 00 @1517\nRETN 00\n\
      JSR 00 @1531\nJSR 00 @1531\nRETN 00\nJSR 00 @1545\nJSR 00 @1545\nRETN 00\nJSR 00 @1559\n\
      JSR 00 @1559\nRETN 00\nRSADD 03\nRETN 00\n",
];

const WRONG_DROPS: &[&[u8]] = &[
    b"JSR 00 @21\nRETN 00\nMOVSP 00 -4\nRETN 00\n",
    b"RSADD 03\nJSR 00 @23\nRETN 00\nJSR 00 @37\nJSR 00 @37\nRETN 00\nMOVSP 00 -4\nRETN 00\n",
    // The two cells have other types.
    b"RSADD 03\nRSADD 05\nJSR 00 @25\nRETN 00\nJSR 00 @39\nJSR 00 @39\nRETN 00\nMOVSP 00 -4\n\
      RETN 00\n",
    b"RSADD 03\nRSADD 03\nRSADD 03\nRSADD 03\nRSADD 03\nRSADD 03\nRSADD 03\nJSR 00 @35\n\
      RETN 00\nJSR 00 @49\nJSR 00 @49\nRETN 00\nJSR 00 @63\nJSR 00 @63\nRETN 00\nMOVSP 00 -4\n\
      MOVSP 00 -4\nRETN 00\n",
    b"RSADD 03\nJSR 00 @31\nRSADD 05\nJSR 00 @31\nRETN 00\nMOVSP 00 -4\nRETN 00\n",
    // What lies above it may not.
    b"RSADD 05\nRSADD 03\nJSR 00 @35\nRSADD 05\nRSADD 06\nJSR 00 @35\nRETN 00\n\
      CPTOPSP 01 -8 4\nMOVSP 00 -4\nRETN 00\n",
    b"RSADD 03\nJSR 00 @31\nRSADD 05\nJSR 00 @39\nRETN 00\nMOVSP 00 -4\nRETN 00\nJSR 00 @31\n\
      RETN 00\n",
];

const WRONG_DOUBLES: &[&[u8]] = &[
    b"JSR 00 @21\nRETN 00\nCPTOPSP 01 -4 4\nRETN 00\n",
    b"RSADD 03\nJSR 00 @47\nMOVSP 00 -4\nMOVSP 00 -4\nMOVSP 00 -4\nMOVSP 00 -4\nRETN 00\n\
      JSR 00 @61\nJSR 00 @61\nRETN 00\nCPTOPSP 01 -4 4\nRETN 00\n",
    b"RSADD 06\nJSR 00 @31\nADD 23\nMOVSP 00 -4\nRETN 00\nCPTOPSP 01 -4 4\nRETN 00\n",
    b"RSADD 03\nJSR 00 @55\nMOVSP 00 -4\nMOVSP 00 -4\nRSADD 05\nJSR 00 @55\nMOVSP 00 -4\n\
      MOVSP 00 -4\nRETN 00\nCPTOPSP 01 -4 4\nRETN 00\n",
    b"RSADD 03\nRSADD 05\nJSR 00 @27\nADD 20\nRETN 00\nCPTOPSP 01 -8 8\nRETN 00\n",
    b"JSR 00 @75\nMOVSP 00 -4\nMOVSP 00 -4\nMOVSP 00 -4\nMOVSP 00 -4\nMOVSP 00 -4\n\
      MOVSP 00 -4\nMOVSP 00 -4\nMOVSP 00 -4\nMOVSP 00 -4\nRETN 00\nJSR 00 @89\nJSR 00 @89\n\
      RETN 00\nJSR 00 @103\nJSR 00 @103\nRETN 00\nRSADD 03\nRSADD 03\nRETN 00\n",
];

const WRONG_PUTS_BACK: &[&[u8]] = &[
    b"RSADD 05\nJSR 00 @41\nINCISP 03 -4\nMOVSP 00 -4\nMOVSP 00 -4\nRETN 00\nMOVSP 00 -4\n\
      RSADD 03\nRETN 00\n",
    // Both calls must have the same cell there, though it is dropped.
    b"RSADD 05\nJSR 00 @31\nRSADD 03\nJSR 00 @31\nRETN 00\nMOVSP 00 -4\nRSADD 05\nRETN 00\n",
    b"RSADD 05\nJSR 00 @35\nJSR 00 @35\nMOVSP 00 -4\nRETN 00\nMOVSP 00 -4\nRSADD 03\nRETN 00\n",
    b"RSADD 03\nRSADD 03\nJSR 00 @43\nINCISP 03 -8\nMOVSP 00 -4\nMOVSP 00 -4\nRETN 00\n\
      JSR 00 @61\nJSR 00 @61\nRSADD 05\nRSADD 03\nRETN 00\nMOVSP 00 -4\nRETN 00\n",
    b"RSADD 03\nJSR 00 @29\nMOVSP 00 -4\nRETN 00\nCONST 03 1\nCPDOWNSP 01 -12 4\nMOVSP 00 -4\n\
      RETN 00\n",
    b"RSADD 03\nJSR 00 @29\nMOVSP 00 -4\nRETN 00\nDESTRUCT 01 8 0 4\nRETN 00\n",
];

const WRONG_RECURSIONS: &[&[u8]] = &[
    // A cell is dropped at each call, so no stack is high enough.
    b"RSADD 03\nRSADD 03\nRSADD 03\nJSR 00 @27\nRETN 00\nMOVSP 00 -4\nJSR 00 @27\nRETN 00\n",
    b"RSADD 03\nRSADD 03\nRSADD 03\nJSR 00 @27\nRETN 00\nCONST 03 0\nJZ 00 @51\nMOVSP 00 -4\n\
      JSR 00 @27\nRETN 00\n",
    // And it is put back behind the call.
    b"RSADD 03\nRSADD 03\nRSADD 03\nJSR 00 @27\nRETN 00\nCONST 03 0\nJZ 00 @53\nMOVSP 00 -4\n\
      JSR 00 @27\nRSADD 03\nRETN 00\n",
    b"JSR 00 @21\nRETN 00\nCPTOPSP 01 -4 4\nJZ 00 @55\nCPTOPSP 01 -4 4\nJSR 00 @21\n\
      MOVSP 00 -4\nRETN 00\n",
    b"RSADD 03\nJSR 00 @23\nRETN 00\nCPTOPSP 01 -4 4\nJZ 00 @43\nJSR 00 @23\nMOVSP 00 -4\n\
      RETN 00\n",
    b"RSADD 03\nJSR 00 @29\nMOVSP 00 -4\nRETN 00\nCPTOPSP 01 -4 4\nJZ 00 @57\nRSADD 05\n\
      JSR 00 @59\nMOVSP 00 -4\nRETN 00\nCPTOPSP 01 -4 4\nJZ 00 @93\nCPTOPSP 01 -4 4\n\
      JSR 00 @29\nMOVSP 00 -4\nRETN 00\n",
    b"RSADD 03\nJSR 00 @23\nRETN 00\nMOVSP 00 -4\nRSADD 03\nMOVSP 00 -4\nJSR 00 @23\nRETN 00\n",
];

const WRONG_BASES: &[&[u8]] = &[
    b"RSADD 03\nJSR 00 @29\nMOVSP 00 -4\nRETN 00\nCPTOPBP 01 -4 4\nMOVSP 00 -4\nRETN 00\n",
    b"JSR 00 @21\nRETN 00\nSAVEBP 00\nCPTOPBP 01 -4 4\nMOVSP 00 -4\nRESTOREBP 00\nRETN 00\n",
    b"RSADD 03\nJSR 00 @31\nRSADD 05\nJSR 00 @31\nRETN 00\nSAVEBP 00\nCPTOPBP 01 -4 4\n\
      MOVSP 00 -4\nRESTOREBP 00\nRETN 00\n",
    b"RSADD 03\nJSR 00 @29\nMOVSP 00 -4\nRETN 00\nSAVEBP 00\nCPTOPBP 01 -8 4\nMOVSP 00 -4\n\
      RESTOREBP 00\nRETN 00\n",
    b"RSADD 03\nJSR 00 @31\nRSADD 05\nJSR 00 @31\nRETN 00\nSAVEBP 00\nJSR 00 @43\n\
      RESTOREBP 00\nRETN 00\nCPTOPBP 01 -4 4\nMOVSP 00 -4\nRETN 00\n",
    b"RSADD 05\nJSR 00 @23\nRETN 00\nSAVEBP 00\nCONST 03 1\nCPDOWNBP 01 -4 4\nMOVSP 00 -4\n\
      RESTOREBP 00\nRETN 00\n",
    // Two calls with other cells beneath BP.
    b"RSADD 03\nSAVEBP 00\nJSR 00 @35\nRSADD 05\nSAVEBP 00\nJSR 00 @35\nRETN 00\n\
      CPTOPBP 01 -4 4\nMOVSP 00 -4\nRETN 00\n",
    // A base is left.
    b"RSADD 03\nJSR 00 @23\nRETN 00\nSAVEBP 00\nRETN 00\n",
];

const WRONG_FIFTY: &[&[u8]] = &[
    b"RSADD 03\nJSR 00 @415\nRSADD 05\nJSR 00 @415\nRSADD 06\nJSR 00 @415\nRSADD 03\n\
      JSR 00 @415\nRSADD 05\nJSR 00 @415\nRSADD 06\nJSR 00 @415\nRSADD 03\nJSR 00 @415\n\
      RSADD 05\nJSR 00 @415\nRSADD 06\nJSR 00 @415\nRSADD 03\nJSR 00 @415\nRSADD 05\n\
      JSR 00 @415\nRSADD 06\nJSR 00 @415\nRSADD 03\nJSR 00 @415\nRSADD 05\nJSR 00 @415\n\
      RSADD 06\nJSR 00 @415\nRSADD 03\nJSR 00 @415\nRSADD 05\nJSR 00 @415\nRSADD 06\n\
      JSR 00 @415\nRSADD 03\nJSR 00 @415\nRSADD 05\nJSR 00 @415\nRSADD 06\nJSR 00 @415\n\
      RSADD 03\nJSR 00 @415\nRSADD 05\nJSR 00 @415\nRSADD 06\nJSR 00 @415\nRSADD 03\n\
      JSR 00 @415\nRSADD 05\nJSR 00 @415\nRSADD 06\nJSR 00 @415\nRSADD 03\nJSR 00 @415\n\
      RSADD 05\nJSR 00 @415\nRSADD 06\nJSR 00 @415\nRSADD 03\nJSR 00 @415\nRSADD 05\n\
      JSR 00 @415\nRSADD 06\nJSR 00 @415\nRSADD 03\nJSR 00 @415\nRSADD 05\nJSR 00 @415\n\
      RSADD 06\nJSR 00 @415\nRSADD 03\nJSR 00 @415\nRSADD 05\nJSR 00 @415\nRSADD 06\n\
      JSR 00 @415\nRSADD 03\nJSR 00 @415\nRSADD 05\nJSR 00 @415\nRSADD 06\nJSR 00 @415\n\
      RSADD 03\nJSR 00 @415\nRSADD 05\nJSR 00 @415\nRSADD 06\nJSR 00 @415\nRSADD 03\n\
      JSR 00 @415\nRSADD 05\nJSR 00 @415\nRSADD 06\nJSR 00 @415\nRSADD 03\nJSR 00 @415\n\
      RSADD 05\nJSR 00 @415\nRETN 00\nCPTOPSP 01 -4 4\nMOVSP 00 -4\nRETN 00\n",
    b"RSADD 03\nRSADD 03\nJSR 00 @515\nRSADD 05\nRSADD 03\nJSR 00 @515\nRSADD 06\nRSADD 03\n\
      JSR 00 @515\nRSADD 03\nRSADD 03\nJSR 00 @515\nRSADD 05\nRSADD 03\nJSR 00 @515\n\
      RSADD 06\nRSADD 03\nJSR 00 @515\nRSADD 03\nRSADD 03\nJSR 00 @515\nRSADD 05\nRSADD 03\n\
      JSR 00 @515\nRSADD 06\nRSADD 03\nJSR 00 @515\nRSADD 03\nRSADD 03\nJSR 00 @515\n\
      RSADD 05\nRSADD 03\nJSR 00 @515\nRSADD 06\nRSADD 03\nJSR 00 @515\nRSADD 03\nRSADD 03\n\
      JSR 00 @515\nRSADD 05\nRSADD 03\nJSR 00 @515\nRSADD 06\nRSADD 03\nJSR 00 @515\n\
      RSADD 03\nRSADD 03\nJSR 00 @515\nRSADD 05\nRSADD 03\nJSR 00 @515\nRSADD 06\nRSADD 03\n\
      JSR 00 @515\nRSADD 03\nRSADD 03\nJSR 00 @515\nRSADD 05\nRSADD 03\nJSR 00 @515\n\
      RSADD 06\nRSADD 03\nJSR 00 @515\nRSADD 03\nRSADD 03\nJSR 00 @515\nRSADD 05\nRSADD 03\n\
      JSR 00 @515\nRSADD 06\nRSADD 03\nJSR 00 @515\nRSADD 03\nRSADD 03\nJSR 00 @515\n\
      RSADD 05\nRSADD 03\nJSR 00 @515\nRSADD 06\nRSADD 03\nJSR 00 @515\nRSADD 03\nRSADD 03\n\
      JSR 00 @515\nRSADD 05\nRSADD 03\nJSR 00 @515\nRSADD 06\nRSADD 03\nJSR 00 @515\n\
      RSADD 03\nRSADD 03\nJSR 00 @515\nRSADD 05\nRSADD 03\nJSR 00 @515\nRSADD 06\nRSADD 03\n\
      JSR 00 @515\nRSADD 03\nRSADD 03\nJSR 00 @515\nRSADD 05\nRSADD 03\nJSR 00 @515\n\
      RSADD 06\nRSADD 03\nJSR 00 @515\nRSADD 03\nRSADD 03\nJSR 00 @515\nRSADD 05\nRSADD 03\n\
      JSR 00 @515\nRSADD 06\nRSADD 03\nJSR 00 @515\nRSADD 03\nRSADD 03\nJSR 00 @515\n\
      RSADD 05\nRSADD 03\nJSR 00 @515\nRSADD 06\nRSADD 03\nJSR 00 @515\nRSADD 03\nRSADD 03\n\
      JSR 00 @515\nRSADD 05\nRSADD 03\nJSR 00 @515\nRSADD 06\nRSADD 03\nJSR 00 @515\n\
      RSADD 03\nRSADD 03\nJSR 00 @515\nRSADD 05\nRSADD 03\nJSR 00 @515\nRSADD 06\nRSADD 03\n\
      JSR 00 @515\nRSADD 03\nRSADD 03\nJSR 00 @515\nRSADD 05\nRSADD 03\nJSR 00 @515\nRETN 00\n\
      CPTOPSP 01 -8 8\nMOVSP 00 -8\nRETN 00\n",
];

#[test]
fn drops(rt: HostRuntime) -> Result<(), Fail> {
    assert_eq!(rt;
        first_other(rt.alloc(), DROPS, Verdict::Passed)?,
        DROPS.len()
    );
    Ok(())
}

#[test]
fn doubles(rt: HostRuntime) -> Result<(), Fail> {
    assert_eq!(rt;
        first_other(rt.alloc(), DOUBLES, Verdict::Passed)?,
        DOUBLES.len()
    );
    Ok(())
}

#[test]
fn puts_back(rt: HostRuntime) -> Result<(), Fail> {
    assert_eq!(rt;
        first_other(rt.alloc(), PUTS_BACK, Verdict::Passed)?,
        PUTS_BACK.len()
    );
    Ok(())
}

#[test]
fn recursions(rt: HostRuntime) -> Result<(), Fail> {
    assert_eq!(rt;
        first_other(rt.alloc(), RECURSIONS, Verdict::Passed)?,
        RECURSIONS.len()
    );
    Ok(())
}

#[test]
fn bases(rt: HostRuntime) -> Result<(), Fail> {
    assert_eq!(rt;
        first_other(rt.alloc(), BASES, Verdict::Passed)?,
        BASES.len()
    );
    Ok(())
}

#[test]
fn fifty(rt: HostRuntime) -> Result<(), Fail> {
    assert_eq!(rt;
        first_other(rt.alloc(), FIFTY, Verdict::Passed)?,
        FIFTY.len()
    );
    Ok(())
}

/// There are 2^20 ways of calls along which the first one's window grows.
#[test]
fn ways(rt: HostRuntime) -> Result<(), Fail> {
    assert_eq!(rt; first_other(rt.alloc(), WAYS, Verdict::Passed)?, WAYS.len());
    Ok(())
}

#[test]
fn wrong_drops(rt: HostRuntime) -> Result<(), Fail> {
    assert_eq!(rt;
        first_other(rt.alloc(), WRONG_DROPS, Verdict::Unstacked)?,
        WRONG_DROPS.len()
    );
    Ok(())
}

#[test]
fn wrong_doubles(rt: HostRuntime) -> Result<(), Fail> {
    assert_eq!(rt;
        first_other(rt.alloc(), WRONG_DOUBLES, Verdict::Unstacked)?,
        WRONG_DOUBLES.len()
    );
    Ok(())
}

#[test]
fn wrong_puts_back(rt: HostRuntime) -> Result<(), Fail> {
    assert_eq!(rt;
        first_other(rt.alloc(), WRONG_PUTS_BACK, Verdict::Unstacked)?,
        WRONG_PUTS_BACK.len()
    );
    Ok(())
}

#[test]
fn wrong_recursions(rt: HostRuntime) -> Result<(), Fail> {
    assert_eq!(rt;
        first_other(rt.alloc(), WRONG_RECURSIONS, Verdict::Unstacked)?,
        WRONG_RECURSIONS.len()
    );
    Ok(())
}

#[test]
fn wrong_bases(rt: HostRuntime) -> Result<(), Fail> {
    assert_eq!(rt;
        first_other(rt.alloc(), WRONG_BASES, Verdict::Unstacked)?,
        WRONG_BASES.len()
    );
    Ok(())
}

#[test]
fn wrong_fifty(rt: HostRuntime) -> Result<(), Fail> {
    assert_eq!(rt;
        first_other(rt.alloc(), WRONG_FIFTY, Verdict::Unstacked)?,
        WRONG_FIFTY.len()
    );
    Ok(())
}
