ghost use Rattle.ncs_file.specs.Laws.{NextBegins, NoFaultInCode, OneFault};

use ncs_code::{one_first_bad, place_laws, size_laws, spelling_laws};

/// Behind an instruction of a file the next one begins, or the file ends.
pub fn next_begins()
    ensures next { NextBegins }
{
    place_laws();
    size_laws();
}

/// Bytes are refused for one reason, and those of a file for none, want of memory aside.
pub fn one_fault()
    ensures one { OneFault }
    ensures none { NoFaultInCode }
{
    spelling_laws();
    size_laws();
    place_laws();
    one_first_bad();
}
