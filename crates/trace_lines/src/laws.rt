//! Laws about the lines that plays tell, as the contract of a function that does nothing.
ghost use Rattle.trace_lines.specs.Laws.{BuiltInNamesArePlain, HeaderNamesArePlain};
ghost use Rattle.trace_lines.specs.Laws.{NewlinesCountLines, PlaysTellLines};

/// Each line that a play tells is one line of text, where no routine's name has a newline; so the
/// text has as many newlines as the trace has lines. No header's function has one in its name.
pub fn plays_tell_lines()
    ensures lines { PlaysTellLines }
    ensures counted { NewlinesCountLines }
    ensures headers { HeaderNamesArePlain }
    ensures built_in { BuiltInNamesArePlain }
{}
