ghost use Rattle.ncs_code.specs.Laws.{DistanceLeads, HasOpcode, OneFirstBad, OneName, PlaceLaws};
ghost use Rattle.ncs_code.specs.Laws.{SizeLaws, SpellingLaws};

/// No spelling begins another, where an instruction is spelled there is no fault, and what is
/// spelled in a row is read again.
pub fn spelling_laws()
    ensures spelling { SpellingLaws }
{}

/// The sizes that places are counted with are lengths of spellings, and add up.
pub fn size_laws()
    ensures sizes { SizeLaws }
{}

/// An instruction begins at the length that a file of the instructions before it has.
pub fn place_laws()
    ensures places { PlaceLaws }
{}

/// A file has one first instruction at most that leads badly.
pub fn one_first_bad()
    ensures one { OneFirstBad }
{}

/// A jump over the distance between two places leads from the one to the other.
pub fn distance_leads()
    ensures leads { DistanceLeads }
{}

/// Each instruction has one of the opcodes, and those have different names.
pub fn one_name()
    ensures code { HasOpcode }
    ensures one { OneName }
{}
