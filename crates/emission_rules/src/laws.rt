//! Laws about the definitions, each the contract of a function that does nothing.
ghost use Rattle.emission_rules.specs.Laws.{
  CodeIsWhole,
  CodeStands,
  EachPlacedOnce,
  FileIsCode,
  OneFile,
  PositionsByNumber,
};

use ncs_emit::{finished_is_code, part_laws, program_stands};
use typing_rules::laws::{numbered_in_order, one_typed};

/// A unit has one file at most.
pub fn one_file()
    ensures one { OneFile }
{
    one_typed();
}

/// The positions of a typed unit's variables stand in the order of their numbers.
pub fn positions_by_number()
    ensures positions { PositionsByNumber }
{
    numbered_in_order();
}

/// Each label that the code of a unit takes is placed exactly once, and no other one is.
pub fn each_placed_once()
    ensures once { EachPlacedOnce }
{
    part_laws();
}

/// In the program of a unit's code each line stands at its place.
pub fn code_stands()
    ensures stands { CodeStands }
{
    each_placed_once();
    program_stands();
}

/// The code of a unit that keeps the bounds has a spelling for each instruction, jumps to labels
/// that are placed, and ends with an instruction.
pub fn code_is_whole()
    ensures whole { CodeIsWhole }
{
    part_laws();
}

/// The file of a unit that keeps the bounds loads, with the same instructions, if it is not too
/// large.
pub fn file_is_code()
    ensures code { FileIsCode }
{
    code_is_whole();
    finished_is_code();
}
