ghost use Rattle.ncs_emit.specs.Laws.{FinishedIsCode, PartLaws, ProgramSize, ProgramStands};

use ncs_code::{distance_leads, place_laws, size_laws};

/// Placements and sizes of two parts add up, each stands where both stand in a row, and they lead
/// on and close together where each does.
pub fn part_laws()
    ensures parts { PartLaws }
{}

/// The program takes as many bytes as its lines, and where no label is placed twice, each line
/// stands at its place in it.
pub fn program_stands()
    ensures size { ProgramSize }
    ensures stands { ProgramStands }
{
    place_laws();
    size_laws();
    distance_leads();
}

/// A finished file is one that `ncs_file` loads, with the same instructions in order, where the
/// code leads on and closes.
pub fn finished_is_code()
    ensures code { FinishedIsCode }
{
    place_laws();
    size_laws();
    distance_leads();
}
