ghost use Rattle.ncs_text.specs.Laws.{ListedAgain, OneAnswer, TargetIsMeant};

use ncs_code::{distance_leads, one_name, place_laws, size_laws, spelling_laws};

/// Assembling the text of a file gives the file again.
pub fn listed_again()
    ensures again { ListedAgain }
{
    place_laws();
    size_laws();
    one_name();
}

/// A text has one answer, want of memory aside.
pub fn one_answer()
    ensures one { OneAnswer }
{
    spelling_laws();
    size_laws();
    place_laws();
    one_name();
}

/// A jump leads to an instruction exactly where one begins at the place that its line names.
pub fn target_is_meant()
    ensures meant { TargetIsMeant }
{
    place_laws();
    distance_leads();
}
