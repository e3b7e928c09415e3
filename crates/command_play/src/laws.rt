//! Laws about plays of plans, as the contract of a function that does nothing.

ghost use Rattle.command_play.specs.Laws.{SureGames, SurePlays};

use command_sources::laws::one_source;
use play_inputs::laws::{one_area, one_listing};

/// What the files hold decides what comes of the play of a plan.
pub fn one_game()
    ensures games { SureGames }
    ensures command { SurePlays }
{
    one_source();
    one_listing();
    one_area();
}
