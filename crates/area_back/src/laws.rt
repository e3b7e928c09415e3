//! Laws, the contract of a function that does nothing.

ghost use Rattle.area_back.specs.Laws.{UnchangedGoesBack, BackIsRead, PutChangesOneValue};

use area_rules::objects_tell;
use gff_tree::fields_tell;
use local_variables::{variables_stay, variables_tell};

/// An area that nobody changed goes back as the tree it was read from; after one change of a
/// variable its value alone differs; and whatever goes back is read as the same area.
pub fn areas_go_back()
    ensures unchanged { UnchangedGoesBack }
    ensures one_value { PutChangesOneValue }
    ensures read { BackIsRead }
{
    fields_tell();
    variables_stay();
    variables_tell();
    objects_tell();
}
