//! A law about the parts of a unit's code.

ghost use Rattle.emission_rules.specs.Parts.{PlacesAbove};

use ncs_emit::part_laws;

/// No part of a unit's code places a label below the next one that it begins with.
pub fn places_above()
    ensures above { PlacesAbove }
{
    part_laws();
}
