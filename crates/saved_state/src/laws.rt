ghost use Rattle.saved_state.specs.Laws.{CapturedValues, CapturesAgain, PlacesSplit, ResumedValues};

/// The lists of a captured state hold, in the order of their places, the very cells that stood
/// right beneath BP and on top.
pub fn captured_values()
    ensures law { CapturedValues }
{}

/// A resumed stack holds each global of its state at the same place, and each local over the base
/// cell.
pub fn resumed_values()
    ensures law { ResumedValues }
{}

/// A resumed stack of which as many globals and locals are captured gives the same lists again.
pub fn captures_again()
    ensures law { CapturesAgain }
{}

/// A cell is read and written at the place that counts the cells beneath it, whatever stands over
/// it.
pub fn places_split()
    ensures law { PlacesSplit }
{}
