ghost use Rattle.machine_rules.specs.Laws.{CallsAreFollowed, CountsInstructions};
ghost use Rattle.machine_rules.specs.Laws.{EffectsAreFollowed};
ghost use Rattle.machine_rules.specs.Laws.{EqualityIsTested, FewWait, RunsGoOn, StoresAreFollowed};

/// The definition's test of two values tells whether they are equal.
pub fn equality_is_tested()
    ensures tested { EqualityIsTested }
{}

/// Where an instruction has a stack effect on the slots of a stack, it has a case there, and the
/// cells after it have the outlines that the effect says: the types, and the bases as they were.
/// The same holds of what a call takes, and of the state that STORE_STATE captures.
pub fn effects_are_followed()
    ensures effects { EffectsAreFollowed }
    ensures calls { CallsAreFollowed }
    ensures stores { StoresAreFollowed }
{}

/// In a world of any kind, no more scripts wait than may.
pub fn few_scripts_wait<W>()
    ensures few { FewWait W }
{}

/// A run takes at most as many instructions as its limit, and just as many where it is out of them.
/// A greater limit changes no run that was over, and lets one go on that was out of instructions.
pub fn limits_count_instructions<W>()
    ensures counts { CountsInstructions W }
    ensures goes_on { RunsGoOn W }
{}
