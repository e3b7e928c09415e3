ghost use Rattle.stack_shape.specs.Laws.{CallsLookFromTop, CallsPopValues, CellsOfBytes};
ghost use Rattle.stack_shape.specs.Laws.{DepthOfOffset, EffectsLookFromTop, EffectsPopValues};
ghost use Rattle.stack_shape.specs.Laws.{NumbersOfRange, RangeOfNumbers, RuleLooksFromTop};
ghost use Rattle.stack_shape.specs.Laws.{RuleLooksNoDeeper, RuleReaches, StoresLookFromTop};
ghost use Rattle.stack_shape.specs.Laws.{ValuesAreThere};

/// Four bytes are one cell, and an offset of four bytes down for each cell reaches so many cells
/// down.
pub fn cells_of_bytes()
    ensures count { CellsOfBytes }
    ensures depth { DepthOfOffset }
{}

/// The ranges are those of a positive number of cells that begins at a depth and ends at or below
/// the end from which the depth counts.
pub fn ranges_of_cells()
    ensures every { RangeOfNumbers }
    ensures no_other { NumbersOfRange }
{}

/// What an instruction or a call pops is there, and none of it is a base.
pub fn effects_pop_values()
    ensures effects { EffectsPopValues }
    ensures calls { CallsPopValues }
    ensures there { ValuesAreThere }
{}

/// Where an instruction has a rule, it has the same one with further cells beneath, and leaves
/// those as they are.
pub fn rules_look_from_the_top()
    ensures effects { EffectsLookFromTop }
    ensures calls { CallsLookFromTop }
    ensures stores { StoresLookFromTop }
    ensures rules { RuleLooksFromTop }
{}

/// What an instruction looks at is there where it has a rule; and it looks no deeper: without a
/// rule on cells as deep as it looks, it has none with further cells beneath.
pub fn rules_look_no_deeper()
    ensures there { RuleReaches }
    ensures deep { RuleLooksNoDeeper }
{}
