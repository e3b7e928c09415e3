//! Where `break` and `continue` lead.

ghost use Rattle.std.specs.Prelude.{◌≡◌, None, Some};
ghost use Rattle.emission_rules.specs.Statements as code;
ghost use Rattle.codegen_unit.specs.Ready.{plain_exits};

/// A label, and the depth that the frame has there.
#[derive(Clone, Copy)]
pub struct Target {
    pub label: u32,
    pub depth: u32,
}

/// Where `break` and `continue` lead, where they may stand.
#[derive(Clone, Copy)]
pub struct Exits {
    pub break_to: Option<Target>,
    pub continue_to: Option<Target>,
}

/// Outside of all loops and switches.
pub(crate) fn no_exits() -> Exits
    ensures none { result ≡ record { break_to = None; continue_to = None } }
    ensures plain { plain_exits result ≡ code.no_exits }
{
    Exits {
        break_to: None,
        continue_to: None,
    }
}

/// Inside a loop at this depth, whose third part or test and whose end have these labels.
pub(crate) fn in_loop(next: u32, end: u32, depth: u32) -> Exits
    ensures breaks { result.break_to ≡ Some (record { label = end; depth = depth }) }
    ensures continues { result.continue_to ≡ Some (record { label = next; depth = depth }) }
{
    Exits {
        break_to: Some(Target { label: end, depth }),
        continue_to: Some(Target { label: next, depth }),
    }
}

/// Inside a switch whose selector lies on top at this depth.
pub(crate) fn in_switch(end: u32, depth: u32, around: Exits) -> Exits
    ensures breaks { result.break_to ≡ Some (record { label = end; depth = depth }) }
    ensures continues { result.continue_to ≡ around.continue_to }
{
    Exits {
        break_to: Some(Target { label: end, depth }),
        continue_to: around.continue_to,
    }
}
