ghost use Rattle.state_format.specs.Place.{BytesAreOne};

/// Bytes are those of one state's parts at most.
pub fn one_state()
    ensures one { BytesAreOne }
{}
