ghost use Rattle.std.specs.Prelude.{◌≡◌};

use nwq_value::NoMemory as OutOfMemory;

/// Why a list of tokens has no tree here. The numbers are those of tokens, counted from 0.
#[derive(Clone, Copy)]
pub enum ParseFault {
    /// The first token whose nest passes the limit.
    Nested(u32),
    /// The first token that can't stand where it stands, or the count where the tokens end too
    /// early.
    Syntax(u32),
    NoMemory,
}

impl From<OutOfMemory> for ParseFault {
    ghost use Rattle.nss_parser.specs.declared.fault.ParseFault.TheVariants as fault;

    ghost from_gives = { λ _ e. e ≡ fault.NoMemory };

    fn from(_error: OutOfMemory) -> ParseFault {
        ParseFault::NoMemory
    }
}
