ghost use Rattle.std.specs.Prelude.{◌≡◌};

use nwq_value::NoMemory as OutOfMemory;

/// Why a text is no header. The places are those of bytes, counted from 0.
#[derive(Clone, Copy, Debug, PartialEq, Eq)]
pub enum HeaderFault {
    /// No token, blank or closed comment begins at this byte.
    Bad(u32),
    /// The token at this place fits no production; at the text's length, the text ends inside one.
    Header(u32),
    /// The name at this place was declared before, and not as an equal constant.
    Twice(u32),
    /// The name at this place is that of function 65,536.
    Many(u32),
    NoMemory,
}

impl From<OutOfMemory> for HeaderFault {
    ghost use Rattle.engine_table.specs.declared.fault.HeaderFault.TheVariants as fault;

    ghost from_gives = { λ _ e. e ≡ fault.NoMemory };

    fn from(_error: OutOfMemory) -> HeaderFault {
        HeaderFault::NoMemory
    }
}
