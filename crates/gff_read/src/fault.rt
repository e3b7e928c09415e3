use gff_bytes::Range;
use nwq_value::NoMemory;
use std::alloc::{AllocError, AllocFailed};

/// Why a file has no tree, as the first test of the walk that fails: the file has nothing at a
/// place; a field's type is above 15; a struct was reached already; a struct is more than 64 deep;
/// a field's struct has its label already. A number is that of the struct or the field.
#[derive(Clone, Copy)]
pub enum TreeFault {
    Range(Range),
    Kind(u32),
    Shared(u32),
    Deep(u32),
    Label(u32),
    NoMemory,
}

impl From<NoMemory> for TreeFault {
    ghost use Rattle.std.specs.Prelude.{◌≡◌};
    ghost use Rattle.gff_read.specs.declared.fault.TreeFault.TheVariants.{NoMemory as NoRoom};

    ghost from_gives = { λ _ e. e ≡ NoRoom };

    fn from(_error: NoMemory) -> TreeFault {
        TreeFault::NoMemory
    }
}

impl From<AllocError> for TreeFault {
    ghost use Rattle.std.specs.Prelude.{◌≡◌};
    ghost use Rattle.gff_read.specs.declared.fault.TreeFault.TheVariants.{NoMemory as NoRoom};

    ghost from_gives = { λ _ e. e ≡ NoRoom };

    fn from(_error: AllocError) -> TreeFault {
        TreeFault::NoMemory
    }
}

impl<T: Drop> From<AllocFailed<T>> for TreeFault {
    ghost use Rattle.std.specs.Prelude.{◌≡◌};
    ghost use Rattle.gff_read.specs.declared.fault.TreeFault.TheVariants.{NoMemory as NoRoom};

    ghost from_gives = { λ _ e. e ≡ NoRoom };

    fn from(_error: AllocFailed<T>) -> TreeFault {
        TreeFault::NoMemory
    }
}

impl From<Range> for TreeFault {
    ghost use Rattle.std.specs.Prelude.{◌≡◌};
    ghost use Rattle.gff_read.specs.declared.fault.TreeFault.TheVariants.{Range as NoPlace};

    ghost from_gives = { λ range e. e ≡ NoPlace range };

    fn from(range: Range) -> TreeFault {
        TreeFault::Range(range)
    }
}
