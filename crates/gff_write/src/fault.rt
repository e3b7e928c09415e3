use nwq_value::NoMemory;

/// Why a tree is not written: its file would have so many bytes, more than a file may have.
#[derive(Clone, Copy)]
pub enum WriteFault {
    Large(u64),
    NoMemory,
}

impl From<NoMemory> for WriteFault {
    ghost use Rattle.std.specs.Prelude.{◌≡◌};
    ghost use Rattle.gff_write.specs.declared.fault.WriteFault.TheVariants.{NoMemory as NoRoom};

    ghost from_gives = { λ _ e. e ≡ NoRoom };

    fn from(_error: NoMemory) -> WriteFault {
        WriteFault::NoMemory
    }
}
