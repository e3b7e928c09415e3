ghost use Rattle.std.specs.Prelude.{◌≡◌};
ghost use Rattle.nwq_outside.specs.Outside.{no_counts, with_next};

/// Which of the counts of files.
#[derive(Clone, Copy)]
pub enum CountOf {
    Faults,
    Absences,
    Longs,
}

/// How often the outside failed, a name was not there, and a file was too long. Each count stays at
/// the greatest `u64`.
#[derive(Clone, Copy)]
pub struct FileCounts {
    pub faults: u64,
    pub absences: u64,
    pub longs: u64,
}

impl FileCounts {
    /// The counts before any call.
    pub fn new() -> FileCounts
        ensures none { result ≡ no_counts }
    {
        FileCounts {
            faults: 0,
            absences: 0,
            longs: 0,
        }
    }

    /// One of the counts rises by one.
    pub fn raise(&mut self, which: CountOf)
        ensures raised { self.new ≡ with_next which self.old }
    {
        match which {
            CountOf::Faults => self.faults = self.faults.saturating_add(1),
            CountOf::Absences => self.absences = self.absences.saturating_add(1),
            CountOf::Longs => self.longs = self.longs.saturating_add(1),
        }
    }
}
