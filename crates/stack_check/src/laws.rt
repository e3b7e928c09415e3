ghost use Rattle.stack_check.specs.Checked.{FitsToo, FittingStandsBehind};

/// A captured state that fits the table which checked code keeps fits every table of it.
pub fn fits_too()
    ensures fits { FitsToo }
{}

/// A captured state that fits the table which checked code keeps resumes 16 bytes past a
/// STORE_STATE of as many bytes as it holds.
pub fn stands_behind()
    ensures behind { FittingStandsBehind }
{}
