//! The source of the script that every creature runs.

ghost use Rattle.std.specs.Prelude.{◌≡◌, ◌++◌, OnOk};
ghost use Rattle.play_generator.specs.Made.{source_text};

use nwq_text::put_count;
use nwq_value::NoMemory;

/// What stands between the number and the count of creatures.
const MIDDLE: &[u8] = b";\n\
int F(int k) { if (k < 2) return k; return F(k - 1) + F(k - 2); }\n\
void Tell(int k) { PrintInteger(g + k); }\n\
void main() {\n\
int n = GetLocalInt(OBJECT_SELF, \"n\") + 1;\n\
SetLocalInt(OBJECT_SELF, \"n\", n);\n\
g = g + n;\n\
ActionWait(50);\n\
ActionDoCommand(Tell(F(n % 8)));\n\
DelayCommand(n * 100, Tell(0 - n));\n\
AssignCommand(GetObjectByTag(\"c\" + IntToString(g % ";

/// Appends the source for a number and so many creatures.

pub fn put_source(out: &mut Vec<u8>, n: u32, creatures: u32) -> Result<(), NoMemory>
    ensures source { OnOk result (out.new.items ≡ out.old.items ++ source_text n creatures) }
{
    out.extend_from_slice(b"int g = ")?;
    put_count(out, u64::from(n))?;
    out.extend_from_slice(MIDDLE)?;
    put_count(out, u64::from(creatures))?;
    out.extend_from_slice(b")), Tell(n));\n}\n")?;
    Ok(())
}
