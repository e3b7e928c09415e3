//! Typed parts in a row.

ghost use Rattle.std.specs.Prelude.{◌≡◌, IfOk};
ghost use Rattle.nss_expressions.specs.Rows.{and_one};

use nwq_value::{Items, NoMemory};

/// One more typed part behind others, where all are typed.
pub fn and_last<T: Drop>(
    all: Option<Items<T>>,
    one: Option<T>,
) -> Result<Option<Items<T>>, NoMemory>
    ensures row { IfOk result (λ r. r ≡ and_one all one) }
{
    match all {
        Some(mut all) => match one {
            Some(one) => {
                all.push(one)?;
                Ok(Some(all))
            }
            None => Ok(None),
        },
        None => {
            drop(one);
            Ok(None)
        }
    }
}
