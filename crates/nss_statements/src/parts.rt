//! Parts of a node as one, and what is made of them.

ghost use Rattle.std.specs.Prelude.{◌≡◌};
ghost use Rattle.typing_rules.specs.Nodes.{two};
ghost use Rattle.nss_statements.specs.Faults.{some_made};

use nwq_value::NoMemory;

/// Two parts, if both are typed.
pub fn two<A: Drop, B: Drop>(first: Option<A>, second: Option<B>) -> Option<(A, B)>
    ensures both { result ≡ two first second }
{
    match first {
        Some(first) => match second {
            Some(second) => Some((first, second)),
            None => {
                drop(first);
                None
            }
        },
        None => {
            drop(second);
            None
        }
    }
}

/// What is made, as an answer that may be none.
pub fn some_made<T: Drop>(made: Result<T, NoMemory>) -> Result<Option<T>, NoMemory>
    ensures made { result ≡ some_made made }
{
    match made {
        Ok(made) => Ok(Some(made)),
        Err(error) => Err(error),
    }
}
