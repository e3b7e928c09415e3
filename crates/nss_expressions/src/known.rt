//! What a name in sight means.

ghost use Rattle.std.specs.Prelude.{◌≡◌};
ghost use Rattle.std.specs.Option.{option_map};
ghost use Rattle.typing_rules.specs.Sight.{name_means};
ghost use Rattle.nss_scopes.specs.Slots.{meaning_of};
ghost use Rattle.nss_scopes.specs.Views.{in_sight};
ghost use Rattle.nss_expressions.specs.Views.{known_of};

use nss_scopes::{Meaning, Sight};
use nwq_value::{Const, Table, Ty};

/// What a name means: a variable or a constant.
#[derive(Clone, Copy)]
pub enum Known<'a> {
    Variable { number: u32, is_local: bool, ty: Ty },
    Constant(&'a Const),
}

fn of_meaning(meaning: &Meaning) -> Known<'_>
    ensures { known_of result ≡ meaning_of meaning.now }
{
    match meaning {
        Meaning::Variable {
            number,
            is_local,
            ty,
        } => Known::Variable {
            number: *number,
            is_local: *is_local,
            ty: *ty,
        },
        Meaning::Constant(value) => Known::Constant(value),
    }
}

/// What a name means, maybe nothing; `None` where its declaration isn't typed.
pub fn name_means<'a>(table: &'a Table, c: &'a Sight, name: &[u8]) -> Option<Option<Known<'a>>>
    ensures meaning { option_map (option_map known_of) result
        ≡ name_means (in_sight table.now c.now) name.now }
{
    match c.names.find(name) {
        Some(entry) => match &entry.means {
            Some(meaning) => Some(Some(of_meaning(meaning))),
            None => None,
        },
        None => match table.constant(name) {
            Some(value) => Some(Some(Known::Constant(value))),
            None => Some(None),
        },
    }
}
