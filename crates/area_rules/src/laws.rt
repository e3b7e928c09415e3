//! A law, the contract of a function that does nothing.

ghost use Rattle.area_rules.specs.Laws.{TablesAreDistinct, ObjectsAreDistinct};

use local_variables::variables_tell;

/// What breaks no rule tells no two variables of one type and name.
pub fn objects_tell()
    ensures tables { TablesAreDistinct }
    ensures objects { ObjectsAreDistinct }
{
    variables_tell();
}
