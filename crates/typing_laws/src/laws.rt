//! Laws about the definitions, each the contract of a function that does nothing.

ghost use Rattle.typing_laws.specs.Laws.{EachTypedTreeHasCode, EachTypedUnitHasCode};
ghost use Rattle.typing_laws.specs.FaultLaws.{LeastIsTheKept, OneFaultAtEachToken, OneLeastFault};

use nss_parser::laws::each_tree_is_known;
use nwq_value::header::roles_tell;
use typing_rules::laws::{items_are_right, typed_exactly, verdicts_are_right};

/// Every typed unit of at most 100,000 tokens keeps the bounds that its code needs, and its code
/// has fewer labels than a number of 32 bits counts.
pub fn typed_units_have_code()
    ensures tree { EachTypedTreeHasCode }
    ensures tokens { EachTypedUnitHasCode }
{
    each_tree_is_known();
    items_are_right();
    verdicts_are_right();
    roles_tell();
}

/// In a tree that tokens have, faults at one token are one fault. So the least one is one too, with
/// its kind, and it is the one that is kept of the list of all faults.
pub fn one_least_fault()
    ensures token { OneFaultAtEachToken }
    ensures least { OneLeastFault }
    ensures kept { LeastIsTheKept }
{
    typed_exactly();
    verdicts_are_right();
}
