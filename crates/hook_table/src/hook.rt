ghost use Rattle.std.specs.Prelude.{◌≡◌, IfOk, Ok};
ghost use Rattle.hook_table.specs.Sets.{answer_sets};
ghost use Rattle.hook_table.specs.Standard.{types_of_values, IsAnswer};

use nwq_value::{Args, NoMemory, Text, Ty, Tys, Value};
use table_2da::Tables;

/// A function over lists of arguments. It may refuse for want of memory.
pub type Call = Box<dyn Fn(&Args) -> Result<Value, NoMemory>>;

/// What is known of a hook: the name of its function, the types of the parameters and of the
/// result, and the tables in which it looks cells up, where it does.
#[derive(Drop)]
pub struct Known {
    pub name: Text,
    pub params: Tys,
    pub result: Ty,
    pub tables: Tables,
}

/// A function that scripts call by way of a closure.
///
/// Kept beside the closure: it may be called on every list of arguments of the hook's types, and
/// what it answers there is the function's value.
#[derive(Drop)]
pub struct Hook {
    pub known: Known,
    call: Call,
    ghost callable: { (args : _) → types_of_values args.now ≡ known.params → Call.pre call args },
    ghost answers: { (args : _) (v : _) → types_of_values args.now ≡ known.params
        → Call.post call args (Ok v)
        → IsAnswer known.tables known.name known.result args.now v } by { Prim.hlevel answer_sets },
}

impl Hook {
    /// The hook of this closure, which may be called on arguments of these types and answers the
    /// function's value.
    pub fn new(name: Text, params: Tys, gives: Ty, call: Call, tables: Tables) -> Hook
        requires callable { (args : _) → types_of_values args.now ≡ params → Call.pre call args }
        requires answers { (args : _) (v : _) → types_of_values args.now ≡ params
            → Call.post call args (Ok v) → IsAnswer tables name gives args.now v }
        ensures known { result.known
            ≡ record { name = name; params = params; result = gives; tables = tables } }
    {
        let known = Known {
            name,
            params,
            result: gives,
            tables,
        };
        Hook { known, call }
    }

    /// The function's value for these arguments, as the closure answers it.
    pub fn answer(&self, args: &Args) -> Result<Value, NoMemory>
        requires types { types_of_values args.now ≡ self.now.known.params }
        ensures asked { Call.post self.now.call args.entry result }
        ensures answer { IfOk result (λ v. IsAnswer
            self.now.known.tables self.now.known.name self.now.known.result args.now v) }
    {
        (self.call)(args)
    }
}
