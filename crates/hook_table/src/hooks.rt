ghost use Rattle.std.specs.Prelude.{◌≡◌, ◌<◌, [], ◌∷◌, ◌++◌, length, position, slice_get};
ghost use Rattle.std.specs.Prelude.{IfOk, IfSome, OnOk, OnErr};
ghost use Rattle.std.specs.Option.{ForSome};
ghost use Rattle.std.specs.Str.{bytes_eq};
ghost use Rattle.hook_table.specs.Standard.{types_of_values, IsAnswer};
ghost use Rattle.hook_table.specs.InHooks.{known_by};

use crate::hook::{Call, Hook};
use nwq_value::{Args, NoMemory, Value};
use std::alloc::Global;

/// The hooks of a program by number.
pub struct Hooks {
    pub all: Vec<Hook>,
}

impl Drop for Hooks {
    fn drop(self) {
        let Hooks { all } = self;
        drop(all);
    }
}

/// The number of the first hook of this name.
fn find_in(hooks: &[Hook], name: &[u8]) -> Option<usize>
    ensures first { result ≡ position (λ h. bytes_eq h.known.name name.now) hooks.now }
{
    for (i, hook) in hooks.iter().enumerate() {
        if hook.known.name.bytes() == name {
            return Some(i);
        }
    }
    None
}

impl Hooks {
    /// No hooks; takes no memory.
    pub fn new(alloc: Global) -> Hooks
        ensures empty { result.all.items ≡ [] }
    {
        Hooks {
            all: Vec::new(alloc),
        }
    }

    #[tactic(auto, using(crate::proofs::ServeLemmas::known_push))]
    /// Puts a hook last. After `NoMemory` it is dropped and the hooks are as before.
    pub fn push(&mut self, hook: Hook) -> Result<(), NoMemory>
        ensures ok { OnOk result (self.new.all.items ≡ self.old.all.items ++ hook ∷ []) }
        ensures known { OnOk result (known_by self.new ≡ known_by self.old ++ hook.known ∷ []) }
        ensures err { OnErr result (self.new.all.items ≡ self.old.all.items) }
    {
        self.all.push(hook)?;
        Ok(())
    }

    /// The number of the first hook of this name.
    pub fn find(&self, name: &[u8]) -> Option<usize>
        ensures first { result ≡ position (λ h. bytes_eq h.known.name name.now) self.now.all.items }
    {
        find_in(self.all.as_slice(), name)
    }

    /// The value of hook `i`'s function for these arguments, as its closure answers it.
    pub fn call(&self, i: usize, args: &Args) -> Result<Value, NoMemory>
        requires hook { i < length self.now.all.items }
        requires types { ForSome (slice_get self.now.all.items i)
            (λ h. types_of_values args.now ≡ h.known.params) }
        ensures answer { IfOk result (λ v. IfSome (slice_get self.now.all.items i)
            (λ h. IsAnswer h.known.tables h.known.name h.known.result args.now v)) }
        ensures asked { ForSome (slice_get self.now.all.items i)
            (λ h. Call.post h.call args.entry result) }
    {
        self.all[i].answer(args)
    }
}
