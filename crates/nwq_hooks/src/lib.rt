//! The hooks of a program: one for each function of strings, numbers and tables, put one after
//! another.
//!
//! A program without tables makes a boxed closure for each number from 0 to 9, whose body is
//! [`call_function`], and puts it by [`put_hook`]. After the tenth the hooks serve every routine
//! that asks for one, which [`all_are_put`] says, and every cell is empty. A program with tables
//! puts the tenth by [`put_cell_hook`]. What the functions give is defined in `world_rules`, and
//! what hooks promise in `hook_table`. See docs/ENGINE.md.
#![tactic(auto)]

ghost use Rattle.std.specs.Prelude.{◌≡◌, ◌≤◌, ◌+◌, [], IfOk, Ok, OnOk};
ghost use Rattle.hook_table.specs.Served.{AreFirst};
ghost use Rattle.hook_table.specs.Standard.{function_numbered, types_of_values, IsAnswer};
ghost use Rattle.hook_table.specs.InHooks.{known_by};
ghost use Rattle.world_core.specs.Calls.{AreServing, tables_of};

use hook_table::laws::standard_hooks_are_put_one_by_one;
use hook_table::{Call, Hook, Hooks, cell_call, pure_call};
use nwq_value::{Args, NoMemory, Text, Ty, Tys, Value};
use std::alloc::Global;
use table_2da::Tables;

/// What the function of a number gives for these arguments where there are no tables. The closure
/// of a hook calls this.
pub fn call_function(alloc: Global, n: u8, args: &Args) -> Result<Value, NoMemory>
    requires number { n ≤ 9 }
    ensures answer { IfOk result (λ v. IsAnswer [] (function_numbered n).name
        (function_numbered n).result args.now v) }
{
    if n == 9 {
        cell_call(alloc, &Tables::new(alloc), args)
    } else {
        pure_call(alloc, n, args)
    }
}

/// The name of the function of a number.
fn name_of(n: u8) -> &'static str
    requires number { n ≤ 9 }
    ensures name { result.now ≡ (function_numbered n).name }
{
    match n {
        0 => "abs",
        1 => "IntToString",
        2 => "StringToInt",
        3 => "IntToHexString",
        4 => "GetStringLength",
        5 => "GetStringLeft",
        6 => "GetStringRight",
        7 => "GetSubString",
        8 => "InsertString",
        _ => "Get2DAString",
    }
}

const NUMBER: &[Ty] = &[Ty::Int];

const STRING: &[Ty] = &[Ty::Text];

const STRING_AND_NUMBER: &[Ty] = &[Ty::Text, Ty::Int];

const STRING_AND_TWO_NUMBERS: &[Ty] = &[Ty::Text, Ty::Int, Ty::Int];

const TWO_STRINGS_AND_NUMBER: &[Ty] = &[Ty::Text, Ty::Text, Ty::Int];

/// The types of the parameters of the function of a number.
fn params_of(n: u8) -> &'static [Ty]
    requires number { n ≤ 9 }
    ensures params { result.now ≡ (function_numbered n).params }
{
    match n {
        0 | 1 | 3 => NUMBER,
        2 | 4 => STRING,
        5 | 6 => STRING_AND_NUMBER,
        7 => STRING_AND_TWO_NUMBERS,
        _ => TWO_STRINGS_AND_NUMBER,
    }
}

/// The type of what the function of a number gives.
fn result_of(n: u8) -> Ty
    requires number { n ≤ 9 }
    ensures result { result ≡ (function_numbered n).result }
{
    match n {
        0 | 2 | 4 => Ty::Int,
        _ => Ty::Text,
    }
}

/// Puts the hook of the next function last, whose number is the count of those before it. After
/// `NoMemory` it is dropped.
#[tactic(auto, using(crate::proofs::HookLemmas::next_first, crate::proofs::HookLemmas::name_kept))]
pub fn put_hook(alloc: Global, hooks: &mut Hooks, n: u8, call: Call) -> Result<(), NoMemory>
    requires number { n ≤ 9 }
    requires first { AreFirst n (known_by hooks.old) }
    requires callable { (args : _) → types_of_values args.now ≡ (function_numbered n).params
        → Call.pre call args }
    requires answers { (args : _) (v : _) → types_of_values args.now ≡ (function_numbered n).params
        → Call.post call args (Ok v) → IsAnswer [] (function_numbered n).name
        (function_numbered n).result args.now v }
    ensures next { OnOk result (AreFirst (n + 1) (known_by hooks.new)) }
{
    standard_hooks_are_put_one_by_one();
    let name = Text::of(alloc, name_of(n).as_bytes())?;
    let params = Tys::of_slice(alloc, params_of(n))?;
    hooks.push(Hook::new(name, params, result_of(n), call, Tables::new(alloc)))
}

/// Puts the hook of the function that looks cells up last, the tenth, where there are tables. The
/// closure owns a copy of them, and the hook keeps the tables themselves. After `NoMemory` it is
/// dropped.
#[tactic(auto)]
pub fn put_cell_hook(
    alloc: Global,
    hooks: &mut Hooks,
    call: Call,
    tables: Tables,
) -> Result<(), NoMemory>
    requires first { AreFirst 9 (known_by hooks.old) }
    requires callable { (args : _) → types_of_values args.now ≡ (function_numbered 9).params
        → Call.pre call args }
    requires answers { (args : _) (v : _) → types_of_values args.now ≡ (function_numbered 9).params
        → Call.post call args (Ok v) → IsAnswer tables (function_numbered 9).name
        (function_numbered 9).result args.now v }
    ensures next { OnOk result (AreFirst 10 (known_by hooks.new)) }
    ensures tables { OnOk result (tables_of (known_by hooks.new) ≡ tables) }
{
    standard_hooks_are_put_one_by_one();
    let name = Text::of(alloc, name_of(9).as_bytes())?;
    let params = Tys::of_slice(alloc, params_of(9))?;
    hooks.push(Hook::new(name, params, result_of(9), call, tables))
}

/// Ten hooks that were put so are one for each function.
#[tactic(auto, using(crate::proofs::HookLemmas::ten_serve))]
pub fn all_are_put(hooks: &Hooks)
    requires ten { AreFirst 10 (known_by hooks.now) }
    ensures serving { AreServing (known_by hooks.now) }
{}
