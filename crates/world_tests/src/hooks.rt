ghost use Rattle.std.specs.Prelude.{◌≡◌, ◌≤◌, ◌∷◌, [], codes, IfOk};
ghost use Rattle.nwq_value.specs.declared.value.Ty.TheVariants.{Int as IntTy, Text as TextTy};
ghost use Rattle.hook_table.specs.Standard.{IsAnswer, types_of_values};

use hook_table::*;
use nwq_value::*;
use std::alloc::Global;
use std::test::*;
use table_2da::{Tables, read_table};

/// What a function answers.
#[derive(Clone, Copy)]
enum Answer {
    Int(i32),
    Text(&'static [u8]),
}

/// The number of a function, the strings and then the ints that it is given, and its answer.
type Row = (u8, &'static [&'static [u8]], &'static [i32], Answer);

const NUMBERS: &[Row] = &[
    (0, &[], &[-7], Answer::Int(7)),
    (0, &[], &[i32::MIN], Answer::Int(i32::MIN)),
    (1, &[], &[i32::MIN], Answer::Text(b"-2147483648")),
    (3, &[], &[-1], Answer::Text(b"0xffffffff")),
    (3, &[], &[255], Answer::Text(b"0x000000ff")),
    (2, &[b"-12x"], &[], Answer::Int(-12)),
    (2, &[b"-"], &[], Answer::Int(0)),
    (2, &[b" 1"], &[], Answer::Int(0)),
    (2, &[b""], &[], Answer::Int(0)),
    (2, &[b"2147483648"], &[], Answer::Int(i32::MIN)),
    (2, &[b"4294967298"], &[], Answer::Int(2)),
];

const PARTS: &[Row] = &[
    (4, &[b"abc"], &[], Answer::Int(3)),
    (5, &[b"abc"], &[-1], Answer::Text(b"")),
    (5, &[b"abc"], &[2], Answer::Text(b"ab")),
    (5, &[b"abc"], &[9], Answer::Text(b"abc")),
    (6, &[b"abc"], &[1], Answer::Text(b"c")),
    (6, &[b"abc"], &[5], Answer::Text(b"abc")),
    (7, &[b"abcdef"], &[2, 3], Answer::Text(b"cde")),
    (7, &[b"abc"], &[-1, 2], Answer::Text(b"")),
    (7, &[b"abc"], &[4, 1], Answer::Text(b"")),
    (7, &[b"abc"], &[1, -1], Answer::Text(b"")),
    (8, &[b"ab", b"X"], &[1], Answer::Text(b"aXb")),
    (8, &[b"ab", b"X"], &[9], Answer::Text(b"abX")),
    (8, &[b"ab", b"X"], &[-2], Answer::Text(b"Xab")),
];

/// Puts strings and then ints among the arguments.
fn add_all(
    alloc: Global,
    args: &mut Args,
    strings: &[&[u8]],
    numbers: &[i32],
) -> Result<(), NoMemory> {
    for bytes in strings {
        args.push(Value::Text(Text::of(alloc, bytes)?))?;
    }
    for n in numbers {
        args.push(Value::Int(*n))?;
    }
    Ok(())
}

fn is_answer(value: &Value, answer: Answer) -> bool {
    match (value, answer) {
        (Value::Int(found), Answer::Int(n)) => *found == n,
        (Value::Text(found), Answer::Text(bytes)) => found.bytes() == bytes,
        _ => false,
    }
}

/// Whether a function gives what a row says.
fn answers(alloc: Global, row: &Row) -> Result<bool, NoMemory> {
    let (n, strings, numbers, answer) = *row;
    if n > 8 {
        return Ok(false);
    }
    let mut args = Args::new(alloc);
    add_all(alloc, &mut args, strings, numbers)?;
    Ok(is_answer(&pure_call(alloc, n, &args)?, answer))
}

/// The place of the first row of which another answer comes, if there is one.
fn first_wrong(alloc: Global, rows: &[Row]) -> Result<Option<usize>, NoMemory> {
    for (place, row) in rows.iter().enumerate() {
        if !answers(alloc, row)? {
            return Ok(Some(place));
        }
    }
    Ok(None)
}

#[test]
fn functions_answer(rt: HostRuntime) -> Result<(), Fail> {
    assert_eq!(rt; first_wrong(rt.alloc(), NUMBERS)?, None);
    assert_eq!(rt; first_wrong(rt.alloc(), PARTS)?, None);
    Ok(())
}

fn ints(alloc: Global, first: i32) -> Result<Args, NoMemory>
    ensures types { IfOk result (λ args. types_of_values args ≡ IntTy ∷ []) }
{
    let mut args = Args::new(alloc);
    args.push(Value::Int(first))?;
    Ok(args)
}

fn texts_and(alloc: Global, bytes: &[u8], other: &[u8], n: i32) -> Result<Args, NoMemory>
    ensures types { IfOk result (λ args. types_of_values args ≡ TextTy ∷ TextTy ∷ IntTy ∷ []) }
{
    let bytes = Text::of(alloc, bytes)?;
    let other = Text::of(alloc, other)?;
    let mut args = Args::new(alloc);
    args.push(Value::Text(bytes))?;
    args.push(Value::Text(other))?;
    args.push(Value::Int(n))?;
    Ok(args)
}

#[test]
fn a_hook_calls_its_closure(rt: HostRuntime) -> Result<(), Fail> {
    let alloc = rt.alloc();
    let call: Call = Box::new(
        alloc,
        move |args: &Args| -> Result<Value, NoMemory>
            ensures { IfOk result (λ v. IsAnswer [] (codes "abs") IntTy args.now v) }
        { pure_call(alloc, 0, args) },
    )?;
    let name = Text::of(alloc, b"abs")?;
    let params = Tys::of_slice(alloc, &[Ty::Int])?;
    let mut hooks = Hooks::new(alloc);
    hooks.push(Hook::new(name, params, Ty::Int, call, Tables::new(alloc)))?;
    assert_eq!(rt; hooks.find(b"abs"), Some(0));
    assert_eq!(rt; hooks.find(b"Abs"), None);
    let args = ints(alloc, -3)?;
    assert!(rt; hooks.call(0, &args)?.same(&Value::Int(3)));
    Ok(())
}

/// Tables with one table `x`, or none where there is no memory for it.
fn tables(alloc: Global) -> Result<Tables, NoMemory> {
    let name = Text::of(alloc, b"x")?;
    match read_table(alloc, b"2DA V2.0\n\n LABEL COST\n0 Sword 10\n") {
        Err(_) => Err(NoMemory),
        Ok(table) => {
            let mut tables = Tables::new(alloc);
            tables.push(name, table)?;
            Ok(tables)
        }
    }
}

/// Whether the cell that the function looks up is this.
fn is_cell(
    alloc: Global,
    tables: &Tables,
    column: &[u8],
    row: i32,
    cell: &'static [u8],
) -> Result<bool, NoMemory> {
    let args = texts_and(alloc, b"X", column, row)?;
    Ok(is_answer(&cell_call(alloc, tables, &args)?, Answer::Text(cell)))
}

#[test]
fn a_cell_is_looked_up(rt: HostRuntime) -> Result<(), Fail> {
    let tables = tables(rt.alloc())?;
    assert!(rt; is_cell(rt.alloc(), &tables, b"Cost", 0, b"10")?);
    Ok(())
}

#[test]
fn a_hook_may_refuse(rt: HostRuntime) -> Result<(), Fail> {
    let alloc = rt.alloc();
    let call: Call = Box::new(
        alloc,
        |_args: &Args| -> Result<Value, NoMemory>
            ensures { IfOk result (λ _. ⊥) }
        { Err(NoMemory) },
    )?;
    let name = Text::of(alloc, b"abs")?;
    let params = Tys::of_slice(alloc, &[Ty::Int])?;
    let hook = Hook::new(name, params, Ty::Int, call, Tables::new(alloc));
    assert!(rt; hook.answer(&ints(alloc, 1)?).is_err());
    Ok(())
}
