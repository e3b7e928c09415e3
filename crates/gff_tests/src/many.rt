//! Many variables: what would take minutes if each were searched for.

use local_variables::{Var, Vars};
use nwq_value::NoMemory;

/// How many variables there are.
const COUNT: u32 = 20_000;

/// The last digit of a number.
fn digit(n: u32) -> u8 {
    match n % 10 {
        0 => b'0',
        1 => b'1',
        2 => b'2',
        3 => b'3',
        4 => b'4',
        5 => b'5',
        6 => b'6',
        7 => b'7',
        8 => b'8',
        _ => b'9',
    }
}

/// A name for a number below 100,000.
fn name(n: u32) -> [u8; 5] {
    [
        digit(n / 10_000),
        digit(n / 1_000),
        digit(n / 100),
        digit(n / 10),
        digit(n),
    ]
}

/// Sets the ints of these numbers, each to its number.
fn set_all(vars: &mut Vars) -> Result<(), NoMemory> {
    for i in 0..COUNT {
        vars.set_int(name(i).as_slice(), i.cast_signed())?;
    }
    Ok(())
}

/// Takes out the ints of the numbers below this one, from the first on.
fn delete_below(vars: &mut Vars, end: u32) {
    for i in 0..end {
        vars.delete_int(name(i).as_slice());
    }
}

/// Takes out all ints, from the last one back.
fn delete_back(vars: &mut Vars) {
    for i in 0..COUNT {
        vars.delete_int(name(COUNT - 1 - i).as_slice());
    }
}

/// Is this the int of a number?
fn is_int(v: Option<Var<'_>>, i: u32) -> bool {
    match v {
        Some(Var::Int(own, n)) => own == name(i).as_slice() && n == i.cast_signed(),
        _ => false,
    }
}

/// Are these the ints from a number on?
fn are_from(vars: &Vars, first: u32) -> bool {
    let mut walk = vars.walk();
    for i in first..COUNT {
        if !is_int(walk.next(), i) {
            return false;
        }
    }
    walk.next().is_none()
}

#[test]
fn variables_are_taken_out_from_either_end(rt: HostRuntime) {
    let mut vars = Vars::new(rt.alloc());
    assert!(rt; set_all(&mut vars).is_ok());
    delete_below(&mut vars, 9_000);
    assert!(rt; vars.len() == 11_000);
    assert!(rt; are_from(&vars, 9_000));
    assert!(rt; vars.int(name(8_999).as_slice()) == 0);
    assert!(rt; vars.int(name(9_001).as_slice()) == 9_001);
    assert!(rt; is_int(vars.get(2), 9_002));
    delete_below(&mut vars, 15_000);
    assert!(rt; are_from(&vars, 15_000));
    delete_back(&mut vars);
    assert!(rt; vars.len() == 0);
    assert!(rt; vars.get(0).is_none());
}
