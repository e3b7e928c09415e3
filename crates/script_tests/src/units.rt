use nss_include::{GatherFault, Unit, gather};
use nss_lexer::Token;
use nwq_outside::MemFiles;
use nwq_value::NoMemory;
use std::alloc::Global;
use std::test::Fail;

/// What a script comes to, with the line and the offset of its fault.
#[derive(Clone, Copy, Debug, PartialEq, Eq)]
enum Outcome {
    Whole,
    Missing,
    Long,
    Fault,
    Bad(u32, u32),
    Include(u32, u32),
    Tokens(u32, u32),
    NoMemory,
}

fn outcome_of(answer: &Result<Unit, GatherFault>) -> Outcome {
    match answer {
        Ok(_unit) => Outcome::Whole,
        Err(GatherFault::Missing(_name)) => Outcome::Missing,
        Err(GatherFault::Long(_name)) => Outcome::Long,
        Err(GatherFault::Fault) => Outcome::Fault,
        Err(GatherFault::Bad(spot)) => Outcome::Bad(spot.line, spot.at),
        Err(GatherFault::Include(spot)) => Outcome::Include(spot.line, spot.at),
        Err(GatherFault::Tokens(spot)) => Outcome::Tokens(spot.line, spot.at),
        Err(GatherFault::NoMemory) => Outcome::NoMemory,
    }
}

/// What the script `p` with these bytes comes to, alone.
fn gathered(alloc: Global, source: &[u8]) -> Result<Outcome, NoMemory> {
    let mut files = MemFiles::new(alloc);
    files.add("p.nss", source)?;
    Ok(outcome_of(&gather(alloc, &mut files, "p")))
}

/// The texts of tokens in a row, each with a space behind it.
fn joined(alloc: Global, tokens: Vec<Token<'_>>) -> Result<Vec<u8>, NoMemory> {
    let mut out = Vec::new(alloc);
    for token in tokens {
        out.extend_from_slice(token.text)?;
        out.push(b' ')?;
    }
    Ok(out)
}

/// The texts of the unit of `P` in a row.
fn texts(alloc: Global, files: &mut MemFiles) -> Result<Vec<u8>, NoMemory> {
    match gather(alloc, files, "P") {
        Ok(unit) => joined(alloc, unit.tokens(alloc)?),
        Err(_fault) => Ok(Vec::new(alloc)),
    }
}

#[test]
fn units(rt: HostRuntime) -> Result<(), Fail> {
    let mut files = MemFiles::new(rt.alloc());
    files.add(
        "p.nss",
        b"#include \"P\"\n#include \"B_1\" x #include \"c\" # y",
    )?;
    files.add("b_1.nss", b"b #include \"C\" // no #include \"d\"\n#")?;
    files.add("c.nss", b"#include \"b_1\" c")?;
    assert_eq!(rt;
        texts(rt.alloc(), &mut files)?.as_slice(),
        b"b c # x # y ".as_slice()
    );
    Ok(())
}

#[test]
fn first_faults(rt: HostRuntime) -> Result<(), Fail> {
    for (source, want) in [
        (b"x #include foo".as_slice(), Outcome::Include(1, 2)),
        (b"#include", Outcome::Include(1, 0)),
        (b"#include \"\"", Outcome::Include(1, 0)),
        (b"#include \"a2345678901234567\"", Outcome::Include(1, 0)),
        (b"\n#include \"a.b\" @", Outcome::Include(2, 1)),
        (b"#include @", Outcome::Bad(1, 9)),
        (b"void main() { \"a", Outcome::Bad(1, 14)),
        (b"x\n# @", Outcome::Bad(2, 4)),
        (b"#include \"a\" @", Outcome::Missing),
    ] {
        assert_eq!(rt; gathered(rt.alloc(), source)?, want, "{source:?}");
    }
    Ok(())
}

/// The whole name of the file that is missing, or none.
fn missing(alloc: Global, files: &mut MemFiles) -> Result<Vec<u8>, NoMemory> {
    match gather(alloc, files, "p") {
        Err(GatherFault::Missing(name)) => Ok(Vec::from_slice(alloc, name.bytes())?),
        _ => Ok(Vec::new(alloc)),
    }
}

#[test]
fn files_that_are_not_read(rt: HostRuntime) -> Result<(), Fail> {
    let mut files = MemFiles::new(rt.alloc());
    assert_eq!(rt;
        missing(rt.alloc(), &mut files)?.as_slice(),
        b"p.nss".as_slice()
    );
    files.add("p.nss", b"x #include \"NoPe\" #include \"b\" @")?;
    assert_eq!(rt;
        missing(rt.alloc(), &mut files)?.as_slice(),
        b"nope.nss".as_slice()
    );
    files.add(
        "nope.nss",
        vec![in rt.alloc(); b' '; 16_777_217]?.as_slice(),
    )?;
    assert_eq!(rt;
        outcome_of(&gather(rt.alloc(), &mut files, "p")),
        Outcome::Long
    );
    files.add("nope.nss", b"")?;
    // Five reads were made so far. Two more find their files, and the one of `b` fails.
    files.fail_at(7)?;
    assert_eq!(rt;
        outcome_of(&gather(rt.alloc(), &mut files, "p")),
        Outcome::Fault
    );
    assert_eq!(rt;
        outcome_of(&gather(rt.alloc(), &mut files, "p")),
        Outcome::Missing
    );
    Ok(())
}

/// A script of so many signs, and then this.
fn signs(alloc: Global, count: usize, last: &[u8]) -> Result<Vec<u8>, NoMemory> {
    let mut bytes = vec![in alloc; b';'; count]?;
    bytes.extend_from_slice(last)?;
    Ok(bytes)
}

#[test]
fn token_limit(rt: HostRuntime) -> Result<(), Fail> {
    for (count, last, want) in [
        (100_000, b"".as_slice(), Outcome::Whole),
        (99_997, b"#include \"p\"", Outcome::Whole),
        (100_000, b";", Outcome::Tokens(1, 100_000)),
        (99_998, b"#include \"p\"", Outcome::Tokens(1, 99_998)),
    ] {
        let source = signs(rt.alloc(), count, last)?;
        assert_eq!(rt; gathered(rt.alloc(), source.as_slice())?, want);
    }
    Ok(())
}

/// The last digit of a number.
fn digit(n: u32) -> char {
    match n % 10 {
        0 => '0',
        1 => '1',
        2 => '2',
        3 => '3',
        4 => '4',
        5 => '5',
        6 => '6',
        7 => '7',
        8 => '8',
        _ => '9',
    }
}

/// The name of an include by its number, below 10,000.
fn include_name(alloc: Global, n: u32) -> Result<String, NoMemory> {
    let mut name = String::new(alloc);
    for digit in [digit(n / 1_000), digit(n / 100), digit(n / 10), digit(n)] {
        name.push(digit)?;
    }
    Ok(name)
}

/// Puts a file that holds one sign, and a directive that names it.
fn add_include(
    alloc: Global,
    n: u32,
    files: &mut MemFiles,
    script: &mut Vec<u8>,
) -> Result<(), NoMemory> {
    let mut name = include_name(alloc, n)?;
    script.extend_from_slice(b"#include \"".as_slice())?;
    script.extend_from_slice(name.as_bytes())?;
    script.extend_from_slice(b"\"\n".as_slice())?;
    name.push_str(".nss")?;
    files.add(name.as_str(), b";")
}

/// A script of so many includes, each twice.
fn add_includes(alloc: Global, count: u32, files: &mut MemFiles) -> Result<(), NoMemory> {
    let mut script = Vec::new(alloc);
    for n in 0..count {
        add_include(alloc, n, files, &mut script)?;
    }
    for n in 0..count {
        add_include(alloc, n, files, &mut script)?;
    }
    files.add("p.nss", script.as_slice())
}

/// Each file is read once, however many there are.
#[test]
fn many_includes(rt: HostRuntime) -> Result<(), Fail> {
    let mut files = MemFiles::new(rt.alloc());
    add_includes(rt.alloc(), 3_000, &mut files)?;
    assert!(rt; count_of(rt.alloc(), &mut files)? == Some(3_000));
    Ok(())
}

/// How many tokens the unit of `p` has.
fn count_of(alloc: Global, files: &mut MemFiles) -> Result<Option<usize>, NoMemory> {
    match gather(alloc, files, "p") {
        Ok(unit) => Ok(Some(unit.tokens(alloc)?.len())),
        Err(_fault) => Ok(None),
    }
}
