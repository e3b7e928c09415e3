ghost use Rattle.std.specs.Prelude.{◌≡◌, ◌+◌, ◌<◌, ◌≤◌, ◌^◌, ◌∷◌, ◌++◌, [], ℕ, length, negsuc};
ghost use Rattle.std.specs.Prelude.{IfOk, IfSome, OnOk};
ghost use Rattle.ncs_code.specs.Plain.{CpTopSp, LogAnd, Retn, plain};
ghost use Rattle.ncs_code.specs.Spelling.{HasRow};
ghost use Rattle.ncs_emit.specs.Labelled.{Instruction, JumpTo, Label, placements, program};
ghost use Rattle.ncs_emit.specs.Leading.{Closes, LeadsOn};
ghost use Rattle.ncs_emit.specs.declared.jump.Jump.TheVariants.{Jsr, Jz};

use ncs_code::{Lit, Op, size_laws};
use ncs_emit::{EmitFault, Emitter, Jump, finished_is_code, part_laws};
use ncs_file::{Code, LoadFault, load};
use nwq_value::NoMemory;
use std::alloc::Global;
use std::test::*;

/// A call of what follows.
#[tactic(auto, unfolding(ncs_code::specs::Spelling::has_type))]
fn entry_call(alloc: Global) -> Result<Emitter, NoMemory>
    ensures { IfOk result
        (λ out. out ≡ record {
          lines = JumpTo Jsr 0 ∷ Instruction Retn ∷ Label 0
              ∷ [];
          labels = 1;
        }) }
{
    let mut out = Emitter::new(alloc);
    let entry = out.label()?;
    out.jump(Jump::Jsr, entry)?;
    out.op(&Op::Retn)?;
    out.place(entry);
    Ok(out)
}

/// `a && b`, where each operand is one instruction, behind what stands there already.
#[tactic(auto, unfolding(ncs_code::specs::Spelling::has_type))]
fn emit_and(out: &mut Emitter, a: &Op<'_>, b: &Op<'_>) -> Result<(), NoMemory>
    requires labels { out.old.labels + 1 < 2 ^ 32 }
    requires first { HasRow (plain a.now) }
    requires second { HasRow (plain b.now) }
    ensures { OnOk result (out.new ≡ record {
      lines = out.old.lines ++ Instruction (plain a.now) ∷ Instruction (CpTopSp (negsuc 3) 4)
          ∷ JumpTo Jz out.old.labels ∷ Instruction (plain b.now) ∷ Instruction LogAnd
          ∷ Label out.old.labels ∷ [];
      labels = out.old.labels + 1;
    }) }
{
    part_laws();
    let end = out.label()?;
    out.op(a)?;
    out.op(&Op::CpTopSp {
        offset: -4,
        size: 4,
    })?;
    out.jump(Jump::Jz, end)?;
    out.op(b)?;
    out.op(&Op::LogAnd)?;
    out.place(end);
    Ok(())
}

fn want_of_memory(fault: LoadFault) -> NoMemory
    requires { fault ≡ LoadFault.NoMemory }
{
    match fault {
        LoadFault::NoMemory => NoMemory,
        LoadFault::Magic | LoadFault::Length | LoadFault::At(_, _) | LoadFault::Target(_) => {
            unreachable!()
        }
    }
}

/// The file of code that leads on and closes, loaded again: nothing but its size or want of memory
/// is in the way.
fn read_back(alloc: Global, out: Emitter) -> Result<Option<Code>, NoMemory>
    requires placed { (label : ℕ) → label < out.labels → 1 ≤ placements out.lines label }
    requires leads { LeadsOn out.lines out.lines }
    requires closes { Closes out.lines }
    ensures { IfOk result (λ o. IfSome o (λ code. code ≡ program out.lines)) }
{
    finished_is_code();
    size_laws();
    out.sound();
    match out.finish(alloc) {
        Err(EmitFault::Large(_)) => Ok(None),
        Err(EmitFault::NoMemory) => Err(NoMemory),
        Ok(file) => match load(alloc, file) {
            Ok(code) => Ok(Some(code)),
            Err(fault) => Err(want_of_memory(fault)),
        },
    }
}

#[test]
#[tactic(auto, unfolding(ncs_code::specs::Spelling::has_type))]
fn nothing_at_all(rt: HostRuntime) -> Result<(), Fail> {
    let mut out = entry_call(rt.alloc())?;
    out.op(&Op::Retn)?;
    match out.finish(rt.alloc()) {
        Err(_) => assert!(rt; false),
        Ok(file) => assert_eq!(rt;
            file.as_slice(),
            b"NCS V1.0B\x00\x00\x00\x17\x1e\x00\x00\x00\x00\x08\x20\x00\x20\x00".as_slice()
        ),
    }
    Ok(())
}

#[test]
#[tactic(auto, unfolding(ncs_code::specs::Spelling::has_type))]
fn a_choice_is_read_back(rt: HostRuntime) -> Result<(), Fail> {
    let mut out = entry_call(rt.alloc())?;
    emit_and(&mut out, &Op::Const(Lit::Int(2)), &Op::Const(Lit::Int(3)))?;
    out.op(&Op::MovSp { offset: -4 })?;
    out.op(&Op::Retn)?;
    match read_back(rt.alloc(), out)? {
        None => assert!(rt; false),
        Some(code) => {
            assert!(rt; code.count() == 9);
            assert!(rt; matches!(code.op_at(35), Some((Op::Jz { offset: 14 }, 6))));
            assert!(rt; matches!(code.op_at(47), Some((Op::LogAnd, 2))));
            assert!(rt; matches!(code.op_at(49), Some((Op::MovSp { offset: -4 }, 6))));
        }
    }
    Ok(())
}

/// A constant so many times.
#[tactic(auto, unfolding(ncs_code::specs::Spelling::has_type))]
fn emit_texts(out: &mut Emitter, text: &[u8], count: u32) -> Result<(), NoMemory>
    requires { length text.now < 2 ^ 16 }
    ensures { OnOk result (out.new.labels ≡ out.old.labels) }
{
    for _ in 0..count {
        out.op(&Op::Const(Lit::Text(text)))?;
    }
    Ok(())
}

/// How large the file of such constants would be, if it is too large.
fn size_of_texts(alloc: Global, count: u32) -> Result<Option<u64>, NoMemory> {
    let text = vec![in alloc; b'a'; 60_000]?;
    let mut out = Emitter::new(alloc);
    emit_texts(&mut out, text.as_slice(), count)?;
    match out.finish(alloc) {
        Ok(_) => Ok(None),
        Err(EmitFault::Large(size)) => Ok(Some(size)),
        Err(EmitFault::NoMemory) => Err(NoMemory),
    }
}

#[test]
fn lines_past_the_largest_file_are_counted(rt: HostRuntime) -> Result<(), Fail> {
    // Each takes 60,004 bytes: 279 of them are less than 16,777,216, 280 are more.
    assert_eq!(rt; size_of_texts(rt.alloc(), 279)?, None);
    assert_eq!(rt; size_of_texts(rt.alloc(), 280)?, Some(16_801_133));
    assert_eq!(rt; size_of_texts(rt.alloc(), 20_000)?, Some(1_200_080_013));
    Ok(())
}
