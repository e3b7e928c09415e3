//! What is known of every instruction: its fields fit their bytes.

ghost use Rattle.std.specs.Prelude.{All};
ghost use Rattle.ncs_code.specs.Plain.{plain, plain_lit};
ghost use Rattle.ncs_code.specs.Spelling.{Fits, IsByte, LitFits};

use ncs_code::{Lit, Op};

fn bytes_fit(text: &[u8])
    ensures { All IsByte text.now }
{
    let _ = text;
}

fn lit_fits(lit: Lit<'_>)
    ensures { LitFits (plain_lit lit.entry) }
{
    match lit {
        Lit::Int(n) => {
            let _n = n;
        }
        Lit::Float(bytes) => bytes_fit(&bytes),
        Lit::Text(text) => bytes_fit(text),
        Lit::Object(n) => {
            let _n = n;
        }
    }
}

pub fn op_fits(op: &Op<'_>)
    ensures { Fits (plain op.now) }
{
    let _kind = op.kind();
    match *op {
        Op::CpDownSp { offset, size }
        | Op::CpTopSp { offset, size }
        | Op::CpDownBp { offset, size }
        | Op::CpTopBp { offset, size } => {
            let _offset = offset;
            let _size = size;
        }
        Op::Const(lit) => lit_fits(lit),
        Op::Action { routine, count } => {
            let _routine = routine;
            let _count = count;
        }
        Op::Equal { size, .. } | Op::Nequal { size, .. } => {
            let _size = size;
        }
        Op::MovSp { offset }
        | Op::Jmp { offset }
        | Op::Jsr { offset }
        | Op::Jz { offset }
        | Op::Jnz { offset }
        | Op::DecISp { offset }
        | Op::IncISp { offset }
        | Op::DecIBp { offset }
        | Op::IncIBp { offset } => {
            let _offset = offset;
        }
        Op::Destruct {
            total,
            offset,
            size,
        } => {
            let _total = total;
            let _offset = offset;
            let _size = size;
        }
        Op::StoreState { globals, locals } => {
            let _globals = globals;
            let _locals = locals;
        }
        _ => {}
    }
}
