ghost use Rattle.std.specs.Prelude.{◌≤◌, length};
ghost use Rattle.nwq_value.specs.Limits.{file_limit};

use ncs_code::{CodeFault, Op};
use ncs_file::{Code, LoadFault, load, store};
use std::alloc::Global;
use std::test::*;

const EMPTY: [u8; 13] = *b"NCS V1.0B\x00\x00\x00\x0d";

/// `JSR` over the next instruction, `RETN`, `RETN`.
const CALL: [u8; 23] = *b"NCS V1.0B\x00\x00\x00\x17\x1e\x00\x00\x00\x00\x08\x20\x00\x20\x00";

/// `STORE_STATE` before a jump that ends the file.
const STATE: [u8; 29] = *b"NCS V1.0B\x00\x00\x00\x1d\x2c\x10\x00\x00\x00\x00\x00\x00\x00\x00\
    \x1d\x00\x00\x00\x00\x06";

fn loaded(alloc: Global, bytes: &[u8]) -> Result<Code, LoadFault>
    requires { length bytes.now ≤ file_limit }
{
    load(alloc, Vec::from_slice(alloc, bytes)?)
}

fn is_empty_file(code: &Code) -> bool {
    code.count() == 0 && code.op_at(13).is_none() && store(code) == EMPTY.as_slice()
}

fn is_call(code: &Code) -> bool {
    code.count() == 3
        && store(code) == CALL.as_slice()
        && matches!(code.op_at(13), Some((Op::Jsr { offset: 8 }, 6)))
        && code.op_at(14).is_none()
        && matches!(code.op_at(21), Some((Op::Retn, 2)))
        && code.op_at(23).is_none()
}

#[test]
fn small_files(rt: HostRuntime) {
    assert!(rt; matches!(loaded(rt.alloc(), &EMPTY), Ok(code) if is_empty_file(&code)));
    assert!(rt; matches!(loaded(rt.alloc(), &CALL), Ok(code) if is_call(&code)));
}

#[test]
fn refused_files(rt: HostRuntime) {
    assert!(rt; matches!(loaded(rt.alloc(), &EMPTY[..8]), Err(LoadFault::Magic)));
    assert!(rt; matches!(loaded(rt.alloc(), &EMPTY[..12]), Err(LoadFault::Length)));
    assert!(rt;
        matches!(
            loaded(rt.alloc(), b"NCS V1.0B\x00\x00\x00\x0e"),
            Err(LoadFault::Length)
        )
    );
    assert!(rt;
        matches!(
            loaded(rt.alloc(), b"NCS V1.0B\x00\x00\x00\x0e\x1e"),
            Err(LoadFault::At(13, CodeFault::Short))
        )
    );
    assert!(rt;
        matches!(
            loaded(
                rt.alloc(),
                b"NCS V1.0B\x00\x00\x00\x15\x1d\x00\x00\x00\x00\x07\x20\x00"
            ),
            Err(LoadFault::Target(13))
        )
    );
    assert!(rt; matches!(loaded(rt.alloc(), &STATE), Err(LoadFault::Target(13))));
}
