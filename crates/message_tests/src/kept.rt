//! Files that keep what they are read, and are read once more from that.

use kept_files::{Again, KeptFiles};
use nwq_outside::{Done, Files, MemFiles, Read};
use nwq_value::NoMemory;
use std::alloc::Global;
use std::test::Fail;

/// Files of a source, of a file of bytecode and of a state.
fn begun(alloc: Global) -> Result<KeptFiles<MemFiles>, NoMemory> {
    let mut inner = MemFiles::new(alloc);
    inner.add("p.nss", b"void main() {}")?;
    inner.add("p.ncs", b"NCS V1.0B\0\0\0\x0d")?;
    Ok(KeptFiles::new(alloc, inner))
}

fn is_read(answer: Read, wanted: &[u8]) -> bool {
    match answer {
        Read::Bytes(bytes) => bytes.as_slice() == wanted,
        _ => false,
    }
}

/// Whether a source that was read is read once more, though it changed or went in between.
fn keeps_source(alloc: Global) -> Result<bool, NoMemory> {
    let mut files = begun(alloc)?;
    let first = is_read(files.read(alloc, "p.nss"), b"void main() {}");
    files.inner.add("p.nss", b"")?;
    let mut again = Again::of(&files.kept);
    let second = is_read(again.read(alloc, "p.nss"), b"void main() {}");
    let written = matches!(again.write("p.nss", b"x"), Done::Failed);
    let third = is_read(again.read(alloc, "p.nss"), b"void main() {}");
    Ok(first && second && written && third)
}

/// Whether bytecode is kept, and nothing of what isn't there and of a name that wasn't read.
fn keeps_no_more(alloc: Global) -> Result<bool, NoMemory> {
    let mut files = begun(alloc)?;
    let code = matches!(files.read(alloc, "p.ncs"), Read::Bytes(_));
    let absent = matches!(files.read(alloc, "q.nss"), Read::Missing);
    let mut again = Again::of(&files.kept);
    Ok(
        code && absent
            && is_read(again.read(alloc, "p.ncs"), b"NCS V1.0B\0\0\0\x0d")
            && matches!(again.read(alloc, "q.nss"), Read::Missing)
            && matches!(again.read(alloc, "p.nss"), Read::Missing),
    )
}

/// Whether a state that is written is kept, and an area isn't.
fn keeps_state(alloc: Global) -> Result<bool, NoMemory> {
    let mut files = begun(alloc)?;
    let state = matches!(files.write("s.nwq", b"NWQSAVE1"), Done::Ok);
    let area = matches!(files.write("a.git", b"GIT V3.2"), Done::Ok);
    let mut again = Again::of(&files.kept);
    Ok(
        state
            && area
            && is_read(again.read(alloc, "s.nwq"), b"NWQSAVE1")
            && matches!(again.read(alloc, "a.git"), Read::Missing),
    )
}

#[test]
fn files_that_keep(rt: HostRuntime) -> Result<(), Fail> {
    let alloc = rt.alloc();
    assert!(rt; keeps_source(alloc)?);
    assert!(rt; keeps_no_more(alloc)?);
    assert!(rt; keeps_state(alloc)?);
    Ok(())
}
