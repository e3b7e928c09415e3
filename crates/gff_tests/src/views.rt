use crate::files::BASE;
use gff_bytes::{OpenFault, View};

/// A number for each answer of `open`: 0 to 5 for a section, 6 for short, 7 for a version, 8 for a
/// view.
fn opened(bytes: &[u8]) -> u8 {
    if bytes.len() > nwq_value::FILE_BYTES {
        return 9;
    }
    match View::open(bytes) {
        Err(OpenFault::Section(n)) => n,
        Err(OpenFault::Short) => 6,
        Err(OpenFault::Version) => 7,
        Ok(_) => 8,
    }
}

#[test]
fn a_prefix_is_short_or_lacks_a_section(rt: HostRuntime) {
    for n in 0..BASE.len() {
        let wanted = match n {
            0..56 => 6,
            56..68 => 0,
            68..80 => 1,
            _ => 2,
        };
        assert_eq!(rt; opened(&BASE[..n]), wanted, "at {n}");
    }
    assert_eq!(rt; opened(BASE.as_slice()), 8);
}
