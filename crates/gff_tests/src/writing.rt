use crate::files::{BASE, MOVED, WRITTEN, tree_of};
use gff_write::{size as size_of, write};

#[test]
fn a_tree_is_written_as_its_one_file(rt: HostRuntime) {
    let cases: [(&[u8], &[u8]); 3] = [
        (BASE.as_slice(), BASE.as_slice()),
        (MOVED.as_slice(), WRITTEN.as_slice()),
        (WRITTEN.as_slice(), WRITTEN.as_slice()),
    ];
    for (bytes, wanted) in cases.as_slice() {
        let tree = tree_of(rt.alloc(), *bytes).expect(&rt, "a tree");
        let written = write(rt.alloc(), &tree).ok().expect(&rt, "a file");
        assert_eq!(rt; written.as_slice(), *wanted);
        let size = size_of(rt.alloc(), &tree).ok().expect(&rt, "a size");
        assert_eq!(rt; size, wanted.len() as u64);
    }
}
