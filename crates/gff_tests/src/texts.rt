//! The text of a tree.

use crate::files::{MOVED, tree_of};
use gff_text::tree_text;

/// The text of the file with all sixteen types.
const TEXT: &[u8] = b"gff \"GIT \"\n\
struct 4294967295\n\
\x20 Byte byte 200\n\
\x20 Char char -5\n\
\x20 Word word 60000\n\
\x20 Short short -30000\n\
\x20 Dword dword 4000000000\n\
\x20 Int int -7\n\
\x20 Dword64 dword64 9223372036854775809\n\
\x20 Int64 int64 -1099511627776\n\
\x20 Float float 7fc00000\n\
\x20 Double double 7ff8060504030201\n\
\x20 String string \"a \\x22text\\x22\\n\"\n\
\x20 SixteenByteLabel resref \"resource_name_16\"\n\
\x20 Loc locstring 7 2\n\
\x20   0 \"Hallo\"\n\
\x20   5 \"\"\n\
\x20 Void void \n\
\x20 Struct struct\n\
\x20   struct 3\n\
\x20 List list 2\n\
\x20   struct 1\n\
\x20     Byte byte 1\n\
\x20     Inner struct\n\
\x20       struct 9\n\
\x20         Byte byte 2\n\
\x20   struct 2\n";

#[test]
fn the_text_of_a_tree(rt: HostRuntime) {
    let tree = tree_of(rt.alloc(), MOVED.as_slice()).expect(&rt, "a tree");
    let text = tree_text(rt.alloc(), &tree).ok().expect(&rt, "a text");
    assert_eq!(rt; text.as_slice(), TEXT);
}
