//! Dumps that are read and written back, and bytes that are none.

use dump_core::dump;
use dump_read::read_dump;
use lx_types::Fail as Failure;
use std::alloc::Global;
use std::test::Fail;

const WHOLE: &[u8] = b"module D library flags 00008000 start none
object 1 size 8 base 10000000 flags 00002005 pages 1
page 1 0 zero
fix 1 0 4 off32 internal 1 0 add 0
end
";

const EACH_LINE: &[u8] = b"module % program flags 0000FFFF start 1 4294967295
object 1 size 4294967295 base FFFF0000 flags 00000001 pages 3
page 1 0 plain 512 77
fix 1 0 -2147483648 far16 alias ordinal 2 7 add 5
fix 1 0 2147483647 self32 name 2 7 add 0
page 1 1 iterated 600 5
page 1 2 invalid
object 2 size 0 base 00000000 flags 00000000 pages 0
import 1 DOSCALLS
import 2 %
entry 1 at 2 16
entry 2 gate 2 16
entry 3 forward 1 ordinal 9
entry 4 forward 1 name 0
name f 1
name a%20b%FF 2
end
";

// The line at which bytes are refused, 0 where they are a dump, which is then written as it was.
fn line(alloc: Global, bytes: &[u8]) -> u32 {
    if bytes.len() >= 1 << 32 {
        return 0xFFFF;
    }
    match read_dump(alloc, bytes) {
        Ok(listing) => match dump(alloc, &listing) {
            Ok(text) => { if text.as_slice() == bytes { 0 } else { 0xFFFF } }
            Err(_) => 0xFFFF,
        },
        Err(Failure::Said(refusal)) => refusal.line,
        Err(Failure::NoMemory) => 0xFFFF,
    }
}

#[test]
fn dumps_are_read(rt: HostRuntime) {
    assert_eq!(rt; line(rt.alloc(), WHOLE), 0);
    assert_eq!(rt; line(rt.alloc(), EACH_LINE), 0);
}

#[test]
fn first_lines(rt: HostRuntime) {
    for (bytes, at) in [
        (b"".as_slice(), 1),
        (b"module D", 2),
        (b"module D library flags 00008000 start none", 2),
        (b"module D library flags 00008000 start none\n", 2),
        (b"module D library flags 00008000 start none \n", 1),
        (b"module D library flags 8000 start none\nend\n", 1),
        (
            b"module D library flags 00008000 start 1 4294967296\nend\n",
            1,
        ),
        (b"module D library flags 00008000 start 1 4294967296", 1),
        (b"module D library flags 00008000 start 1 42949672", 2),
        (b"module D library flags 00008000 start 01 0\nend\n", 1),
        (b"module D library flags 00008000 start none\nend\n ", 3),
        (b"module D library flags 00008000 start none\nend\n\n", 3),
        (b"module D library flags 00008000 start none\nen", 3),
        (b"module D library flags 00008000 start none\nfi", 2),
        (b"module D library flags 00008000 start none\nim", 3),
        (b"module D library flags 00008000 start none\nname f%2", 3),
        (b"module D library flags 00008000 start none\nname f%3", 2),
        (
            b"module D library flags 00008000 start none\nname f%41 1\nend\n",
            2,
        ),
        (
            b"module D library flags 00008000 start none\nimport 2 A\nend\n",
            2,
        ),
    ] {
        assert_eq!(rt; line(rt.alloc(), bytes), at);
    }
}
