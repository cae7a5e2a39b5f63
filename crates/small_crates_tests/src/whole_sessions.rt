//! A session that is written.

use session_text::{read_session, write_session};
use std::test::Fail;

/// A line of each kind that `gen` does not write, and some that it does.
const TEXT: &[u8] =
    b"take y.dll\nbuild D - a.obj b.lib\nfailing d 3\nprocess 1\nload D\nstart #y\nshared D 1 0 4096\n\
    write D 1 0 ABCD\ndebug D 1 16 0F\nquery D @16\nquery D f\ngetres D 1 2\nprocess 16\nexit\n";

#[test]
fn a_session_is_written(rt: HostRuntime) -> Result<(), Fail> {
    let session = read_session(rt.alloc(), TEXT).map_err(|_| "a session")?;
    assert!(rt; write_session(rt.alloc(), &session).is_ok());
    Ok(())
}
