//! Where the reading of records begins.

ghost use Rattle.std.specs.Prelude.{◌≡◌, ◌+◌, ◌<◌, ◌^◌, length};
ghost use Rattle.lx_fixrec.specs.Left.{left_in};

use crate::reader::Records;

/// The sources of the records in some bytes of a file, of which `at` bytes stand before.
///
/// A record's spelling is judged whole before its first source is given. A refusal is `BadSource`
/// at the record's first byte, `Short` at a field that passes the end of the bytes, or `Straddle`
/// at the offset of a source that has no byte in its page, whichever stands first.
pub fn records<'a>(bytes: &'a [u8], at: u32) -> Records<'a>
    requires { at + length bytes.now < 2 ^ 32 }
    ensures { result ≡ left_in at bytes.now }
{
    Records::of(bytes, at)
}
