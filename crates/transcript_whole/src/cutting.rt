//! The first line of bytes.

ghost use Rattle.std.specs.Prelude.{MatchOption};
ghost use Rattle.transcript_whole.specs.Cutting.{HasNoEnd, IsFirstLine};

use memchr::memchr;

/// The first line without its end, and what stands after it.
#[derive(Clone, Copy)]
pub(crate) struct LineCut<'a> {
    pub line: &'a [u8],
    pub after: &'a [u8],
}

/// The first line that has its end.
pub(crate) fn first_line(bytes: &[u8]) -> Option<LineCut<'_>>
    ensures { MatchOption result (HasNoEnd bytes.now) (λ cut. IsFirstLine bytes.now cut.line.now cut.after.now) }
{
    match memchr(b'\n', bytes) {
        Some(at) => Some(LineCut {
            line: &bytes[..at],
            after: &bytes[at + 1..],
        }),
        None => None,
    }
}
