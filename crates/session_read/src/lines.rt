//! Lines, and the words in them.

ghost use Rattle.std.specs.Prelude.{◌≡◌, ◌<◌, ◌≤◌, [], ◌∷◌, length, not, MatchOption, IfSome};
ghost use Rattle.std.specs.List.{list_all, prefix_len};
ghost use Rattle.session_model.specs.Lines.{lines_in, words_in, is_allowed, is_blank};
ghost use Rattle.session_read.specs.Cutting.{without_cr};

use memchr::memchr;

/// The first line of bytes, and what stands after it.
#[derive(Clone, Copy)]
pub(crate) struct LineCut<'a> {
    pub line: &'a [u8],
    pub after: &'a [u8],
}

// A CR in front of the LF is no part of the line.
fn without_cr(line: &[u8]) -> &[u8]
    ensures { result.now ≡ without_cr line.now }
{
    let len = line.len();
    if len > 0 && line[len - 1] == b'\r' {
        &line[..len - 1]
    } else {
        line
    }
}

pub(crate) fn first_line(bytes: &[u8]) -> LineCut<'_>
    requires { 0 < length bytes.now }
    ensures lines { lines_in bytes.now ≡ result.line.now ∷ lines_in result.after.now }
    ensures shorter { length result.after.now < length bytes.now }
{
    match memchr(b'\n', bytes) {
        Some(at) => LineCut {
            line: without_cr(&bytes[..at]),
            after: &bytes[at + 1..],
        },
        None => LineCut {
            line: bytes,
            after: &[],
        },
    }
}

/// Whether the line has blanks, tabs and visible ASCII characters alone.
pub(crate) fn is_allowed(line: &[u8]) -> bool
    ensures { result ≡ list_all (λ b. is_allowed b) line.now }
{
    line.iter()
        .all(|b| (0x20 <= *b && *b <= 0x7E) || *b == b'\t')
}

/// The first word of a line, and what stands after it.
#[derive(Clone, Copy)]
pub struct WordCut<'a> {
    pub word: &'a [u8],
    pub after: &'a [u8],
}

fn is_blank(byte: u8) -> bool
    ensures { result ≡ is_blank byte }
{
    byte == b' ' || byte == b'\t'
}

// How many blanks stand in front.
fn blank_len(bytes: &[u8]) -> usize
    ensures value { result ≡ prefix_len (λ b. is_blank b) bytes.now }
    ensures within { result ≤ length bytes.now }
{
    bytes.iter().take_while(|b| is_blank(**b)).count()
}

// How many bytes stand in front of the first blank.
fn word_len(bytes: &[u8]) -> usize
    ensures value { result ≡ prefix_len (λ b. not (is_blank b)) bytes.now }
    ensures within { result ≤ length bytes.now }
{
    bytes.iter().take_while(|b| !is_blank(**b)).count()
}

/// The first word of a line. `None` comes exactly where there is no word.
pub fn first_word(bytes: &[u8]) -> Option<WordCut<'_>>
    ensures words { MatchOption result (words_in bytes.now ≡ [])
        (λ cut. words_in bytes.now ≡ cut.word.now ∷ words_in cut.after.now) }
    ensures some { IfSome result (λ cut. 0 < length cut.word.now) }
    ensures shorter { IfSome result (λ cut. length cut.after.now < length bytes.now) }
{
    let text = &bytes[blank_len(bytes)..];
    let len = word_len(text);
    if len == 0 {
        return None;
    }
    Some(WordCut {
        word: &text[..len],
        after: &text[len..],
    })
}
