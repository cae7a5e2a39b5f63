//! A line of a file of rows.

use crate::bytes::{hex_bytes, number};
use crate::sweep::Damage;
use std::alloc::{AllocError, Global};

/// What a port refuses in a row.
#[derive(Clone, Copy)]
pub enum Port {
    Load,
    Save,
    Put,
}

/// What a line adds to the file, the text or the saved file that it stands below.
#[derive(Drop)]
pub enum Change<'a> {
    /// `HEX HEX ..`, or `|TEXT` with a line's end, or `>TEXT` without one.
    Bytes(Vec<u8>),
    /// `like NAME`: the bytes of another file.
    Like(&'a str),
    /// `saved`: what the row before saved under this name.
    Saved,
    /// `fill COUNT HEX`: a byte so often.
    Fill { count: usize, byte: u8 },
    /// `lines COUNT |TEXT`: the line so often, each with its number from 1 in the place of every `$`.
    Lines { count: u32, line: &'a str },
    /// `at PLACE HEX ..`: these bytes in the place of those that stand there.
    At { place: usize, bytes: Vec<u8> },
    /// `cut LENGTH`: only so many bytes.
    Cut(usize),
}

/// What a line says. After `#`, lines but those of text have a comment.
#[derive(Drop)]
pub enum Line<'a> {
    /// Nothing, or only a comment.
    Blank,
    /// `file NAME`: a file that the rows after it have.
    File(&'a str),
    /// `row TITLE`.
    Row(&'a str),
    /// `words WORD ..`: the command.
    Words(&'a str),
    /// `word TEXT`: one word more of it, which may have blanks.
    Word(&'a str),
    /// `status NUMBER`: the status that is wanted.
    Status(u8),
    /// `load NUMBER fails`, and so `save` and `put`.
    Fails {
        port: Port,
        number: u64,
    },
    /// `room BYTES`: what the sink takes, at most.
    Room(usize),
    /// `share BYTES`: what the sink takes of a piece, at most.
    Share(usize),
    /// `each prefix of NAME`, `each bit of NAME`: the command is run over each form of the file that is damaged so, and the row's
    /// text is how often it ended in which way.
    Each {
        damage: Damage,
        name: &'a str,
    },
    /// `says TEXT`: a line that is wanted on standard error. Rows without one are not asked what they say.
    Says(&'a str),
    /// `quiet`: nothing is wanted there.
    Quiet,
    /// `saves NAME`: a file is to be saved. Its bytes follow.
    Saves(&'a str),
    /// `holds NAME PLACE HEX ..`: a file is to be saved that has these bytes at a place.
    Holds {
        name: &'a str,
        place: usize,
        bytes: Vec<u8>,
    },
    Changes(Change<'a>),
    /// None of these.
    Unknown,
}

// The text before a comment, without blanks round it.
fn before_comment(text: &str) -> &str {
    text.split('#').next().unwrap_or("").trim()
}

// The first word, and what stands after it.
fn split_word(text: &str) -> (&str, &str) {
    match text.split_once(' ') {
        Some((word, rest)) => (word, rest.trim()),
        None => (text, ""),
    }
}

fn text_bytes(alloc: Global, text: &str, end: &[u8]) -> Result<Vec<u8>, AllocError> {
    let mut bytes = text.as_bytes().to_vec(alloc)?;
    bytes.extend_from_slice(end)?;
    Ok(bytes)
}

fn fails<'a>(port: Port, rest: &'a str) -> Line<'a> {
    match split_word(rest) {
        (word, "fails") => match number(word) {
            Some(number) => Line::Fails {
                port,
                number: number as u64,
            },
            None => Line::Unknown,
        },
        _ => Line::Unknown,
    }
}

fn holds<'a>(alloc: Global, rest: &'a str) -> Result<Line<'a>, AllocError> {
    let (name, rest) = split_word(rest);
    let (place, rest) = split_word(rest);
    Ok(match (number(place), hex_bytes(alloc, rest)?) {
        (Some(place), Some(bytes)) => Line::Holds { name, place, bytes },
        _ => Line::Unknown,
    })
}

fn at<'a>(alloc: Global, rest: &'a str) -> Result<Line<'a>, AllocError> {
    let (place, rest) = split_word(rest);
    Ok(match (number(place), hex_bytes(alloc, rest)?) {
        (Some(place), Some(bytes)) => Line::Changes(Change::At { place, bytes }),
        _ => Line::Unknown,
    })
}

fn each<'a>(rest: &'a str) -> Line<'a> {
    match (
        rest.strip_prefix("prefix of "),
        rest.strip_prefix("bit of "),
    ) {
        (Some(name), _) => Line::Each {
            damage: Damage::Prefixes,
            name,
        },
        (None, Some(name)) => Line::Each {
            damage: Damage::Bits,
            name,
        },
        (None, None) => Line::Unknown,
    }
}

fn fill<'a>(alloc: Global, rest: &'a str) -> Result<Line<'a>, AllocError> {
    let (count, rest) = split_word(rest);
    let bytes = hex_bytes(alloc, rest)?;
    Ok(match (number(count), bytes.as_deref()) {
        (Some(count), Some([byte])) => Line::Changes(Change::Fill { count, byte: *byte }),
        _ => Line::Unknown,
    })
}

fn lines<'a>(rest: &'a str) -> Line<'a> {
    let (count, rest) = split_word(rest);
    match (count.parse::<u32>(), rest.strip_prefix('|')) {
        (Ok(count), Some(line)) => Line::Changes(Change::Lines { count, line }),
        _ => Line::Unknown,
    }
}

fn plain<'a>(alloc: Global, text: &'a str) -> Result<Line<'a>, AllocError> {
    let (word, rest) = split_word(text);
    Ok(match word {
        "" => Line::Blank,
        "file" => Line::File(rest),
        "row" => Line::Row(rest),
        "words" => Line::Words(rest),
        "word" => Line::Word(rest),
        "status" => match rest.parse::<u8>() {
            Ok(status) => Line::Status(status),
            Err(_) => Line::Unknown,
        },
        "load" => fails(Port::Load, rest),
        "save" => fails(Port::Save, rest),
        "put" => fails(Port::Put, rest),
        "each" => each(rest),
        "quiet" => Line::Quiet,
        "share" => match number(rest) {
            Some(share) => Line::Share(share),
            None => Line::Unknown,
        },
        "room" => match number(rest) {
            Some(room) => Line::Room(room),
            None => Line::Unknown,
        },
        "saves" => Line::Saves(rest),
        "holds" => return holds(alloc, rest),
        "like" => Line::Changes(Change::Like(rest)),
        "saved" => Line::Changes(Change::Saved),
        "fill" => return fill(alloc, rest),
        "at" => return at(alloc, rest),
        "cut" => match number(rest) {
            Some(length) => Line::Changes(Change::Cut(length)),
            None => Line::Unknown,
        },
        _ => match hex_bytes(alloc, text)? {
            Some(bytes) => Line::Changes(Change::Bytes(bytes)),
            None => Line::Unknown,
        },
    })
}

impl<'a> Line<'a> {
    /// What a line of a file of rows says.
    pub fn of(alloc: Global, text: &'a str) -> Result<Line<'a>, AllocError> {
        let text = text.trim_start();
        if let Some(line) = text.strip_prefix('|') {
            return Ok(Line::Changes(Change::Bytes(text_bytes(alloc, line, b"\n")?)));
        }
        if let Some(part) = text.strip_prefix('>') {
            return Ok(Line::Changes(Change::Bytes(text_bytes(alloc, part, b"")?)));
        }
        if let Some(line) = text.strip_prefix("says ") {
            return Ok(Line::Says(line));
        }
        if let Some(rest) = text.strip_prefix("lines ") {
            return Ok(lines(rest));
        }
        plain(alloc, before_comment(text))
    }
}
