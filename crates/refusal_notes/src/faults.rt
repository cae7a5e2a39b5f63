//! Notes on the first fault of a file, of which the bytes are in hand.

use crate::advice::{Advice, advice_on};
use crate::looks::{begins_as_object, looks_like};
use crate::meanings::{object_hint, object_meaning};
use crate::modules::module_text;
use crate::records::{RecordType, record_with};
use crate::{Lines, note};
use check_model::{CheckFault, Expected};
use def_model::DefRefusal;
use lx_types::{LxKind, LxRefusal};
use obj_types::OmfRefusal;
use refusal_text::{FileFault, check_kind, def_kind, lx_kind, res_fault, session_kind};
use res_model::ResRefusal;
use std::fmt::{self, Display, Formatter, Write};

/// How long a line is that is shown.
const SHOWN: usize = 120;

/// The end of a file in DOS.
const END_OF_FILE: u8 = 0x1A;

/// A file that has a fault. `command` is the first of the words.
#[derive(Clone, Copy)]
pub struct Faulty<'a> {
    pub name: &'a str,
    pub bytes: &'a [u8],
    pub command: &'a str,
}

/// A place in a file, as `26 (1Ah)`.
#[derive(Clone, Copy)]
struct Place(u64);

impl Display for Place {
    fn fmt<W: Write>(&self, f: &mut Formatter<W>) -> fmt::Result {
        let at = self.0;
        write!(f, "{at} ({at:X}h)")
    }
}

impl Faulty<'_> {
    /// Notes on its first fault.
    pub fn notes(&self, lines: &mut Lines, fault: &FileFault) {
        match fault {
            FileFault::Object(refusal) => self.object(lines, refusal),
            FileFault::Definition(_) if self.is_binary() => self.misplaced(lines),
            FileFault::Definition(own) => self.definition(lines, *own),
            FileFault::Module(refusal) => self.module(lines, *refusal),
            FileFault::Session(own) => self.line(lines, session_kind(own.kind), own.line),
            FileFault::Resources(refusal) => self.resources(lines, *refusal),
            FileFault::Transcript(own, expected) => self.transcript(lines, *own, expected.as_ref()),
        }
    }

    // Tells that the file is no such one, and what it seems to be, or else something else.
    fn is_no(&self, lines: &mut Lines, wanted: &str, other: &str) {
        let name = self.name;
        match looks_like(self.bytes) {
            Some(seems) => note!(lines; "{name} is no {wanted}: it seems to be {seems}"),
            None => note!(lines; "{name} is no {wanted}: {other}"),
        }
    }

    fn object(&self, lines: &mut Lines, refusal: &OmfRefusal) {
        if !begins_as_object(self.bytes) {
            return self.is_no(lines, "object file", "those begin with 80h, THEADR");
        }
        let (name, hint) = (self.name, object_hint(refusal));
        let (at, fields) = (place_of(refusal), Fields(refusal));
        let begin = record_with(self.bytes, at);
        let record = self.bytes.get(begin).copied();
        let means = object_meaning(refusal, record);
        note!(lines; "{name}: {means}{fields}");
        match record {
            Some(kind) => {
                let kind = RecordType(kind);
                let (at, begin) = (Place(at as u64), Place(begin as u64));
                note!(lines; "byte {at} stands in the record at {begin}: {kind}; {hint}")
            }
            None => {
                let at = Place(at as u64);
                note!(lines; "byte {at} is the end of the file; {hint}")
            }
        }
    }

    // What it means, and the byte where it is.
    fn byte(&self, lines: &mut Lines, told: (&str, &str), at: u64) {
        let (name, (kind, means), at) = (self.name, told, Place(at));
        note!(lines; "{name}: {kind}: {means}; at byte {at}")
    }

    fn module(&self, lines: &mut Lines, refusal: LxRefusal) {
        self.byte(lines, lx_kind(refusal.kind), refusal.at);
        match refusal.kind {
            LxKind::Signature => self.is_no(lines, "LX module", "take one"),
            _ => match module_text(self.bytes, refusal) {
                Some(text) => note!(lines; "{text}"),
                None => note!(lines; "link the module again, or fetch it again"),
            },
        }
    }

    fn resources(&self, lines: &mut Lines, refusal: ResRefusal) {
        let (at, kind, means) = res_fault(refusal);
        self.byte(lines, (kind, means), at as u64);
        if at == 0 && looks_like(self.bytes).is_some() {
            self.is_no(lines, "resource file", "");
        }
    }

    fn is_binary(&self) -> bool {
        begins_as_object(self.bytes) || matches!(self.bytes.first(), Some(0x7F))
    }

    // An object file, or what is none of OS/2, in the place of a definition file.
    fn misplaced(&self, lines: &mut Lines) {
        let name = self.name;
        let seems = looks_like(self.bytes).unwrap_or("no text");
        let words = match self.command {
            "link" => "link OUT",
            "map" => "map",
            "run" | "check" => "build STEM",
            _ =>
                return note!(lines; "{name} seems to be {seems}: implib reads definition files and modules"),
        };
        note!(lines; "{name} seems to be {seems}: the words are {words} DEF IN ..: is DEF forgotten, or - in its place?")
    }

    fn definition(&self, lines: &mut Lines, refusal: DefRefusal) {
        let (name, (kind, means)) = (self.name, def_kind(refusal.kind));
        let line = std::str::from_utf8(line_of(self.bytes, refusal.line)).unwrap_or("");
        let told = advice_on(self.bytes, line, refusal).unwrap_or(Advice::Text(means));
        note!(lines; "{name}: {kind}: {told}");
        self.show_line(lines, refusal.line)
    }

    fn transcript(&self, lines: &mut Lines, fault: CheckFault, expected: Option<&Expected>) {
        let number = u32::try_from(fault.line).unwrap_or(u32::MAX);
        self.line(lines, check_kind(fault.kind), number);
        match expected {
            Some(Expected::Text(text)) => self.expected(lines, number, text.as_slice()),
            Some(Expected::Entry) =>
                note!(lines; "the loader with one thread does not refuse it there: it makes an entry for it"),
            None => {}
        }
    }

    // The first line that differs from what the loader has there, whose text begins at a line.
    fn expected(&self, lines: &mut Lines, number: u32, text: &[u8]) {
        let before = (number as usize).saturating_sub(1);
        let told = self.bytes.split(is_end).skip(before);
        let mut line = number;
        for (own, told) in text.split(is_end).zip(told) {
            if own != told {
                // (the first line was shown)
                if let Some(shown) = shown_line(told)
                    && line != number
                {
                    note!(lines; "line {line} is: {shown}");
                }
                return add_own(lines, own, told);
            }
            line = line.saturating_add(1);
        }
    }

    // What it means, and what the line says in which it is, by its number from 1.
    fn line(&self, lines: &mut Lines, told: (&str, &str), number: u32) {
        let (name, (kind, means)) = (self.name, told);
        note!(lines; "{name}: {kind}: {means}");
        self.show_line(lines, number)
    }

    fn show_line(&self, lines: &mut Lines, number: u32) {
        let line = line_of(self.bytes, number);
        if line.contains(&END_OF_FILE) {
            return note!(lines; "line {number} has a byte 1Ah, the end of a file in DOS: here it is a byte like others, so remove it");
        }
        match shown_line(line) {
            Some("") | None => {}
            Some(text) => note!(lines; "line {number} is: {text}"),
        }
    }
}

// A line by its number from 1.
fn line_of(bytes: &[u8], number: u32) -> &[u8] {
    let before = (number as usize).saturating_sub(1);
    let mut all = bytes.split(is_end);
    match all.nth(before) {
        Some(line) => line,
        None => &[],
    }
}

// Tells which line the loader has in the place of one that is told.
fn add_own(lines: &mut Lines, own: &[u8], told: &[u8]) {
    if own.is_empty() {
        return note!(lines; "the loader with one thread has no such line there");
    }
    match shown_line(own) {
        Some(text) => note!(lines; "the loader with one thread has there: {text}"),
        None => {
            let same = same_bytes(own, told);
            note!(lines; "the loader with one thread has another line there: the first {same} bytes are the same")
        }
    }
}

// How many bytes two lines have in common before the first that differs.
fn same_bytes(one: &[u8], other: &[u8]) -> usize {
    for (place, (own, told)) in one.iter().zip(other).enumerate() {
        if own != told {
            return place;
        }
    }
    one.len().min(other.len())
}

fn is_plain(line: &[u8]) -> bool {
    for &byte in line {
        if !matches!(byte, 0x20..=0x7E | 0x80.. | b'\t' | b'\r') {
            return false;
        }
    }
    true
}

// The line as text, where it is text and short.
fn shown_line(line: &[u8]) -> Option<&str> {
    match std::str::from_utf8(line) {
        Ok(text) if is_plain(line) && line.len() <= SHOWN => Some(text.trim()),
        _ => None,
    }
}

fn is_end(byte: &u8) -> bool {
    *byte == b'\n'
}

fn place_of(refusal: &OmfRefusal) -> usize {
    match refusal {
        OmfRefusal::Short { at }
        | OmfRefusal::BadChecksum { at, .. }
        | OmfRefusal::UnknownType { at, .. }
        | OmfRefusal::BadIndex { at, .. }
        | OmfRefusal::BadField { at }
        | OmfRefusal::DataRange { at }
        | OmfRefusal::Nested { at }
        | OmfRefusal::NoThread { at }
        | OmfRefusal::BadLocation { at, .. }
        | OmfRefusal::NoData { at }
        | OmfRefusal::FixOverlap { at }
        | OmfRefusal::DataOverFix { at }
        | OmfRefusal::TooMany { at } => *at,
    }
}

/// What is said of the fields of a refusal beside the place.
#[derive(Clone, Copy)]
struct Fields<'a>(&'a OmfRefusal);

impl Display for Fields<'_> {
    fn fmt<W: Write>(&self, f: &mut Formatter<W>) -> fmt::Result {
        match *self.0 {
            OmfRefusal::UnknownType { ty, .. } => write!(f, ": {}", RecordType(ty)),
            OmfRefusal::BadIndex { index, have, .. } if index == 0 || index > have => {
                write!(f, ": it is {index}, of {have}")
            }
            OmfRefusal::BadIndex { index, .. } => write!(f, ": {index} is a debug segment"),
            OmfRefusal::BadChecksum { sum, .. } => write!(f, ": they come to {sum}"),
            OmfRefusal::BadLocation { loc, .. } => write!(f, ": it is {loc}"),
            _ => Ok(()),
        }
    }
}
