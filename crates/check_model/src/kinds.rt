//! What is wrong with a transcript, and where.

use lx_types::Bytes;

/// What is wrong. The kinds are tried in this order.
#[derive(Clone, Copy)]
pub enum CheckKind {
    /// No text in the form of a transcript begins with the lines up to this one.
    Text,
    /// The numbers of the processes are not those of the session's scripts.
    Scripts,
    /// The number of entries in front of a line falls within its process, or is over the number of all.
    Front,
    /// The script's next command is another, or there is none; at the end one is left.
    Command,
    /// The entry is of a process or of a thing that may not be asked at its place.
    Refused,
    /// The loader with one thread does something else at this place.
    Entry,
    /// The page had its fault, or the process's next item is not its first touch of the page.
    Fault,
    /// A touch of a page that had no fault, or use of a page that the process has not touched.
    Touch,
    /// The reply is another.
    Reply,
    /// A number of the last line is another.
    Count,
}

/// Where a transcript first goes wrong; lines count from 1.
#[derive(Clone, Copy)]
pub struct CheckFault {
    pub line: u64,
    pub kind: CheckKind,
}

/// What the loader with one thread does where a transcript tells something else. It is for a reader; what is wrong is decided without.
#[derive(Drop)]
pub enum Expected {
    /// What a transcript has there: the lines of an entry, or a steady line.
    Text(Bytes),
    /// The command is not refused there: an entry is made for it.
    Entry,
}

/// The numbers of a transcript's last line.
#[derive(Clone, Copy)]
pub struct Counts {
    pub processes: u64,
    pub entries: u64,
    pub faults: u64,
}
