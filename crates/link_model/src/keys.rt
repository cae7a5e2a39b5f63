//! What tells logical segments apart, and objects: the keys of a linker's tables.

use lx_types::Name;

/// Where a part of a link comes from.
#[derive(Clone, Copy)]
pub enum Origin {
    /// A segment of a chosen module; both count from 1.
    Segment { module: u32, index: u32 },
    /// A communal; slots count from 0.
    Communal { slot: u32 },
    /// The stack of a program that has none.
    OwnStack,
}

/// A logical segment: parts of one key are one ("98h SEGDEF", combine types).
#[derive(Drop)]
pub enum SegmentKey {
    /// A private part stands alone.
    Private { origin: Origin },
    /// Public and stack parts of one name and class.
    Public { name: Name, class: Name },
    /// Common parts of one name and class.
    Common { name: Name, class: Name },
}

/// An object: logical segments of one key are one.
#[derive(Drop)]
pub enum ObjectKey {
    /// The segments of a group.
    Group { name: Name },
    /// The 32-bit segments in no group whose flags are equal.
    Wide { flags: u32 },
    /// A 16-bit segment in no group.
    Narrow { segment: SegmentKey },
}
