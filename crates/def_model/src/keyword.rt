//! The words of the statements (Toolkit tools reference, "Module Definition Files").

/// What the two words of a pair of attributes decide.
#[derive(Clone, Copy, PartialEq, Eq)]
pub enum Pair {
    Write,
    Read,
    Shared,
    Preload,
    Conforming,
    Iopl,
}

/// A reserved word.
#[derive(Clone, Copy, PartialEq, Eq)]
pub enum Keyword {
    Name,
    Library,
    Description,
    Code,
    Data,
    Segments,
    Exports,
    Imports,
    StackSize,
    HeapSize,
    Base,
    ProtMode,
    ExeType,
    /// STUB, OLD, VIRTUAL and PHYSICAL, which begin statements that are not read.
    Unread,
    /// WINDOWAPI, WINDOWCOMPAT and NOTWINDOWCOMPAT.
    Window,
    /// INITGLOBAL, or INITINSTANCE where it is for `each` process.
    Init { each: bool },
    /// TERMGLOBAL, or TERMINSTANCE where it is for `each` process.
    Term { each: bool },
    Class,
    ResidentName,
    NoData,
    /// A word that sets an attribute, or clears it. The words of `Pair::Read` make a segment
    /// executable too.
    Attribute(Pair, bool),
    /// A word among attributes that changes none.
    NoEffect,
}
