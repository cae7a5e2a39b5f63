//! What is asked of a library: where an entry point is, and whether a module can be loaded.

/// A place in an object of a module. Modules count from 0, objects from 1.
#[derive(Clone, Copy)]
pub struct Spot {
    pub module: u32,
    pub object: u32,
    pub offset: u32,
}

/// Why a key has no spot.
#[derive(Clone, Copy)]
pub enum EntryFault {
    /// The key names no entry, or a forwarder leads to a module or an entry that is not there.
    NoEntry,
    /// The entry is a call gate of the 80286.
    Gate286,
    /// Forwarders lead back to where they came from.
    ForwardLoop,
}

/// Whether a module can be loaded: the first of these kinds that a module has which it reaches, and
/// the first such module, `by`.
#[derive(Clone, Copy)]
pub enum Health {
    Fit,
    /// Name `name_no` of its import modules, from 1, means no library.
    NoModule { by: u32, name_no: u32 },
    /// A fixup's target names no entry.
    NoEntry { by: u32 },
    /// Forwarders lead from a fixup's target back to where they came from.
    ForwardLoop { by: u32 },
    /// A fixup's target is a call gate of the 80286.
    Gate286 { by: u32 },
}

/// Why modules are no library.
#[derive(Clone, Copy)]
pub enum LibraryRefusal {
    /// There are `count` modules, more than 64.
    TooManyModules { count: u32 },
    /// Modules `first` and `second`, from 0, have one name.
    NameTwice { first: u32, second: u32 },
}
