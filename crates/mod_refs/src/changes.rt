//! What a process gives up, and what a load or a free changes.

/// What a process gives up: one load of a module (DosFreeModule), or its program and all loads (DosExit).
#[derive(Clone, Copy, Drop)]
pub enum Leaving {
    One(u32),
    All,
}

/// The modules that a start or a load attaches, in the order of imports: those that the process did not
/// reach, and those of them that no process reached.
#[derive(Drop)]
pub struct Gained {
    pub joined: Vec<u32>,
    pub fresh: Vec<u32>,
}

/// The modules that leave, the last that the process attached first: those that it no longer reaches, and
/// those of them that no process reaches.
#[derive(Drop)]
pub struct Lost {
    pub left: Vec<u32>,
    pub gone: Vec<u32>,
}

/// The process holds 65,535 loads of the module, as many as it may.
#[derive(Clone, Copy, Drop)]
pub struct CountFull;
