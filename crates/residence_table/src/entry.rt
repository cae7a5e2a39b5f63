//! What an entry does, as its calls are asked for.

use load_model::{Call, Fresh, How};

/// A start or a load of a module: what it attaches, in the order of imports, and the residences that begin with it.
#[derive(Clone, Copy)]
pub struct Entering<'a> {
    pub how: How,
    pub module: u32,
    pub joined: &'a [u32],
    pub fresh: &'a [Fresh],
}

/// An initialisation that fails, of module `by`: the process, the pairs of a process and a module whose
/// initialisation fails, and the calls that there would be, were none to fail.
#[derive(Clone, Copy)]
pub struct Failure<'a> {
    pub pid: u32,
    pub by: u32,
    pub pairs: &'a [(u32, u32)],
    pub calls: &'a [Call],
}

/// What a process no longer reaches, and what of that no process reaches.
#[derive(Clone, Copy)]
pub struct Leaving<'a> {
    pub left: &'a [u32],
    pub gone: &'a [u32],
}
