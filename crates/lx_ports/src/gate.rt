//! A place to stop the scripts of a session, for tests of their threads.

/// Holds a script back before its commands.
pub trait Gate: Sync {
    /// Called before each command of each script, with the script's process number and the command's index from 1.
    fn before(&self, pid: u32, index: u32);
}

/// The gate that the program ships: it is always open.
#[derive(Clone, Copy)]
pub struct NoGate;

impl Gate for NoGate {
    fn before(&self, _pid: u32, _index: u32) {}
}
