//! What a session says: modules, and scripts of commands.

use crate::kept::{FailingLines, ModLines};
use crate::words::Words;
use load_model::{Command, Reply};
use lx_types::{Name, Seq};

/// A line that gives a module.
pub enum ModLine {
    /// The module in a file.
    Take { file: Name },
    /// A module that is linked from object files and libraries. `def` is the definition file's name,
    /// or `-`.
    Build { stem: Name, def: Name, files: Words },
}

// Dropped by a call, as lists are (`Seq`).
impl Drop for ModLine {
    fn drop(self) {
        match self {
            ModLine::Take { file } => drop(file),
            ModLine::Build { stem, def, files } => {
                drop(stem);
                drop(def);
                drop(files);
            }
        }
    }
}

/// The commands of a script, in their order.
pub type Commands = Seq<Command>;

/// What one process does. Its number is from 1 to 16.
#[derive(Drop)]
pub struct Script {
    pub pid: u32,
    pub commands: Commands,
}

/// A line that makes an initialisation fail: that of a module, by its name, in the process of a script, by its number.
pub struct FailingLine {
    pub module: Name,
    pub pid: u32,
}

// Dropped by a call, as lists are (`Seq`).
impl Drop for FailingLine {
    fn drop(self) {
        let FailingLine { module, pid: _ } = self;
        drop(module);
    }
}

/// A session: the modules, the initialisations that fail, and the scripts by rising numbers.
#[derive(Drop)]
pub struct Session {
    pub modules: ModLines,
    pub failing: FailingLines,
    pub scripts: Seq<Script>,
}

/// What is wrong with a line. The kinds are tried in this order.
#[derive(Clone, Copy)]
pub enum SessionKind {
    /// A byte that is neither a blank nor a visible ASCII character.
    Byte,
    /// The first word is no statement.
    Statement,
    /// The statement has another number of words, or one of them is too long.
    Count,
    Number,
    Hex,
    /// The statement stands in the wrong part, or its process number is out of range or does not rise.
    Order,
    /// The script has too many commands.
    TooMany,
}

/// The first fault of a session; lines count from 1.
#[derive(Clone, Copy)]
pub struct SessionRefusal {
    pub line: u32,
    pub kind: SessionKind,
}

/// A steady line: a command that was answered without an entry, with how many entries of the history
/// its process had made or was shown.
pub struct Line {
    pub front: u64,
    pub command: Command,
    pub reply: Reply,
}

// Dropped by a call, as lists are (`Seq`).
impl Drop for Line {
    fn drop(self) {
        let Line {
            front: _,
            command: _,
            reply,
        } = self;
        drop(reply);
    }
}

/// The steady lines of a script.
pub struct ScriptLines {
    pub pid: u32,
    pub lines: Seq<Line>,
}

// Dropped by a call, as lists are (`Seq`).
impl Drop for ScriptLines {
    fn drop(self) {
        let ScriptLines { pid: _, lines } = self;
        drop(lines);
    }
}
