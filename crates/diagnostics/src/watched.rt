//! Files in front of others, which remember what a call did with them.

ghost use Rattle.std.specs.Prelude.{◌≡◌};
ghost use Rattle.diagnostics.specs.Marks.{mark_text};

use crate::slips::Slips;
use lx_ports::{Files, LoadFault, SaveFault};
use omf_frame::record_type::LIBRARY_HEADER;
use refusal_notes::{Lines, looks_like, note};
use std::alloc::{AllocError, Global};

/// How long a file's name may be, in bytes.
const LONGEST_NAME: usize = 255;

/// How many files are told at most that saves have left.
const MOST_LEFT: usize = 16;

/// What a line begins with.
#[derive(Clone, Copy)]
pub enum Mark {
    Note,
    Warning,
}

impl Mark {
    /// The words that a line of this kind begins with.
    pub fn text(self) -> &'static str
        ensures { result.now ≡ mark_text self }
    {
        match self {
            Mark::Note => "lx: note: ",
            Mark::Warning => "lx: warning: ",
        }
    }
}

/// Where lines for a reader go, as standard error. It may drop them.
pub trait Tell {
    /// Takes lines, each with its end.
    fn tell(&mut self, text: &str);
}

/// What stands on the disk, for lines to a reader alone. It may say nothing.
pub trait Look {
    /// What the file of this name begins with, where it is a regular file that can be read.
    fn front(&self, alloc: Global, name: &str) -> Option<Vec<u8>>;

    /// Whether there is a file or a folder of this name.
    fn is_there(&self, name: &str) -> bool;

    /// What the system said of its last call that failed, where that is known.
    fn answer(&self, alloc: Global) -> Option<String>;
}

/// Files that load and save by others, remember what they gave, and tell of a save over a file that was loaded, or that is none
/// of those that the call writes.
#[derive(Drop)]
pub struct Watched<F, T> {
    files: F,
    tell: T,
    alloc: Global,
    slips: Slips,
}

impl<F: Files, T: Tell + Look> Watched<F, T> {
    /// Watches these files, for a call with these words.
    pub fn new(alloc: Global, files: F, tell: T, words: &[String]) -> Watched<F, T>
        ensures { ⟦<Watched<F, T> as Files>⟧.state result ≡ F.state files }
    {
        Watched {
            files,
            tell,
            alloc,
            slips: Slips::new(alloc, words),
        }
    }

    /// The files that were watched.
    pub fn into_parts(self) -> (F, T) {
        (self.files, self.tell)
    }

    /// Warns of what looks like a slip of a call that has succeeded.
    pub fn warn(&self, lines: &mut Lines, words: &[String]) {
        self.slips.warn(lines, words)
    }

    /// Tells lines of this kind.
    pub fn tell(&mut self, lines: &Lines, mark: Mark)
        ensures { ⟦<Watched<F, T> as Files>⟧.state self.new ≡ ⟦<Watched<F, T> as Files>⟧.state self.old }
    {
        if let Ok(text) = lines.text(mark.text()) {
            self.tell.tell(text.as_str());
        }
    }

    /// The text that was loaded first, which is that of a session where one is run.
    pub fn session(&self) -> &str {
        self.slips.session()
    }

    /// Adds what saves that were cut off have left beside this file.
    pub fn add_leftover(&self, lines: &mut Lines, name: &str) {
        for number in 0..MOST_LEFT {
            let Ok(leftover) = new_beside(self.alloc, name, number) else {
                return lines.fail();
            };
            let path = leftover.as_str();
            if !self.tell.is_there(path) {
                break;
            }
            note!(lines; "{path} stands there: a save that was cut off has left it, or one is going on");
        }
    }

    /// Adds what the system said of a file that was not loaded or not saved.
    pub fn add_answer(&self, lines: &mut Lines) {
        match self.tell.answer(self.alloc) {
            Some(answer) => note!(lines; "the system says: {answer}"),
            None => {}
        }
    }

    /// Adds why this file cannot be saved, where that can be told.
    pub fn add_why_unsaved(&self, lines: &mut Lines, name: &str) {
        if let Some((folder, file)) = name.rsplit_once('/') {
            if !folder.is_empty() && !self.tell.is_there(folder) {
                note!(lines; "there is no folder {folder}");
            }
            return add_long(lines, file);
        }
        add_long(lines, name)
    }

    // Adds that a save writes over a file that was loaded, or that is another one than those that the call writes.
    fn add_loss(&self, lines: &mut Lines, name: &str, bytes: &[u8]) {
        if self.slips.has_read(name) {
            return note!(lines; "{name}: this call has read the file, and writes over it now");
        }
        match self.tell.front(self.alloc, name) {
            Some(old) => add_other(lines, name, &old, bytes),
            None => {}
        }
    }

    // Tells of a save over a file that looks like another one.
    fn warn_of_loss(&mut self, name: &str, bytes: &[u8])
        ensures { ⟦<Watched<F, T> as Files>⟧.state self.new ≡ ⟦<Watched<F, T> as Files>⟧.state self.old }
    {
        let mut lines = Lines::new(self.alloc);
        self.add_loss(&mut lines, name, bytes);
        self.tell(&lines, Mark::Warning);
    }
}

// What a save of a file writes first, in its folder.
fn new_beside(alloc: Global, name: &str, number: usize) -> Result<String, AllocError> {
    match name.rsplit_once('/') {
        Some((folder, _)) => format!(in alloc; "{folder}/.lx-new-{number}"),
        None => format!(in alloc; ".lx-new-{number}"),
    }
}

fn add_long(lines: &mut Lines, file: &str) {
    if file.len() > LONGEST_NAME {
        note!(lines; "the file's name has more than {LONGEST_NAME} bytes");
    }
}

fn is_module(bytes: &[u8]) -> bool {
    bytes.starts_with(b"LX") || bytes.starts_with(b"MZ")
}

fn is_library(bytes: &[u8]) -> bool {
    bytes.first() == Some(&LIBRARY_HEADER)
}

// Adds that a file is written over that is no module or no library, as the new one is. `old` is what it begins with.
fn add_other(lines: &mut Lines, name: &str, old: &[u8], new: &[u8]) {
    let wanted = match (is_module(new), is_library(new)) {
        (true, _) if !is_module(old) => "module",
        (_, true) if !is_library(old) => "library",
        _ => return,
    };
    match looks_like(old) {
        _ if old.is_empty() => {}
        Some(seems) =>
            note!(lines; "{name}: the file that is written over now is no {wanted}: it seems to be {seems}"),
        None => note!(lines; "{name}: the file that is written over now is no {wanted}"),
    }
}

impl<F: Files, T: Tell + Look> Files for Watched<F, T> {
    ghost state = { λ watched. F.state watched.files };

    fn load(&mut self, alloc: Global, name: &str, max: u32) -> Result<Vec<u8>, LoadFault> {
        let answer = self.files.load(alloc, name, max);
        if let Ok(bytes) = &answer {
            // (what finds no memory is left out)
            let _ = self.slips.read(name, bytes);
        }
        answer
    }

    fn save(&mut self, name: &str, bytes: &[u8]) -> Result<(), SaveFault> {
        self.warn_of_loss(name, bytes);
        self.slips.save(bytes);
        self.files.save(name, bytes)
    }
}
