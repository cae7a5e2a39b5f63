//! What a reader is told at the end of a call.

ghost use Rattle.std.specs.Prelude.{◌≡◌};

use crate::given::SessionNotices;
use crate::help::help_of;
use crate::watched::{Look, Mark, Tell, Watched};
use answer_model::{DONE, NO_MEMORY, USAGE, WRITE_FAILED};
use lx_ports::Files;
use mod_graph::Library;
use refusal_notes::{Call, Lines, note, notes_on, notes_on_modules};
use refusal_text::{Cause, LinkFiles, Refused};
use std::alloc::Global;

/// How a call ended: with these words, this status, and what was refused; with the link that a map is of, and with the library over
/// which a session ran.
#[derive(Clone, Copy)]
pub struct Ending<'a> {
    words: &'a [String],
    status: u8,
    refused: Option<&'a Refused>,
    mapped: Option<&'a LinkFiles>,
    library: Option<&'a Library>,
}

/// What is said where there is no word.
const NONE: &str =
    "a command is wanted: link, implib, image, bind, gen, run, check, dump, map, memory or show";

/// What is said of a word that is no command.
const UNKNOWN: &str =
    "there are the commands link, implib, image, bind, gen, run, check, dump, map, memory and show";

/// What is said of `image` with as many words as it wants.
const BASE: &str =
    "BASE is eight hexadecimal digits, a multiple of 65,536 from 00010000 to 1FFF0000";

/// What is said of text that was not put whole.
const NOT_PUT: &str = "standard output failed before all of the text was written";

impl<'a> Ending<'a> {
    /// The ending of a call with these words, which made no map and ran no session.
    pub fn of(words: &'a [String], status: u8, refused: Option<&'a Refused>) -> Ending<'a> {
        Ending {
            words,
            status,
            refused,
            mapped: None,
            library: None,
        }
    }

    /// The same of a call that made a map of this link, or ran a session over this library.
    pub fn over(self, mapped: Option<&'a LinkFiles>, library: Option<&'a Library>) -> Ending<'a> {
        Ending {
            mapped,
            library,
            ..self
        }
    }

    fn word(&self, index: usize) -> &'a str {
        match self.words.get(index) {
            Some(word) => word.as_str(),
            None => "",
        }
    }

    // Notes on words that are no command.
    fn usage(&self, lines: &mut Lines) {
        let command = self.word(0);
        let Some(help) = help_of(command) else {
            let known = if command.is_empty() { NONE } else { UNKNOWN };
            note!(lines; "{known}");
            return note!(lines; "lx --help says more");
        };
        let is_base = command == "image" && self.words.len() == 3;
        let wants = if is_base { BASE } else { help.wants };
        note!(lines; "{wants}");
        note!(lines; "lx {command} --help says more")
    }

    // A note on text that was not put whole. What a command saves was saved before, where nothing is refused.
    fn not_put(&self, lines: &mut Lines) {
        let out = self.word(1);
        match self.word(0) {
            "link" | "implib" | "bind" if self.refused.is_none() =>
                note!(lines; "{NOT_PUT}; {out} was saved"),
            "gen" => note!(lines; "{NOT_PUT}; all files were saved"),
            _ => note!(lines; "{NOT_PUT}; nothing was to be saved"),
        }
    }

    /// The notes. Of calls that succeeded only a map has some.
    fn notes<F: Files, T: Tell + Look>(&self, lines: &mut Lines, files: &Watched<F, T>) {
        if let (DONE, Some(mapped)) = (self.status, self.mapped) {
            return notes_on_modules(lines, mapped);
        }
        match (self.status, self.refused) {
            (USAGE, _) => self.usage(lines),
            (NO_MEMORY, _) => no_memory(lines),
            (WRITE_FAILED, refused) if !is_unsaved(refused) => self.not_put(lines),
            (_, Some(refused)) => self.refusal(lines, files, refused),
            (_, None) => {}
        }
    }

    // Notes on what was refused, and why a save failed.
    fn refusal<F: Files, T: Tell + Look>(
        &self,
        lines: &mut Lines,
        files: &Watched<F, T>,
        refused: &Refused,
    ) {
        let call = Call {
            command: self.word(0),
            next: self.word(1),
            third: self.word(2),
            session: files.session(),
        };
        notes_on(lines, call, refused);
        if matches!(refused.cause, Cause::Unsaved) {
            files.add_why_unsaved(lines, refused.name.as_str());
            files.add_leftover(lines, refused.name.as_str());
        }
        if matches!(refused.cause, Cause::Unsaved | Cause::Unreadable) {
            files.add_answer(lines);
        }
    }

    // Warnings of a call that succeeded.
    fn warnings<F: Files, T: Tell + Look>(&self, lines: &mut Lines, files: &Watched<F, T>) {
        files.warn(lines, self.words);
        if matches!(self.word(0), "link" | "implib" | "bind") {
            files.add_leftover(lines, self.word(1));
        }
        if let Some(library) = self.library {
            SessionNotices::of(self.word(1), files.session(), library).warn(lines);
        }
    }
}

fn no_memory(lines: &mut Lines) {
    note!(lines; "there was no memory; nothing was saved, and nothing was put")
}

fn is_unsaved(refused: Option<&Refused>) -> bool {
    match refused {
        Some(refused) => matches!(refused.cause, Cause::Unsaved),
        None => false,
    }
}

/// Tells a reader how a call ended: warnings where it succeeded, and notes on a map or on what was refused. What finds no memory is
/// left out.
pub fn tell_on<F: Files, T: Tell + Look>(
    alloc: Global,
    ending: &Ending<'_>,
    files: &mut Watched<F, T>,
)
    ensures { ⟦<Watched<F, T> as Files>⟧.state files.new ≡ ⟦<Watched<F, T> as Files>⟧.state files.old }
{
    if ending.status == DONE {
        let mut lines = Lines::new(alloc);
        ending.warnings(&mut lines, files);
        files.tell(&lines, Mark::Warning);
    }
    let mut lines = Lines::new(alloc);
    ending.notes(&mut lines, files);
    files.tell(&lines, Mark::Note);
}
