//! The notes on what was refused: a match over it.

use crate::faults::Faulty;
use crate::links::NumberedLink;
use crate::meanings::{gathering_meaning, link_meaning, load_meaning};
use crate::names::shown;
use crate::{Lines, note};
use link_model::LinkRefusal;
use memory_model::MemoryRefusal;
use refusal_text::{Cause, FileFault, LinkFiles, Obstacle, Refused, bind_kind};

/// A call that was refused something: the first three of its words, and the text of its session, or what is known of that.
#[derive(Clone, Copy)]
pub struct Call<'a> {
    pub command: &'a str,
    pub next: &'a str,
    pub third: &'a str,
    pub session: &'a str,
}

/// Adds notes on what a call was refused.
pub fn notes_on(lines: &mut Lines, call: Call<'_>, refused: &Refused) {
    add_cause(lines, call.command, refused);
    if matches!(call.command, "run" | "check") && is_of_line(refused, call) {
        add_line(lines, call, refused);
    }
}

// Whether a line of a session names a file, or the module that it builds.
fn names(line: &str, name: &str, is_module: bool) -> bool {
    let mut words = line.split_whitespace();
    let first = words.next();
    let second = words.next();
    match (first, is_module) {
        (Some("take"), false) | (Some("build"), true) => return second == Some(name),
        (Some("build"), false) => {}
        _ => return false,
    }
    for word in words {
        if word == name {
            return true;
        }
    }
    false
}

// Tells which line of the session names what was refused.
fn add_line(lines: &mut Lines, call: Call<'_>, refused: &Refused) {
    let (session, name) = (call.next, refused.name.as_str());
    let is_module = matches!(refused.cause, Cause::Unlinked { .. });
    for (before, line) in call.session.lines().enumerate() {
        if names(line, name, is_module) {
            let number = before.saturating_add(1);
            let text = line.trim();
            return note!(lines; "line {number} of {session} names it: {text}");
        }
    }
    note!(lines; "a line of {session} names it: take FILE, or build STEM DEF IN .., which links STEM")
}

// Whether something else than the session itself was refused, or than its modules together, or the transcript of a check.
fn is_of_line(refused: &Refused, call: Call<'_>) -> bool {
    match &refused.cause {
        Cause::Faulty { fault, .. } => {
            !matches!(fault, FileFault::Session(_) | FileFault::Transcript(..))
        }
        Cause::Unlinked { .. } => true,
        Cause::Ungathered(_) => false,
        _ => {
            let name = refused.name.as_str();
            name != call.next && name != call.third
        }
    }
}

fn add_cause(lines: &mut Lines, command: &str, refused: &Refused) {
    let name = refused.name.as_str();
    match &refused.cause {
        Cause::Unlinked { refusal, files } => add_unlinked(lines, name, refusal, files),
        Cause::Imports { files } => add_imports(lines, name, files),
        Cause::Faulty { fault, bytes } | Cause::FaultShown { fault, bytes, .. } => {
            let file = Faulty {
                name,
                bytes,
                command,
            };
            file.notes(lines, fault);
        }
        Cause::Unloaded { refusal, at } => add_unloaded(lines, name, *refusal, at.as_ref()),
        Cause::Unsaved => add_unsaved(lines, command, name),
        cause => add_plain(lines, name, cause),
    }
}

fn add_unlinked(lines: &mut Lines, name: &str, refusal: &LinkRefusal, files: &LinkFiles) {
    let means = link_meaning(refusal);
    note!(lines; "{name}: {means}");
    match NumberedLink::of(lines.alloc, files) {
        Ok(link) => link.notes(lines, refusal),
        Err(_) => lines.fail(),
    }
}

fn add_imports(lines: &mut Lines, name: &str, files: &LinkFiles) {
    note!(lines; "{name}: NoModule: the object file imports, and image links it alone: make a module with lx link");
    match NumberedLink::of(lines.alloc, files) {
        Ok(link) => link.import(lines),
        Err(_) => lines.fail(),
    }
}

// Of a cause that has no more to it than what it means.
fn add_plain(lines: &mut Lines, name: &str, cause: &Cause) {
    match cause {
        Cause::Absent =>
            note!(lines; "there is no file {name}: paths are taken from the folder that lx runs in"),
        Cause::TooLong =>
            note!(lines; "{name} has more than 16,777,216 bytes: make it smaller, or several of it"),
        Cause::Unreadable =>
            note!(lines; "the system does not give the file's bytes: it may be a folder, or one that you may not read"),
        Cause::ArenaFull { .. } =>
            note!(lines; "{name}: ArenaFull: an object ends after 1FFFFFFFh: take a lower BASE"),
        Cause::LibraryLong =>
            note!(lines; "{name}: LibraryLong: a library has at most 16,777,216 bytes: make several of it"),
        Cause::Unbound(refusal) => {
            let (kind, means) = bind_kind(*refusal);
            note!(lines; "{name}: {kind}: {means}")
        }
        Cause::Ungathered(refusal) => {
            let means = gathering_meaning(*refusal);
            note!(lines; "{means}")
        }
        Cause::Faulty { .. }
        | Cause::FaultShown { .. }
        | Cause::Unlinked { .. }
        | Cause::Imports { .. }
        | Cause::Unloaded { .. }
        | Cause::Unsaved => {}
    }
}

fn add_unloaded(lines: &mut Lines, name: &str, refusal: MemoryRefusal, at: Option<&Obstacle>) {
    let means = load_meaning(refusal);
    note!(lines; "{name}: {means}");
    match at {
        Some(obstacle) => add_obstacle(lines, refusal, obstacle),
        None => {}
    }
}

// Tells which module keeps another out, and what it imports that is not given.
fn add_obstacle(lines: &mut Lines, refusal: MemoryRefusal, at: &Obstacle) {
    let module = shown(lines.alloc, at.module.bytes());
    match (refusal, &at.import) {
        (_, Some(name)) => {
            let import = shown(lines.alloc, name.bytes());
            note!(lines; "{module} imports {import}: no library that is given has this name")
        }
        (MemoryRefusal::ArenaFull { .. }, None) => note!(lines; "it is an object of {module}"),
        (_, None) => note!(lines; "a fixup of {module} leads there"),
    }
}

fn add_unsaved(lines: &mut Lines, command: &str, name: &str) {
    note!(lines; "{name} could not be written: a save makes a new file in its folder: is there one, may it be written, is there room?");
    match command {
        "gen" => note!(lines; "the files before it were saved, it and those after it were not"),
        _ => note!(lines; "{name} was not saved: if there was such a file, it is as it was"),
    }
}
