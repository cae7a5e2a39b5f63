//! What the modules of a session import and no line of it gives: modules, and entries of modules.

ghost use Rattle.std.specs.Prelude.{◌<◌, length};

use lx_model::{EntryFault, Health};
use lx_types::{FixTarget, Module, Name};
use mod_graph::Library;
use refusal_notes::{Lines, note, shown};
use std::alloc::AllocError;

/// Of how many entries it is told that one module imports them in vain.
const MOST: usize = 16;

/// An entry that a fixup names: its module, and its ordinal or its name there.
#[derive(Clone, Copy)]
struct Wanted<'a> {
    module: &'a Name,
    key: Key<'a>,
}

#[derive(Clone, Copy)]
enum Key<'a> {
    Ordinal(u32),
    Named(&'a [u8]),
}

/// A session that ran: its file's name, its text, and its modules.
#[derive(Clone, Copy)]
pub struct SessionNotices<'a> {
    name: &'a str,
    text: &'a str,
    library: &'a Library,
}

// The entry that a target of a module names, where it is none of its objects.
fn wanted_by(own: &Module, target: FixTarget) -> Option<Wanted<'_>> {
    let (import, key) = match target {
        FixTarget::Internal { .. } => return None,
        FixTarget::Own { ordinal } => return Some(Wanted {
            module: own.name(),
            key: Key::Ordinal(ordinal),
        }),
        FixTarget::Ordinal { import, ordinal } => (import, Key::Ordinal(ordinal)),
        FixTarget::Named { import, name_at } => (import, Key::Named(own.proc_name(name_at)?)),
    };
    let module = own.imports().get((import as usize).checked_sub(1)?)?;
    Some(Wanted { module, key })
}

// Whether a module has the entry, if only one that leads elsewhere.
fn has_entry(module: &Module, key: Key<'_>) -> bool {
    match key {
        Key::Ordinal(ordinal) => module.entry(ordinal).is_some(),
        Key::Named(name) => module.ordinal_of(name).is_some(),
    }
}

// Whether no import module before this place has the name.
fn is_first(imports: &[Name], place: usize, import: &Name) -> bool {
    for other in imports.iter().take(place) {
        if other.same_module(import) {
            return false;
        }
    }
    true
}

fn why(fault: EntryFault, is_there: bool) -> &'static str {
    match fault {
        EntryFault::NoEntry if is_there => "its forwarder leads to no entry",
        EntryFault::NoEntry => "there is no such entry",
        EntryFault::ForwardLoop => "its forwarders lead back to it",
        EntryFault::Gate286 => "it is a call gate of the 80286",
    }
}

impl<'a> SessionNotices<'a> {
    /// Of the session in this file, with this text, whose modules are this library.
    pub fn of(name: &'a str, text: &'a str, library: &'a Library) -> SessionNotices<'a> {
        SessionNotices {
            name,
            text,
            library,
        }
    }

    // The module of a name, case aside.
    fn find(&self, name: &[u8]) -> Option<&'a Module> {
        for m in 0..self.library.len() {
            let module = self.library.module(m);
            if module.name().bytes().eq_ignore_ascii_case(name) {
                return Some(module);
            }
        }
        None
    }

    // Warns of an import module that is none of the session's libraries.
    fn add_import(&self, lines: &mut Lines, own: &Module, import: &Name) {
        let session = self.name;
        let name = shown(lines.alloc, own.name().bytes());
        let module = shown(lines.alloc, import.bytes());
        match self.find(import.bytes()) {
            None => note!(lines; "{name} imports {module}, which no line of {session} gives"),
            Some(found) if !found.is_library() =>
                note!(lines; "{name} imports {module}, which is a program: only libraries are imported"),
            Some(_) => {}
        }
    }

    fn add_imports(&self, lines: &mut Lines, own: &Module) {
        let imports = own.imports();
        for (place, import) in imports.iter().enumerate() {
            if is_first(imports, place, import) {
                self.add_import(lines, own, import);
            }
        }
    }

    // Warns of an entry whose module is a library of the session, or the one that names it.
    fn add_entry(&self, lines: &mut Lines, own: &Module, wanted: Wanted<'_>, fault: EntryFault) {
        let Some(found) = self.find(wanted.module.bytes()) else {
            return;
        };
        if !found.is_library() && !wanted.module.same_module(own.name()) {
            return;
        }
        let name = shown(lines.alloc, own.name().bytes());
        let module = shown(lines.alloc, wanted.module.bytes());
        let why = why(fault, has_entry(found, wanted.key));
        match wanted.key {
            Key::Ordinal(ordinal) => note!(lines; "{name} imports @{ordinal} of {module}: {why}"),
            Key::Named(entry) => {
                let entry = shown(lines.alloc, entry);
                note!(lines; "{name} imports {entry} of {module}: {why}")
            }
        }
    }

    // Warns of entries that a module imports and that lead to no place, each once.
    fn add_entries(&self, lines: &mut Lines, m: u32) -> Result<(), AllocError>
        requires { m < length self.now.library.now }
    {
        let own = self.library.module(m);
        let mut told: Vec<FixTarget> = Vec::new(lines.alloc);
        for target in own.refs() {
            let Err(fault) = self.library.target(m, target) else {
                continue;
            };
            if told.len() == MOST || told.contains(target) {
                continue;
            }
            told.push(*target)?;
            if let Some(wanted) = wanted_by(own, *target) {
                self.add_entry(lines, own, wanted, fault);
            }
        }
        Ok(())
    }

    // Warns of modules that are to fail and that no line gives.
    fn add_failing(&self, lines: &mut Lines) {
        let session = self.name;
        for (before, line) in self.text.lines().enumerate() {
            let mut words = line.split_whitespace();
            if let (Some("failing"), Some(module)) = (words.next(), words.next()) {
                let number = before.saturating_add(1);
                if self.find(module.as_bytes()).is_none() {
                    note!(lines; "line {number} of {session} says nothing: no line gives the module {module}");
                }
            }
        }
    }

    /// Warns of modules and entries that others import, and of modules that are to fail, that no line gives.
    pub fn warn(&self, lines: &mut Lines) {
        for m in 0..self.library.len() {
            if !matches!(self.library.health(m), Health::Fit) {
                self.add_imports(lines, self.library.module(m));
                if self.add_entries(lines, m).is_err() {
                    lines.fail();
                }
            }
        }
        self.add_failing(lines);
    }
}
