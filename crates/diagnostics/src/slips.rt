//! What is noticed of the files of a call, for warnings once it has succeeded.

use crate::definitions::{DefinitionSlips, definition_slips};
use crate::modules::{SavedModule, saved_module};
use crate::objects::{ObjectSlips, has_stack, object_slips};
use omf_frame::record_type::{LHEADR, LIBRARY_END, LIBRARY_HEADER, THEADR};
use refusal_notes::{Lines, is_library_of, note, page_size};
use std::alloc::{AllocError, Global};

/// What a transcript begins with, and no definition file.
const TRANSCRIPT: &[u8] = b"history\n";

/// Of how long a session the text is kept, in bytes.
const KEPT: usize = 1_048_576;

/// What a command warns of. Files of other kinds are not looked at, so a long session is not read twice.
#[derive(Clone, Copy)]
enum Subject {
    ObjectsAndDefinitions,
    Definitions,
    Neither,
}

impl Subject {
    fn of(command: &str) -> Subject {
        match command {
            "link" => Subject::ObjectsAndDefinitions,
            "implib" | "map" => Subject::Definitions,
            _ => Subject::Neither,
        }
    }
}

/// What was noticed of the files of a call.
#[derive(Drop)]
pub struct Slips {
    alloc: Global,
    subject: Subject,
    /// The names of the files that were loaded, each after a zero.
    loaded: String,
    /// Whether one of them is an object file.
    has_object: bool,
    /// Whether an object file, a library or a definition file has a stack.
    has_stack: bool,
    objects: Vec<ObjectSlips>,
    definitions: Vec<DefinitionSlips>,
    /// The text that was loaded first, which is that of a session where one is run.
    session: String,
    saved: Option<SavedModule>,
    /// Whether an import library without a module was saved.
    is_empty_library: bool,
}

fn word(words: &[String], place: usize) -> &str {
    match words.get(place) {
        Some(word) => word.as_str(),
        None => "",
    }
}

// Whether bytes are those of a library that ends after its header.
fn is_empty_library(bytes: &[u8]) -> bool {
    bytes.first() == Some(&LIBRARY_HEADER) && bytes.get(page_size(bytes)) == Some(&LIBRARY_END)
}

impl Slips {
    pub fn new(alloc: Global, words: &[String]) -> Slips {
        Slips {
            alloc,
            subject: Subject::of(word(words, 0)),
            loaded: String::new(alloc),
            has_object: false,
            has_stack: false,
            objects: Vec::new(alloc),
            definitions: Vec::new(alloc),
            session: String::new(alloc),
            saved: None,
            is_empty_library: false,
        }
    }

    /// Notices what a file that was loaded has.
    pub fn read(&mut self, name: &str, bytes: &[u8]) -> Result<(), AllocError> {
        let is_first = self.loaded.is_empty();
        self.loaded.push('\0')?;
        self.loaded.push_str(name)?;
        match bytes {
            [THEADR | LHEADR, ..] => self.read_object(name, bytes),
            [LIBRARY_HEADER, ..] => {
                self.look_for_stack(bytes);
                Ok(())
            }
            [b'L', b'X', ..] | [b'M', b'Z', ..] => Ok(()),
            _ if !is_first && bytes.starts_with(TRANSCRIPT) => Ok(()),
            _ => self.read_text(name, bytes, is_first),
        }
    }

    // Looks for a stack segment in an object file or a library.
    fn look_for_stack(&mut self, bytes: &[u8]) {
        if matches!(self.subject, Subject::ObjectsAndDefinitions) {
            self.has_stack = self.has_stack || has_stack(bytes);
        }
    }

    fn read_object(&mut self, name: &str, bytes: &[u8]) -> Result<(), AllocError> {
        if !matches!(self.subject, Subject::ObjectsAndDefinitions) {
            return Ok(());
        }
        self.has_object = true;
        self.look_for_stack(bytes);
        if let Some(slips) = object_slips(self.alloc, name, bytes)? {
            self.objects.push(slips)?;
        }
        Ok(())
    }

    // A definition file or a session.
    fn read_text(&mut self, name: &str, bytes: &[u8], is_first: bool) -> Result<(), AllocError> {
        if is_first && bytes.len() <= KEPT {
            self.session
                .push_str(std::str::from_utf8(bytes).unwrap_or(""))?;
        }
        if matches!(self.subject, Subject::Neither) {
            return Ok(());
        }
        let slips = definition_slips(self.alloc, name, bytes)?;
        self.has_stack |= slips.has_stack;
        self.definitions.push(slips)?;
        Ok(())
    }

    /// Notices what is saved.
    pub fn save(&mut self, bytes: &[u8]) {
        self.saved = saved_module(bytes);
        self.is_empty_library = is_empty_library(bytes);
    }

    /// Whether a file of this name was loaded.
    pub fn has_read(&self, name: &str) -> bool {
        for loaded in self.loaded.split('\0').skip(1) {
            if loaded == name {
                return true;
            }
        }
        false
    }

    /// The text that was loaded first.
    pub fn session(&self) -> &str {
        self.session.as_str()
    }

    /// Warns of what looks like a slip of a call that succeeded.
    pub fn warn(&self, lines: &mut Lines, words: &[String]) {
        let (command, out) = (word(words, 0), word(words, 1));
        match command {
            "link" => self.warn_of_link(lines, words),
            "implib" => self.warn_of_library(lines, out),
            _ => {}
        }
        if matches!(command, "link" | "implib" | "map") {
            self.warn_of_definitions(lines);
        }
        match command {
            "link" | "implib" | "bind" => warn_of_out(lines, out),
            _ => {}
        }
    }

    fn warn_of_link(&self, lines: &mut Lines, words: &[String]) {
        self.warn_of_module(lines, word(words, 1));
        self.warn_of_starts(lines);
        if !self.has_object {
            note!(lines; "no object file stands in this link: of libraries only what an object file wants is taken");
        }
        for object in &self.objects {
            warn_of_weak(lines, object);
            self.add_unsearched(lines, words, object);
        }
    }

    fn warn_of_module(&self, lines: &mut Lines, out: &str) {
        let Some(saved) = self.saved else {
            return;
        };
        if saved.is_program && !saved.has_start {
            note!(lines; "{out}: the program has no start address: no object file's MODEND has one (nasm: ..start)");
        }
        if saved.is_program && !self.has_stack {
            note!(lines; "{out}: the program's stack is empty: say STACKSIZE 8192, or more, in its definition file");
        }
        if saved.exports_nothing {
            note!(lines; "{out}: the library exports nothing: EXPORTS in its definition file names what others may call");
        }
    }

    fn warn_of_library(&self, lines: &mut Lines, out: &str) {
        if self.is_empty_library {
            note!(lines; "{out}: the import library is empty: no definition file and no module of it exports anything");
        }
    }

    fn warn_of_definitions(&self, lines: &mut Lines) {
        for slips in &self.definitions {
            slips.warn(lines);
        }
    }

    fn warn_of_starts(&self, lines: &mut Lines) {
        let mut first: Option<&str> = None;
        for object in &self.objects {
            match first {
                Some(taken) if object.has_start => {
                    let name = object.name.as_str();
                    note!(lines; "{name}: its start address is passed over: that of {taken} is taken");
                }
                None if object.has_start => first = Some(object.name.as_str()),
                _ => {}
            }
        }
    }

    // Tells the default libraries of an object file that are not searched.
    fn add_unsearched(&self, lines: &mut Lines, words: &[String], object: &ObjectSlips) {
        let name = object.name.as_str();
        for library in &object.libraries {
            if !is_searched(words, library.as_str()) {
                note!(lines; "{name}: the default library {library} is not searched: it is none of the files of this link");
            }
        }
    }
}

fn warn_of_weak(lines: &mut Lines, object: &ObjectSlips) {
    let name = object.name.as_str();
    if object.has_weak {
        note!(lines; "{name}: that externals are weak is passed over (comments A8h, A9h): they have to be defined");
    }
}

// Warns of a name that looks like an option.
fn warn_of_out(lines: &mut Lines, out: &str) {
    if out.starts_with('-') {
        note!(lines; "{out} is the name of the file that was saved: OUT comes first, and there are no options");
    }
}

// Whether a default library is one of the files of the words.
fn is_searched(words: &[String], library: &str) -> bool {
    for word in words.iter().skip(3) {
        if is_library_of(word.as_str(), library) {
            return true;
        }
    }
    false
}
