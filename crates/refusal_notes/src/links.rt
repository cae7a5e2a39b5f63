//! Notes on what a link refuses: which modules, files, segments and names are meant. They are found in what was read for the
//! link, once it was refused.

use crate::advice::foreign_word;
use crate::looks::is_library_of;
use crate::names::{Known, Numbered, UNKNOWN, shown};
use crate::{Lines, note};
use link_model::{
    ComdatRefusal, FixRefusal, LayRefusal, LinkRefusal, Pick, SymRefusal, modules_at,
};
use lx_types::{NoMemory, Seq};
use obj_types::{Imp, ObjModule};
use refusal_text::{LinkFile, LinkFiles};
use std::alloc::{AllocError, Global};
use std::fmt::{self, Display, Formatter, Write};
use sym_table::choose_by_names;

/// How many missing names are told, and how many modules that want one of them.
const MOST: usize = 16;

/// What a link was given, with its modules as they are numbered, from 1.
pub struct NumberedLink<'a> {
    pub alloc: Global,
    pub read: &'a LinkFiles,
    pub picks: Seq<Pick>,
    modules: Vec<&'a ObjModule>,
    /// The file of each object file's module, and of each library's.
    objects: Vec<&'a LinkFile>,
    libs: Vec<&'a LinkFile>,
}

// The file of each module of the object files, or of the libraries.
fn files_by_module<'a>(
    alloc: Global,
    files: &'a [LinkFile],
    is_library: bool,
) -> Result<Vec<&'a LinkFile>, AllocError> {
    let mut owners = Vec::new(alloc);
    for file in files {
        let modules = match file.library {
            Some(modules) if is_library => modules,
            None if !is_library => 1,
            _ => 0,
        };
        for _ in 0..modules {
            owners.push(file)?;
        }
    }
    Ok(owners)
}

// What is dropped is dropped by a call, wherever that is.
impl Drop for NumberedLink<'_> {
    fn drop(self) {
        let NumberedLink {
            alloc: _,
            read: _,
            picks,
            modules,
            objects,
            libs,
        } = self;
        drop(picks);
        drop(modules);
        drop(objects);
        drop(libs);
    }
}

impl<'a> NumberedLink<'a> {
    /// The modules that the link chose.
    pub fn of(alloc: Global, read: &'a LinkFiles) -> Result<NumberedLink<'a>, NoMemory> {
        let picks = choose_by_names(alloc, &read.input)?;
        let modules = modules_at(alloc, &read.input, picks.as_slice())?;
        Ok(NumberedLink {
            alloc,
            read,
            picks,
            modules,
            objects: files_by_module(alloc, &read.files, false)?,
            libs: files_by_module(alloc, &read.files, true)?,
        })
    }

    /// A module as a reader knows it.
    pub fn known(&self, pick: Pick) -> Known<'a> {
        let index = pick.index as usize;
        if pick.lib {
            self.in_library(index)
        } else {
            self.object(index)
        }
    }

    /// The module of an object file, by its place among these.
    pub fn object(&self, index: usize) -> Known<'a> {
        match self.objects.get(index) {
            Some(file) => Known {
                file: file.name.as_str(),
                own: None,
            },
            None => UNKNOWN,
        }
    }

    /// A module of a library, by its place among those of all libraries.
    pub fn in_library(&self, index: usize) -> Known<'a> {
        let modules = self.read.input.libs.as_slice();
        match (self.libs.get(index), modules.get(index)) {
            (Some(file), Some(module)) => Known {
                file: file.name.as_str(),
                own: Some(shown(self.alloc, module.name.bytes())),
            },
            _ => UNKNOWN,
        }
    }

    // The same of a module that was chosen, by its place.
    fn name(&self, place: usize) -> Known<'a> {
        match self.picks.as_slice().get(place) {
            Some(pick) => self.known(*pick),
            None => UNKNOWN,
        }
    }

    fn numbered(&self, number: u32) -> Numbered<'a> {
        let known = match of_number(self.picks.as_slice(), number) {
            Some(pick) => self.known(*pick),
            None => UNKNOWN,
        };
        Numbered { number, known }
    }

    // All names that are defined for other modules, in order: imports, publics and communals.
    fn defined(&self) -> Result<Vec<&'a [u8]>, AllocError> {
        let mut names = Vec::new(self.alloc);
        add_imports(&mut names, self.read.input.def.imports.as_slice())?;
        for module in &self.modules {
            add_defined(&mut names, module)?;
        }
        names.sort()?;
        Ok(names)
    }

    // The names that modules want of others and that nothing defines, in order.
    fn undefined(&self) -> Result<Vec<&'a [u8]>, AllocError> {
        let defined = self.defined()?;
        let mut missing: Vec<&'a [u8]> = Vec::new(self.alloc);
        for module in &self.modules {
            add_undefined(&mut missing, module, &defined)?;
        }
        missing.sort()?;
        missing.dedup();
        Ok(missing)
    }

    // Who wants the names that are missing.
    fn missing(&self, lines: &mut Lines, name: &[u8]) {
        match self.undefined() {
            Ok(missing) if missing.is_empty() => self.missing_else(lines, name),
            Ok(missing) => {
                let list = Missing {
                    link: self,
                    names: &missing,
                };
                note!(lines; "missing: {list}");
                self.unsearched(lines);
            }
            Err(AllocError) => lines.fail(),
        }
    }

    fn is_searched(&self, library: &[u8]) -> Result<bool, AllocError> {
        let library = shown(self.alloc, library).to_string(self.alloc)?;
        for file in &self.read.files {
            if is_library_of(file.name.as_str(), library.as_str()) {
                return Ok(true);
            }
        }
        Ok(false)
    }

    // The default libraries that chosen modules name and that no file of the link is, each once.
    fn unsearched(&self, lines: &mut Lines) {
        let mut told = Vec::new(self.alloc);
        for (place, module) in self.modules.iter().enumerate() {
            if self
                .add_unsearched(lines, &mut told, self.name(place), module)
                .is_err()
            {
                lines.fail();
            }
        }
    }

    // The same of one module, past those that were told.
    fn add_unsearched(
        &self,
        lines: &mut Lines,
        told: &mut Vec<&'a [u8]>,
        by: Known<'_>,
        module: &'a ObjModule,
    ) -> Result<(), AllocError> {
        for library in module.deflibs.as_slice() {
            let library = library.bytes();
            if !told.contains(&library) && !self.is_searched(library)? {
                told.push(library)?;
                let name = shown(self.alloc, library);
                note!(lines; "{by}: the default library {name} is not searched: it is none of the files of this link");
            }
        }
        Ok(())
    }

    // A name that is missing though each module has what it wants of others.
    fn missing_else(&self, lines: &mut Lines, name: &[u8]) {
        let own = shown(self.alloc, name);
        for (place, module) in self.modules.iter().enumerate() {
            if has_external(module, name, true) && !has_local_public(module, name) {
                let by = self.name(place);
                return note!(lines; "{own} is a local external of {by}, which has no local public of the name");
            }
        }
        note!(lines; "{own} is the internal name of an export: no chosen module defines it as more than a constant, and an export draws none from a library");
        match foreign_word(name) {
            Some(word) =>
                note!(lines; "other linkers have {word} as a word after an export: here it is the name of one, so remove it"),
            None => {}
        }
    }

    // The name of a segment, by the number of its module and its own.
    fn segment_name(&self, module: u32, segment: u32) -> Option<&'a [u8]> {
        let module = of_number(&self.modules, module)?;
        let own = of_number(module.segs.as_slice(), segment)?;
        Some(own.name.bytes())
    }

    // The module and the segment of a fixup, and its offset; or the module of a start.
    fn fixing(&self, lines: &mut Lines, refusal: FixRefusal) {
        let (number, segment, offset) = match refusal {
            FixRefusal::StartOutside { module } => return lines.note(self.numbered(module)),
            FixRefusal::FarSelf {
                module,
                seg,
                offset,
            }
            | FixRefusal::FrameApart {
                module,
                seg,
                offset,
            }
            | FixRefusal::ConstSelector {
                module,
                seg,
                offset,
            } => (module, seg, offset),
        };
        let of = self.numbered(number);
        let name = self.segment_name(number, segment).unwrap_or(b"?");
        let name = shown(self.alloc, name);
        note!(lines; "{of}, its segment {segment} is {name}; offset {offset} is {offset:X}h")
    }

    // The modules that have the segment, or the group.
    fn layout(&self, lines: &mut Lines, refusal: &LayRefusal) {
        let (what, name, is_group) = match refusal {
            LayRefusal::AbsoluteSeg { seg }
            | LayRefusal::UseMixed { seg }
            | LayRefusal::TooLarge { seg } => ("segment", seg.bytes(), false),
            LayRefusal::GroupSplit { group } => ("group", group.bytes(), true),
        };
        let own = shown(self.alloc, name);
        let places = Places {
            link: self,
            name,
            is_group,
        };
        note!(lines; "the {what} {own} stands in{places}")
    }

    /// What the object file imports, which cannot be shown.
    pub fn import(&self, lines: &mut Lines) {
        for module in &self.modules {
            if let Some(import) = module.imports.as_slice().first() {
                let name = shown(self.alloc, import.name.bytes());
                let module = shown(self.alloc, import.module.bytes());
                return note!(lines; "the first import is {name}, of the module {module} (IMPDEF)");
            }
        }
    }

    /// Notes on the refusal.
    pub fn notes(&self, lines: &mut Lines, refusal: &LinkRefusal) {
        match refusal {
            LinkRefusal::Sym(SymRefusal::Twice { first, second, .. })
            | LinkRefusal::Comdat(ComdatRefusal::Clash { first, second, .. }) => {
                let (first, second) = (self.numbered(*first), self.numbered(*second));
                note!(lines; "{first}, {second}")
            }
            LinkRefusal::Sym(SymRefusal::Missing { name }) => self.missing(lines, name.bytes()),
            LinkRefusal::Lay(refusal) => self.layout(lines, refusal),
            LinkRefusal::Fixing(refusal) => self.fixing(lines, *refusal),
            LinkRefusal::Sym(SymRefusal::ImportsMany { .. }) | LinkRefusal::Entry(_) => {}
        }
    }
}

// What has this number, from 1.
fn of_number<T>(all: &[T], number: u32) -> Option<&T> {
    all.get((number as usize).checked_sub(1)?)
}

// What stands before an item of a list.
fn separator(place: usize) -> &'static str {
    if place == 0 { "" } else { ", " }
}

/// A name that is missing, with the modules that want it, as `x (wanted by a.obj, b.lib(c))`.
#[derive(Clone, Copy)]
struct Wanted<'s, 'a> {
    link: &'s NumberedLink<'a>,
    name: &'s [u8],
}

impl Display for Wanted<'_, '_> {
    fn fmt<W: Write>(&self, f: &mut Formatter<W>) -> fmt::Result {
        let name = shown(self.link.alloc, self.name);
        write!(f, "{name} (wanted by ")?;
        let mut count = 0;
        for (place, module) in self.link.modules.iter().enumerate() {
            if count < MOST && has_external(module, self.name, false) {
                let (before, by) = (separator(count), self.link.name(place));
                write!(f, "{before}{by}")?;
                count += 1;
            }
        }
        f.write_str(")")
    }
}

/// Names that are missing.
#[derive(Clone, Copy)]
struct Missing<'l, 'n, 'a> {
    link: &'l NumberedLink<'a>,
    names: &'n [&'a [u8]],
}

impl Display for Missing<'_, '_, '_> {
    fn fmt<W: Write>(&self, f: &mut Formatter<W>) -> fmt::Result {
        let link = self.link;
        for (place, name) in self.names.iter().take(MOST).enumerate() {
            let (before, wanted) = (separator(place), Wanted { link, name });
            write!(f, "{before}{wanted}")?;
        }
        match self.names.len().saturating_sub(MOST) {
            0 => Ok(()),
            more => write!(f, " and {more} more"),
        }
    }
}

/// The modules that have a segment or a group of a name, each after a space.
#[derive(Clone, Copy)]
struct Places<'s, 'a> {
    link: &'s NumberedLink<'a>,
    name: &'s [u8],
    is_group: bool,
}

impl Display for Places<'_, '_> {
    fn fmt<W: Write>(&self, f: &mut Formatter<W>) -> fmt::Result {
        for (place, module) in self.link.modules.iter().enumerate() {
            let is_there = match self.is_group {
                true => has_group(module, self.name),
                false => has_segment(module, self.name),
            };
            if is_there {
                let by = self.link.name(place);
                write!(f, " {by}")?;
            }
        }
        Ok(())
    }
}

fn add_imports<'a>(names: &mut Vec<&'a [u8]>, imports: &'a [Imp]) -> Result<(), AllocError> {
    for import in imports {
        names.push(import.name.bytes())?;
    }
    Ok(())
}

// Adds the names that a module defines for others.
fn add_defined<'a>(names: &mut Vec<&'a [u8]>, module: &'a ObjModule) -> Result<(), AllocError> {
    for public in module.pubs.as_slice() {
        if !public.local {
            names.push(public.name.bytes())?;
        }
    }
    add_imports(names, module.imports.as_slice())?;
    for external in module.exts.as_slice() {
        if external.common.is_some() && !external.local {
            names.push(external.name.bytes())?;
        }
    }
    Ok(())
}

// Adds the names that a module wants of others and that are not among these, which are in order.
fn add_undefined<'a>(
    names: &mut Vec<&'a [u8]>,
    module: &'a ObjModule,
    defined: &[&'a [u8]],
) -> Result<(), AllocError> {
    for external in module.exts.as_slice() {
        let name = external.name.bytes();
        if !external.local && defined.binary_search(&name).is_err() {
            names.push(name)?;
        }
    }
    Ok(())
}

fn has_external(module: &ObjModule, name: &[u8], local: bool) -> bool {
    for own in module.exts.as_slice() {
        if own.local == local && own.name.bytes() == name {
            return true;
        }
    }
    false
}

fn has_local_public(module: &ObjModule, name: &[u8]) -> bool {
    for own in module.pubs.as_slice() {
        if own.local && own.name.bytes() == name {
            return true;
        }
    }
    false
}

fn has_segment(module: &ObjModule, name: &[u8]) -> bool {
    for own in module.segs.as_slice() {
        if own.name.bytes() == name {
            return true;
        }
    }
    false
}

fn has_group(module: &ObjModule, name: &[u8]) -> bool {
    for own in module.groups.as_slice() {
        if own.name.bytes() == name {
            return true;
        }
    }
    false
}
