//! Names as a reader is shown them: of segments and symbols, and of modules by their files.

use lx_types::push_escaped;
use std::alloc::Global;
use std::fmt::{self, Display, Formatter, Write};

/// A name, with `%` and two hexadecimal digits for each byte outside 21h to 7Eh.
#[derive(Clone, Copy)]
pub struct ShownName<'a> {
    alloc: Global,
    name: &'a [u8],
}

/// How a name is shown.
pub fn shown(alloc: Global, name: &[u8]) -> ShownName<'_> {
    ShownName { alloc, name }
}

impl Display for ShownName<'_> {
    fn fmt<W: Write>(&self, f: &mut Formatter<W>) -> fmt::Result {
        let mut bytes = Vec::new(self.alloc);
        push_escaped(&mut bytes, self.name)?;
        f.write_str(std::str::from_utf8(&bytes).unwrap_or(""))
    }
}

/// A module as a reader knows it: by its file, and in a library by its own name too.
#[derive(Clone, Copy)]
pub struct Known<'a> {
    pub file: &'a str,
    pub own: Option<ShownName<'a>>,
}

/// What is said of a module that has no place among those that a link was given.
pub const UNKNOWN: Known<'static> = Known {
    file: "a module that is not known",
    own: None,
};

impl Display for Known<'_> {
    fn fmt<W: Write>(&self, f: &mut Formatter<W>) -> fmt::Result {
        let file = self.file;
        match self.own {
            Some(own) => write!(f, "{file}({own})"),
            None => f.write_str(file),
        }
    }
}

/// A module by its number, from 1, as `module 3 is b.obj`. With 0 the definition file is meant.
#[derive(Clone, Copy)]
pub struct Numbered<'a> {
    pub number: u32,
    pub known: Known<'a>,
}

impl Display for Numbered<'_> {
    fn fmt<W: Write>(&self, f: &mut Formatter<W>) -> fmt::Result {
        let Numbered { number, known } = self;
        match number {
            0 => f.write_str("module 0 is the definition file"),
            _ => write!(f, "module {number} is {known}"),
        }
    }
}
