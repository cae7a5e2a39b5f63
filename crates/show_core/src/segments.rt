//! The segments, the groups and the COMDATs of an object module ("98h SEGDEF", "9Ah GRPDEF", "C2h COMDAT").

use crate::counts::{word_at, word_if};
use crate::line;
use crate::outline::{Line, Told};
use line_words::Word;
use lx_types::NoMemory;
use obj_types::{Comdat, Group, ObjModule, Seg};
use std::alloc::Global;

/// By `ALIGN_ABSOLUTE` and so on.
const ALIGNS: [&str; 6] = [
    "absolute",
    "byte",
    "word",
    "paragraph",
    "page",
    "doubleword",
];

/// By `COMBINE_PRIVATE` and so on.
const COMBINES: [&str; 8] = [
    "private", "unknown", "public", "unknown", "public", "stack", "common", "public",
];

/// By the selections.
const SELECTIONS: [&str; 4] = ["only one", "any", "same size", "exact match"];

/// The name of a segment, by its index.
pub fn segment_name(m: &ObjModule, seg: u32) -> &[u8] {
    match m.segs.as_slice().get((seg as usize).saturating_sub(1)) {
        Some(seg) => seg.name.bytes(),
        None => &[],
    }
}

impl Told<ObjModule> for Seg {
    fn line<'x>(&'x self, alloc: Global, number: u64, _m: &'x ObjModule) -> Line {
        let align = word_at(&ALIGNS, usize::from(self.align));
        let combine = word_at(&COMBINES, usize::from(self.combine));
        let width: &[u8] = if self.wide { b"32-bit" } else { b"16-bit" };
        line!(alloc; Count number, Text self.name.bytes(), Text b"class", Text self.class.bytes(), Text b"align", Text align,
            Text b"combine", Text combine, Text width, Text b"size", Number self.len, Text word_if(self.debug, "debug"))
    }
}

// The names of the segments of a group.
fn member_names(alloc: Global, m: &ObjModule, members: &[u32]) -> Result<Vec<u8>, NoMemory> {
    let mut names = Vec::new(alloc);
    for seg in members {
        if !names.is_empty() {
            names.push(b' ')?;
        }
        names.extend_from_slice(segment_name(m, *seg))?;
    }
    Ok(names)
}

impl Told<ObjModule> for Group {
    fn line<'x>(&'x self, alloc: Global, number: u64, m: &'x ObjModule) -> Line {
        let names = member_names(alloc, m, self.members.as_slice())?;
        line!(alloc; Count number, Text self.name.bytes(), Text b"segments", Text &names)
    }
}

impl Told<ObjModule> for Comdat {
    fn line<'x>(&'x self, alloc: Global, number: u64, m: &'x ObjModule) -> Line {
        line!(alloc; Count number, Text self.name.bytes(), Text b"segment", Number self.seg, Text segment_name(m, self.seg),
            Text b"selection", Text word_at(&SELECTIONS, self.selection as usize))
    }
}
