//! A module as it was read from a file.

ghost use Rattle.std.specs.Prelude.{◌≡◌, ◌+◌, ◌-◌, ◌<◌, ◌≤◌, length, AllPairs, option_copied, slice_get};
ghost use Rattle.lx_types.specs.Object.{pages_of};
ghost use Rattle.lx_types.specs.Parts.{is_library_of, object_of, page_at, data_at, fix_span_at, fixes_at, proc_name_of, entry_of, ordinal_named};
ghost use Rattle.lx_types.specs.Sound.{IsNumberOf, Sound};

use crate::{
    EntryHead, FixTarget, MODULE_KIND, MODULE_LIBRARY, Name, ObjHead, PAGE_SIZE, PageHead, PageId,
    PageKind, Parts,
};
use std::marker::Model;

/// The entry with an ordinal, found by halves.
fn entry_with(entries: &[(u32, EntryHead)], ordinal: u32) -> Option<EntryHead>
    requires { AllPairs (λ a b. a.0 < b.0) entries.now }
    ensures { result ≡ entry_of entries.now ordinal }
{
    let mut low = 0;
    let mut high = entries.len();
    while low < high {
        let middle = low + (high - low) / 2;
        let (found, head) = entries[middle];
        if found == ordinal {
            return Some(head);
        }
        if found < ordinal {
            low = middle + 1;
        } else {
            high = middle;
        }
    }
    None
}

/// A module whose numbers name what is there, and whose places lie in its file.
///
/// A reader that takes an object's number or a page asks that it is in range: objects count from 1,
/// and the pages of an object from 0 up to `pages` of it.
pub struct Module {
    parts: Parts,
}

impl Model for Module {
    ghost use Rattle.lx_types.specs.declared.parts.Parts.{Parts};
    ghost use Rattle.lx_types.specs.Sound.{Sound};

    ghost Value = { Parts };

    ghost view = { λ m. m.parts };

    ghost invariant = { λ m. Sound m.parts };
}

// Dropped by a call, as lists are (`Seq`).
impl Drop for Module {
    fn drop(self) {
        let Module { parts } = self;
        drop(parts);
    }
}

impl Module {
    /// The module that a file has these parts for.
    pub fn of_parts(parts: Parts) -> Module
        requires { Sound parts }
        ensures { result ≡ parts }
    {
        Module { parts }
    }

    /// The module's name.
    pub fn name(&self) -> &Name
        ensures { result.now ≡ self.now.name }
    {
        &self.parts.name
    }

    /// Whether the module is a library, and no program.
    pub fn is_library(&self) -> bool
        ensures { result ≡ is_library_of self.now }
    {
        self.parts.flags & MODULE_KIND == MODULE_LIBRARY
    }

    /// The module flags of the header.
    pub fn flags(&self) -> u32
        ensures { result ≡ self.now.flags }
    {
        self.parts.flags
    }

    /// The object and the offset at which the module starts.
    pub fn start(&self) -> Option<(u32, u32)>
        ensures { result ≡ self.now.start }
    {
        self.parts.start
    }

    /// The object table.
    pub fn objects(&self) -> &[ObjHead]
        ensures list { result.now ≡ self.now.objects }
        // The module's numbers name what is there, and its places lie in its file.
        ensures sound { Sound self.now }
    {
        self.parts.objects.as_slice()
    }

    /// The object with a number, from 1; none where the table has none.
    pub fn object(&self, number: u32) -> Option<&ObjHead>
        ensures { option_copied result ≡ slice_get self.now.objects (number - 1) }
    {
        self.objects().get(number.saturating_sub(1) as usize)
    }

    /// How many pages an object has, by its size.
    pub fn pages(&self, object: u32) -> u32
        requires { IsNumberOf object (length self.now.objects) }
        ensures { result ≡ pages_of (object_of self.now object) }
    {
        let size = self.objects()[object as usize - 1].size as u64;
        (size.div_ceil(PAGE_SIZE as u64)) as u32
    }

    /// The entry of a page that its object counts, also of one past the object's size.
    pub fn counted_page(&self, p: PageId) -> PageHead
        requires object { IsNumberOf p.object (length self.now.objects) }
        requires page { p.page < (object_of self.now p.object).count }
        ensures head { result ≡ page_at self.now p }
        ensures within { result.at + result.len ≤ length self.now.file }
    {
        let object = self.objects()[p.object as usize - 1];
        self.parts.pages.as_slice()[(object.first - 1) as usize + p.page as usize]
    }

    /// A page's entry. A page past its object's page count is a page of zeros.
    pub fn page(&self, p: PageId) -> PageHead
        requires object { IsNumberOf p.object (length self.now.objects) }
        requires page { p.page < pages_of (object_of self.now p.object) }
        ensures head { result ≡ page_at self.now p }
        ensures within { result.at + result.len ≤ length self.now.file }
    {
        let object = self.objects()[p.object as usize - 1];
        if p.page < object.count {
            self.counted_page(p)
        } else {
            PageHead {
                kind: PageKind::Zero,
                at: 0,
                len: 0,
            }
        }
    }

    /// The data that the file has for a page; it is empty for a page that is neither plain nor
    /// iterated.
    pub fn page_bytes(&self, p: PageId) -> &[u8]
        requires object { IsNumberOf p.object (length self.now.objects) }
        requires page { p.page < pages_of (object_of self.now p.object) }
        ensures { result.now ≡ data_at self.now p }
    {
        let page = self.page(p);
        let from = page.at as usize;
        &self.file()[from..from + page.len as usize]
    }

    /// Where the fixup records of a page that its object counts begin and end in the file.
    pub fn counted_span(&self, p: PageId) -> (u32, u32)
        requires object { IsNumberOf p.object (length self.now.objects) }
        requires page { p.page < (object_of self.now p.object).count }
        ensures span { result ≡ fix_span_at self.now p }
        ensures within { (result.0 ≤ result.1) × (result.1 ≤ length self.now.file) }
    {
        let object = self.objects()[p.object as usize - 1];
        self.parts.fix_spans.as_slice()[(object.first - 1) as usize + p.page as usize]
    }

    /// Where a page's fixup records begin and end in the file. A page past its object's page count has
    /// none, from 0 up to 0.
    pub fn fix_span(&self, p: PageId) -> (u32, u32)
        requires object { IsNumberOf p.object (length self.now.objects) }
        requires page { p.page < pages_of (object_of self.now p.object) }
        ensures span { result ≡ fix_span_at self.now p }
        ensures within { (result.0 ≤ result.1) × (result.1 ≤ length self.now.file) }
    {
        let object = self.objects()[p.object as usize - 1];
        if p.page < object.count {
            self.counted_span(p)
        } else {
            (0, 0)
        }
    }

    /// The fixup records of a page. A page past its object's page count has none.
    pub fn fix_bytes(&self, p: PageId) -> &[u8]
        requires object { IsNumberOf p.object (length self.now.objects) }
        requires page { p.page < pages_of (object_of self.now p.object) }
        ensures { result.now ≡ fixes_at self.now p }
    {
        let (from, to) = self.fix_span(p);
        &self.file()[from as usize..to as usize]
    }

    /// The names of the modules that this one imports from, in the order of their numbers.
    pub fn imports(&self) -> &[Name]
        ensures { result.now ≡ self.now.imports }
    {
        self.parts.imports.as_slice()
    }

    /// The name at an offset of the import procedure table. There is none where it passes the file's
    /// end.
    pub fn proc_name(&self, at: u32) -> Option<&[u8]>
        ensures { option_copied result ≡ proc_name_of self.now at }
    {
        let start = self.parts.procs_at.checked_add(at as u64)?;
        let file = self.file();
        if start >= file.len() as u64 {
            return None;
        }
        let text = &file[start as usize + 1..];
        text.get(..file[start as usize] as usize)
    }

    /// What an ordinal stands for.
    pub fn entry(&self, ordinal: u32) -> Option<EntryHead>
        ensures { result ≡ entry_of self.now.entries ordinal }
    {
        let entries = self.parts.entries.as_slice();
        entry_with(entries, ordinal)
    }

    /// The ordinals that have an entry, rising, and what each stands for.
    pub fn entries(&self) -> &[(u32, EntryHead)]
        ensures { result.now ≡ self.now.entries }
    {
        self.parts.entries.as_slice()
    }

    /// The names of the resident name table and then of the other, after the first of each, with their
    /// ordinals.
    pub fn names(&self) -> &[(Name, u32)]
        ensures { result.now ≡ self.now.names }
    {
        self.parts.names.as_slice()
    }

    /// The ordinal of the first name with these bytes, in the resident name table and then in the
    /// other. It looks at one name after the other.
    pub fn ordinal_of(&self, name: &[u8]) -> Option<u32>
        ensures { result ≡ ordinal_named self.now.names name.now }
    {
        let names = self.parts.names.as_slice();
        names.iter().find(|n| n.0.bytes() == name).map(|n| n.1)
    }

    /// Each different import or entry-table target of the module's fixup records, once.
    pub fn refs(&self) -> &[FixTarget]
        ensures { result.now ≡ self.now.refs }
    {
        self.parts.refs.as_slice()
    }

    /// The file that the module was read from.
    pub fn file(&self) -> &[u8]
        ensures { result.now ≡ self.now.file }
    {
        self.parts.file.as_slice()
    }

    /// The file again, without what was read from it.
    pub fn into_file(self) -> Vec<u8>
        ensures { result.items ≡ self.file }
    {
        let Module { parts } = self;
        parts.file.into_vec()
    }
}
