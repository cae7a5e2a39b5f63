//! Which parts make one logical segment.

ghost use Rattle.std.specs.Prelude.{◌≡◌, ◌++◌, ◌∷◌, [], List, map, position, IfOk, OnOk};
ghost use Rattle.link_model.specs.declared.keys.SegmentKey.TheVariants as keys;
ghost use Rattle.link_model.specs.Parts as rules;
ghost use Rattle.seg_parts.specs.declared.parts.Part.{Part};
ghost use Rattle.seg_parts.specs.Parts.{shown};
ghost use Rattle.seg_parts.specs.LogicalSegments.{AreSegmentsOf, name_shown, heads_of, numbers_of, segment_keys_of};

use crate::parts::Part;
use indexmap::IndexSet;
use link_model::Origin;
use lx_types::NoMemory;
use obj_types::{COMBINE_COMMON, COMBINE_PRIVATE};
use std::alloc::Global;
use std::marker::Model;

/// What tells logical segments apart ("98h SEGDEF", combine types).
#[derive(Clone, Copy, PartialEq, Eq, Hash)]
pub enum SegmentName<'a> {
    /// A private part stands alone.
    InModule { module: u32, index: u32 },
    OfCommunal { slot: u32 },
    OwnStack,
    /// Public and stack parts of one name and class.
    Public { name: &'a [u8], class: &'a [u8] },
    /// Common parts of one name and class.
    Common { name: &'a [u8], class: &'a [u8] },
}

fn own_name<'a>(origin: Origin) -> SegmentName<'a>
    ensures { name_shown result ≡ keys.Private origin }
{
    match origin {
        Origin::Segment { module, index } => SegmentName::InModule { module, index },
        Origin::Communal { slot } => SegmentName::OfCommunal { slot },
        Origin::OwnStack => SegmentName::OwnStack,
    }
}

/// The logical segment of a part.
pub(crate) fn name_of<'a>(part: &Part<'a>) -> SegmentName<'a>
    ensures { name_shown result ≡ rules.segment_key (shown part.now) }
{
    match part.combine {
        COMBINE_PRIVATE => own_name(part.origin),
        COMBINE_COMMON => SegmentName::Common {
            name: part.name.bytes(),
            class: part.class.bytes(),
        },
        _ => SegmentName::Public {
            name: part.name.bytes(),
            class: part.class.bytes(),
        },
    }
}

/// The logical segments of some parts, numbered from 0 in the order in which their first parts come.
struct Numbering<'a> {
    names: IndexSet<SegmentName<'a>>,
    heads: Vec<Part<'a>>,
    numbers: Vec<usize>,
}

// Dropped by a call, as lists are (`Seq`).
impl Drop for Numbering<'_> {
    fn drop(self) {
        let Numbering {
            names,
            heads,
            numbers,
        } = self;
        drop(names);
        drop(heads);
        drop(numbers);
    }
}

impl<'a> Numbering<'a> {
    // Of no part.
    fn new(alloc: Global) -> Numbering<'a>
        ensures { AreSegmentsOf result.names.keys [] result.heads.items result.numbers.items }
    {
        Numbering {
            names: IndexSet::new(alloc),
            heads: Vec::new(alloc),
            numbers: Vec::new(alloc),
        }
    }

    // One part more.
    fn add(&mut self, part: &Part<'a>) -> Result<(), NoMemory>
        ensures { OnOk result ((ps : List Part)
            → AreSegmentsOf self.old.names.keys ps self.old.heads.items self.old.numbers.items
            → AreSegmentsOf self.new.names.keys (ps ++ part.now ∷ []) self.new.heads.items self.new.numbers.items) }
    {
        let (number, is_new) = self.names.insert_full(name_of(part))?;
        self.numbers.push(number)?;
        if is_new {
            self.heads.push(*part)?;
        }
        Ok(())
    }
}

/// Parts with their logical segments, which are numbered from 0 in the order in which their first parts come.
pub struct LogicalSegments<'a> {
    parts: Vec<Part<'a>>,
    numbering: Numbering<'a>,
}

// Dropped by a call, as lists are (`Seq`).
impl Drop for LogicalSegments<'_> {
    fn drop(self) {
        let LogicalSegments { parts, numbering } = self;
        drop(parts);
        drop(numbering);
    }
}

impl<'a> Model for LogicalSegments<'a> {
    ghost use Rattle.std.specs.Prelude.{List, ◌≡◌, map};
    ghost use Rattle.link_model.specs.Parts as rules;
    ghost use Rattle.seg_parts.specs.Parts.{shown};
    ghost use Rattle.seg_parts.specs.LogicalSegments.{AreSegmentsOf};

    ghost Value = { List rules.Part };

    ghost view = { λ s. map shown s.parts.items };

    ghost invariant = { λ s. AreSegmentsOf s.numbering.names.keys s.parts.items s.numbering.heads.items s.numbering.numbers.items };
}

impl<'a> LogicalSegments<'a> {
    /// The parts, in order.
    pub fn parts(&self) -> &[Part<'a>]
        ensures { map shown result.now ≡ self.now }
    {
        self.parts.as_slice()
    }

    /// The parts alone.
    pub fn into_parts(self) -> Vec<Part<'a>>
        ensures { map shown result.items ≡ self.entry }
    {
        let LogicalSegments {
            parts,
            numbering: _,
        } = self;
        parts
    }

    /// The first part of each logical segment.
    pub fn heads(&self) -> &[Part<'a>]
        ensures { map shown result.now ≡ heads_of self.now }
    {
        self.numbering.heads.as_slice()
    }

    /// The number of the logical segment of a name.
    pub fn number_of(&self, name: SegmentName<'_>) -> Option<usize>
        ensures { result ≡ position (rules.same_segment (name_shown name.entry)) (segment_keys_of self.now) }
    {
        self.numbering.names.get_index_of(&name)
    }

    /// The number of each part's logical segment.
    pub fn numbers(&self) -> &[usize]
        ensures { result.now ≡ numbers_of self.now }
    {
        self.numbering.numbers.as_slice()
    }
}

/// The logical segments of these parts.
pub fn segments_of<'a>(alloc: Global, parts: Vec<Part<'a>>) -> Result<LogicalSegments<'a>, NoMemory>
    ensures { IfOk result (λ s. s ≡ map shown parts.entry.items) }
{
    let mut numbering = Numbering::new(alloc);
    for part in parts.as_slice() {
        numbering.add(part)?;
    }
    Ok(LogicalSegments { parts, numbering })
}
