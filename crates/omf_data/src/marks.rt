//! How many bytes of data there are so far, which bytes the locations of the fixes so far have, and which COMDATs have begun.

ghost use Rattle.std.specs.Prelude.{◌≡◌, ◌+◌, ◌≤◌, ◌&&◌, ◌==◌, List, IfOk, OnErr, OnOk, bytes_eq, length, nat_lt};
ghost use Rattle.std.specs.List.{list_any, position_or_len, sum_by};
ghost use Rattle.obj_types.specs.declared.limits.TheConstants.{MAX_DATA};
ghost use Rattle.obj_types.specs.declared.object.FixAt.{FixAt};
ghost use Rattle.obj_types.specs.declared.object.Piece.{Piece};
ghost use Rattle.obj_types.specs.declared.parts.ObjParts.{ObjParts};
ghost use Rattle.omf_model.specs.Fixups.{touches};
ghost use Rattle.omf_model.specs.Items.{begun_names, data_so_far};
ghost use Rattle.omf_data.specs.Marks.{AreMarks, HaveAll, HaveFixes, HavePieces, KeepsCounts, KeepsLocations, SeesLocation, is_inside};

use crate::begun::BegunPlaces;
use crate::ends::FixEnds;
use byte_marks::ByteMarks;
use lx_types::NoMemory;
use obj_types::{FixAt, ObjParts, Piece, location_len};
use std::alloc::Global;

/// The marks of an unfinished module's pieces ("A0h LEDATA", "A2h LIDATA"), fixes ("9Ch FIXUPP") and COMDATs ("C2h COMDAT"),
/// or of the first of them: what came since is seen before marks are asked. Of each segment they know where its furthest
/// location ends, so that data past it is on none. Only where data lies below that, the fixes that came since are marked, in a
/// bit for each byte of the pages of 4,096 bytes that have one of a location.
pub struct Marks {
    pieces: usize,
    bytes: u32,
    ends: FixEnds,
    // How many fixes are marked.
    fixes: usize,
    // The bytes of the locations, by segment and offset.
    located: ByteMarks,
    // The segment and the offset of each location of a kind that there is not, which has no byte.
    bare: Vec<(u32, u32)>,
    begun: BegunPlaces,
}

// Dropped by a call, as lists are (`Seq`).
impl Drop for Marks {
    fn drop(self) {
        let Marks {
            pieces: _,
            bytes: _,
            ends,
            fixes: _,
            located,
            bare,
            begun,
        } = self;
        drop(ends);
        drop(located);
        drop(bare);
        drop(begun);
    }
}

/// Whether one of these places without a byte has bytes of the segment on both sides, of `len` from `start` on.
fn is_around(bare: &[(u32, u32)], seg: u32, start: u32, len: u32) -> bool
    ensures { result ≡ list_any (λ place. place.0 == seg && nat_lt start place.1 && nat_lt place.1 (start + len)) bare.now }
{
    let past = u64::from(start) + u64::from(len);
    bare.iter().any(|place| place.0 == seg && start < place.1 && (place.1 as u64) < past)
}

impl Marks {
    /// The marks that have seen nothing. They take no memory.
    pub fn new(alloc: Global) -> Marks
        ensures { (p : ObjParts) → AreMarks result p }
    {
        Marks {
            pieces: 0,
            bytes: 0,
            ends: FixEnds::new(alloc),
            fixes: 0,
            located: ByteMarks::new(alloc),
            bare: Vec::new(alloc),
            begun: BegunPlaces::new(alloc),
        }
    }

    /// Sees the pieces that came since.
    fn see_pieces(&mut self, pieces: &[Piece])
        requires seen { HavePieces self.old pieces.now }
        requires limit { sum_by (λ (piece : Piece). length piece.bytes) pieces.now ≤ MAX_DATA }
        ensures { self.new ≡ record self.old { pieces = length pieces.now; bytes = sum_by (λ (piece : Piece). length piece.bytes) pieces.now } }
    {
        'pieces: while self.pieces < pieces.len() {
            self.bytes += pieces[self.pieces].bytes.as_slice().len() as u32;
            self.pieces += 1;
        }
    }

    /// Sees the location of a fix. After want of memory it has not.
    fn see_location(&mut self, fix: &FixAt) -> Result<(), NoMemory>
        ensures ok { OnOk result (SeesLocation self.old self.new fix.now) }
        ensures err { OnErr result (KeepsLocations self.old self.new) }
        ensures counts { KeepsCounts self.old self.new }
    {
        let len = location_len(fix.loc);
        if len == 0 {
            self.bare.push((fix.seg, fix.offset))?;
            return Ok(());
        }
        self.located.mark(fix.seg, fix.offset, u32::from(len))
    }

    /// Marks the fixes that came since.
    fn see_fixes(&mut self, fixes: &[FixAt]) -> Result<(), NoMemory>
        requires seen { HaveFixes self.old fixes.now }
        ensures seen { HaveFixes self.new fixes.now }
        ensures all { OnOk result (self.new.fixes ≡ length fixes.now) }
        ensures pieces { self.new.pieces ≡ self.old.pieces }
        ensures bytes { self.new.bytes ≡ self.old.bytes }
        ensures ends { self.new.ends ≡ self.old.ends }
        ensures begun { self.new.begun ≡ self.old.begun }
    {
        'fixes: while self.fixes < fixes.len() {
            self.see_location(&fixes[self.fixes])?;
            self.fixes += 1;
        }
        Ok(())
    }

    /// Sees the pieces and the fixes that came since.
    pub fn see(&mut self, parts: &ObjParts) -> Result<(), NoMemory>
        requires seen { AreMarks self.old parts.now }
        requires limit { data_so_far parts.now ≤ MAX_DATA }
        ensures seen { AreMarks self.new parts.now }
        ensures all { OnOk result (HaveAll self.new parts.now) }
    {
        self.see_pieces(parts.module.pieces.as_slice());
        self.ends.see(parts.module.fixes.as_slice())
    }

    /// The place of the COMDAT of a name, from 0: where it has begun, else after all. The COMDATs that began since are seen.
    pub fn place_of(
        &mut self,
        alloc: Global,
        parts: &ObjParts,
        name: &[u8],
    ) -> Result<usize, NoMemory>
        requires { HaveAll self.old parts.now }
        ensures place { IfOk result (λ place. place ≡ position_or_len (bytes_eq name.now) (begun_names parts.now.comdats)) }
        ensures all { OnOk result (HaveAll self.new parts.now) }
    {
        self.begun.see(alloc, parts.comdats.as_slice())?;
        Ok(self.begun.place_of(name))
    }

    /// The bytes of the pieces.
    pub fn bytes(&self) -> u32
        ensures { (p : ObjParts) → HaveAll self.now p → result ≡ data_so_far p }
    {
        self.bytes
    }

    /// Whether `len` bytes of a segment from `start` on share one with the location of a fix that is marked.
    fn is_on_marked(&self, seg: u32, start: u32, len: u32) -> bool
        ensures { (fixes : List FixAt) → HaveFixes self.now fixes → self.now.fixes ≡ length fixes → result ≡ list_any (touches seg start len) fixes }
    {
        self.located.has_any(seg, start, len) || is_around(self.bare.as_slice(), seg, start, len)
    }

    /// Whether `len` bytes of a segment from `start` on share one with the location of a fix. Past all locations of the
    /// segment they share none; else the fixes that came since are marked.
    pub fn is_on_fix(
        &mut self,
        parts: &ObjParts,
        seg: u32,
        start: u32,
        len: u32,
    ) -> Result<bool, NoMemory>
        requires { HaveAll self.old parts.now }
        ensures on { IfOk result (λ on. on ≡ list_any (touches seg start len) parts.now.module.fixes) }
        ensures all { HaveAll self.new parts.now }
    {
        if self.ends.end(seg) <= u64::from(start) {
            return Ok(false);
        }
        self.see_fixes(parts.module.fixes.as_slice())?;
        Ok(self.is_on_marked(seg, start, len))
    }
}
