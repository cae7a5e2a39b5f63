//! The frames of a module, by object and page.

ghost use Rattle.std.specs.Prelude.{◌≡◌, ◌<◌, ◌-◌, [], IfOk, length, slice_index_or};
ghost use Rattle.lx_types.specs.Object.{class_of};
ghost use Rattle.lx_types.specs.Parts.{object_of};
ghost use Rattle.lx_types.specs.Sound.{IsNumberOf};
ghost use Rattle.lx_model.specs.Library.{module_of};
ghost use Rattle.page_frames.specs.Frames.{frame_count, frame_row, frame_rows};

use crate::frame::Frame;
use lx_types::{Bases, Class, NoMemory, PageId, count};
use mod_graph::Library;
use smallvec::SmallVec;
use std::alloc::Global;
use std::default::MadeWith;
use std::marker::Model;

/// How many objects have their rows in the frames of a residence themselves. Few modules have more, whose rows take memory of their
/// own.
pub const ROWS_IN_PLACE: usize = 2;

/// The frames of an object, by page.
pub struct FrameRow {
    frames: Vec<Frame>,
}

// Dropped by a call, as lists are (`Seq`).
impl Drop for FrameRow {
    fn drop(self) {
        let FrameRow { frames } = self;
        drop(frames);
    }
}

impl Model for FrameRow {
    ghost use Rattle.std.specs.Prelude.{List};
    ghost use Rattle.page_frames.specs.Frames.{FramePage};

    ghost Value = { List FramePage };

    ghost view = { λ r. r.frames.items };
}

// No frame, of an object that has none.
impl MadeWith<Global> for FrameRow {
    ghost is_made_with = { λ r. r ≡ [] };

    fn made_with(alloc: Global) -> FrameRow {
        FrameRow {
            frames: Vec::new(alloc),
        }
    }
}

/// A module of a library, at the bases of a load.
#[derive(Clone, Copy)]
pub struct PlacedModule<'a> {
    pub library: &'a Library,
    pub module: u32,
    pub bases: &'a Bases,
    ghost there: { «module» < length library.now },
}

impl<'a> PlacedModule<'a> {
    // How many frames an object has.
    fn frame_count(&self, object: u32) -> u32
        requires { IsNumberOf object (length (module_of self.now.library.now self.now.«module»).objects) }
        ensures { result ≡ frame_count (module_of self.now.library.now self.now.«module») object }
    {
        let owner = self.library.module(self.module);
        let head = owner.objects()[object as usize - 1];
        match head.class() {
            Class::Code | Class::Shared => owner.pages(object),
            Class::Private => 0,
        }
    }

    // An empty frame for each page of an object.
    fn row(&self, alloc: Global, object: u32) -> Result<FrameRow, NoMemory>
        requires { IsNumberOf object (length (module_of self.now.library.now self.now.«module»).objects) }
        ensures { IfOk result (λ row. row ≡ frame_row self.now.library.now self.now.«module» self.now.bases.now object) }
    {
        let count = self.frame_count(object);
        let mut frames = Vec::with_capacity(alloc, count as usize)?;
        for page in 0..count {
            frames.push(Frame::new(
                self.library,
                self.module,
                self.bases,
                PageId { object, page },
            ))?;
        }
        Ok(FrameRow { frames })
    }

    /// An empty frame for each page of a Code or Shared object.
    pub fn rows(&self, alloc: Global) -> Result<SmallVec<FrameRow, ROWS_IN_PLACE>, NoMemory>
        ensures { IfOk result (λ rows. rows.items ≡ frame_rows self.now.library.now self.now.«module» self.now.bases.now) }
    {
        let owner = self.library.module(self.module);
        let objects = owner.objects().len();
        let mut rows = SmallVec::with_capacity(alloc, objects)?;
        for before in 0..count(objects)? {
            rows.push(self.row(alloc, before + 1)?)?;
        }
        Ok(rows)
    }
}

/// The frame of a page, in rows by object.
pub fn frame_at(rows: &[FrameRow], p: PageId) -> &Frame
    requires object { IsNumberOf p.object (length rows.now) }
    requires page { p.page < length (slice_index_or rows.now (p.object - 1) []) }
    ensures { result.now ≡ slice_index_or (slice_index_or rows.now (p.object - 1) []) p.page result.now }
{
    let row = &rows[p.object as usize - 1];
    &row.frames[p.page as usize]
}
