//! A residence of a module in memory, as a process has it that reaches it.

ghost use Rattle.std.specs.Prelude.{◌≡◌, ◌<◌, true, length};
ghost use Rattle.std.specs.Arc.{arc_value};
ghost use Rattle.lx_model.specs.Library.{module_of};
ghost use Rattle.lx_model.specs.ModuleBytes.{fixed_page};
ghost use Rattle.page_fix.specs.Fixable.{is_fixable};

use crate::frames::Frames;
use lx_types::{Bases, PageBytes, PageId};
use mod_graph::Library;
use page_fix::FixedPage;
use std::marker::Model;
use std::sync::{Arc, Wait};

/// A hold on a residence of a module of a library in memory: its serial number, the bases of what the module reaches, and a frame
/// for each page of its Code and Shared objects. Contracts see who keeps it: a keeper gives each serial number to one residence,
/// so all holds with one keeper and one number are on the same frames.
pub struct Residence {
    pub(crate) frames: Arc<Frames>,
    pub(crate) keeper: u64,
}

// Dropped by a call, as lists are (`Seq`).
impl Drop for Residence {
    fn drop(self) {
        let Residence { frames, keeper: _ } = self;
        drop(frames);
    }
}

impl Model for Residence {
    ghost use Rattle.std.specs.Arc.{arc_value};
    ghost use Rattle.page_frames.specs.Residences.{ResidenceFor, kept_by};

    ghost Value = { ResidenceFor };

    ghost view = { λ r. kept_by r.keeper (arc_value r.frames) };
}

impl Residence {
    /// The serial number, from 1.
    pub fn serial(&self) -> u64
        ensures { result ≡ self.now.serial }
    {
        self.frames.serial()
    }

    /// The module's number in its library.
    pub fn module(&self) -> u32
        ensures number { result ≡ self.now.«module» }
        ensures within { result < length self.now.library }
    {
        self.frames.module()
    }

    /// The library that the module is in.
    pub fn library(&self) -> &Library
        ensures { result.now ≡ self.now.library }
    {
        self.frames.library()
    }

    /// The bases of the objects of each module that the module reaches.
    pub fn bases(&self) -> &Bases
        ensures { result.now ≡ self.now.bases }
    {
        self.frames.bases()
    }

    /// Publishes a page that was fixed for this residence, in the buffer into which it was fixed, once for all who wait for it or
    /// map it later. Nobody who holds such a page waits or asks for memory here.
    pub fn publish<R: Wait>(&self, rt: &R, p: PageId, page: FixedPage, bytes: Arc<PageBytes>)
        requires there { is_fixable (module_of self.now.library self.now.«module») p ≡ true }
        requires own { (page.serial ≡ self.now.serial) × (page.page ≡ p) }
        requires bytes { page.bytes ≡ fixed_page self.now.library self.now.«module» self.now.bases p }
        requires buffer { arc_value bytes ≡ page.bytes }
    {
        self.frames.publish(rt, p, page, bytes);
    }

    /// A hold on the bytes of a page once it is published; until then the thread looks for a while, and then sleeps. It copies
    /// nothing and takes no memory.
    pub fn hold<R: Wait>(&self, rt: &R, p: PageId) -> Arc<PageBytes>
        requires { is_fixable (module_of self.now.library self.now.«module») p ≡ true }
        ensures { arc_value result ≡ fixed_page self.now.library self.now.«module» self.now.bases p }
    {
        self.frames.hold(rt, p)
    }

    /// Copies a page into a buffer once it is published, as `hold` waits for it. It takes no memory.
    pub fn wait<R: Wait>(&self, rt: &R, p: PageId, into: &mut PageBytes)
        requires { is_fixable (module_of self.now.library self.now.«module») p ≡ true }
        ensures { into.new ≡ fixed_page self.now.library self.now.«module» self.now.bases p }
    {
        *into = *self.hold(rt, p);
    }
}
