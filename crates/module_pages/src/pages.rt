//! The pages of a module, each with its fixups.

ghost use Rattle.std.specs.Prelude.{◌≡◌, ◌+◌, ◌<◌, box_value, length};
ghost use Rattle.lx_types.specs.Object.{pages_of};
ghost use Rattle.lx_types.specs.Parts.{object_of};
ghost use Rattle.lx_types.specs.Sound.{IsNumberOf};
ghost use Rattle.lx_model.specs.Fixed.{sources_of};
ghost use Rattle.lx_model.specs.Library.{module_of};
ghost use Rattle.lx_model.specs.ModuleBytes.{fixed_page};

use lx_types::{Bases, PageBytes, PageId};
use page_fix::{OwnLibrary, Steps, fix_owned};
use std::marker::Model;
use std::sync::ledger::Ledger;

/// The pages of a module of a library that nobody shares, at the bases of a load.
#[derive(Drop)]
pub struct ModulePages<'a> {
    lib: &'a OwnLibrary,
    bases: &'a Bases,
    module: u32,
}

impl<'a> Model for ModulePages<'a> {
    ghost use Rattle.std.specs.Prelude.{◌<◌, length};
    ghost use Rattle.module_pages.specs.Placed.{PlacedModule};

    ghost Value = { PlacedModule };

    ghost view = { λ p. record { library = p.lib.now; «module» = p.«module»; bases = p.bases.now } };

    ghost invariant = { λ p. p.«module» < length p.lib.now };
}

impl<'a> ModulePages<'a> {
    /// The pages of module `module`.
    pub fn of(lib: &'a OwnLibrary, bases: &'a Bases, module: u32) -> ModulePages<'a>
        requires { «module» < length lib.now }
        ensures { result ≡ record { library = lib.entry.now; «module» = «module»; bases = bases.entry.now } }
    {
        ModulePages { lib, bases, module }
    }

    /// Writes a page into the buffer, with its fixups, and gives the buffer back. It takes no memory, and the count rises by the
    /// record sources of the page.
    pub fn page<L: Ledger>(
        &self,
        p: PageId,
        buffer: Box<PageBytes>,
        steps: &mut Steps<L>,
    ) -> Box<PageBytes>
        requires object { IsNumberOf p.object (length (module_of self.now.library self.now.«module»).objects) }
        requires page { p.page < pages_of (object_of (module_of self.now.library self.now.«module») p.object) }
        ensures bytes { box_value result ≡ fixed_page self.now.library self.now.«module» self.now.bases p }
        ensures steps { steps.new ≡ steps.old + length (sources_of (module_of self.now.library self.now.«module») p) }
    {
        fix_owned(self.lib, self.module, self.bases, p, buffer, steps)
    }
}
