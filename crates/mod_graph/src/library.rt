//! A library of modules.

ghost use Rattle.std.specs.Prelude.{◌≡◌, ◌≤◌, ◌<◌, ◌^◌, ◌↔◌, IfOk, IfErr, IfSome, IsTrue, All, length};
ghost use Rattle.lx_model.specs.Library.{module_of, module_named};
ghost use Rattle.lx_model.specs.Entries.{Entry, EntryNamed, target_spot};
ghost use Rattle.lx_model.specs.Reach.{Order, HealthOf};

use crate::entries::EntryPoints;
use crate::gathering::{refusal, tables_of};
use crate::health::{health_at, list_at};
use crate::imports::module_with_name;
use crate::names::NameIndex;
use lx_model::{EntryFault, Health, LibraryRefusal, Spot};
use lx_types::{Fail, FixTarget, Module, Name, NoMemory, Numbers};
use std::alloc::Global;
use std::marker::Model;

/// Modules that make no library, and why.
#[derive(Drop)]
pub struct Ungathered {
    pub mods: Vec<Module>,
    pub why: Fail<LibraryRefusal>,
}

/// The modules of a session, numbered from 0, with what follows from their imports and fixups.
pub struct Library {
    mods: Vec<Module>,
    names: Vec<NameIndex>,
    orders: Vec<Numbers>,
    healths: Vec<Health>,
    places: usize,
}

impl Model for Library {
    ghost use Rattle.std.specs.Prelude.{List};
    ghost use Rattle.lx_types.specs.declared.parts.Parts.{Parts};
    ghost use Rattle.mod_graph.specs.Gathering.{Knows};

    ghost Value = { List Parts };

    ghost view = { λ l. l.mods.items };

    ghost invariant = { λ l. Knows l.mods.items l.names.items l.orders.items l.healths.items l.places };
}

// A library is dropped by a call, wherever that is: were it derived, its tables would be taken apart, and proved anew, in each
// function that may drop the last hold on one.
impl Drop for Library {
    fn drop(self) {
        let Library {
            mods,
            names,
            orders,
            healths,
            places: _,
        } = self;
        drop(mods);
        drop(names);
        drop(orders);
        drop(healths);
    }
}

impl Library {
    /// The library of these modules, of which there are fewer than 2^32. It finds the orders and the healths, in
    /// time that grows as modules, imports and fixups' targets do. Where the modules are refused, or there is no
    /// memory, they come back.
    pub fn gather(alloc: Global, mods: Vec<Module>) -> Result<Library, Ungathered>
        requires few { length mods.items < 2 ^ 32 }
        requires read { All IsRead mods.items }
        ensures gathered { IfOk result (λ library. library ≡ mods.items) }
        ensures accepted { IfOk result IsLibrary }
        ensures refused { IfErr result (λ ungathered. IsRefused ungathered.why (LibraryFault mods.items)) }
        ensures handed_back { IfErr result (λ ungathered. ungathered.mods.items ≡ mods.items) }
    {
        if let Some(why) = refusal(&mods) {
            return Err(Ungathered {
                mods,
                why: Fail::Said(why),
            });
        }
        match tables_of(alloc, &mods) {
            Ok(tables) => Ok(Library {
                mods,
                names: tables.names,
                orders: tables.orders,
                healths: tables.healths,
                places: tables.places,
            }),
            Err(NoMemory) => Err(Ungathered {
                mods,
                why: Fail::NoMemory,
            }),
        }
    }

    ghost use Rattle.lx_model.specs.Gathering.{LibraryFault, IsLibrary};
    ghost use Rattle.lx_types.specs.declared.limits.TheConstants.{MAX_MODULES};
    ghost use Rattle.lx_model.specs.Module.{IsRead};
    ghost use Rattle.mod_graph.specs.Gathering.{IsRefused};

    /// How many modules there are, at most 64. They make a library: no two have one name, and each was read.
    pub fn len(&self) -> u32
        ensures count { result ≡ length self.now }
        ensures few { result ≤ MAX_MODULES }
        ensures library { IsLibrary self.now }
    {
        self.mods.len() as u32
    }

    /// Whether there is no module.
    pub fn is_empty(&self) -> bool
        ensures { IsTrue result ↔ (length self.now ≡ 0) }
    {
        self.mods.is_empty()
    }

    /// The module of a name, ASCII letters in upper case. It looks at one module after the other.
    pub fn find(&self, name: &Name) -> Option<u32>
        ensures number { result ≡ module_named self.now name.now }
        ensures within { IfSome result (λ m. m < length self.now) }
    {
        module_with_name(&self.mods, name)
    }

    /// Module `m`.
    pub fn module(&self, m: u32) -> &Module
        requires { m < length self.now }
        ensures { result.now ≡ module_of self.now m }
    {
        &self.mods[m as usize]
    }

    /// Whether module `m` can be loaded: the first kind of fault that a module has which it reaches, and
    /// the first such module in its order.
    pub fn health(&self, m: u32) -> Health
        requires { m < length self.now }
        ensures { result ≡ HealthOf self.now m }
    {
        health_at(&self.healths, m)
    }

    /// What module `m` reaches through imports, each module after what it imports, itself last. Of modules that
    /// import each other the one that is reached first comes last.
    /// (Control Program reference: DosLoadModule.)
    pub fn order(&self, m: u32) -> &[u32]
        requires { m < length self.now }
        ensures { result.now ≡ Order self.now m }
    {
        list_at(&self.orders, m)
    }

    /// Where an ordinal of module `m` leads, through forwarders. ("32-bit Linear eXecutable Module Format": "Entry
    /// Table".)
    ///
    /// It takes no memory, and time that grows as the forwarders that it follows.
    pub fn entry(&self, m: u32, ordinal: u32) -> Result<Spot, EntryFault>
        requires { m < length self.now }
        ensures { result ≡ Entry self.now (m, ordinal) }
    {
        self.points().by_ordinal(m, ordinal)
    }

    /// Where a name of module `m` leads, through forwarders. ("32-bit Linear eXecutable Module Format": "Resident or
    /// Non-resident Name Table Entry".)
    pub fn entry_named(&self, m: u32, name: &[u8]) -> Result<Spot, EntryFault>
        requires { m < length self.now }
        ensures { result ≡ EntryNamed self.now m name.now }
    {
        self.points().by_name(m, name)
    }

    /// Where a target of module `m`'s fixups is, through forwarders. ("32-bit Linear eXecutable Module Format":
    /// "Fixup Record Table".)
    pub fn target(&self, m: u32, target: &FixTarget) -> Result<Spot, EntryFault>
        requires { m < length self.now }
        ensures { result ≡ target_spot self.now m target.now }
    {
        self.points().of_target(m, target)
    }

    /// The modules, with what finds their entry points.
    fn points(&self) -> EntryPoints<'_>
        ensures { result ≡ self.now }
    {
        EntryPoints::of(&self.mods, &self.names, self.places)
    }
}

// Asks that threads may share and move a type.
fn may_be_shared<T: Send + Sync>() {}

// Threads share one library, and move it.
fn crosses_threads() {
    may_be_shared::<Library>();
}
