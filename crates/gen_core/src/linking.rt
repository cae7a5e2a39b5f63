//! The modules, linked and read back, and the library of them.

ghost use Rattle.std.specs.Prelude.{◌+◌, ◌<◌, ◌≤◌, ◌^◌, IfOk, OnOk, length};
ghost use Rattle.std.specs.List.{All};
ghost use Rattle.lx_model.specs.Module.{IsRead};
ghost use Rattle.link_core.specs.Links.{IsLinked};
ghost use Rattle.gen_model.specs.Modules.{gen_input};
ghost use Rattle.gen_core.specs.Linking.{HasLinked, IsGathered};

use crate::modules::link_input;
use gen_laws::{inputs_are_whole, inputs_link, modules_load};
use layer_laws::linked_files_mean_their_links;
use link_core::{Linked, link_module};
use lx_read::read_faultless;
use lx_types::{Fail, Module, NoMemory};
use mod_graph::{Library, gather_faultless};
use std::alloc::Global;

/// The modules of a library, and how many pages and record sources they have in all.
#[derive(Drop)]
pub struct Gathered {
    pub library: Library,
    pub pages: u64,
    pub sources: u64,
}

/// The modules that are linked so far.
#[derive(Drop)]
struct Linking {
    modules: Vec<Module>,
    pages: u64,
    sources: u64,
}

// Module `k`, linked. No link of it is refused.
fn linked(alloc: Global, k: u32) -> Result<Linked, NoMemory>
    requires first { 1 ≤ k }
    requires last { k ≤ 64 }
    ensures linked { IfOk result (λ linked. IsLinked (gen_input k) linked) }
    ensures short { IfOk result (λ linked. length linked.file < 2 ^ 32) }
{
    inputs_are_whole();
    inputs_link();
    let mut input = link_input(alloc, k)?;
    match link_module(alloc, &mut input) {
        Ok(linked) => Ok(linked),
        Err(Fail::Said(_)) => unreachable!(),
        Err(Fail::NoMemory) => Err(NoMemory),
    }
}

impl Linking {
    // One module more, after those up to `count`.
    fn push(&mut self, alloc: Global, count: u32, linked: Linked) -> Result<(), NoMemory>
        requires few { count < 64 }
        requires before { HasLinked count self.old }
        requires linked { IsLinked (gen_input (count + 1)) linked }
        requires short { length linked.file < 2 ^ 32 }
        requires read { All IsRead self.old.«modules».items }
        ensures linked { OnOk result (HasLinked (count + 1) self.new) }
        ensures read { OnOk result (All IsRead self.new.«modules».items) }
    {
        inputs_are_whole();
        linked_files_mean_their_links();
        let Linked {
            file,
            pages,
            sources,
            ..
        } = linked;
        self.modules.push(read_faultless(alloc, file.into_vec())?)?;
        self.pages += u64::from(pages);
        self.sources += u64::from(sources);
        Ok(())
    }
}

// The modules from the first on.
fn all_linked(alloc: Global, count: u32) -> Result<Linking, NoMemory>
    requires { count ≤ 64 }
    ensures linked { IfOk result (HasLinked count) }
    ensures read { IfOk result (λ linking. All IsRead linking.«modules».items) }
{
    let mut linking = Linking {
        modules: Vec::new(alloc),
        pages: 0,
        sources: 0,
    };
    for before in 0..count {
        linking.push(alloc, before, linked(alloc, before + 1)?)?;
    }
    Ok(linking)
}

/// The modules of the numbers from 1 to `count`, each linked from its object module and its definition file, and read back.
pub fn gather(alloc: Global, count: u32) -> Result<Gathered, NoMemory>
    requires { count ≤ 64 }
    ensures { IfOk result (IsGathered count) }
{
    modules_load();
    let Linking {
        modules,
        pages,
        sources,
    } = all_linked(alloc, count)?;
    Ok(Gathered {
        library: gather_faultless(alloc, modules)?,
        pages,
        sources,
    })
}
