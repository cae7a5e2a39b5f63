//! The lists of COMDATs, set aside while an input is linked of which nothing is taken out.

ghost use Rattle.std.specs.Prelude.{◌≡◌, List, IfOk, MatchBool, OnOk, map};
ghost use Rattle.obj_types.specs.declared.object.ObjModule.{ObjModule};
ghost use Rattle.obj_types.specs.declared.input.LinkInput.{LinkInput};
ghost use Rattle.comdat_core.specs.Nothing.{AreEmpty, IsNothing};
ghost use Rattle.comdat_core.specs.Aside.{bare, bare_module, lists_of, with_lists, IsAsideOf};

use crate::taking::{Taken, TakenOut};
use lx_types::{NoMemory, Seq};
use obj_types::{Comdats, LinkInput, ObjModules};
use std::alloc::Global;
use std::mem::replace;

// Whether each of these lists is empty.
fn are_empty(lists: &[Vec<Taken<'_>>]) -> bool
    ensures { MatchBool result (AreEmpty lists.now) (AreEmpty lists.now → ⊥) }
{
    for list in lists {
        if !list.is_empty() {
            return false;
        }
    }
    true
}

/// Whether nothing is taken out of any module.
pub fn nothing_taken(out: &TakenOut<'_>) -> bool
    ensures { MatchBool result (IsNothing out.now) (IsNothing out.now → ⊥) }
{
    are_empty(out.objects.as_slice()) && are_empty(out.libs.as_slice())
}

/// The lists of COMDATs of an input's modules, which have none while these are set aside.
#[derive(Drop)]
pub struct Aside {
    pub objects: Vec<Comdats>,
    pub libs: Vec<Comdats>,
}

// Takes the list of COMDATs of each module.
fn take_lists(alloc: Global, modules: &mut ObjModules) -> Result<Vec<Comdats>, NoMemory>
    ensures modules { OnOk result (modules.new ≡ map bare_module modules.old) }
    ensures lists { IfOk result (λ lists. lists.items ≡ lists_of modules.old) }
{
    let mut bare = replace(modules, Seq::new(alloc)).into_vec();
    let mut lists = Vec::new(alloc);
    for module in bare.iter_mut() {
        lists.push(replace(&mut module.comdats, Seq::new(alloc)))?;
    }
    *modules = Seq::from_vec(bare);
    Ok(lists)
}

// Gives each module its list of COMDATs.
fn put_lists(alloc: Global, modules: &mut ObjModules, lists: Vec<Comdats>)
    ensures { modules.new ≡ with_lists modules.old lists.items }
{
    let mut whole = replace(modules, Seq::new(alloc)).into_vec();
    let mut rest = lists.into_iter();
    for module in whole.iter_mut() {
        if let Some(comdats) = rest.next() {
            module.comdats = comdats;
        }
    }
    *modules = Seq::from_vec(whole);
}

/// Sets the lists of COMDATs of an input aside. After want of memory modules may be missing in the input.
pub fn set_aside(alloc: Global, input: &mut LinkInput) -> Result<Aside, NoMemory>
    ensures bare { OnOk result (input.new ≡ bare input.old) }
    ensures aside { IfOk result (IsAsideOf input.old) }
{
    Ok(Aside {
        objects: take_lists(alloc, &mut input.objects)?,
        libs: take_lists(alloc, &mut input.libs)?,
    })
}

/// Puts back what was set aside of an input: it is as it was before.
pub fn put_back(alloc: Global, input: &mut LinkInput, aside: Aside)
    ensures { (whole : LinkInput) → input.old ≡ bare whole → IsAsideOf whole aside → input.new ≡ whole }
{
    put_lists(alloc, &mut input.objects, aside.objects);
    put_lists(alloc, &mut input.libs, aside.libs);
}
