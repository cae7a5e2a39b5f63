//! The layout of a link.

ghost use Rattle.std.specs.Prelude.{◌≡◌, ◌≤◌, None, Some, map};
ghost use Rattle.lx_types.specs.Answers.{Answers};
ghost use Rattle.obj_types.specs.Input.{WholeInput};
ghost use Rattle.link_model.specs.Link.{Link, link_of};
ghost use Rattle.link_model.specs.LayoutRefusals.{too_large, lay_refusal};
ghost use Rattle.link_model.specs.Symbols as symbols;
ghost use Rattle.link_types.specs.Links.{link_with};
ghost use Rattle.seg_parts.specs.FixedNames.{AreFixed};
ghost use Rattle.seg_parts.specs.Members.{member_shown};
ghost use Rattle.seg_merge.specs.Grouped.{AreGrouped};
ghost use Rattle.seg_merge.specs.InOrder.{InOrder, TablesStand};
ghost use Rattle.seg_merge.specs.Laid.{first_base_of};
ghost use Rattle.link_types.specs.Binding.{IsBound};
ghost use Rattle.link_types.specs.Layout.{IsLaidOut};

use crate::by_number::rows_by_number;
use crate::grouped::{Grouped, grouped_of};
use crate::in_order::{StandingSegments, add_numbers, tables_of};
use crate::laid::lay_ordered;
use crate::ordered::{Tables, ordered_of};
use crate::own_stack::with_own_stack;
use crate::placing::places_of;
use link_model::{LayRefusal, modules_at};
use link_types::{Layout, Symbols};
use lx_types::{Fail, Name, Seq};
use obj_types::{Common, DefFile, LinkInput, ObjModule};
use seg_parts::{FixedNames, Member, by_class, fixed_names};
use std::alloc::Global;

// The layout of a link whose logical segments stand in this order.
fn lay_tables(
    alloc: Global,
    def: &DefFile,
    modules: &[&ObjModule],
    standing: &StandingSegments<'_, '_>,
    tables: &Tables<'_>,
) -> Result<Layout, Fail<LayRefusal>>
    requires base { first_base_of def.now ≤ 0x1FFF0000 }
    requires stand { (l : Link) × TablesStand l (map (λ m. m.now) modules.now) def.now standing.now tables.now }
    ensures { (l : Link) → TablesStand l (map (λ m. m.now) modules.now) def.now standing.now tables.now
        → Answers result
        (λ layout. (too_large l ≡ None) × IsLaidOut l layout)
        (λ refusal. too_large l ≡ Some refusal) }
{
    let order = standing.order;
    let ordered = ordered_of(alloc, tables, order)?;
    match lay_ordered(alloc, def, ordered.as_slice()) {
        Err(fail) => Err(fail),
        Ok(laid) => {
            let count = standing.segments.heads().len();
            let rows = rows_by_number(alloc, order, laid.rows.as_slice(), count)?;
            let groups = tables.groups.as_slice();
            Ok(Layout {
                objects: laid.objects,
                places: places_of(alloc, modules, standing, rows.as_slice(), groups)?,
                stack: laid.stack,
            })
        }
    }
}

// The layout of a link with these members of groups.
fn lay_segments<'a>(
    alloc: Global,
    def: &DefFile,
    modules: &[&ObjModule],
    standing: &StandingSegments<'a, '_>,
    members: &[Member<'_>],
) -> Result<Layout, Fail<LayRefusal>>
    requires base { first_base_of def.now ≤ 0x1FFF0000 }
    requires order { (l : Link) × InOrder l (map (λ m. m.now) modules.now) def.now standing.now (map member_shown members.now) }
    ensures { (l : Link) → InOrder l (map (λ m. m.now) modules.now) def.now standing.now (map member_shown members.now)
        → Answers result
        (λ layout. (too_large l ≡ None) × IsLaidOut l layout)
        (λ refusal. too_large l ≡ Some refusal) }
{
    let tables = tables_of(alloc, def, &standing.segments, &standing.names, members)?;
    lay_tables(alloc, def, modules, standing, &tables)
}

// The layout of a link of these logical segments and groups.
fn lay_grouped<'a>(
    alloc: Global,
    input: &LinkInput,
    modules: &[&ObjModule],
    fixed: &'a FixedNames,
    grouped: Grouped<'a>,
) -> Result<Layout, Fail<LayRefusal>>
    requires whole { WholeInput input.now }
    requires fixed { AreFixed fixed.now }
    requires grouped { AreGrouped (link_with input.now modules.now) grouped }
    ensures { let l = link_with input.now modules.now in Answers result
        (λ layout. (too_large l ≡ None) × IsLaidOut l layout)
        (λ refusal. too_large l ≡ Some refusal) }
{
    let Grouped {
        segments,
        names,
        members,
    } = grouped;
    let count = segments.heads().len();
    let mut order = by_class(alloc, segments.heads())?;
    let segments = with_own_stack(alloc, segments, input.def.kind, fixed)?;
    add_numbers(&mut order, count, segments.heads().len())?;
    let standing = StandingSegments {
        segments,
        names,
        order: order.as_slice(),
    };
    lay_segments(alloc, &input.def, modules, &standing, members.as_slice())
}

// The layout of a link of these modules whose communals are these.
fn lay_modules<'a>(
    alloc: Global,
    input: &'a LinkInput,
    modules: &[&'a ObjModule],
    fixed: &'a FixedNames,
    commons: &[(Name, Common)],
) -> Result<Layout, Fail<LayRefusal>>
    requires whole { WholeInput input.now }
    requires fixed { AreFixed fixed.now }
    requires commons { commons.now ≡ symbols.commons (link_with input.now modules.now) }
    ensures { let l = link_with input.now modules.now in Answers result
        (λ layout. (lay_refusal l ≡ None) × IsLaidOut l layout)
        (λ refusal. lay_refusal l ≡ Some refusal) }
{
    match grouped_of(alloc, input, modules, fixed, commons) {
        Err(fail) => Err(fail),
        Ok(grouped) => lay_grouped(alloc, input, modules, fixed, grouped),
    }
}

// The same, where the names are lent for less long than the modules.
fn lay_chosen(
    alloc: Global,
    input: &LinkInput,
    modules: &[&ObjModule],
    fixed: &FixedNames,
    commons: &[(Name, Common)],
) -> Result<Layout, Fail<LayRefusal>>
    requires whole { WholeInput input.now }
    requires fixed { AreFixed fixed.now }
    requires commons { commons.now ≡ symbols.commons (link_with input.now modules.now) }
    ensures { let l = link_with input.now modules.now in Answers result
        (λ layout. (lay_refusal l ≡ None) × IsLaidOut l layout)
        (λ refusal. lay_refusal l ≡ Some refusal) }
{
    lay_modules(alloc, input, modules, fixed, commons)
}

/// The layout of a link with these symbols: the objects that its segments, its groups and its communals make, the linked
/// base of each, and the place of each part ("98h SEGDEF", "9Ah GRPDEF", "B0h COMDEF").
///
/// The first refusal is answered: `AbsoluteSeg` names the first segment of alignment 0; `UseMixed` the first part that is
/// 16-bit where an earlier one of its logical segment or group is 32-bit, or the other way round; `GroupSplit` the first
/// group that can't be one object; `TooLarge` the logical segment that passes 65,536 bytes in a 16-bit object, 16,777,216
/// in another or over all objects, or that would begin object 1,025.
pub fn lay_out(alloc: Global, input: &LinkInput, syms: &Symbols) -> Result<Layout, Fail<LayRefusal>>
    requires whole { WholeInput input.now }
    requires bound { IsBound input.now syms.now }
    ensures { Answers result
        (λ layout. (lay_refusal (link_of input.now syms.now.chosen) ≡ None) × IsLaidOut (link_of input.now syms.now.chosen) layout)
        (λ refusal. lay_refusal (link_of input.now syms.now.chosen) ≡ Some refusal) }
{
    let fixed = fixed_names(alloc)?;
    let modules = modules_at(alloc, input, syms.chosen())?;
    lay_chosen(alloc, input, modules.as_slice(), &fixed, syms.commons())
}
