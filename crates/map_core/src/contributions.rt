//! The lines of contributions and of communals.

ghost use Rattle.std.specs.Prelude.{◌≡◌, ◌++◌, OnOk, map};
ghost use Rattle.std.specs.List.{flat_map, enumerate_from};
ghost use Rattle.map_core.specs.Places.{segment_text, module_text, common_text};

use crate::addresses::address_of;
use crate::lines::{push_common, push_segment};
use link_types::Layout;
use lx_types::{Name, NoMemory, count};
use obj_types::{Common, ObjModule, Seg};

fn push_plain(
    out: &mut Vec<u8>,
    lay: &Layout,
    by: u32,
    index: u32,
    seg: &Seg,
) -> Result<(), NoMemory>
    ensures { OnOk result (out.new.items ≡ out.old.items ++ segment_text lay.now by (index, seg.now)) }
{
    if seg.debug {
        return Ok(());
    }
    if let Some((object, offset)) = lay.spot(by, index) {
        let at = address_of(lay.objects(), object, offset);
        push_segment(out, u64::from(by), u64::from(index), seg, at)?;
    }
    Ok(())
}

fn push_segs(out: &mut Vec<u8>, lay: &Layout, by: u32, segs: &[Seg]) -> Result<(), NoMemory>
    ensures { OnOk result (out.new.items ≡ out.old.items ++ flat_map (segment_text lay.now by) (enumerate_from 1 segs.now)) }
{
    for (place, seg) in segs.iter().enumerate() {
        push_plain(out, lay, by, count(place + 1)?, seg)?;
    }
    Ok(())
}

/// The lines of the contributions of these modules, those of debug segments left out.
pub fn push_modules(out: &mut Vec<u8>, lay: &Layout, modules: &[&ObjModule]) -> Result<(), NoMemory>
    ensures { OnOk result (out.new.items ≡ out.old.items ++ flat_map (module_text lay.now) (enumerate_from 1 (map (λ m. m.now) modules.now))) }
{
    for (place, object) in modules.iter().enumerate() {
        push_segs(out, lay, count(place + 1)?, object.segs.as_slice())?;
    }
    Ok(())
}

fn push_common_at(
    out: &mut Vec<u8>,
    lay: &Layout,
    slot: u32,
    common: &(Name, Common),
) -> Result<(), NoMemory>
    ensures { OnOk result (out.new.items ≡ out.old.items ++ common_text lay.now (slot, common.now)) }
{
    if let Some((object, offset)) = lay.common(slot) {
        push_common(out, common, address_of(lay.objects(), object, offset))?;
    }
    Ok(())
}

/// The lines of the communals.
pub fn push_commons(
    out: &mut Vec<u8>,
    lay: &Layout,
    commons: &[(Name, Common)],
) -> Result<(), NoMemory>
    ensures { OnOk result (out.new.items ≡ out.old.items ++ flat_map (common_text lay.now) (enumerate_from 0 commons.now)) }
{
    for (place, common) in commons.iter().enumerate() {
        push_common_at(out, lay, count(place)?, common)?;
    }
    Ok(())
}
