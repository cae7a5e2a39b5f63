//! The automatic data object.

ghost use Rattle.std.specs.Prelude.{◌≡◌, IfOk, map, bytes_eq};
ghost use Rattle.std.specs.List.{position};
ghost use Rattle.std.specs.Option.{unwrap_or, option_and_then};
ghost use Rattle.link_model.specs.Groups.{DGROUP};
ghost use Rattle.link_model.specs.Header.{auto_data};
ghost use Rattle.link_model.specs.Link.{Link};
ghost use Rattle.link_types.specs.Places.{ArePlaces};

use link_types::Places;
use lx_types::{NoMemory, count};
use obj_types::{Group, ObjModule};

// The place of DGROUP among groups, from 0.
fn dgroup_in(groups: &[Group]) -> Option<usize>
    ensures { result ≡ position (λ g. bytes_eq g.name DGROUP) groups.now }
{
    groups
        .iter()
        .position(|group| group.name.bytes() == b"DGROUP".as_slice())
}

// The object of a group, or 0.
fn object_or_0(object: Option<Option<u32>>) -> u32
    ensures { result ≡ unwrap_or (option_and_then (λ o. o) object) 0 }
{
    match object {
        None => 0,
        Some(object) => object.unwrap_or(0),
    }
}

/// The automatic data object of a link of these modules: that of DGROUP, or 0 where no module declares that group or it
/// has no members.
pub fn auto_of(places: &Places, modules: &[&ObjModule]) -> Result<u32, NoMemory>
    ensures { IfOk result (λ auto. (l : Link) → l.modules ≡ map (λ m. m.now) modules.now → ArePlaces l places.now → auto ≡ auto_data l) }
{
    for (index, object) in modules.iter().enumerate() {
        if let Some(group) = dgroup_in(object.groups.as_slice()) {
            return Ok(object_or_0(places.group(count(index + 1)?, count(group + 1)?)));
        }
    }
    Ok(0)
}
