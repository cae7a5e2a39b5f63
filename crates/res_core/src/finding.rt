//! The search for a resource.

ghost use Rattle.std.specs.Prelude.{◌≡◌, ◌+◌, ◌*◌, ◌<◌, ◌≤◌, ◌^◌, ◌&&◌, length};
ghost use Rattle.lx_model.specs.Resources.{Res, has_key, is_in_object, is_whole, resource_at};

use lx_fields::{doubleword_at, header_field, table_place, word_at};
use lx_model::RESOURCE_ENTRY_LEN;
use lx_model::header_fields::{RESOURCE_COUNT, RESOURCE_TABLE};
use lx_types::{Module, ResSpot};

/// How many bytes an entry of the resource table has.
const ENTRY_SIZE: u64 = RESOURCE_ENTRY_LEN as u64;

// Whether the bytes lie in an object of the module.
fn is_in_object(m: &Module, spot: ResSpot) -> bool
    ensures { result ≡ is_in_object m.now spot }
{
    let objects = m.objects();
    if spot.object == 0 || spot.object as usize > objects.len() {
        return false;
    }
    let size = objects[spot.object as usize - 1].size;
    u64::from(spot.offset) + u64::from(spot.len) <= u64::from(size)
}

// The entry at a place of the file, where it is of this type and identifier and its bytes lie in an object.
fn spot_at(m: &Module, at: usize, ty: u16, id: u16) -> Option<ResSpot>
    requires { at + RESOURCE_ENTRY_LEN ≤ length m.now.file }
    ensures { result ≡ found_at m.now ty id (resource_at m.now.file at) }
{
    let file = m.file();
    if word_at(file, at) != ty || word_at(file, at + 2) != id {
        return None;
    }
    let spot = ResSpot {
        object: u32::from(word_at(file, at + 8)),
        offset: doubleword_at(file, at + 10),
        len: doubleword_at(file, at + 4),
    };
    if is_in_object(m, spot) {
        Some(spot)
    } else {
        None
    }
}

ghost use Rattle.res_core.specs.Found.{found_at};

/// Where the module has the resource of a type and an identifier: the first entry of its resource table that has both,
/// lies whole in the file, and names bytes of an object that is there. There is none where no entry does.
///
/// It takes no memory, and time that grows as the table's part of the file.
pub fn find(m: &Module, ty: u16, id: u16) -> Option<ResSpot>
    ensures { result ≡ Res m.now ty id }
{
    let file = m.file();
    let table = table_place(file, RESOURCE_TABLE);
    for k in 0..header_field(file, RESOURCE_COUNT) {
        let at = table + ENTRY_SIZE * u64::from(k);
        if at + ENTRY_SIZE > file.len() as u64 {
            return None;
        }
        if let Some(spot) = spot_at(m, at as usize, ty, id) {
            return Some(spot);
        }
    }
    None
}
