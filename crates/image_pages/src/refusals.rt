//! Why a linked module has no place in memory.

ghost use Rattle.std.specs.Prelude.{◌≡◌, ◌+◌, IfOk, map, nat_lt};
ghost use Rattle.lx_types.specs.declared.limits.TheConstants.{SHARED_END};
ghost use Rattle.image_model.specs.LinkLaws.{laid};
ghost use Rattle.image_pages.specs.Memory.{full_from};

use link_model::LinkRefusal;
use lx_types::{NoMemory, ObjHead, SHARED_END, count};
use std::fmt::{self, Debug, Display, Formatter, Write};
use thiserror::Error;

/// Why a linked module has no place in memory. The kinds are tried in this order.
#[derive(Drop, Error)]
pub enum ImageRefusal {
    /// The input is not linked.
    #[error("{0}")]
    Link(LinkRefusal),
    /// The module imports other modules.
    #[error("the module imports other modules")]
    NoModule,
    /// The first object, by its number, that ends past the arenas at its linked base, and its size in bytes.
    #[error("object {object} of {size} bytes has no room")]
    ArenaFull { object: u32, size: u32 },
}

// Whether an object ends past the arenas.
fn is_past(object: &ObjHead) -> bool
    ensures { result ≡ nat_lt SHARED_END (object.now.base + object.now.size) }
{
    u64::from(SHARED_END) < u64::from(object.base) + u64::from(object.size)
}

/// The first object that ends past the arenas.
pub fn full_object(objects: &[ObjHead]) -> Result<Option<ImageRefusal>, NoMemory>
    ensures { IfOk result (λ refusal. refusal ≡ full_from 1 (map laid objects.now)) }
{
    for (index, object) in objects.iter().enumerate() {
        if is_past(object) {
            return Ok(Some(ImageRefusal::ArenaFull {
                object: count(index + 1)?,
                size: object.size,
            }));
        }
    }
    Ok(None)
}

// One text is proved of an error, and not two.
impl Debug for ImageRefusal {
    fn fmt<W: Write>(&self, f: &mut Formatter<W>) -> fmt::Result {
        Display::fmt(self, f)
    }
}
