//! How a resource file is read.

ghost use Rattle.std.specs.Prelude.{◌≡◌, IfOk};
ghost use Rattle.lx_types.specs.Answers.{Answers};
ghost use Rattle.res_model.specs.ResFile.{IsResFile};
ghost use Rattle.res_model.specs.Faults.{FirstFault};

use crate::fields::{Spelled, next_item};
use lx_types::{Fail, NoMemory, Seq};
use res_model::{FIELDS, ResItem, ResRefusal};
use std::alloc::Global;
use std::collections::HashSet;

/// Types and identifiers.
type Keys = HashSet<(u16, u16)>;

fn owned(alloc: Global, item: &Spelled<'_>) -> Result<ResItem, NoMemory>
    ensures { IfOk result (λ i. i ≡ record { ty = item.now.ty; id = item.now.id; flags = item.now.flags; bytes = item.now.bytes.now }) }
{
    let bytes = Vec::from_slice(alloc, item.bytes)?;
    Ok(ResItem {
        ty: item.ty,
        id: item.id,
        flags: item.flags,
        bytes: Seq::from_vec(bytes),
    })
}

/// The items of a resource file, in their order. It looks at each byte once.
///
/// The refusal is the file's first fault, in the order of its fields: a field that passes the end (`Short`, at the field),
/// a mark other than FFh (`BadItem`, at the mark), and, where all fields of an item are good, a type and an identifier that
/// an earlier item has (`Twice`, at the item).
pub fn read_res(alloc: Global, bytes: &[u8]) -> Result<Vec<ResItem>, Fail<ResRefusal>>
    ensures { Answers result (λ items. IsResFile bytes.now items.items) (λ refusal. FirstFault bytes.now refusal) }
{
    let mut items = Vec::new(alloc);
    let mut seen: Keys = HashSet::new(alloc);
    let mut at = 0;
    'items: while at < bytes.len() {
        let item = match next_item(&bytes[at..], at) {
            Ok(item) => item,
            Err(refusal) => return Err(Fail::Said(refusal)),
        };
        if !seen.insert((item.ty, item.id))? {
            return Err(Fail::Said(ResRefusal::Twice { at }));
        }
        items.push(owned(alloc, &item)?)?;
        at += FIELDS + item.bytes.len();
    }
    Ok(items)
}
