//! The records of a page.

ghost use Rattle.std.specs.Prelude.{◌≡◌, ℕ, [], All, AllPairs, IfOk};
ghost use Rattle.std.specs.List.{flat_map};
ghost use Rattle.lx_model.specs.RecordSpelling.{record_spelling};
ghost use Rattle.lx_model.specs.JoinedRecords.{by_offset, listed_after, records_for};
ghost use Rattle.lx_fixrec.specs.Writable.{IsWritable, MayBeWritten, AreApart};
ghost use Rattle.lx_fixrec.specs.Writes.{spelled};
ghost use Rattle.lx_fixrec.specs.Left.{left_in};
ghost use Rattle.lx_fixrec.specs.Laws.{IsReadAs};

use crate::links::{count_next, links_of};
use crate::writer::push_begun;
use lx_types::{Bytes, Fix, NoMemory, Seq};
use std::alloc::Global;

// The sources by their offsets.
fn by_offset(alloc: Global, fixes: &[Fix]) -> Result<Vec<Fix>, NoMemory>
    requires { AllPairs AreApart fixes.now }
    ensures { IfOk result (λ sources. sources.items ≡ by_offset fixes.now) }
{
    let mut sources = Vec::from_slice(alloc, fixes)?;
    sources.sort_by_key(|fix| fix.offset)?;
    Ok(sources)
}

// The records of sources that stand by their offsets.
fn records_of(alloc: Global, sources: &[Fix]) -> Result<Vec<u8>, NoMemory>
    requires { All IsWritable sources.now }
    ensures { IfOk result (λ out. out.items ≡ spelled (listed_after [] sources.now)) }
{
    let links = links_of(alloc, sources)?;
    let links = links.as_slice();
    let mut counts = vec![in alloc; 0; sources.len()]?;
    let mut offsets = Vec::new(alloc);
    let mut out = Vec::new(alloc);
    for place in 0..sources.len() {
        if counts[place] == 0 {
            push_begun(&mut out, &mut offsets, sources, links, place)?;
        }
        count_next(&mut counts, place, links[place]);
    }
    Ok(out)
}

/// The fixup records of a page ("Fixup Record Table").
///
/// Records stand by their first sources. Sources that differ in their offsets alone and lie within
/// the page are one list, of up to 255, by rising offsets; each other source has a record of its
/// own. Every field has the least bytes that its number has room in.
///
/// It asks that each source has a byte in the page, that no two sources share a byte, that the
/// alias is set for a source with a selector alone, that the numbers of objects and modules and the
/// ordinals of the entry table are at most 65,535, and that an internal target of a selector alone
/// has offset 0. It answers `NoMemory` where it finds no memory.
///
/// [`records`](crate::records) of the bytes gives each of the fixups once, in the order of the
/// records.
pub fn encode_page(alloc: Global, fixes: &[Fix]) -> Result<Bytes, NoMemory>
    requires { MayBeWritten fixes.now }
    ensures written { IfOk result (λ bytes. bytes ≡ flat_map record_spelling (records_for fixes.now)) }
    ensures read { IfOk result (λ bytes. (at : ℕ) → IsReadAs fixes.now (left_in at bytes)) }
{
    let sources = by_offset(alloc, fixes)?;
    Ok(Seq::from_vec(records_of(alloc, &sources)?))
}
