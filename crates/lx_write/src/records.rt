//! The fixup page table and the fixup records ("Fixup Page Table", "Fixup Record Table").

ghost use Rattle.std.specs.Prelude.{◌≡◌, ◌++◌, ◌≤◌, ◌∷◌, List, All, IfOk, length, map};
ghost use Rattle.std.specs.List.{flat_map};
ghost use Rattle.lx_bytes.specs.LittleEndian.{little_bytes};
ghost use Rattle.lx_model.specs.JoinedRecords.{records_for};
ghost use Rattle.lx_model.specs.RecordSpelling.{Written};
ghost use Rattle.lx_model.specs.TableSpelling.{doublewords};
ghost use Rattle.image_model.specs.PageTables.{page_records, record_offsets_from};
ghost use Rattle.lx_fixrec.specs.Writable.{MayBeWritten};
ghost use Rattle.lx_write.specs.Offsets.{target_at, fix_at, NameIsThere};
ghost use Rattle.lx_write.specs.Growing.{with_records};

use lx_fixrec::encode_page;
use lx_types::{Bytes, Fix, FixTarget, NoMemory, Seq};
use std::alloc::Global;

/// The fixup page table so far, with places in the records, and the fixup records.
#[derive(Drop)]
pub struct Records {
    pub spans: Vec<u8>,
    pub records: Vec<u8>,
}

// A target as the file has it: by the name's offset in place of the name's place.
fn target_in_file(target: FixTarget, offsets: &[u32]) -> FixTarget
    requires { NameIsThere (length offsets.now) target }
    ensures { result ≡ target_at offsets.now target }
{
    match target {
        FixTarget::Named { import, name_at } => FixTarget::Named {
            import,
            name_at: offsets[name_at as usize],
        },
        _ => target,
    }
}

// The fixups of a page as the file has them.
fn fixes_in_file(alloc: Global, fixes: &[Fix], offsets: &[u32]) -> Result<Vec<Fix>, NoMemory>
    requires { All (λ f. NameIsThere (length offsets.now) f.target) fixes.now }
    ensures { IfOk result (λ out. out.items ≡ map (fix_at offsets.now) fixes.now) }
{
    let mut out = Vec::with_capacity(alloc, fixes.len())?;
    for fix in fixes {
        out.push(Fix {
            target: target_in_file(fix.target, offsets),
            ..*fix
        })?;
    }
    Ok(out)
}

// The fixup records of a page as the file has them. Where no procedure has a name the file has the fixups as they are.
fn encode_in_file(alloc: Global, fixes: &[Fix], offsets: &[u32]) -> Result<Bytes, NoMemory>
    requires fit { MayBeWritten fixes.now }
    requires names { All (λ f. NameIsThere (length offsets.now) f.target) fixes.now }
    ensures { IfOk result (λ bytes. bytes ≡ page_records (records_for (map (fix_at offsets.now) fixes.now))) }
{
    if offsets.is_empty() {
        return encode_page(alloc, fixes);
    }
    let fixes = fixes_in_file(alloc, fixes, offsets)?;
    encode_page(alloc, &fixes)
}

impl Records {
    // Adds where the next records begin.
    fn mark(&mut self) -> Result<(), NoMemory>
        ensures { IfOk result (λ _.
            (self.new.spans.items ≡ self.old.spans.items ++ little_bytes 4 (length self.old.records.items))
            × (self.new.records ≡ self.old.records)) }
    {
        let Ok(at) = u32::try_from(self.records.len()) else {
            return Err(NoMemory);
        };
        self.spans.extend_from_slice(&at.to_le_bytes())?;
        Ok(())
    }

    // Adds a page.
    fn add(&mut self, alloc: Global, fixes: &[Fix], offsets: &[u32]) -> Result<(), NoMemory>
        requires fit { MayBeWritten fixes.now }
        requires names { All (λ f. NameIsThere (length offsets.now) f.target) fixes.now }
        ensures { IfOk result (λ _.
            (self.new.spans.items ≡ self.old.spans.items ++ little_bytes 4 (length self.old.records.items))
            × (self.new.records.items ≡ self.old.records.items
            ++ page_records (records_for (map (fix_at offsets.now) fixes.now)))) }
    {
        self.mark()?;
        let bytes = encode_in_file(alloc, fixes, offsets)?;
        self.records.extend_from_slice(bytes.as_slice())?;
        Ok(())
    }

    // Adds the pages of an object.
    fn add_object(
        &mut self,
        alloc: Global,
        pages: &[Seq<Fix>],
        offsets: &[u32],
    ) -> Result<(), NoMemory>
        requires fit { All MayBeWritten pages.now }
        requires names { All (All (λ f. NameIsThere (length offsets.now) f.target)) pages.now }
        ensures { IfOk result (λ _. (others : List (List Written))
            → with_records self.new others
            ≡ with_records self.old (map records_for (map (map (fix_at offsets.now)) pages.now) ++ others)) }
    {
        for page in pages {
            self.add(alloc, page.as_slice(), offsets)?;
        }
        Ok(())
    }
}

/// The fixup page table and the records of all pages, where `offsets` has the offset of each import
/// procedure's name.
pub fn records_of(
    alloc: Global,
    objects: &[Seq<Seq<Fix>>],
    offsets: &[u32],
) -> Result<Records, NoMemory>
    requires fit { All (All MayBeWritten) objects.now }
    requires names { All (All (All (λ f. NameIsThere (length offsets.now) f.target))) objects.now }
    ensures spans { IfOk result (λ r. r.spans.items
        ≡ doublewords (record_offsets_from 0 (map records_for (map (map (fix_at offsets.now)) (flat_map (λ pages. pages) objects.now))))) }
    ensures records { IfOk result (λ r. r.records.items
        ≡ flat_map page_records (map records_for (map (map (fix_at offsets.now)) (flat_map (λ pages. pages) objects.now)))) }
{
    let mut records = Records {
        spans: Vec::new(alloc),
        records: Vec::new(alloc),
    };
    for pages in objects {
        records.add_object(alloc, pages.as_slice(), offsets)?;
    }
    records.mark()?;
    Ok(records)
}
