//! The tables of imports ("Import Module Name Table", "Import Procedure Name Table").

ghost use Rattle.std.specs.Prelude.{◌≡◌, ◌++◌, OnOk, IfOk, length, map};
ghost use Rattle.std.specs.List.{flat_map, range_with_len};
ghost use Rattle.lx_model.specs.NameTables.{import_spelling};
ghost use Rattle.link_model.specs.ImportTables.{name_table, name_offset};

use lx_types::{Bytes, Name, NoMemory, Numbers, Seq};
use std::alloc::{AllocError, Global};

// Adds names, each after its length.
fn push_names(out: &mut Vec<u8>, names: &[Name]) -> Result<(), AllocError>
    ensures { OnOk result (out.new.items ≡ out.old.items ++ flat_map import_spelling names.now) }
{
    for name in names {
        let name = name.bytes();
        out.push(name.len() as u8)?;
        out.extend_from_slice(name)?;
    }
    Ok(())
}

/// The import module names.
pub fn import_table(alloc: Global, names: &[Name]) -> Result<Bytes, NoMemory>
    ensures { IfOk result (λ table. table ≡ flat_map import_spelling names.now) }
{
    let mut out = Vec::new(alloc);
    push_names(&mut out, names)?;
    Ok(Seq::from_vec(out))
}

/// The import procedure names, after an empty one.
pub fn proc_table(alloc: Global, names: &[Name]) -> Result<Bytes, NoMemory>
    ensures { IfOk result (λ table. table ≡ name_table names.now) }
{
    let mut out = Vec::new(alloc);
    out.push(0)?;
    push_names(&mut out, names)?;
    Ok(Seq::from_vec(out))
}

/// The offset of each of the import procedure names in their table, whose first byte is that of an
/// empty name ("Import Procedure Name Table"). Where an offset does not fit 32 bits no memory is
/// found.
pub fn name_offsets(alloc: Global, names: &[Name]) -> Result<Numbers, NoMemory>
    ensures { IfOk result (λ offsets. offsets
        ≡ map (name_offset names.now) (range_with_len 0 (length names.now))) }
{
    let mut offsets = Vec::new(alloc);
    let mut at: u32 = 1;
    for name in names {
        offsets.push(at)?;
        let len = name.bytes().len() as u32;
        let Some(next) = at.checked_add(1 + len) else {
            return Err(NoMemory);
        };
        at = next;
    }
    Ok(Seq::from_vec(offsets))
}
