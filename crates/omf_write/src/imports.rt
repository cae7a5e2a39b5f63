//! The object module that gives one import ("88h COMENT", IMPDEF).

ghost use Rattle.std.specs.Prelude.{◌≡◌, ◌+◌, ◌++◌, ◌≤◌, OnOk, IfOk, length};
ghost use Rattle.omf_model.specs.Object.{IsModule};
ghost use Rattle.implib_model.specs.ImportModule.{ImportFits, EntryFits, import_comment, entry_bytes, import_bytes, import_object};
ghost use Rattle.omf_write.specs.Lent.{key_of, import_of};

use crate::fields::{push_name, push_uppercase};
use crate::framed::push_record;
use crate::lent::{LentEntry, LentImport};
use lx_types::NoMemory;
use obj_types::Imp;
use omf_frame::comment_class::{EXTENSION, IMPDEF};
use omf_frame::record_type::{COMENT, MODEND, THEADR};
use std::alloc::{AllocError, Global};

/// The flags of a COMENT, the class of extensions, and the subtype of IMPDEF.
pub const IMPORT: [u8; 3] = [0, EXTENSION, IMPDEF];

/// Writes the entry that is imported under an internal name.
pub fn push_entry(
    out: &mut Vec<u8>,
    internal: &[u8],
    entry: LentEntry<'_>,
) -> Result<(), AllocError>
    requires { EntryFits (key_of entry) }
    ensures is { OnOk result (out.new.items ≡ out.old.items ++ entry_bytes internal.now (key_of entry.entry)) }
    ensures short { OnOk result (length out.new.items ≤ length out.old.items + 256) }
{
    match entry {
        LentEntry::Ordinal(ordinal) => {
            out.extend_from_slice(&(ordinal as u16).to_le_bytes())?;
            Ok(())
        }
        LentEntry::Named(name) if name.bytes() == internal => {
            out.push(0)?;
            Ok(())
        }
        LentEntry::Named(name) => push_name(out, name.bytes()),
    }
}

// Writes the contents of the COMENT record where nothing stands.
fn push_comment(contents: &mut Vec<u8>, import: LentImport<'_>) -> Result<(), AllocError>
    requires fits { ImportFits (import_of import) }
    requires none { length contents.old.items ≡ 0 }
    ensures is { OnOk result (contents.new.items ≡ import_comment (import_of import.entry)) }
    ensures short { OnOk result (length contents.new.items ≤ 772) }
{
    contents.extend_from_slice(&IMPORT)?;
    contents.push(u8::from(matches!(import.entry, LentEntry::Ordinal(_))))?;
    push_name(contents, import.name.bytes())?;
    push_uppercase(contents, import.module)?;
    push_entry(contents, import.name.bytes(), import.entry)
}

/// Writes the three records of an object module that gives the import, and nothing else. What `contents` has is of no
/// account: it is where the contents of a record stand before they are written.
pub fn push_import(
    out: &mut Vec<u8>,
    contents: &mut Vec<u8>,
    import: LentImport<'_>,
) -> Result<(), AllocError>
    requires { ImportFits (import_of import) }
    ensures { OnOk result (out.new.items ≡ out.old.items ++ import_bytes (import_of import.entry)) }
{
    contents.clear();
    push_name(contents, import.name.bytes())?;
    push_record(out, THEADR, contents)?;
    contents.clear();
    push_comment(contents, import)?;
    push_record(out, COMENT, contents)?;
    push_record(out, MODEND, &[0])
}

/// The bytes of an object module that gives the import, and nothing else: what an import library has for each
/// export of a module. It is named as the import is, and names the module in upper case. The entry is left out
/// where its name is the import's.
///
/// The module's name is not empty, an ordinal is at most 65,535, and a named entry has a name.
pub fn import_module(alloc: Global, imp: &Imp) -> Result<Vec<u8>, NoMemory>
    requires { ImportFits imp.now }
    ensures written { IfOk result (λ bytes. bytes.items ≡ import_bytes imp.now) }
    ensures read { IfOk result (λ bytes. IsModule bytes.items (import_object imp.now)) }
{
    let import = LentImport::of(imp);
    import.names_fit();
    let mut bytes = Vec::new(alloc);
    let mut contents = Vec::new(alloc);
    push_import(&mut bytes, &mut contents, import)?;
    Ok(bytes)
}
