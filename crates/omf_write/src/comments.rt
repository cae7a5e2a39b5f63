//! The comments for imports, exports and default libraries ("88h COMENT").

ghost use Rattle.std.specs.Prelude.{◌≡◌, ◌++◌, ◌≤◌, ◌<◌, ◌^◌, IfOk, IfSome, OnOk, length};
ghost use Rattle.std.specs.List.{AllByRecursion, flat_map};
ghost use Rattle.lx_types.specs.Names.{IsName};
ghost use Rattle.implib_model.specs.ImportModule.{ImportFits, NamesFit};
ghost use Rattle.omf_write.specs.ObjectBytes.{export_flag, ordinal_bytes, impdef_bytes, impdef_record, expdef_bytes, expdef_record, deflib_bytes, deflib_record};
ghost use Rattle.omf_write.specs.ObjectFits.{ExpFits};

use crate::fields::push_name;
use crate::framed::push_record;
use crate::imports::{IMPORT, push_entry};
use crate::lent::{LentEntry, LentImport};
use lx_types::{EntryKey, Name, NoMemory};
use obj_types::{Exp, Imp};
use omf_frame::comment_class::{DEFAULT_LIBRARY, EXPDEF, EXTENSION};
use omf_frame::record_type::COMENT;
use std::alloc::{AllocError, Global};

// The flags of a COMENT, the class of extensions, and the subtype of EXPDEF.
const EXPORT: [u8; 3] = [0, EXTENSION, EXPDEF];

// The flags of a COMENT, and the class of default libraries.
const LIBRARY: [u8; 2] = [0, DEFAULT_LIBRARY];

// The contents of a COMENT record for an import.
fn impdef_contents(alloc: Global, imp: &Imp) -> Result<Vec<u8>, NoMemory>
    requires { ImportFits imp.now }
    ensures is { IfOk result (λ contents. contents.items ≡ impdef_bytes imp.now) }
    ensures short { IfOk result (λ contents. length contents.items ≤ 772) }
    ensures fits { NamesFit imp.now }
{
    LentImport::of(imp).names_fit();
    let mut contents = Vec::from_slice(alloc, &IMPORT)?;
    contents.push(u8::from(matches!(imp.entry, EntryKey::Ordinal(_))))?;
    push_name(&mut contents, imp.name.bytes())?;
    push_name(&mut contents, imp.module.bytes())?;
    push_entry(&mut contents, imp.name.bytes(), LentEntry::of(&imp.entry))?;
    Ok(contents)
}

/// Writes a comment for each import.
pub fn push_imports(alloc: Global, out: &mut Vec<u8>, imports: &[Imp]) -> Result<(), NoMemory>
    requires { AllByRecursion ImportFits imports.now }
    ensures is { OnOk result (out.new.items ≡ out.old.items ++ flat_map impdef_record imports.now) }
    ensures fits { OnOk result (AllByRecursion NamesFit imports.now) }
{
    for imp in imports {
        let contents = impdef_contents(alloc, imp)?;
        push_record(out, COMENT, &contents)?;
    }
    Ok(())
}

// An export's flag byte: 80h an ordinal, 40h a resident name, 20h no data, and the parameter words.
fn export_flag(export: &Exp) -> u8
    ensures { result ≡ export_flag export.now }
{
    let ordinal = if export.ordinal.is_some() { 128 } else { 0 };
    ordinal + u8::from(export.resident) * 64 + u8::from(export.nodata) * 32 + export.words % 32
}

// Writes an export's ordinal, where it has one.
fn push_ordinal(out: &mut Vec<u8>, ordinal: Option<u16>) -> Result<(), AllocError>
    ensures is { OnOk result (out.new.items ≡ out.old.items ++ ordinal_bytes ordinal) }
    ensures fits { OnOk result (IfSome ordinal (λ n. n < 2 ^ 16)) }
{
    let Some(number) = ordinal else {
        return Ok(());
    };
    out.extend_from_slice(&number.to_le_bytes())?;
    Ok(())
}

// The contents of a COMENT record for an export.
fn expdef_contents(alloc: Global, export: &Exp) -> Result<Vec<u8>, NoMemory>
    ensures is { IfOk result (λ contents. contents.items ≡ expdef_bytes export.now) }
    ensures short { IfOk result (λ contents. length contents.items ≤ 518) }
    ensures fits { IfOk result (λ _. ExpFits export.now) }
{
    let mut contents = Vec::from_slice(alloc, &EXPORT)?;
    contents.push(export_flag(export))?;
    push_name(&mut contents, export.name.bytes())?;
    push_name(&mut contents, export.internal.bytes())?;
    push_ordinal(&mut contents, export.ordinal)?;
    Ok(contents)
}

/// Writes a comment for each export.
pub fn push_exports(alloc: Global, out: &mut Vec<u8>, exports: &[Exp]) -> Result<(), NoMemory>
    ensures is { OnOk result (out.new.items ≡ out.old.items ++ flat_map expdef_record exports.now) }
    ensures fits { OnOk result (AllByRecursion ExpFits exports.now) }
{
    for export in exports {
        let contents = expdef_contents(alloc, export)?;
        push_record(out, COMENT, &contents)?;
    }
    Ok(())
}

// The contents of a COMENT record for a default library.
fn deflib_contents(alloc: Global, name: &Name) -> Result<Vec<u8>, NoMemory>
    ensures is { IfOk result (λ contents. contents.items ≡ deflib_bytes name.now) }
    ensures short { IfOk result (λ contents. length contents.items ≤ 257) }
    ensures fits { IfOk result (λ _. IsName name.now) }
{
    let mut contents = Vec::from_slice(alloc, &LIBRARY)?;
    contents.extend_from_slice(name.bytes())?;
    Ok(contents)
}

/// Writes a comment for each default library.
pub fn push_libraries(alloc: Global, out: &mut Vec<u8>, names: &[Name]) -> Result<(), NoMemory>
    ensures is { OnOk result (out.new.items ≡ out.old.items ++ flat_map deflib_record names.now) }
    ensures fits { OnOk result (AllByRecursion IsName names.now) }
{
    for name in names {
        let contents = deflib_contents(alloc, name)?;
        push_record(out, COMENT, &contents)?;
    }
    Ok(())
}
