//! "88h COMENT": default libraries, imports and exports.

ghost use Rattle.std.specs.Prelude.{◌≡◌, ◌<◌, ◌∷◌, ◌++◌, [], IfOk, OnOk, length};
ghost use Rattle.lx_types.specs.Answers.{as_is, if_said, Gives, Reads};
ghost use Rattle.omf_model.specs.Add.{add};
ghost use Rattle.omf_model.specs.Begun.{IsBegun};
ghost use Rattle.omf_model.specs.ReadAfter.{read_after};
ghost use Rattle.omf_model.specs.Items.{entry_of, export_of, import_of, or_else};
ghost use Rattle.omf_model.specs.ReadComments.{coment_at, entry_at, expdef_at, extension_at, given_name_at, impdef_at, library_at};
ghost use Rattle.omf_names.specs.Comments.{comment_record, exp_def, exp_record, imp_def, imp_entry, imp_record, IsShort, IsShortEntry, IsShortExport, IsShortImport};

use lx_types::{EntryKey, Fail, Name, NoMemory, Seq};
use obj_types::{Exp, Imp, Imports, ObjParts, OmfRefusal};
use omf_fields::Fields;
use omf_frame::Rec;
use omf_frame::comment_class::{DEFAULT_LIBRARY, EXPDEF, EXTENSION, IMPDEF};
use omf_frame::record_type::COMENT;
use std::alloc::Global;

// In an EXPDEF's flag byte, whether an ordinal stands there.
const HAS_ORDINAL: u8 = 0x80;

/// The entry of an IMPDEF.
#[derive(Clone, Copy)]
pub enum EntryFields<'a> {
    ByOrdinal(u16),
    ByName(&'a [u8]),
}

/// An IMPDEF.
#[derive(Clone, Copy)]
pub struct ImpFields<'a> {
    flag: u8,
    internal: &'a [u8],
    from: &'a [u8],
    entry: EntryFields<'a>,
}

/// An EXPDEF.
#[derive(Clone, Copy)]
pub struct ExpFields<'a> {
    flag: u8,
    exported: &'a [u8],
    internal: &'a [u8],
    ordinal: Option<u16>,
}

/// What a comment says.
#[derive(Clone, Copy)]
pub enum Comment<'a> {
    /// The name of a default library.
    Library(&'a [u8]),
    Import(ImpFields<'a>),
    Export(ExpFields<'a>),
    /// A comment that is passed over.
    Other,
}

/// The next name, which is not empty.
#[tactic(auto, unfolding(omf_model::specs::ReadComments::given_name_at))]
fn given_name<'a>(fields: &mut Fields<'a>) -> Result<&'a [u8], OmfRefusal>
    ensures read { Reads (λ name. name.now) as_is result given_name_at fields.old fields.new }
    ensures short { IfOk result (λ name. length name.now < 256) }
{
    let at = fields.at();
    let name = fields.name()?;
    if name.is_empty() {
        return Err(OmfRefusal::BadField { at });
    }
    Ok(name)
}

/// The entry of an IMPDEF: by ordinal where the flag is not 0.
#[tactic(auto, unfolding(omf_model::specs::ReadComments::entry_at))]
fn entry_fields<'a>(fields: &mut Fields<'a>, flag: u8) -> Result<EntryFields<'a>, OmfRefusal>
    ensures read { Reads imp_entry as_is result (entry_at flag) fields.old fields.new }
    ensures short { IfOk result IsShortEntry }
{
    if flag == 0 {
        Ok(EntryFields::ByName(fields.name()?))
    } else {
        Ok(EntryFields::ByOrdinal(fields.word()?))
    }
}

/// The fields of an IMPDEF.
#[tactic(auto, unfolding(omf_model::specs::ReadComments::impdef_at))]
fn import_fields<'a>(fields: &mut Fields<'a>) -> Result<ImpFields<'a>, OmfRefusal>
    ensures read { Gives imp_record as_is result (impdef_at fields.old) }
    ensures short { IfOk result IsShortImport }
{
    let flag = fields.byte()?;
    let internal = fields.name()?;
    let from = given_name(fields)?;
    let entry = entry_fields(fields, flag)?;
    Ok(ImpFields {
        flag,
        internal,
        from,
        entry,
    })
}

/// The fields of an EXPDEF.
#[tactic(auto, unfolding(omf_model::specs::ReadComments::expdef_at))]
fn export_fields<'a>(fields: &mut Fields<'a>) -> Result<ExpFields<'a>, OmfRefusal>
    ensures read { Gives exp_record as_is result (expdef_at fields.old) }
    ensures short { IfOk result IsShortExport }
{
    let flag = fields.byte()?;
    let exported = given_name(fields)?;
    let internal = fields.name()?;
    let ordinal = fields.word_where(flag >= HAS_ORDINAL)?;
    Ok(ExpFields {
        flag,
        exported,
        internal,
        ordinal,
    })
}

/// The comment of the class of extensions.
#[tactic(auto, unfolding(omf_model::specs::ReadComments::extension_at))]
fn extension<'a>(fields: &mut Fields<'a>) -> Result<Comment<'a>, OmfRefusal>
    ensures read { Gives comment_record as_is result (extension_at fields.old) }
    ensures short { IfOk result IsShort }
{
    let subtype = fields.byte()?;
    if subtype == IMPDEF {
        Ok(Comment::Import(import_fields(fields)?))
    } else if subtype == EXPDEF {
        Ok(Comment::Export(export_fields(fields)?))
    } else {
        Ok(Comment::Other)
    }
}

/// The comment of the class of default libraries: all bytes that are left are the name.
fn library<'a>(fields: &Fields<'a>) -> Result<Comment<'a>, OmfRefusal>
    ensures read { Gives comment_record as_is result (library_at fields.now) }
    ensures short { IfOk result IsShort }
{
    let name = fields.rest();
    if name.len() > 255 {
        return Err(OmfRefusal::BadField { at: fields.at() });
    }
    Ok(Comment::Library(name))
}

/// The comment that a COMENT record is.
#[tactic(auto, unfolding(omf_model::specs::ReadComments::coment_at))]
fn comment_of<'a>(fields: &mut Fields<'a>) -> Result<Comment<'a>, OmfRefusal>
    ensures read { Gives comment_record as_is result (coment_at fields.old) }
    ensures short { IfOk result IsShort }
{
    fields.byte()?;
    let class = fields.byte()?;
    if class == DEFAULT_LIBRARY {
        library(fields)
    } else if class == EXTENSION {
        extension(fields)
    } else {
        Ok(Comment::Other)
    }
}

// The name, or the other one where it is empty.
fn or<'a>(name: &'a [u8], other: &'a [u8]) -> &'a [u8]
    requires name { length name.now < 256 }
    requires other { length other.now < 256 }
    ensures name { result.now ≡ or_else name.now other.now }
    ensures short { length result.now < 256 }
{
    if name.is_empty() { other } else { name }
}

// How the import asks for its entry. An empty entry name means the internal name.
fn entry_key(alloc: Global, wanted: EntryFields, internal: &[u8]) -> Result<EntryKey, NoMemory>
    requires wanted { IsShortEntry wanted }
    requires internal { length internal.now < 256 }
    ensures { IfOk result (λ key. key ≡ entry_of internal.now (imp_entry wanted.entry)) }
{
    match wanted {
        EntryFields::ByOrdinal(ordinal) => Ok(EntryKey::Ordinal(u32::from(ordinal))),
        EntryFields::ByName(name) => Ok(EntryKey::Named(Name::of_short(
            alloc,
            or(name, internal),
        )?)),
    }
}

// The import that the fields define.
fn import(alloc: Global, d: ImpFields) -> Result<Imp, NoMemory>
    requires { IsShortImport d }
    ensures { IfOk result (λ import. import ≡ import_of (imp_def d.entry)) }
{
    Ok(Imp {
        name: Name::of_short(alloc, d.internal)?,
        module: Name::of_short(alloc, d.from)?,
        entry: entry_key(alloc, d.entry, d.internal)?,
    })
}

// The export that the fields define. An empty internal name means the exported one.
fn export(alloc: Global, d: ExpFields) -> Result<Exp, NoMemory>
    requires { IsShortExport d }
    ensures { IfOk result (λ export. export ≡ export_of (exp_def d.entry)) }
{
    Ok(Exp {
        name: Name::of_short(alloc, d.exported)?,
        internal: Name::of_short(alloc, or(d.internal, d.exported))?,
        ordinal: d.ordinal,
        resident: d.flag / 64 % 2 == 1,
        nodata: d.flag / 32 % 2 == 1,
        words: d.flag % 32,
    })
}

// Adds an import. Each object file of an import library has one, so the first takes room for no more than itself.
fn add_import(alloc: Global, import: Imp, into: &mut Imports) -> Result<(), NoMemory>
    ensures { OnOk result (into.new ≡ into.old ++ import ∷ []) }
{
    if into.as_slice().is_empty() {
        let mut first = Vec::with_capacity(alloc, 1)?;
        first.push(import)?;
        *into = Seq::from_vec(first);
        return Ok(());
    }
    into.push(import)
}

// Adds what the comment says.
fn add_comment(alloc: Global, said: Comment, into: &mut ObjParts) -> Result<(), NoMemory>
    requires { IsShort said }
    ensures { OnOk result (into.new ≡ add into.old (comment_record said.entry)) }
{
    match said {
        Comment::Library(name) => {
            let name = Name::of_short(alloc, name)?;
            into.module.deflibs.push(name)?;
        }
        Comment::Import(d) => {
            let import = import(alloc, d)?;
            add_import(alloc, import, &mut into.module.imports)?;
        }
        Comment::Export(d) => {
            let export = export(alloc, d)?;
            into.module.exports.push(export)?;
        }
        Comment::Other => {}
    }
    Ok(())
}

/// Adds what a COMENT record says: a default library, an import or an export. Other comments are passed over.
/// After a refusal nothing is told of the parts.
pub fn coment(alloc: Global, rec: &Rec, into: &mut ObjParts) -> Result<(), Fail<OmfRefusal>>
    requires kind { rec.now.ty ≡ COMENT }
    requires begun { IsBegun into.old }
    ensures { Gives (λ _. into.new) if_said result (read_after into.old rec.now) }
{
    let mut fields = Fields::of(rec);
    let comment = match comment_of(&mut fields) {
        Ok(comment) => comment,
        Err(refusal) => return Err(Fail::Said(refusal)),
    };
    add_comment(alloc, comment, into)?;
    Ok(())
}
