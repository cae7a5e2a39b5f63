//! "B0h COMDEF".

ghost use Rattle.std.specs.Prelude.{◌≡◌, ◌<◌, ◌≤◌, ◌*◌, IfOk, length};
ghost use Rattle.obj_types.specs.declared.limits.TheConstants.{MAX_DATA};
ghost use Rattle.omf_model.specs.Begun.{IsBegun};
ghost use Rattle.lx_types.specs.Answers.{as_is, if_said, Gives, Reads};
ghost use Rattle.omf_model.specs.ReadAfter.{read_after};
ghost use Rattle.omf_model.specs.Items.{communal_of};
ghost use Rattle.omf_model.specs.ReadNames.{far_at, near_at, communal_at, com_at};
ghost use Rattle.omf_names.specs.Symbols.{communal, com_def};

use lx_types::{Fail, Name};
use obj_types::{Common, Ext, MAX_DATA, ObjParts, OmfRefusal};
use omf_fields::Fields;
use omf_frame::Rec;
use omf_frame::record_type::COMDEF;
use std::alloc::Global;

// The types of communal storage.
const FAR: u8 = 0x61;

const NEAR: u8 = 0x62;

/// The storage that a communal name asks for, in bytes or in elements of some bytes each.
#[derive(Clone, Copy)]
pub enum Storage {
    Far { count: u32, size: u32 },
    Near { size: u32 },
}

/// A communal name. Its type index is 0.
#[derive(Clone, Copy)]
pub struct ComFields<'a> {
    name: &'a [u8],
    storage: Storage,
}

/// Elements and their size, which are within the limit of a module's data together.
#[tactic(auto, unfolding(omf_model::specs::ReadNames::far_at))]
fn far(fields: &mut Fields) -> Result<Storage, OmfRefusal>
    ensures read { Reads communal as_is result far_at fields.old fields.new }
    ensures limit { IfOk result (λ s. (communal_of (communal s)).len ≤ MAX_DATA) }
{
    let at = fields.at();
    let count = fields.length()?;
    let size = fields.length()?;
    if u64::from(count) * u64::from(size) > u64::from(MAX_DATA) {
        return Err(OmfRefusal::BadField { at });
    }
    Ok(Storage::Far { count, size })
}

/// A size within the limit of a module's data.
#[tactic(auto, unfolding(omf_model::specs::ReadNames::near_at))]
fn near(fields: &mut Fields) -> Result<Storage, OmfRefusal>
    ensures read { Reads communal as_is result near_at fields.old fields.new }
    ensures limit { IfOk result (λ s. (communal_of (communal s)).len ≤ MAX_DATA) }
{
    let at = fields.at();
    let size = fields.length()?;
    if size > MAX_DATA {
        return Err(OmfRefusal::BadField { at });
    }
    Ok(Storage::Near { size })
}

/// The storage's type byte, and what it says stands after it.
#[tactic(auto, unfolding(omf_model::specs::ReadNames::communal_at))]
fn asked_storage(fields: &mut Fields) -> Result<Storage, OmfRefusal>
    ensures read { Reads communal as_is result communal_at fields.old fields.new }
    ensures limit { IfOk result (λ s. (communal_of (communal s)).len ≤ MAX_DATA) }
{
    let at = fields.at();
    let kind = fields.byte()?;
    if kind == FAR {
        far(fields)
    } else if kind == NEAR {
        near(fields)
    } else {
        Err(OmfRefusal::BadField { at })
    }
}

/// The next communal name and its storage.
#[tactic(auto, unfolding(omf_model::specs::ReadNames::com_at))]
fn communal_name<'a>(fields: &mut Fields<'a>) -> Result<ComFields<'a>, OmfRefusal>
    ensures read { Reads com_def as_is result com_at fields.old fields.new }
    ensures short { IfOk result (λ d. length d.name.now < 256) }
    ensures limit { IfOk result (λ d. (communal_of (communal d.storage)).len ≤ MAX_DATA) }
{
    let name = fields.name()?;
    fields.index_or_zero(0)?;
    let storage = asked_storage(fields)?;
    Ok(ComFields { name, storage })
}

/// What the linker has to keep for the name.
fn common(storage: Storage) -> Common
    requires { (communal_of (communal storage)).len ≤ MAX_DATA }
    ensures { result ≡ communal_of (communal storage) }
{
    match storage {
        Storage::Far { count, size } => Common {
            far: true,
            len: count * size,
        },
        Storage::Near { size } => Common {
            far: false,
            len: size,
        },
    }
}

/// Adds the communal names of a COMDEF record, up to its end, as externals. After a refusal nothing is told of
/// the parts.
pub fn comdef(alloc: Global, rec: &Rec, into: &mut ObjParts) -> Result<(), Fail<OmfRefusal>>
    requires kind { rec.now.ty ≡ COMDEF }
    requires begun { IsBegun into.old }
    ensures { Gives (λ _. into.new) if_said result (read_after into.old rec.now) }
{
    let mut fields = Fields::of(rec);
    'communals: while !fields.is_empty() {
        let communal = match communal_name(&mut fields) {
            Ok(communal) => communal,
            Err(refusal) => return Err(Fail::Said(refusal)),
        };
        let name = Name::of_short(alloc, communal.name)?;
        into.module.exts.push(Ext {
            name,
            local: false,
            common: Some(common(communal.storage)),
        })?;
    }
    Ok(())
}
