//! "8Ch EXTDEF", "B4h LEXTDEF".

ghost use Rattle.std.specs.Prelude.{◌≡◌, ◌⊎◌, ◌<◌, IfOk, length};
ghost use Rattle.omf_model.specs.Begun.{IsBegun};
ghost use Rattle.lx_types.specs.Answers.{as_is, if_said, Gives, Reads};
ghost use Rattle.omf_model.specs.ReadAfter.{read_after};
ghost use Rattle.omf_model.specs.ReadNames.{ext_at};
ghost use Rattle.omf_names.specs.Symbols.{ext_named};

use lx_types::{Fail, Name};
use obj_types::{Ext, ObjParts, OmfRefusal};
use omf_fields::Fields;
use omf_frame::Rec;
use omf_frame::record_type::{EXTDEF, LEXTDEF, LEXTDEF_32};
use std::alloc::Global;

/// The name of the next external. Its type index is 0.
#[tactic(auto, unfolding(omf_model::specs::ReadNames::ext_at))]
fn external<'a>(fields: &mut Fields<'a>) -> Result<&'a [u8], OmfRefusal>
    ensures read { Reads (λ name. ext_named name.now) as_is result ext_at fields.old fields.new }
    ensures short { IfOk result (λ name. length name.now < 256) }
{
    let name = fields.name()?;
    fields.index_or_zero(0)?;
    Ok(name)
}

/// Adds the externals of an EXTDEF or LEXTDEF record, up to its end. Those of the latter are local. After a
/// refusal nothing is told of the parts.
pub fn extdef(alloc: Global, rec: &Rec, into: &mut ObjParts) -> Result<(), Fail<OmfRefusal>>
    requires kind { (rec.now.ty ≡ EXTDEF) ⊎ (rec.now.ty ≡ LEXTDEF) ⊎ (rec.now.ty ≡ LEXTDEF_32) }
    requires begun { IsBegun into.old }
    ensures { Gives (λ _. into.new) if_said result (read_after into.old rec.now) }
{
    let local = rec.ty != EXTDEF;
    let mut fields = Fields::of(rec);
    'externals: while !fields.is_empty() {
        let name = match external(&mut fields) {
            Ok(name) => name,
            Err(refusal) => return Err(Fail::Said(refusal)),
        };
        let name = Name::of_short(alloc, name)?;
        into.module.exts.push(Ext {
            name,
            local,
            common: None,
        })?;
    }
    Ok(())
}
