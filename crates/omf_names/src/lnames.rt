//! "96h LNAMES".

ghost use Rattle.std.specs.Prelude.{◌≡◌};
ghost use Rattle.omf_model.specs.Begun.{IsBegun};
ghost use Rattle.lx_types.specs.Answers.{if_said, Gives};
ghost use Rattle.omf_model.specs.ReadAfter.{read_after};

use lx_types::{Fail, Name};
use obj_types::{ObjParts, OmfRefusal};
use omf_fields::Fields;
use omf_frame::Rec;
use omf_frame::record_type::LNAMES;
use std::alloc::Global;

/// Adds the names of an LNAMES record, up to its end. After a refusal nothing is told of the parts.
pub fn names(alloc: Global, rec: &Rec, into: &mut ObjParts) -> Result<(), Fail<OmfRefusal>>
    requires kind { rec.now.ty ≡ LNAMES }
    requires begun { IsBegun into.old }
    ensures { Gives (λ _. into.new) if_said result (read_after into.old rec.now) }
{
    let mut fields = Fields::of(rec);
    'names: while !fields.is_empty() {
        let bytes = match fields.name() {
            Ok(bytes) => bytes,
            Err(refusal) => return Err(Fail::Said(refusal)),
        };
        let name = Name::of_short(alloc, bytes)?;
        into.names.push(name)?;
    }
    Ok(())
}
