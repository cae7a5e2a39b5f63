//! "8Ah MODEND".

ghost use Rattle.std.specs.Prelude.{◌≡◌, ◌⊎◌};
ghost use Rattle.lx_types.specs.Answers.{as_is, if_said, Gives};
ghost use Rattle.omf_fix.specs.Methods.{Counts};
ghost use Rattle.omf_model.specs.Begun.{IsBegun};
ghost use Rattle.omf_model.specs.ReadAfter.{read_after, then_add};
ghost use Rattle.omf_model.specs.ReadFixups.{modend_at};
ghost use Rattle.omf_files.specs.Modules.{started};

use lx_types::Fail;
use obj_types::{ObjParts, OmfRefusal, StartAt};
use omf_fields::Fields;
use omf_fix::{Have, start_at};
use omf_frame::Rec;
use omf_frame::record_type::{MODEND, MODEND_32};

/// The start address, where the module type byte says that one stands there.
#[tactic(auto, unfolding(omf_model::specs::ReadFixups::modend_at, omf_model::specs::Add::add))]
fn start(
    fields: &mut Fields,
    wide: bool,
    before: &ObjParts,
    have: Have,
) -> Result<Option<StartAt>, OmfRefusal>
    requires { Counts have before.now }
    ensures { Gives (started before.now) as_is result (then_add before.now (modend_at wide before.now fields.old)) }
{
    let kind = fields.byte()?;
    if kind / 64 % 2 == 1 {
        Ok(Some(start_at(fields, wide, before, have)?))
    } else {
        Ok(None)
    }
}

/// Sets the start address that a MODEND record has. After a refusal nothing is told of the parts.
pub fn modend(rec: &Rec, into: &mut ObjParts) -> Result<(), Fail<OmfRefusal>>
    requires kind { (rec.now.ty ≡ MODEND) ⊎ (rec.now.ty ≡ MODEND_32) }
    requires begun { IsBegun into.old }
    ensures { Gives (λ _. into.new) if_said result (read_after into.old rec.now) }
{
    let have = Have::of(into)?;
    let wide = rec.ty % 2 == 1;
    let mut fields = Fields::of(rec);
    let start = match start(&mut fields, wide, into, have) {
        Ok(start) => start,
        Err(refusal) => return Err(Fail::Said(refusal)),
    };
    into.module.start = start;
    Ok(())
}
