//! "9Ch FIXUPP".

ghost use Rattle.std.specs.Prelude.{◌≡◌, ◌⊎◌, OnOk};
ghost use Rattle.omf_data.specs.Marks.{AreMarks};
ghost use Rattle.omf_model.specs.Begun.{IsBegun};
ghost use Rattle.lx_types.specs.Answers.{if_said, Gives};
ghost use Rattle.omf_model.specs.ReadAfter.{read_after};

use crate::field::next_field;
use crate::have::Have;
use crate::starts::Fixupp;
use lx_types::Fail;
use obj_types::{ObjParts, OmfRefusal};
use omf_data::Marks;
use omf_fields::Fields;
use omf_frame::Rec;
use omf_frame::record_type::{FIXUPP, FIXUPP_32};
use std::alloc::Global;

/// Adds what a FIXUPP record says, field after field: threads that later fixups name, and fixes on the data of the
/// last data record, one in each of its copies. The marks see what they have not seen of the parts. After a refusal
/// nothing is told of the parts.
pub fn fixups_marked(
    alloc: Global,
    rec: &Rec,
    into: &mut ObjParts,
    marks: &mut Marks,
) -> Result<(), Fail<OmfRefusal>>
    requires kind { (rec.now.ty ≡ FIXUPP) ⊎ (rec.now.ty ≡ FIXUPP_32) }
    requires begun { IsBegun into.old }
    requires marks { AreMarks marks.old into.old }
    ensures read { Gives (λ _. into.new) if_said result (read_after into.old rec.now) }
    ensures marks { OnOk result (AreMarks marks.new into.new) }
{
    let have = Have::of(into)?;
    let fixupp = Fixupp {
        at: rec.at,
        wide: rec.ty % 2 == 1,
        have,
    };
    let mut fields = Fields::of(rec);
    'fields: while !fields.is_empty() {
        next_field(alloc, &mut fields, fixupp, into, marks)?;
    }
    Ok(())
}

/// Adds what a FIXUPP record ("9Ch FIXUPP") says to parts of which no marks were kept. After a refusal nothing is told
/// of the parts.
pub fn fixups(alloc: Global, rec: &Rec, into: &mut ObjParts) -> Result<(), Fail<OmfRefusal>>
    requires kind { (rec.now.ty ≡ FIXUPP) ⊎ (rec.now.ty ≡ FIXUPP_32) }
    requires begun { IsBegun into.old }
    ensures { Gives (λ _. into.new) if_said result (read_after into.old rec.now) }
{
    let mut marks = Marks::new(alloc);
    fixups_marked(alloc, rec, into, &mut marks)
}
