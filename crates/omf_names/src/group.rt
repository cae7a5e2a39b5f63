//! "9Ah GRPDEF".

ghost use Rattle.std.specs.Prelude.{◌≡◌, ◌<◌, IfOk, bytes_eq, codes, length};
ghost use Rattle.omf_fields.specs.Fields.{list_at};
ghost use Rattle.omf_model.specs.Begun.{IsBegun};
ghost use Rattle.lx_types.specs.Answers.{as_is, if_said, Gives, Reads};
ghost use Rattle.omf_model.specs.ReadAfter.{read_after};
ghost use Rattle.omf_model.specs.Items.{group_of};
ghost use Rattle.omf_model.specs.ReadNames.{member_at};

use crate::indices::{plain_segment, text};
use lx_types::{Fail, Name, NoMemory, Seq, count};
use obj_types::{Group, Members, ObjParts, OmfRefusal};
use omf_fields::Fields;
use omf_frame::Rec;
use omf_frame::record_type::GRPDEF;
use std::alloc::Global;

// The byte before the segment index of a member.
const MEMBER: u8 = 0xFF;

/// The next member, which is one of the `have` segments before. Only FLAT may have one with a debugger's data.
#[tactic(auto, unfolding(omf_model::specs::ReadNames::member_at))]
fn member(fields: &mut Fields, flat: bool, before: &ObjParts, have: u32) -> Result<u32, OmfRefusal>
    requires { have ≡ length before.now.module.segs }
    ensures { Reads (λ n. n) as_is result (member_at flat before.now) fields.old fields.new }
{
    let at = fields.at();
    if fields.byte()? != MEMBER {
        return Err(OmfRefusal::BadField { at });
    }
    if flat {
        fields.index_below(have)
    } else {
        plain_segment(fields, before, have)
    }
}

/// The members up to the record's end.
fn members(
    alloc: Global,
    fields: &mut Fields,
    flat: bool,
    before: &ObjParts,
    have: u32,
) -> Result<Members, Fail<OmfRefusal>>
    requires { have ≡ length before.now.module.segs }
    ensures { Gives (λ m. m) if_said result (list_at (member_at flat before.now) fields.old) }
{
    let mut members = Seq::new(alloc);
    'members: while !fields.is_empty() {
        let member = match member(fields, flat, before, have) {
            Ok(member) => member,
            Err(refusal) => return Err(Fail::Said(refusal)),
        };
        members.push(member)?;
    }
    Ok(members)
}

// Whether the group is the flat address space.
fn is_flat(name: &[u8]) -> bool
    ensures { result ≡ bytes_eq name.now (codes "FLAT") }
{
    name == b"FLAT".as_slice()
}

// The group with these members. Those of FLAT are dropped.
fn group_with(alloc: Global, name: &[u8], members: Members) -> Result<Group, NoMemory>
    requires { length name.now < 256 }
    ensures { IfOk result (λ group. group ≡ group_of name.now members) }
{
    let members = if is_flat(name) {
        Seq::new(alloc)
    } else {
        members
    };
    Ok(Group {
        name: Name::of_short(alloc, name)?,
        members,
    })
}

/// Adds the group that a GRPDEF record defines. The members of FLAT are judged and dropped. After a refusal
/// nothing is told of the parts.
pub fn grpdef(alloc: Global, rec: &Rec, into: &mut ObjParts) -> Result<(), Fail<OmfRefusal>>
    requires kind { rec.now.ty ≡ GRPDEF }
    requires begun { IsBegun into.old }
    ensures { Gives (λ _. into.new) if_said result (read_after into.old rec.now) }
{
    let names = count(into.names.as_slice().len())?;
    let segs = count(into.module.segs.as_slice().len())?;
    let mut fields = Fields::of(rec);
    let index = match fields.index_below(names) {
        Ok(index) => index,
        Err(refusal) => return Err(Fail::Said(refusal)),
    };
    let name = text(into.names.as_slice(), index);
    let members = members(alloc, &mut fields, is_flat(name), into, segs)?;
    let group = group_with(alloc, name, members)?;
    into.module.groups.push(group)?;
    Ok(())
}
