//! That the steps of this crate are those of the rules of linking.

ghost use Rattle.seg_parts.specs.Steps.{StepsOfLinks, ClassesInOrder, GroupsHaveMembers, CommunalsFollow};

/// A law: what the steps count of their own lists is what the rules say of a link with these lists.
pub fn steps_are_the_rules()
    ensures { StepsOfLinks }
{}

/// A law: gathered by the numbers of their classes, logical segments stand class by class.
pub fn classes_stand_in_order()
    ensures { ClassesInOrder }
{}

/// A law: a part is in a group exactly where its logical segment is among the group's members.
pub fn groups_have_members()
    ensures { GroupsHaveMembers }
{}

/// A law: communals are use32 as the logical segments of DGROUP say.
pub fn communals_follow()
    ensures { CommunalsFollow }
{}
