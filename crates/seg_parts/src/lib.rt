//! Steps of a link's layout: its parts, their logical segments, groups, classes and flags, its objects, and where each stands.
#![tactic(auto)]

mod all_groups;
mod all_parts;
mod attributes;
mod communals;
mod groups;
mod laws;
mod logical_segments;
mod members;
mod objects;
mod offsets;
mod order;
mod parts;
mod refusals;
mod rows;

pub use all_groups::{LinkGroups, link_groups};
pub use all_parts::parts_of;
pub use attributes::flags_of;
pub use communals::{add_own_stack, any_stack, wants_stack};
pub use groups::{GroupNames, group_names_of};
pub use laws::{
    classes_stand_in_order, communals_follow, groups_have_members, steps_are_the_rules,
};
pub use logical_segments::{LogicalSegments, SegmentName, segments_of};
pub use members::{Member, add_near, members_of};
pub use objects::{ObjectName, laid_objects, object_name, object_places};
pub use offsets::{alignment_of, end_of_parts, is_common, next_multiple};
pub use order::{by_class, empty_lists, gathered};
pub use parts::{FixedNames, Part, fixed_names, part_of};
pub use refusals::check_absolute;
pub use rows::{Placed, Rows, Unplaced, rows_of};
