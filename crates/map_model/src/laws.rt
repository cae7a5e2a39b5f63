//! Laws over maps, each the contract of a function that does nothing.

ghost use Rattle.map_model.specs.MapLaws.{MapsTellAll, MapsAreOne, LinksHaveMaps};

use link_model::segments_stand_in_objects;

/// The map of a link of whole modules has its first line, and one line for each object, each segment that holds no
/// debugger's data, each communal, each public that is not local, and each import pair; and no other.
pub fn maps_tell_all()
    ensures { MapsTellAll }
{
    segments_stand_in_objects();
}

/// A link has one map at most, under one name: publics with one address and one name have one line.
pub fn maps_are_one()
    ensures { MapsAreOne }
{}

/// Each link has one.
pub fn links_have_maps()
    ensures { LinksHaveMaps }
{}
