//! Laws over the parts of a link, each the contract of a function that does nothing.

ghost use Rattle.seg_merge.specs.Agreeing.{FlagsAgree};
ghost use Rattle.seg_merge.specs.ObjectNumbers.{ObjectNumbers};
ghost use Rattle.seg_merge.specs.Origins.{OffsetsAre, OriginsApart};

/// A law: no two parts of a link have the same origin.
pub fn origins_are_apart()
    ensures { OriginsApart }
{}

/// A law: where no use is mixed, all parts of a logical segment have the same flags.
pub fn segments_have_flags()
    ensures { FlagsAgree }
{}

/// A law: each part of a logical segment that is not common stands after those before it.
pub fn parts_stand_in_order()
    ensures { OffsetsAre }
{}

/// A law: objects are numbered by the places of their keys.
pub fn objects_are_numbered()
    ensures { ObjectNumbers }
{}
