//! What the definitions say together.

ghost use Rattle.res_bind.specs.Laws.{OldBytesStand};

/// No byte of the old file is moved or changed, but for the header's fields that are set.
pub fn old_bytes_stand()
    ensures { OldBytesStand }
{}
