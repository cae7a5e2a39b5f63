//! The definitions of COMDATs tried on files whose meaning is known.

ghost use Rattle.std.specs.Prelude.{◌≡◌, ◌++◌, Ok, Err, map};
ghost use Rattle.omf_model.specs.ReadModule.{object_of};
ghost use Rattle.omf_model.specs.Examples.{start, end_record};
ghost use Rattle.omf_model.specs.ComdatExamples.{begin, four_bytes, with_four_bytes, first_part, second_part, other_segment, in_two_parts, faults};

/// A COMDAT of four bytes, and one in two records with a segment between them.
pub fn comdats_are_segments()
    ensures alone { object_of (begin ++ four_bytes ++ end_record) ≡ Ok with_four_bytes }
    ensures continued { object_of (start 8 ++ first_part ++ other_segment ++ second_part ++ end_record) ≡ Ok in_two_parts }
{}

/// A file for each fault of a COMDAT record.
pub fn each_comdat_refusal()
    ensures { map (λ file. object_of file.0) faults ≡ map (λ file. Err file.1) faults }
{}
