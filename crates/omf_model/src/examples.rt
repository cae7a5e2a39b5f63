//! The definitions tried on files whose meaning is known from outside.

ghost use Rattle.std.specs.Prelude.{◌≡◌, ◌∷◌, ◌++◌, ◌≤◌, [], Ok, Err, ℕ, map, take, replicate};
ghost use Rattle.std.specs.List.{range_with_len, repeat};
ghost use Rattle.obj_types.specs.declared.refusal.OmfRefusal.TheVariants.{Short, NoThread, TooMany};
ghost use Rattle.obj_types.specs.Definition.{WholeDef};
ghost use Rattle.obj_types.specs.Input.{WholeInput};
ghost use Rattle.omf_model.specs.ReadModule.{object_of, library_of};
ghost use Rattle.omf_model.specs.Examples.{start, zero_data, fixup_record, thread_record, unset_thread, blocks_record, blocks_fixup, end_record, module_a, piece, fix_at, library, imported, symbols, with_symbols};
ghost use Rattle.omf_model.specs.FaultExamples.{faults};
ghost use Rattle.omf_model.specs.WholeExamples.{definition_d, input_d, one_too_many};

/// An object file of one segment, with and without its fixup.
pub fn one_segment()
    ensures plain { object_of (start 8 ++ zero_data ++ end_record) ≡ Ok (module_a 8 (piece (replicate 8 0) ∷ []) []) }
    ensures fixed { object_of (start 8 ++ zero_data ++ fixup_record ++ end_record) ≡ Ok (module_a 8 (piece (replicate 8 0) ∷ []) (fix_at 9 4 ∷ [])) }
{}

/// The fixup's frame and target by threads, which its record sets or not.
pub fn threads()
    ensures set { object_of (start 8 ++ zero_data ++ thread_record ++ end_record) ≡ Ok (module_a 8 (piece (replicate 8 0) ∷ []) (fix_at 9 4 ∷ [])) }
    ensures unset { object_of (start 8 ++ zero_data ++ unset_thread ++ end_record) ≡ Err (NoThread 67) }
{}

/// Blocks of two bytes, six times; and a fixup on them, which is one in each copy.
pub fn copies_of_blocks()
    ensures { object_of (start 12 ++ blocks_record ++ blocks_fixup ++ end_record)
        ≡ Ok (module_a 12 (piece (repeat 6 (0xAB ∷ 0xCD ∷ [])) ∷ []) (map (fix_at 1) (0 ∷ 2 ∷ 4 ∷ 6 ∷ 8 ∷ 10 ∷ []))) }
{}

/// An import library of one module.
pub fn import_library()
    ensures { library_of library ≡ Ok (imported ∷ []) }
{}

/// One record of each kind of symbol and comment, and a start address.
pub fn symbols_of_each_kind()
    ensures { object_of (start 8 ++ symbols) ≡ Ok with_symbols }
{}

/// A file for each refusal.
pub fn each_refusal()
    ensures { map (λ file. object_of file.0) faults ≡ map (λ file. Err file.1) faults }
{}

/// Of a file that is cut off, the record that is not whole is the first fault.
pub fn the_first_bytes()
    ensures { map (λ n. object_of (take n (start 8 ++ zero_data ++ fixup_record ++ end_record)))
        (0 ∷ 5 ∷ 6 ∷ 27 ∷ 28 ∷ 39 ∷ 40 ∷ 44 ∷ 45 ∷ 61 ∷ 62 ∷ 70 ∷ 71 ∷ 75 ∷ [])
        ≡ map (λ at. Err (Short at)) (0 ∷ 0 ∷ 6 ∷ 6 ∷ 28 ∷ 28 ∷ 40 ∷ 40 ∷ 45 ∷ 45 ∷ 62 ∷ 62 ∷ 71 ∷ 71 ∷ []) }
{}

/// A fixup on LIDATA with more copies than a module may have fixups.
pub fn one_fixup_too_many()
    ensures { object_of one_too_many ≡ Err (TooMany 62) }
{}

/// A definition file that is whole, and a link's input: the readers of definition files and every call that takes
/// a link's input speak of such values.
pub fn whole_values()
    ensures definition { WholeDef definition_d }
    ensures input { WholeInput input_d }
{}
