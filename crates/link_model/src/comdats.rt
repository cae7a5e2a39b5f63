//! The definitions of what is kept of COMDATs, tried on small inputs.

ghost use Rattle.std.specs.Prelude.{◌≡◌, ◌∷◌, [], map, Some, None, codes};
ghost use Rattle.obj_types.specs.declared.object.Selection.TheVariants.{Any};
ghost use Rattle.link_model.specs.declared.refusals.ComdatRefusal.TheVariants.{Clash};
ghost use Rattle.link_model.specs.Kept.{Kept};
ghost use Rattle.link_model.specs.Clash.{comdat_refusal};
ghost use Rattle.link_model.specs.ComdatWorked.{sharing, input_with, staying_one, taken_one, object, library, pairs, two_libraries};

/// Of two COMDATs of one name the first stays, and the other's segment is empty of all.
pub fn the_first_comdat_stays()
    ensures { Kept (input_with (sharing Any (1 ∷ []) 1 ∷ sharing Any (2 ∷ []) 2 ∷ []) []) ≡ input_with (staying_one ∷ taken_one ∷ []) [] }
{}

/// The first one's selection says whether it may stand for the second.
pub fn comdats_clash_by_selection()
    ensures objects { map (λ pair. comdat_refusal pair.0 (object 0 ∷ object 1 ∷ [])) pairs ≡ map (λ pair. pair.1) pairs }
    ensures in_chosen_order { comdat_refusal two_libraries (library 1 ∷ library 0 ∷ []) ≡ Some (Clash (codes "f") 2 1) }
    ensures not_chosen { comdat_refusal two_libraries (library 1 ∷ []) ≡ None }
{}
