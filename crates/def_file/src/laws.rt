//! What the definitions say together, and what they give for files whose meaning is known from
//! outside.

ghost use Rattle.std.specs.Prelude.{◌≡◌, ◌⊎◌, ℕ, List};
ghost use Rattle.obj_types.specs.declared.definition.DefFile.{DefFile};
ghost use Rattle.def_model.specs.declared.refusal.DefRefusal.{DefRefusal};
ghost use Rattle.def_model.specs.Reading.{Def, FirstFault};
ghost use Rattle.def_file.specs.Examples.{WorkedFiles, WorkedFaults};

/// Files with each statement, and files with each kind of fault.
pub fn worked_files()
    ensures read { WorkedFiles }
    ensures refused { WorkedFaults }
{}

/// Bytes are a definition file of one value, or have one first fault.
pub fn file_is_one()
    ensures file { (bytes : List ℕ) (d e : DefFile) → Def bytes d → Def bytes e → d ≡ e }
    ensures fault { (bytes : List ℕ) (f g : DefRefusal) → FirstFault bytes f → FirstFault bytes g → f ≡ g }
    ensures either { (bytes : List ℕ) → ((d : DefFile) × Def bytes d) ⊎ ((f : DefRefusal) × FirstFault bytes f) }
    ensures apart { (bytes : List ℕ) (d : DefFile) (f : DefRefusal) → Def bytes d → FirstFault bytes f → ⊥ }
{}
