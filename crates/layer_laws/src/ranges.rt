//! What the types of a link's input say of its names and numbers: each function reads a value and changes nothing.

ghost use Rattle.std.specs.Prelude.{IfSome};
ghost use Rattle.std.specs.List.{All};
ghost use Rattle.lx_types.specs.Names.{IsName};
ghost use Rattle.layer_laws.specs.Ranges.{
  KeyInRange,
  ImportInRange,
  ExportInRange,
  ModuleInRange,
  DefInRange,
  InputInRange,
};

use lx_types::{EntryKey, Name};
use obj_types::{DefFile, Exp, Imp, LinkInput, ObjModule};

fn key_range(key: &EntryKey)
    ensures { KeyInRange key.now }
{
    match key {
        EntryKey::Ordinal(ordinal) => {
            let _ordinal = *ordinal;
        }
        EntryKey::Named(name) => {
            let _name = name.bytes();
        }
    }
}

fn import_range(import: &Imp)
    ensures { ImportInRange import.now }
{
    let _name = import.module.bytes();
    key_range(&import.entry);
}

fn import_ranges(imports: &[Imp])
    ensures { All ImportInRange imports.now }
{
    for import in imports {
        import_range(import);
    }
}

fn export_range(export: &Exp)
    ensures { ExportInRange export.now }
{
    let _name = export.name.bytes();
}

fn export_ranges(exports: &[Exp])
    ensures { All ExportInRange exports.now }
{
    for export in exports {
        export_range(export);
    }
}

fn object_range(object: &ObjModule)
    ensures { ModuleInRange object.now }
{
    import_ranges(object.imports.as_slice());
    export_ranges(object.exports.as_slice());
}

fn object_ranges(objects: &[ObjModule])
    ensures { All ModuleInRange objects.now }
{
    for object in objects {
        object_range(object);
    }
}

fn name_range(name: &Option<Name>)
    ensures { IfSome name.now IsName }
{
    if let Some(name) = name {
        let _name = name.bytes();
    }
}

fn def_range(def: &DefFile)
    ensures { DefInRange def.now }
{
    let _about = def.about.bytes();
    let _heap = def.heap;
    name_range(&def.name);
    import_ranges(def.imports.as_slice());
    export_ranges(def.exports.as_slice());
}

/// Each input that a program has keeps to its types: its names have at most 255 bytes, and its numbers have 32 bits.
pub fn input_range(input: &LinkInput)
    ensures { InputInRange input.now }
{
    object_ranges(input.objects.as_slice());
    object_ranges(input.libs.as_slice());
    def_range(&input.def);
    let _stem = input.stem.bytes();
}
