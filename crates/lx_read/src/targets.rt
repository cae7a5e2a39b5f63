//! What fixup records may name.

ghost use Rattle.std.specs.Prelude.{◌≡◌, ◌<◌, ◌^◌, AllPairs, is_some};
ghost use Rattle.lx_types.specs.Parts.{name_at, entry_of};
ghost use Rattle.lx_model.specs.EntryTable.{names_one_of};
ghost use Rattle.lx_model.specs.Module.{is_target};
ghost use Rattle.lx_read.specs.Targets.{targets, AreTargets};

use lx_types::{EntryHead, FixTarget};

/// What targets may name: so many objects and import modules, the names of the import procedures,
/// which begin at a place of the file, and the entries, by rising ordinals.
#[derive(Clone, Copy)]
pub struct Targets<'a> {
    pub objects: u32,
    pub imports: u32,
    pub file: &'a [u8],
    pub import_procedures: u64,
    pub entries: &'a [(u32, EntryHead)],
}

fn names_one_of(count: u32, number: u32) -> bool
    ensures { result ≡ names_one_of count number }
{
    1 <= number && number <= count
}

// Whether a name stands at a place of the file, all of it.
fn is_name_at(file: &[u8], at: u64) -> bool
    ensures { result ≡ is_some (name_at file.now at) }
{
    let len = file.len() as u64;
    at < len && at + 1 + u64::from(file[at as usize]) <= len
}

// Whether an ordinal has an entry.
fn has_entry(entries: &[(u32, EntryHead)], ordinal: u32) -> bool
    requires { AllPairs (λ a b. a.0 < b.0) entries.now }
    ensures { result ≡ is_some (entry_of entries.now ordinal) }
{
    entries.binary_search_by_key(&ordinal, |e| e.0).is_ok()
}

impl<'a> Targets<'a> {
    /// Whether a target's object, import or name is there, or its ordinal has an entry. Ordinals of
    /// other modules are not judged.
    pub fn has(&self, target: FixTarget) -> bool
        requires { AreTargets self.now }
        ensures { result ≡ is_target (targets self.now) target }
    {
        match target {
            FixTarget::Internal { object, .. } => names_one_of(self.objects, object),
            FixTarget::Ordinal { import, .. } => names_one_of(self.imports, import),
            FixTarget::Named { import, name_at } => {
                let at = self.import_procedures + u64::from(name_at);
                names_one_of(self.imports, import) && is_name_at(self.file, at)
            }
            FixTarget::Own { ordinal } => has_entry(self.entries, ordinal),
        }
    }
}
