//! The names of an object module ("90h PUBDEF", "8Ch EXTDEF", "B0h COMDEF", "88h COMENT").

ghost use Rattle.std.specs.Prelude.{◌≡◌, count_by, length, IfOk};
ghost use Rattle.show_model.specs.Lists.{is_communal};

use crate::counts::{Counts, bump, word_if};
use crate::line;
use crate::outline::{Line, Told};
use crate::segments::segment_name;
use line_words::Word;
use lx_types::{Bytes, EntryKey, Name, NoMemory};
use obj_types::{Exp, Ext, FixAt, Goal, Imp, ObjModule, Pub, PubPlace};
use std::alloc::Global;

impl Told<ObjModule> for Pub {
    fn line<'x>(&'x self, alloc: Global, _number: u64, m: &'x ObjModule) -> Line {
        let (name, local) = (self.name.bytes(), word_if(self.local, "local"));
        match self.place {
            PubPlace::In { seg, offset } => {
                line!(alloc; Text name, Text b"segment", Number seg, Text segment_name(m, seg), Text b"offset", Hex offset, Text local)
            }
            PubPlace::Const { value } => {
                line!(alloc; Text name, Text b"constant", Hex value, Text local)
            }
        }
    }
}

/// How many fixups have each external name as their target, by its index less 1.
pub fn uses_of(alloc: Global, exts: usize, fixes: &[FixAt]) -> Result<Counts, NoMemory> {
    let mut uses = vec![in alloc; 0; exts]?;
    for fix in fixes {
        if let Goal::Ext(index) = fix.goal {
            bump(&mut uses, (index as usize).wrapping_sub(1));
        }
    }
    Ok(uses)
}

impl Told<Counts> for Ext {
    fn line<'x>(&'x self, alloc: Global, number: u64, uses: &'x Counts) -> Line {
        let place = number.saturating_sub(1) as usize;
        let local = word_if(self.local, "local");
        line!(alloc; Count number, Text self.name.bytes(), Text b"fixups", Count uses.get(place).copied().unwrap_or(0), Text local)
    }
}

/// A line for each external name that has storage.
pub fn common_lines(alloc: Global, exts: &[Ext]) -> Result<Vec<Bytes>, NoMemory>
    ensures { IfOk result (λ lines. length lines.items ≡ count_by is_communal exts.now) }
{
    let mut lines = Vec::new(alloc);
    for ext in exts {
        if let Some(common) = ext.common {
            let (far, local) = (word_if(common.far, "far"), word_if(ext.local, "local"));
            let name = ext.name.bytes();
            lines.push(
                line!(alloc; Text name, Text b"size", Number common.len, Text far, Text local)?,
            )?;
        }
    }
    Ok(lines)
}

impl Told<ObjModule> for Imp {
    fn line<'x>(&'x self, alloc: Global, _number: u64, _m: &'x ObjModule) -> Line {
        let (name, from) = (self.name.bytes(), self.module.bytes());
        match &self.entry {
            EntryKey::Ordinal(ordinal) => {
                line!(alloc; Text name, Text b"from", Text from, Ordinal *ordinal)
            }
            EntryKey::Named(key) => {
                line!(alloc; Text name, Text b"from", Text from, Text key.bytes())
            }
        }
    }
}

impl Told<ObjModule> for Exp {
    fn line<'x>(&'x self, alloc: Global, _number: u64, _m: &'x ObjModule) -> Line {
        let (name, internal) = (self.name.bytes(), self.internal.bytes());
        let resident = word_if(self.resident, "resident");
        match self.ordinal {
            Some(ordinal) => {
                line!(alloc; Text name, Ordinal u32::from(ordinal), Text b"internal", Text internal, Text resident)
            }
            None => line!(alloc; Text name, Text b"internal", Text internal, Text resident),
        }
    }
}

impl Told<ObjModule> for Name {
    fn line<'x>(&'x self, alloc: Global, _number: u64, _m: &'x ObjModule) -> Line {
        line!(alloc; Text self.bytes())
    }
}
