//! The refusal of a link.

ghost use Rattle.std.specs.Prelude.{◌≡◌, ◌++◌, IfOk};
ghost use Rattle.answer_model.specs.FileRefusals.{field};
ghost use Rattle.answer_model.specs.LinkAnswer.{link_text};
ghost use Rattle.answer_model.specs.LinkRefusals.{named, fixup, sym_text, fix_text};

use link_model::{ComdatRefusal, EntryRefusal, FixRefusal, LayRefusal, LinkRefusal, SymRefusal};
use lx_types::{Name, push_escaped};
use std::alloc::{AllocError, Global};

// The kind, a blank and the name.
fn name_text(alloc: Global, kind: &str, name: &Name) -> Result<Vec<u8>, AllocError>
    ensures { IfOk result (λ text. text.items ≡ kind.now ++ named name.now) }
{
    let mut text = Vec::from_slice(alloc, kind.as_bytes())?;
    text.push(b' ')?;
    push_escaped(&mut text, name.bytes())?;
    Ok(text)
}

// The kind, the name, and the two modules that have it.
fn both_text(alloc: Global, name: &Name, at: (&str, u32, u32)) -> Result<Vec<u8>, AllocError>
    ensures { IfOk result (λ text. text.items ≡ at.entry.0.now ++ (named name.now ++ (field at.entry.1 ++ field at.entry.2))) }
{
    let (kind, first, second) = at;
    let mut text = name_text(alloc, kind, name)?;
    let fields = format!(in alloc; " {first} {second}")?;
    text.extend_from_slice(fields.as_bytes())?;
    Ok(text)
}

// What is told of a refusal of a link's symbols: the kind, and the fields.
fn sym_text(alloc: Global, refusal: &SymRefusal) -> Result<Vec<u8>, AllocError>
    ensures { IfOk result (λ text. text.items ≡ sym_text refusal.now) }
{
    match refusal {
        SymRefusal::Twice {
            name,
            first,
            second,
        } => both_text(alloc, name, ("Twice", *first, *second)),
        SymRefusal::Missing { name } => name_text(alloc, "Missing", name),
        SymRefusal::ImportsMany { count } => {
            Ok(format!(in alloc; "ImportsMany {count}")?.into_bytes())
        }
    }
}

// A kind and a fixup's module, segment and offset.
fn fixup_text(alloc: Global, kind: &str, at: (u32, u32, u32)) -> Result<Vec<u8>, AllocError>
    ensures { IfOk result (λ text. text.items ≡ kind.now ++ fixup at.0 at.1 at.2) }
{
    let (module, seg, offset) = at;
    Ok(format!(in alloc; "{kind} {module} {seg} {offset}")?.into_bytes())
}

// What is told of a refusal of a link's fixups, or of its start.
fn fix_text(alloc: Global, refusal: FixRefusal) -> Result<Vec<u8>, AllocError>
    ensures { IfOk result (λ text. text.items ≡ fix_text refusal) }
{
    match refusal {
        FixRefusal::FarSelf {
            module,
            seg,
            offset,
        } => fixup_text(alloc, "FarSelf", (module, seg, offset)),
        FixRefusal::FrameApart {
            module,
            seg,
            offset,
        } => fixup_text(alloc, "FrameApart", (module, seg, offset)),
        FixRefusal::ConstSelector {
            module,
            seg,
            offset,
        } => fixup_text(alloc, "ConstSelector", (module, seg, offset)),
        FixRefusal::StartOutside { module } => {
            Ok(format!(in alloc; "StartOutside {module}")?.into_bytes())
        }
    }
}

/// What is told of a link's refusal: the kind, and the fields.
pub fn link_text(alloc: Global, refusal: &LinkRefusal) -> Result<Vec<u8>, AllocError>
    ensures { IfOk result (λ text. text.items ≡ link_text refusal.now) }
{
    match refusal {
        LinkRefusal::Sym(own) => sym_text(alloc, own),
        LinkRefusal::Comdat(
            ComdatRefusal::Clash {
                name,
                first,
                second,
            },
        ) => both_text(alloc, name, ("Clash", *first, *second)),
        LinkRefusal::Lay(LayRefusal::AbsoluteSeg { seg }) => name_text(alloc, "AbsoluteSeg", seg),
        LinkRefusal::Lay(LayRefusal::UseMixed { seg }) => name_text(alloc, "UseMixed", seg),
        LinkRefusal::Lay(LayRefusal::GroupSplit { group }) => name_text(alloc, "GroupSplit", group),
        LinkRefusal::Lay(LayRefusal::TooLarge { seg }) => name_text(alloc, "TooLarge", seg),
        LinkRefusal::Fixing(own) => fix_text(alloc, *own),
        LinkRefusal::Entry(EntryRefusal::Ordinal { n }) => {
            Ok(format!(in alloc; "Ordinal {n}")?.into_bytes())
        }
        LinkRefusal::Entry(EntryRefusal::NameTwice { name }) => name_text(alloc, "NameTwice", name),
    }
}
