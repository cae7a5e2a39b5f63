//! What modules hold in memory, as text.
ghost use Rattle.std.specs.Prelude.{◌≡◌, ◌<◌, ◌+◌, ◌*◌, ◌^◌, ◌++◌, length, All, IfOk, OnOk};
ghost use Rattle.std.specs.List.{enumerate_from, flat_map};
ghost use Rattle.lx_types.specs.declared.object.TheConstants.{PAGE_SIZE};
ghost use Rattle.answer_model.specs.MemoryAnswer.{invalid_line, memory_text, module_text, numbered_page_text, object_line, object_text, page_text};
ghost use Rattle.memory_core.specs.Addresses.{AreAddressed, FitsPage, IsAddressed};

use crate::text::push_image;
use line_words::{Word, push_line};
use lx_types::{Bytes, Name, PAGE_SIZE, Seq, push_hex_address};
use memory_model::{ModuleMemory, ObjectMemory, PageMemory};
use std::alloc::{AllocError, Global};

// `object M K BASE size S flags F`
#[tactic(auto, unfolding(answer_model::specs::MemoryAnswer::object_line))]
fn push_object_line(
    text: &mut Vec<u8>,
    name: &Name,
    object: &ObjectMemory,
) -> Result<(), AllocError>
    ensures { OnOk result (text.new.items ≡ text.old.items ++ object_line name.now object.now) }
{
    let base = Word::Hex(object.base);
    let size = Word::Number(object.size);
    push_line(
        text,
        &[
            Word::Text(b"object"),
            Word::Name(name.bytes()),
            Word::Number(object.number),
            base,
            Word::Text(b"size"),
            size,
            Word::Text(b"flags"),
            Word::Hex(object.flags),
        ],
    )
}

// `AAAAAAAA: invalid`
#[tactic(auto, unfolding(answer_model::specs::MemoryAnswer::invalid_line))]
fn push_invalid(text: &mut Vec<u8>, at: u32) -> Result<(), AllocError>
    ensures { OnOk result (text.new.items ≡ text.old.items ++ invalid_line at) }
{
    push_hex_address(text, at)?;
    text.extend_from_slice(b": invalid\n".as_slice())
}

fn push_page(text: &mut Vec<u8>, at: u32, page: &PageMemory) -> Result<(), AllocError>
    requires room { at + PAGE_SIZE < 2 ^ 32 }
    requires fits { FitsPage page.now }
    ensures { OnOk result (text.new.items ≡ text.old.items ++ page_text at page.now) }
{
    match page {
        PageMemory::Invalid => push_invalid(text, at),
        PageMemory::Held(bytes) => push_image(text, at, bytes.as_slice()),
    }
}

// Pages from a base on.
fn push_pages(text: &mut Vec<u8>, base: u32, pages: &[PageMemory]) -> Result<(), AllocError>
    requires room { base + length pages.now * PAGE_SIZE < 2 ^ 32 }
    requires fit { All FitsPage pages.now }
    ensures { OnOk result (text.new.items ≡ text.old.items ++ flat_map (numbered_page_text base) (enumerate_from 0 pages.now)) }
{
    let mut at = base;
    for page in pages {
        push_page(text, at, page)?;
        at += PAGE_SIZE;
    }
    Ok(())
}

fn push_object(text: &mut Vec<u8>, name: &Name, object: &ObjectMemory) -> Result<(), AllocError>
    requires { IsAddressed object.now }
    ensures { OnOk result (text.new.items ≡ text.old.items ++ object_text name.now object.now) }
{
    push_object_line(text, name, object)?;
    push_pages(text, object.base, object.pages.as_slice())
}

fn push_module(text: &mut Vec<u8>, held: &ModuleMemory) -> Result<(), AllocError>
    requires { AreAddressed held.now }
    ensures { OnOk result (text.new.items ≡ text.old.items ++ module_text held.now) }
{
    for object in held.objects.as_slice() {
        push_object(text, &held.name, object)?;
    }
    Ok(())
}

/// The text of what modules hold: of each object a line with its module's name, its number, base, size and flags, and the lines of
/// its pages.
pub fn held_text(alloc: Global, held: &[ModuleMemory]) -> Result<Bytes, AllocError>
    requires { All AreAddressed held.now }
    ensures { IfOk result (λ text. text ≡ memory_text held.now) }
{
    let mut text = Vec::new(alloc);
    for one in held {
        push_module(&mut text, one)?;
    }
    Ok(Seq::from_vec(text))
}
