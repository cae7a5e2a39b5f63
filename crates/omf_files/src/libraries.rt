//! Libraries, module by module.

ghost use Rattle.std.specs.Prelude.{◌≡◌, ◌≤◌, IfOk, OnOk, length};
ghost use Rattle.lx_bytes.specs.LittleEndian.{AreBytes};
ghost use Rattle.lx_types.specs.Answers.{as_is, if_said, Gives, Answers};
ghost use Rattle.omf_model.specs.Library.{Lib, LibraryFault};
ghost use Rattle.omf_model.specs.ReadModule.{ends_library, is_page_size, library_of, modules_at, up_to_page};
ghost use Rattle.omf_files.specs.Modules.{page_size_of};

use crate::objects::module;
use lx_bytes::Cur;
use lx_types::{Fail, NoMemory, Seq};
use obj_types::{ObjModule, OmfRefusal};
use omf_frame::record_type::{LIBRARY_END, LIBRARY_HEADER};
use std::alloc::Global;

/// Whether the library ends at the cursor.
fn ends(cur: &Cur) -> bool
    ensures end { result ≡ ends_library cur.now.left }
    ensures bytes { AreBytes cur.now.left }
{
    let _left = cur.left();
    let mut ahead = cur.fork();
    match ahead.u8() {
        Ok(byte) => byte == LIBRARY_END,
        Err(_) => false,
    }
}

/// Moves to the next multiple of the page size, also past the end. A place for which there is no number is want of
/// memory: no refusal has room for it.
fn to_page(cur: &mut Cur, size: usize) -> Result<(), NoMemory>
    requires { 1 ≤ size }
    ensures { OnOk result (cur.new ≡ up_to_page size cur.old) }
{
    let skip = (size - cur.at() % size) % size;
    if cur.take(skip).is_err() {
        let Some(at) = cur.at().checked_add(skip) else {
            return Err(NoMemory);
        };
        *cur = Cur::of_part(b"".as_slice(), at);
    }
    Ok(())
}

/// The modules from the cursor up to the library's end.
fn modules(alloc: Global, cur: &mut Cur, size: usize) -> Result<Seq<ObjModule>, Fail<OmfRefusal>>
    requires { 1 ≤ size }
    ensures { Gives (λ ms. ms) if_said result (modules_at size cur.old) }
{
    let mut modules = Seq::new(alloc);
    'modules: while !ends(cur) {
        let read = module(alloc, cur)?;
        modules.push(read)?;
        to_page(cur, size)?;
    }
    Ok(modules)
}

/// Whether a library may have pages of this size.
fn may_be_page(size: usize) -> bool
    ensures { result ≡ is_page_size size }
{
    matches!(
        size,
        16 | 32 | 64 | 128 | 256 | 512 | 1024 | 2048 | 4096 | 8192 | 16384 | 32768
    )
}

/// The page size of a library, which is how long its header is.
#[tactic(auto, unfolding(crate::specs::Modules::page_size_of, omf_model::specs::RawRecord::whole_at))]
fn page_size(bytes: &[u8]) -> Result<usize, OmfRefusal>
    ensures read { Gives (λ size. size) as_is result (page_size_of bytes.now) }
    ensures fits { IfOk result (λ size. (1 ≤ size) × (size ≤ length bytes.now)) }
{
    let [ty, low, high, ..] = bytes else {
        return Err(OmfRefusal::Short { at: 0 });
    };
    let len = usize::from(u16::from_le_bytes([*low, *high]));
    if len == 0 || bytes.len() < 3 + len {
        return Err(OmfRefusal::Short { at: 0 });
    }
    if *ty != LIBRARY_HEADER {
        return Err(OmfRefusal::BadField { at: 0 });
    }
    if !may_be_page(3 + len) {
        return Err(OmfRefusal::BadField { at: 1 });
    }
    Ok(3 + len)
}

/// The modules of a library ("Microsoft LIB Library Format"). The first fault in file order is the one that is
/// refused. What stands after the type byte that ends it is not read.
pub fn read_library(alloc: Global, bytes: &[u8]) -> Result<Seq<ObjModule>, Fail<OmfRefusal>>
    ensures read { Gives (λ ms. ms) if_said result (library_of bytes.now) }
    ensures meant { Answers result (Lib bytes.now) (LibraryFault bytes.now) }
{
    let mut cur = Cur::of(bytes);
    let _left = cur.left();
    let size = match page_size(bytes) {
        Ok(size) => size,
        Err(refusal) => return Err(Fail::Said(refusal)),
    };
    let Ok(_) = cur.take(size) else {
        unreachable!()
    };
    modules(alloc, &mut cur, size)
}
