//! What the first line of an entry says was done.

ghost use Rattle.std.specs.Prelude.{◌≡◌, IfOk};
ghost use Rattle.session_model.specs.Transcript.{deed_words};
ghost use Rattle.transcript_read.specs.Words.{left_of};
ghost use Rattle.transcript_read.specs.Taken.{Tells};
ghost use Rattle.transcript_read.specs.Rows.{bytes_row, entered_row, exit_row, failed_row, fault_row, free_row, full_row, Any};
ghost use Rattle.transcript_read.specs.Ranges.{AreBytes, IsBareDeed, IsEntered, IsFailed, IsFaulted, IsFreed, IsFull, IsUnmade, HasBytes};

use crate::cursor::Words;
use crate::modules::ModuleNames;
use load_model::{Deed, How};
use lx_types::{Bytes, NoMemory, PageId, Seq};
use std::alloc::Global;

/// What was started or loaded.
#[derive(Clone, Copy)]
pub(crate) struct Entered {
    how: How,
    module: u32,
}

/// What was not, for want of a place.
#[derive(Clone, Copy)]
pub(crate) struct FullAt {
    how: How,
    module: u32,
    of: u32,
    object: u32,
    size: u32,
}

/// What was not, since an initialisation failed.
#[derive(Clone, Copy)]
pub(crate) struct FailedBy {
    how: How,
    module: u32,
    by: u32,
}

/// A page that was touched first.
#[derive(Clone, Copy)]
pub(crate) struct FaultAt {
    serial: u64,
    module: u32,
    page: PageId,
}

/// Bytes that were written or read.
#[derive(Drop)]
pub(crate) struct BytesAt {
    serial: u64,
    module: u32,
    object: u32,
    offset: u32,
    bytes: Bytes,
}

fn entering(words: Words<'_>, names: &ModuleNames<'_>) -> Option<Entered>
    ensures { Tells (entered_row names.now) (IsEntered names.now) result (left_of words.entry) }
{
    let mut words = words;
    let how = words.how();
    let module = words.module(names);
    words.ending(Entered { how, module })
}

fn full(words: Words<'_>, names: &ModuleNames<'_>) -> Option<FullAt>
    ensures { Tells (full_row names.now) (IsFull names.now) result (left_of words.entry) }
{
    let mut words = words;
    let how = words.how();
    let module = words.module(names);
    words.known(b"full");
    let of = words.module(names);
    let object = words.number();
    let size = words.number();
    words.ending(FullAt {
        how,
        module,
        of,
        object,
        size,
    })
}

fn failed(words: Words<'_>, names: &ModuleNames<'_>) -> Option<FailedBy>
    ensures { Tells (failed_row names.now) (IsFailed names.now) result (left_of words.entry) }
{
    let mut words = words;
    let how = words.how();
    let module = words.module(names);
    words.known(b"failed");
    let by = words.module(names);
    words.ending(FailedBy { how, module, by })
}

fn freed(words: Words<'_>, names: &ModuleNames<'_>) -> Option<u32>
    ensures { Tells (free_row names.now) (IsFreed names.now) result (left_of words.entry) }
{
    let mut words = words;
    words.known(b"free");
    let module = words.module(names);
    words.ending(module)
}

fn exit(words: Words<'_>) -> Option<()>
    ensures { Tells exit_row Any result (left_of words.entry) }
{
    let mut words = words;
    words.known(b"exit");
    words.ending(())
}

fn fault(words: Words<'_>, names: &ModuleNames<'_>) -> Option<FaultAt>
    ensures { Tells (fault_row names.now) (IsFaulted names.now) result (left_of words.entry) }
{
    let mut words = words;
    words.known(b"fault");
    let serial = words.count();
    let module = words.module(names);
    let object = words.number();
    let page = words.number();
    words.ending(FaultAt {
        serial,
        module,
        page: PageId { object, page },
    })
}

fn bytes_at(
    alloc: Global,
    words: Words<'_>,
    names: &ModuleNames<'_>,
    verb: &[u8],
) -> Result<Option<BytesAt>, NoMemory>
    ensures { IfOk result (λ told. Tells (bytes_row names.now verb.now) (AreBytes names.now) told (left_of words.entry)) }
{
    let mut words = words;
    words.known(verb);
    let serial = words.count();
    let module = words.module(names);
    let object = words.number();
    let offset = words.number();
    words.known(b"=");
    let bytes = words.bytes(alloc)?;
    Ok(words.ending(BytesAt {
        serial,
        module,
        object,
        offset,
        bytes,
    }))
}

// Bytes that were written or read.
fn with_bytes(
    alloc: Global,
    words: Words<'_>,
    names: &ModuleNames<'_>,
) -> Result<Option<Deed>, NoMemory>
    ensures { IfOk result (λ told. Tells (deed_words names.now) (HasBytes names.now) told (left_of words.entry)) }
{
    if let Some(at) = bytes_at(alloc, words, names, b"write")? {
        return Ok(Some(Deed::Write {
            serial: at.serial,
            module: at.module,
            object: at.object,
            offset: at.offset,
            bytes: at.bytes,
        }));
    }
    if let Some(at) = bytes_at(alloc, words, names, b"debug")? {
        return Ok(Some(Deed::Debug {
            serial: at.serial,
            module: at.module,
            object: at.object,
            offset: at.offset,
            bytes: at.bytes,
        }));
    }
    let Some(at) = bytes_at(alloc, words, names, b"shared")? else {
        return Ok(None);
    };
    Ok(Some(Deed::Shared {
        serial: at.serial,
        module: at.module,
        object: at.object,
        offset: at.offset,
        bytes: at.bytes,
    }))
}

// A start or a load that was not.
fn unmade(alloc: Global, words: Words<'_>, names: &ModuleNames<'_>) -> Option<Deed>
    ensures { Tells (deed_words names.now) (IsUnmade names.now) result (left_of words.entry) }
{
    if let Some(
        FullAt {
            how,
            module,
            of,
            object,
            size,
        },
    ) = full(words, names)
    {
        return Some(Deed::Full {
            how,
            module,
            of,
            object,
            size,
        });
    }
    let Some(FailedBy { how, module, by }) = failed(words, names) else {
        return None;
    };
    let fresh = Seq::new(alloc);
    let calls = Seq::new(alloc);
    let gone = Seq::new(alloc);
    Some(Deed::Failed {
        how,
        module,
        by,
        fresh,
        calls,
        gone,
    })
}

/// What was done, without the lines below it.
pub(crate) fn deed(
    alloc: Global,
    words: Words<'_>,
    names: &ModuleNames<'_>,
) -> Result<Option<Deed>, NoMemory>
    ensures { IfOk result (λ told. Tells (deed_words names.now) (IsBareDeed names.now) told (left_of words.entry)) }
{
    if let Some(
        FaultAt {
            serial,
            module,
            page,
        },
    ) = fault(words, names)
    {
        return Ok(Some(Deed::Fault {
            serial,
            module,
            page,
        }));
    }
    if let Some(Entered { how, module }) = entering(words, names) {
        let fresh = Seq::new(alloc);
        let calls = Seq::new(alloc);
        return Ok(Some(Deed::Enter {
            how,
            module,
            fresh,
            calls,
        }));
    }
    if let Some(module) = freed(words, names) {
        let calls = Seq::new(alloc);
        let gone = Seq::new(alloc);
        return Ok(Some(Deed::Free {
            module,
            calls,
            gone,
        }));
    }
    if let Some(()) = exit(words) {
        let calls = Seq::new(alloc);
        let gone = Seq::new(alloc);
        return Ok(Some(Deed::Exit { calls, gone }));
    }
    if let Some(deed) = with_bytes(alloc, words, names)? {
        return Ok(Some(deed));
    }
    Ok(unmade(alloc, words, names))
}
