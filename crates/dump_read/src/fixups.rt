//! The lines of fixups.

ghost use Rattle.std.specs.Prelude.{◌≡◌, ◌<◌, IfOk};
ghost use Rattle.dump_model.specs.Bounds.{IsFix};
ghost use Rattle.dump_model.specs.Lines.{fix_line, source_word};
ghost use Rattle.dump_read.specs.Taken.{Reads, shut};
ghost use Rattle.dump_read.specs.Settled.{ended_by};
ghost use Rattle.dump_read.specs.Sequences.{AllIn, list_text};
ghost use Rattle.dump_read.specs.Lists.{fix_opens, numbered_fix};
ghost use Rattle.dump_read.specs.Parts.{IsAliased, IsTargetOf, Any, aliased_text, source_at, target_rest};

use crate::reader::{BLANK, END, Reader};
use lx_types::{Fix, FixTarget, NoMemory, Seq, Source};
use std::alloc::Global;

fn source_of(k: usize) -> Source
    ensures { result ≡ source_at k }
{
    match k {
        0 => Source::Byte,
        1 => Source::Sel,
        2 => Source::Far16,
        3 => Source::Off16,
        4 => Source::Far32,
        5 => Source::Off32,
        _ => Source::Self32,
    }
}

fn source(reader: &mut Reader<'_>) -> Source
    ensures { Reads (ended_by 0x20 source_word) Any shut result reader.old reader.new }
{
    let words: [&[u8]; 7] = [
        b"byte ", b"sel ", b"far16 ", b"off16 ", b"far32 ", b"off32 ", b"self32 ",
    ];
    source_of(reader.one_of(&words))
}

// What stands after the first word of a target, which is the k-th of those that there are.
fn target(reader: &mut Reader<'_>, k: usize) -> FixTarget
    requires { k < 4 }
    ensures { Reads target_rest (IsTargetOf k) shut result reader.old reader.new }
{
    let number = reader.number(BLANK);
    match k {
        0 => FixTarget::Internal {
            object: number,
            offset: reader.number(BLANK),
        },
        1 => FixTarget::Ordinal {
            import: number,
            ordinal: reader.number(BLANK),
        },
        2 => FixTarget::Named {
            import: number,
            name_at: reader.number(BLANK),
        },
        _ => FixTarget::Own { ordinal: number },
    }
}

// Whether the source is an alias, and the target.
fn aliased(reader: &mut Reader<'_>) -> (bool, FixTarget)
    ensures { Reads aliased_text IsAliased shut result reader.old reader.new }
{
    let first: [&[u8]; 5] = [b"internal ", b"ordinal ", b"name ", b"own ", b"alias "];
    let k = reader.one_of(&first);
    if k < 4 {
        return (false, target(reader, k));
    }
    let words: [&[u8]; 4] = [b"internal ", b"ordinal ", b"name ", b"own "];
    let k = reader.one_of(&words);
    (true, target(reader, k))
}

// The line of a fixup of page `page` of object `object`.
fn fix(reader: &mut Reader<'_>, object: u64, page: u64) -> Fix
    ensures { Reads (fix_line object page) IsFix shut result reader.old reader.new }
{
    reader.word(b"fix ");
    reader.count(object, BLANK);
    reader.count(page, BLANK);
    let offset = reader.signed(BLANK);
    let source = source(reader);
    let (alias, target) = aliased(reader);
    reader.word(b"add ");
    let additive = reader.number(END);
    Fix {
        source,
        alias,
        offset,
        target,
        additive,
    }
}

/// The lines of the fixups of page `page` of object `object`.
pub(crate) fn fixes(
    alloc: Global,
    reader: &mut Reader<'_>,
    object: u64,
    page: u64,
) -> Result<Seq<Fix>, NoMemory>
    ensures { IfOk result (λ fixes. Reads (list_text (numbered_fix object page) 0) (AllIn IsFix) fix_opens fixes reader.old reader.new) }
{
    let mut fixes = Vec::new(alloc);
    while reader.is_next(b"fix ") {
        fixes.push(fix(reader, object, page))?;
    }
    Ok(Seq::from_vec(fixes))
}
