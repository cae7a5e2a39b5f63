//! The lines of fixups.

ghost use Rattle.std.specs.Prelude.{◌≡◌, ◌++◌, ◌∷◌, [], OnOk};
ghost use Rattle.std.specs.Fmt.{signed_decimal};
ghost use Rattle.dump_model.specs.Lines.{source_word, alias_words, target_words, fix_line};
ghost use Rattle.line_words.specs.Words.{leading};

use line_words::{Word, push_leading, push_line};
use lx_types::{Fix, FixTarget, Source};
use std::alloc::AllocError;

/// A page, by its object's number and its own.
#[derive(Clone, Copy)]
pub(crate) struct PageNumber {
    pub object: u64,
    pub page: u64,
}

fn push_offset(out: &mut Vec<u8>, fix: &Fix) -> Result<(), AllocError>
    ensures { OnOk result (out.new.items ≡ out.old.items ++ leading (signed_decimal fix.now.offset ∷ [])) }
{
    push_leading(out, &[Word::Signed(fix.offset)])
}

fn push_source(out: &mut Vec<u8>, source: Source) -> Result<(), AllocError>
    ensures { OnOk result (out.new.items ≡ out.old.items ++ leading (source_word source ∷ [])) }
{
    match source {
        Source::Byte => push_leading(out, &[Word::Text(b"byte")]),
        Source::Sel => push_leading(out, &[Word::Text(b"sel")]),
        Source::Far16 => push_leading(out, &[Word::Text(b"far16")]),
        Source::Off16 => push_leading(out, &[Word::Text(b"off16")]),
        Source::Far32 => push_leading(out, &[Word::Text(b"far32")]),
        Source::Off32 => push_leading(out, &[Word::Text(b"off32")]),
        Source::Self32 => push_leading(out, &[Word::Text(b"self32")]),
    }
}

fn push_alias(out: &mut Vec<u8>, alias: bool) -> Result<(), AllocError>
    ensures { OnOk result (out.new.items ≡ out.old.items ++ leading (alias_words alias)) }
{
    if alias {
        push_leading(out, &[Word::Text(b"alias")])
    } else {
        Ok(())
    }
}

fn push_target(out: &mut Vec<u8>, target: FixTarget) -> Result<(), AllocError>
    ensures { OnOk result (out.new.items ≡ out.old.items ++ leading (target_words target)) }
{
    match target {
        FixTarget::Internal { object, offset } => {
            push_leading(
                out,
                &[
                    Word::Text(b"internal"),
                    Word::Number(object),
                    Word::Number(offset),
                ],
            )
        }
        FixTarget::Ordinal { import, ordinal } => {
            push_leading(
                out,
                &[
                    Word::Text(b"ordinal"),
                    Word::Number(import),
                    Word::Number(ordinal),
                ],
            )
        }
        FixTarget::Named { import, name_at } => {
            push_leading(
                out,
                &[
                    Word::Text(b"name"),
                    Word::Number(import),
                    Word::Number(name_at),
                ],
            )
        }
        FixTarget::Own { ordinal } => push_leading(
            out,
            &[Word::Text(b"own"), Word::Number(ordinal)],
        ),
    }
}

/// The line of a fixup of a page.
pub(crate) fn push_fix(out: &mut Vec<u8>, at: PageNumber, fix: &Fix) -> Result<(), AllocError>
    ensures { OnOk result (out.new.items ≡ out.old.items ++ fix_line at.object at.page fix.now) }
{
    let object = Word::Count(at.object);
    let page = Word::Count(at.page);
    push_leading(out, &[Word::Text(b"fix"), object, page])?;
    push_offset(out, fix)?;
    push_source(out, fix.source)?;
    push_alias(out, fix.alias)?;
    push_target(out, fix.target)?;
    push_line(out, &[Word::Text(b"add"), Word::Number(fix.additive)])
}
