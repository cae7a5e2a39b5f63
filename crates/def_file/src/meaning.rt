//! What a whole definition file says.

ghost use Rattle.std.specs.Prelude.{◌≡◌, IfOk, map};
ghost use Rattle.obj_types.specs.Definition.{WholeDef};
ghost use Rattle.def_file.specs.Stated.{Stated};
ghost use Rattle.def_file.specs.Whole.{WholeDraft};
ghost use Rattle.def_model.specs.Meaning.{is_code_class, is_code, segment_of, file_of};

use crate::attributes::attrs_with;
use def_model::{Draft, SegDraft, Words};
use lx_types::{Name, NoMemory, Seq};
use obj_types::{Attrs, DefFile, ModKind, SegAttrs, SegRules};
use std::alloc::Global;

// The class of a code segment ends in CODE, in any case.
fn is_code_class(class: &[u8]) -> bool
    ensures { result ≡ is_code_class class.now }
{
    class.len() >= 4 && class[class.len() - 4..].eq_ignore_ascii_case(b"CODE")
}

// Whether an item of SEGMENTS starts from the attributes of CODE.
fn is_code(segment: &SegDraft) -> bool
    ensures { result ≡ is_code segment.now }
{
    match &segment.class {
        Some(class) => is_code_class(class.bytes()),
        None => segment.words.read.is_some(),
    }
}

fn segment_of(code: Attrs, plain: Attrs, segment: SegDraft) -> SegAttrs
    ensures { result ≡ segment_of code plain segment }
{
    let start = if is_code(&segment) { code } else { plain };
    SegAttrs {
        name: segment.name,
        class: segment.class,
        attrs: attrs_with(start, segment.words),
    }
}

fn segments_of(
    alloc: Global,
    code: Attrs,
    plain: Attrs,
    segs: Seq<SegDraft>,
) -> Result<SegRules, NoMemory>
    ensures { IfOk result (λ rules. rules ≡ map (segment_of code plain) segs) }
{
    let mut rules = Seq::new(alloc);
    for segment in segs.into_vec() {
        rules.push(segment_of(code, plain, segment))?;
    }
    Ok(rules)
}

/// The value of the statements.
pub fn file_of(alloc: Global, draft: Draft) -> Result<DefFile, NoMemory>
    requires { WholeDraft draft }
    ensures value { IfOk result (λ file. file ≡ file_of draft) }
    ensures whole { IfOk result (λ file. WholeDef file) }
    ensures stated { IfOk result (λ file. Stated file) }
{
    let code = attrs_with(Attrs::CODE, draft.code.unwrap_or(Words::NONE));
    let plain = attrs_with(Attrs::DATA, draft.plain.unwrap_or(Words::NONE));
    let segs = segments_of(alloc, code, plain, draft.segs)?;
    Ok(DefFile {
        kind: draft.kind.unwrap_or(ModKind::Program),
        name: draft.name,
        init_each: draft.init_each.unwrap_or(false),
        term_each: draft.term_each.unwrap_or(false),
        about: draft.about.unwrap_or(Name::empty(alloc)),
        stack: draft.stack.unwrap_or(0),
        heap: draft.heap.unwrap_or(0),
        base: draft.base,
        code,
        plain,
        segs,
        exports: draft.exports,
        imports: draft.imports,
    })
}
