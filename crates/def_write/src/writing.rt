//! A definition file, written.

ghost use Rattle.std.specs.Prelude.{true, ◌≡◌, ◌∷◌, ◌++◌, ◌<◌, ◌^◌, [], map, IfOk, IfSome};
ghost use Rattle.std.specs.List.{All};
ghost use Rattle.lx_types.specs.Names.{IsName};
ghost use Rattle.obj_types.specs.Definition.{WholeDef};
ghost use Rattle.obj_types.specs.declared.definition.SegAttrs.{SegAttrs};
ghost use Rattle.obj_types.specs.declared.symbol.Exp.{Exp};
ghost use Rattle.obj_types.specs.declared.symbol.Imp.{Imp};
ghost use Rattle.def_model.specs.Lexemes.{number, text};
ghost use Rattle.def_tokens.specs.Seen.{lexeme_of};
ghost use Rattle.def_model.specs.declared.keyword.Keyword.TheVariants as kw;
ghost use Rattle.def_write.specs.Names.{SegmentNames, ExportNames, ImportNames, EachName};
ghost use Rattle.def_write.specs.Quotable.{file_fits};
ghost use Rattle.def_model.specs.Reading.{Def};
ghost use Rattle.def_file.specs.Stated.{Stated};
ghost use Rattle.def_write.specs.Writing.{attribute_tokens, segment_tokens, export_tokens, import_tokens, statement_text, base_text, item_text, items_text, kind_text, text_of};

use crate::spelled::{import_tokens, push_attributes, push_export, push_kind, push_segment};
use crate::spelling::write_line;
use def_model::Keyword;
use def_tokens::Token;
use lx_types::{Bytes, Name, NoMemory, Seq};
use obj_types::{Attrs, DefFile, Exp, Imp, SegAttrs};
use std::alloc::Global;

// A line of one item. It stands after a space.
fn put_item(out: &mut Vec<u8>, tokens: &[Token<'_>]) -> Result<(), NoMemory>
    ensures { IfOk result (λ _. out.new.items ≡ out.old.items ++ item_text (map lexeme_of tokens.now)) }
{
    out.push(b' ')?;
    Ok(write_line(out, tokens)?)
}

// NAME or LIBRARY.
fn put_kind(alloc: Global, out: &mut Vec<u8>, d: &DefFile) -> Result<(), NoMemory>
    ensures text { IfOk result (λ _. out.new.items ≡ out.old.items ++ kind_text d.now) }
    ensures short { IfOk result (λ _. IfSome d.now.name IsName) }
{
    let mut tokens = Vec::new(alloc);
    push_kind(&mut tokens, d)?;
    Ok(write_line(out, tokens.as_slice())?)
}

// A statement that gives one text.
fn put_about(out: &mut Vec<u8>, about: &Name) -> Result<(), NoMemory>
    ensures text { IfOk result (λ _. out.new.items ≡ out.old.items ++ statement_text kw.Description (text about.now ∷ [])) }
    ensures short { IfOk result (λ _. IsName about.now) }
{
    let about = Token::Text(about.bytes());
    Ok(write_line(out, &[Token::Keyword(Keyword::Description), about])?)
}

// CODE or DATA.
fn put_attributes(
    alloc: Global,
    out: &mut Vec<u8>,
    begins: Keyword,
    attrs: Attrs,
) -> Result<(), NoMemory>
    ensures { IfOk result (λ _. out.new.items ≡ out.old.items ++ statement_text begins (attribute_tokens attrs)) }
{
    let mut tokens = Vec::new(alloc);
    tokens.push(Token::Keyword(begins))?;
    push_attributes(&mut tokens, attrs)?;
    Ok(write_line(out, tokens.as_slice())?)
}

// NAME or LIBRARY, DESCRIPTION, CODE and DATA.
fn put_head(alloc: Global, out: &mut Vec<u8>, d: &DefFile) -> Result<(), NoMemory>
    ensures text { IfOk result (λ _. out.new.items ≡ out.old.items
        ++ kind_text d.now
        ++ statement_text kw.Description (text d.now.about ∷ [])
        ++ statement_text kw.Code (attribute_tokens d.now.code)
        ++ statement_text kw.Data (attribute_tokens d.now.plain)) }
    ensures name { IfOk result (λ _. IfSome d.now.name IsName) }
    ensures about { IfOk result (λ _. IsName d.now.about) }
{
    put_kind(alloc, out, d)?;
    put_about(out, &d.about)?;
    put_attributes(alloc, out, Keyword::Code, d.code)?;
    put_attributes(alloc, out, Keyword::Data, d.plain)
}

fn put_segment(alloc: Global, out: &mut Vec<u8>, segment: &SegAttrs) -> Result<(), NoMemory>
    ensures text { IfOk result (λ _. out.new.items ≡ out.old.items ++ item_text (segment_tokens segment.now)) }
    ensures short { IfOk result (λ _. SegmentNames IsName segment.now) }
{
    let mut tokens = Vec::new(alloc);
    push_segment(&mut tokens, segment)?;
    put_item(out, tokens.as_slice())
}

// The items of SEGMENTS.
fn put_segments(alloc: Global, out: &mut Vec<u8>, segs: &[SegAttrs]) -> Result<(), NoMemory>
    ensures text { IfOk result (λ _. out.new.items ≡ out.old.items ++ items_text (map segment_tokens segs.now)) }
    ensures short { IfOk result (λ _. All (λ (s : SegAttrs). SegmentNames IsName s) segs.now) }
{
    for segment in segs {
        put_segment(alloc, out, segment)?;
    }
    Ok(())
}

fn put_export(alloc: Global, out: &mut Vec<u8>, export: &Exp) -> Result<(), NoMemory>
    ensures text { IfOk result (λ _. out.new.items ≡ out.old.items ++ item_text (export_tokens export.now)) }
    ensures short { IfOk result (λ _. ExportNames IsName export.now) }
{
    let mut tokens = Vec::new(alloc);
    push_export(&mut tokens, export)?;
    put_item(out, tokens.as_slice())
}

// The items of EXPORTS.
fn put_exports(alloc: Global, out: &mut Vec<u8>, exports: &[Exp]) -> Result<(), NoMemory>
    ensures text { IfOk result (λ _. out.new.items ≡ out.old.items ++ items_text (map export_tokens exports.now)) }
    ensures short { IfOk result (λ _. All (λ (e : Exp). ExportNames IsName e) exports.now) }
{
    for export in exports {
        put_export(alloc, out, export)?;
    }
    Ok(())
}

fn put_import(out: &mut Vec<u8>, import: &Imp) -> Result<(), NoMemory>
    ensures text { IfOk result (λ _. out.new.items ≡ out.old.items ++ item_text (import_tokens import.now)) }
    ensures short { IfOk result (λ _. ImportNames IsName import.now) }
{
    put_item(out, &import_tokens(import))
}

// The items of IMPORTS.
fn put_imports(out: &mut Vec<u8>, imports: &[Imp]) -> Result<(), NoMemory>
    ensures text { IfOk result (λ _. out.new.items ≡ out.old.items ++ items_text (map import_tokens imports.now)) }
    ensures short { IfOk result (λ _. All (λ (i : Imp). ImportNames IsName i) imports.now) }
{
    for import in imports {
        put_import(out, import)?;
    }
    Ok(())
}

// The keyword before items.
fn put_heading(out: &mut Vec<u8>, begins: Keyword) -> Result<(), NoMemory>
    ensures { IfOk result (λ _. out.new.items ≡ out.old.items ++ statement_text begins []) }
{
    Ok(write_line(out, &[Token::Keyword(begins)])?)
}

// A statement that gives one number.
fn put_size(out: &mut Vec<u8>, begins: Keyword, size: u32) -> Result<(), NoMemory>
    ensures { IfOk result (λ _. out.new.items
        ≡ out.old.items ++ statement_text begins (number (Some size) ∷ [])) }
{
    let size = Token::Number(Some(size));
    Ok(write_line(out, &[Token::Keyword(begins), size])?)
}

fn put_base(out: &mut Vec<u8>, base: Option<u32>) -> Result<(), NoMemory>
    ensures { IfOk result (λ _. out.new.items ≡ out.old.items ++ base_text base) }
{
    if let Some(base) = base {
        let base = Token::Number(Some(base));
        write_line(out, &[Token::Keyword(Keyword::Base), Token::Equals, base])?;
    }
    Ok(())
}

// SEGMENTS, EXPORTS and IMPORTS.
fn put_lists(alloc: Global, out: &mut Vec<u8>, d: &DefFile) -> Result<(), NoMemory>
    ensures text { IfOk result (λ _. out.new.items ≡ out.old.items
        ++ statement_text kw.Segments [] ++ items_text (map segment_tokens d.now.segs)
        ++ statement_text kw.Exports [] ++ items_text (map export_tokens d.now.exports)
        ++ statement_text kw.Imports [] ++ items_text (map import_tokens d.now.imports)) }
    ensures segs { IfOk result (λ _. All (λ (s : SegAttrs). SegmentNames IsName s) d.now.segs) }
    ensures exports { IfOk result (λ _. All (λ (e : Exp). ExportNames IsName e) d.now.exports) }
    ensures imports { IfOk result (λ _. All (λ (i : Imp). ImportNames IsName i) d.now.imports) }
{
    put_heading(out, Keyword::Segments)?;
    put_segments(alloc, out, d.segs.as_slice())?;
    put_heading(out, Keyword::Exports)?;
    put_exports(alloc, out, d.exports.as_slice())?;
    put_heading(out, Keyword::Imports)?;
    put_imports(out, d.imports.as_slice())
}

// STACKSIZE, HEAPSIZE and BASE.
fn put_sizes(out: &mut Vec<u8>, d: &DefFile) -> Result<(), NoMemory>
    ensures text { IfOk result (λ _. out.new.items ≡ out.old.items
        ++ statement_text kw.StackSize (number (Some d.now.stack) ∷ [])
        ++ statement_text kw.HeapSize (number (Some d.now.heap) ∷ [])
        ++ base_text d.now.base) }
    ensures heap { IfOk result (λ _. d.now.heap < 2 ^ 32) }
{
    put_size(out, Keyword::StackSize, d.stack)?;
    put_size(out, Keyword::HeapSize, d.heap)?;
    put_base(out, d.base)
}

// The written file. Its names are as short as names are.
#[tactic(auto, unfolding(crate::specs::Writing::text_of))]
fn written(alloc: Global, d: &DefFile) -> Result<Vec<u8>, NoMemory>
    ensures text { IfOk result (λ out. out.items ≡ text_of d.now) }
    ensures short { IfOk result (λ _. EachName IsName d.now) }
    ensures heap { IfOk result (λ _. d.now.heap < 2 ^ 32) }
{
    let mut out = Vec::new(alloc);
    put_head(alloc, &mut out, d)?;
    put_lists(alloc, &mut out, d)?;
    put_sizes(&mut out, d)?;
    Ok(out)
}

/// Writes a definition file that says `d`: a statement on a line, and each item of a list on a line
/// of its own after a space. Names and texts stand in single quotes, and numbers in decimal. Each
/// statement but BASE is written, also where it says what holds without it. Reading it gives `d`
/// again, if statements can give `d` at all.
pub fn write_def(alloc: Global, d: &DefFile) -> Result<Bytes, NoMemory>
    requires whole { WholeDef d.now }
    // No name or text has a single quote, CR or LF: `is_quotable` tells.
    requires quotable { file_fits d.now ≡ true }
    ensures text { IfOk result (λ bytes. bytes ≡ text_of d.now) }
    ensures read_back { IfOk result (λ bytes. Stated d.now → Def bytes d.now) }
{
    Ok(Seq::from_vec(written(alloc, d)?))
}
