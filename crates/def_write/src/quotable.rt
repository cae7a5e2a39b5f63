//! Whether names and texts fit between single quotes.

ghost use Rattle.std.specs.Prelude.{◌≡◌, true};
ghost use Rattle.std.specs.List.{list_all};
ghost use Rattle.std.specs.Option.{option_map_or};
ghost use Rattle.def_write.specs.Quotable.{text_fits, segment_fits, export_fits, entry_fits, import_fits, file_fits};

use lx_types::{EntryKey, Name};
use obj_types::{DefFile, Exp, Imp, SegAttrs};

fn text_fits(text: &Name) -> bool
    ensures { result ≡ text_fits text.now }
{
    text.bytes()
        .iter()
        .all(|b| !(*b == b'\'') && !(*b == b'\r') && !(*b == b'\n'))
}

fn option_fits(text: &Option<Name>) -> bool
    ensures { result ≡ option_map_or text_fits text.now true }
{
    match text {
        Some(text) => text_fits(text),
        None => true,
    }
}

fn segment_fits(segment: &SegAttrs) -> bool
    ensures { result ≡ segment_fits segment.now }
{
    text_fits(&segment.name) && option_fits(&segment.class)
}

fn export_fits(export: &Exp) -> bool
    ensures { result ≡ export_fits export.now }
{
    text_fits(&export.name) && text_fits(&export.internal)
}

fn entry_fits(entry: &EntryKey) -> bool
    ensures { result ≡ entry_fits entry.now }
{
    match entry {
        EntryKey::Ordinal(_) => true,
        EntryKey::Named(name) => text_fits(name),
    }
}

fn import_fits(import: &Imp) -> bool
    ensures { result ≡ import_fits import.now }
{
    text_fits(&import.name) && text_fits(&import.module) && entry_fits(&import.entry)
}

fn segments_fit(segments: &[SegAttrs]) -> bool
    ensures { result ≡ list_all segment_fits segments.now }
{
    segments.iter().all(segment_fits)
}

fn exports_fit(exports: &[Exp]) -> bool
    ensures { result ≡ list_all export_fits exports.now }
{
    exports.iter().all(export_fits)
}

fn imports_fit(imports: &[Imp]) -> bool
    ensures { result ≡ list_all import_fits imports.now }
{
    imports.iter().all(import_fits)
}

/// Whether `write_def` may be called: no name or text has a single quote, CR or LF.
#[tactic(auto, unfolding(crate::specs::Quotable::file_fits))]
pub fn is_quotable(d: &DefFile) -> bool
    ensures { result ≡ file_fits d.now }
{
    option_fits(&d.name)
        && text_fits(&d.about)
        && segments_fit(d.segs.as_slice())
        && exports_fit(d.exports.as_slice())
        && imports_fit(d.imports.as_slice())
}
