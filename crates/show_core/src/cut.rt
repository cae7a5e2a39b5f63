//! What a file says up to its first fault: the file is cut off there, and ended as a whole file is.

use crate::records::is_end;
use lx_types::NoMemory;
use obj_types::OmfRefusal;
use omf_frame::Rec;
use omf_frame::record_type::{LIBRARY_END, MODEND};
use std::alloc::Global;

/// A MODEND without a start, whose checksum is not tried.
const END: [u8; 5] = [MODEND, 2, 0, 0, 0];

/// The place of a fault in the file.
pub fn place_of(refusal: &OmfRefusal) -> usize {
    match *refusal {
        OmfRefusal::Short { at }
        | OmfRefusal::BadChecksum { at, .. }
        | OmfRefusal::UnknownType { at, .. }
        | OmfRefusal::BadIndex { at, .. }
        | OmfRefusal::BadField { at }
        | OmfRefusal::DataRange { at }
        | OmfRefusal::Nested { at }
        | OmfRefusal::NoThread { at }
        | OmfRefusal::BadLocation { at, .. }
        | OmfRefusal::NoData { at }
        | OmfRefusal::FixOverlap { at }
        | OmfRefusal::DataOverFix { at }
        | OmfRefusal::TooMany { at } => at,
    }
}

/// The bytes up to the last of these records, with an end of their module where that has none.
pub fn cut_object(
    alloc: Global,
    bytes: &[u8],
    records: &[Rec<'_>],
    page: usize,
) -> Result<Vec<u8>, NoMemory> {
    let (end, is_ended) = match records.last() {
        Some(rec) => (rec.at + 4 + rec.body.len(), is_end(rec.ty)),
        None => (page, true),
    };
    let mut cut = Vec::from_slice(alloc, bytes.get(..end).unwrap_or(&[]))?;
    if !is_ended {
        cut.extend_from_slice(&END)?;
    }
    Ok(cut)
}

/// The same of a library, with its end on the next page.
pub fn cut_library(
    alloc: Global,
    bytes: &[u8],
    records: &[Rec<'_>],
    page: usize,
) -> Result<Vec<u8>, NoMemory> {
    let mut cut = cut_object(alloc, bytes, records, page)?;
    let fill = match cut.len().checked_next_multiple_of(page) {
        Some(end) => end.saturating_sub(cut.len()),
        None => 0,
    };
    let mut end = vec![in alloc; 0; fill]?;
    cut.append(&mut end)?;
    cut.push(LIBRARY_END)?;
    Ok(cut)
}
