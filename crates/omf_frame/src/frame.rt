//! The next record at a cursor ("Relocatable Object Module Format", "Record Format").

ghost use Rattle.std.specs.Prelude.{◌≡◌, ◌+◌, ◌≤◌, ◌<◌, ◌%◌, ◌^◌, ◌++◌, ℕ, List, length, sum, take, OnErr, IfOk, IfErr, IfNone, IfSome, IsOkAnd};
ghost use Rattle.lx_bytes.specs.LittleEndian.{AreBytes};
ghost use Rattle.omf_frame.specs.Delimited.{IsDelimited};
ghost use Rattle.omf_frame.specs.Frame.{BeginsRecord, BeginsWhole, record_sum};
ghost use Rattle.omf_frame.specs.Refusal.{IsCutOff, Refuses};

use crate::omf_record::Rec;
use crate::record_type;
use crate::refusal::FrameRefusal;
use lx_bytes::{Cur, Short};

// The sum of the bytes, as one byte.
fn sum_of(bytes: &[u8]) -> u8
    ensures { result ≡ sum bytes.now % 256 }
{
    let mut total = 0u8;
    for &byte in bytes {
        total = total.wrapping_add(byte);
    }
    total
}

// The bytes that the length word tells, from the type byte to the checksum byte.
fn delimited<'a>(cur: &mut Cur<'a>) -> Result<&'a [u8], Short>
    ensures bytes { IfOk result (λ bytes. AreBytes bytes.now) }
    ensures delimited { IfOk result (λ bytes. IsDelimited bytes.now) }
    ensures taken { IfOk result (λ bytes. cur.old.left ≡ bytes.now ++ cur.new.left) }
    ensures after { IfOk result (λ bytes. cur.new.at ≡ cur.old.at + length bytes.now) }
    ensures short { OnErr result (IsCutOff cur.old.left) }
{
    let mut header = cur.fork();
    header.u8()?;
    let length = header.u16()?;
    cur.take(3 + usize::from(length))
}

// A whole record, of whatever type and checksum.
struct Whole<'a> {
    ty: u8,
    body: &'a [u8],
    checksum: u8,
    // of all its bytes, modulo 256
    sum: u8,
}

// Moves past the record, if it is whole.
fn whole_record<'a>(cur: &mut Cur<'a>) -> Option<Whole<'a>>
    ensures whole { IfSome result (λ w. BeginsWhole cur.old.left w.ty w.body.now w.checksum cur.new.left) }
    ensures sum { IfSome result (λ w. w.sum ≡ record_sum w.ty w.body.now w.checksum) }
    ensures after { IfSome result (λ w. cur.new.at ≡ cur.old.at + 4 + length w.body.now) }
    ensures cut_off { IfNone result (IsCutOff cur.old.left) }
{
    let Ok(bytes) = delimited(cur) else {
        return None;
    };
    // Where the length is 0, there is no checksum byte.
    let [ty, _, _, body @ .., checksum] = bytes else {
        return None;
    };
    Some(Whole {
        ty: *ty,
        body,
        checksum: *checksum,
        sum: sum_of(bytes),
    })
}

/// The next record. The cursor is after it then, and stays where no record is read. A record that is cut off
/// is refused before its type is looked at, and its type before its checksum.
pub fn next_record<'a>(cur: &mut Cur<'a>) -> Result<Rec<'a>, FrameRefusal>
    // A record's spelling stood at the cursor.
    ensures read { IfOk result (λ r. (r.at ≡ cur.old.at)
        × BeginsRecord cur.old.left r.ty r.body.now cur.new.left) }
    ensures after { IfOk result (λ r. cur.new.at ≡ cur.old.at + 4 + length r.body.now) }
    // What is spelled there is read.
    ensures only { (ty : ℕ) (body rest : List ℕ) → BeginsRecord cur.old.left ty body rest
        → IsOkAnd result (λ r. (r.ty ≡ ty) × (r.body.now ≡ body) × (cur.new.left ≡ rest)) }
    ensures refused { IfErr result (λ refusal. Refuses cur.old refusal) }
    ensures stays { OnErr result (cur.new ≡ cur.old) }
{
    let at = cur.at();
    let mut ahead = cur.fork();
    let Some(
        Whole {
            ty,
            body,
            checksum,
            sum,
        },
    ) = whole_record(&mut ahead)
    else {
        return Err(FrameRefusal::Short { at });
    };
    if !record_type::is_known(ty) {
        return Err(FrameRefusal::UnknownType { at, ty });
    }
    if checksum != 0 && sum != 0 {
        return Err(FrameRefusal::BadChecksum { at, sum });
    }
    *cur = ahead;
    Ok(Rec { at, ty, body })
}
