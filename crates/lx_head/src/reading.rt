//! How a header is found and read ("LX Header").

ghost use Rattle.std.specs.Prelude.{◌≡◌, ◌+◌, ◌≤◌, length, IfOk};
ghost use Rattle.lx_types.specs.Answers.{as_is};
ghost use Rattle.lx_model.specs.Judging.{Judged};
ghost use Rattle.lx_model.specs.Header.{is_lx_at, header_place, place_fault};
ghost use Rattle.lx_head.specs.Reading.{ReadsHead, doublewords_at};

use crate::head::Head;
use crate::rows::judge_fields;
use byteorder::{ByteOrder, LittleEndian};
use lx_fields::{Width, number};
use lx_model::header_fields::{HEADER_PLACE, LX_SIGNATURE};
use lx_types::{LxKind, LxRefusal};

// Whether `LX` stands at a place.
fn is_lx(bytes: &[u8], at: u32) -> bool
    ensures { result ≡ is_lx_at bytes.now at }
{
    let Some(word) = number(bytes, at as usize, Width::Word) else {
        return false;
    };
    word == u32::from(LX_SIGNATURE)
}

// Where the header stands.
fn find_header(bytes: &[u8]) -> Result<u32, LxRefusal>
    ensures judged { Judged as_is result (place_fault bytes.now) }
    ensures place { IfOk result (λ place. place ≡ header_place bytes.now) }
{
    if is_lx(bytes, 0) {
        return Ok(0);
    }
    let Some(place) = number(bytes, HEADER_PLACE, Width::Doubleword) else {
        return Err(LxRefusal {
            at: HEADER_PLACE as u64,
            kind: LxKind::Short,
        });
    };
    if !is_lx(bytes, place) {
        return Err(LxRefusal {
            at: u64::from(place),
            kind: LxKind::Signature,
        });
    }
    Ok(place)
}

// The doublewords at a place.
fn doublewords(bytes: &[u8], place: u32) -> [u32; 43]
    requires { place + 172 ≤ length bytes.now }
    ensures { result ≡ doublewords_at bytes.now place }
{
    let place = place as usize;
    let mut fields = [0; 43];
    LittleEndian::read_u32_into(&bytes[place..place + 172], &mut fields);
    fields
}

/// The header of a file: at 0 where the file begins with `LX`, otherwise where the doubleword at
/// 3Ch says. It has to be there up to the doubleword at A8h.
///
/// The refusal is the file's first fault up to there: the doubleword at 3Ch passes the end
/// (`Short`), `LX` does not stand at the header's place (`Signature`, also where that place is
/// past the end), and then by offset a field that passes the end (`Short`), that has a value which
/// is not allowed (`Field`), or that counts too many pages or objects (`TooMany`), each at the
/// field.
pub fn read_head(bytes: &[u8]) -> Result<Head, LxRefusal>
    ensures { ReadsHead result bytes.now }
{
    let place = find_header(bytes)?;
    judge_fields(bytes, place)?;
    Ok(Head {
        place,
        fields: doublewords(bytes, place),
    })
}
