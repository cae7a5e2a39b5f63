//! The records of a page, one source after another.

ghost use Rattle.std.specs.Prelude.{◌≡◌, ◌+◌, ◌<◌, ◌^◌, length};
ghost use Rattle.lx_fixrec.specs.Left.{left_in, Finds};

use crate::record::{Record, next_fix, next_of, record_at};
use crate::refusal::RecRefusal;
use lx_fields::Fields;
use lx_types::Fix;
use std::marker::Model;

/// A source, the place of its record, and the record with those that are left.
#[derive(Drop)]
pub struct Found<'a> {
    pub at: u32,
    pub fix: Fix,
    pub record: Record<'a>,
}

// The next record that has a source, and its first source. There is none where the bytes end.
fn next_record<'a>(fields: &mut Fields<'a>) -> Result<Option<Found<'a>>, RecRefusal>
    ensures { Finds result fields.old fields.new }
{
    while fields.left() > 0 {
        let at = fields.at();
        let mut record = record_at(fields)?;
        if let Some(fix) = next_fix(&mut record) {
            return Ok(Some(Found { at, fix, record }));
        }
    }
    Ok(None)
}

/// The sources of a page's records: an iterator that ends after its first refusal, and without one
/// only at the end of the records.
#[derive(Drop)]
pub struct Records<'a> {
    fields: Fields<'a>,
    at: u32,
    current: Option<Record<'a>>,
}

impl<'a> Model for Records<'a> {
    ghost use Rattle.std.specs.Option.{ForSome};
    ghost use Rattle.lx_fixrec.specs.Left.{Left, left_of};
    ghost use Rattle.lx_fixrec.specs.Sources.{IsGood};

    ghost Value = { Left };

    ghost view = { λ r. left_of r.at r.current r.fields };

    ghost invariant = { λ r. ForSome r.current IsGood };
}

impl<'a> Records<'a> {
    /// The sources of the records in some bytes of a file, of which `at` bytes stand before.
    pub fn of(bytes: &'a [u8], at: u32) -> Records<'a>
        requires { at + length bytes.now < 2 ^ 32 }
        ensures { result ≡ left_in at bytes.now }
    {
        Records {
            fields: Fields::of_part(bytes, at),
            at,
            current: None,
        }
    }

    /// The place of the record that gave the last source.
    pub fn at(&self) -> u32
        ensures { result ≡ self.now.at }
    {
        self.at
    }
}

impl<'a> Iterator for Records<'a> {
    type Item = Result<Fix, RecRefusal>;

    ghost use Rattle.std.specs.Iterator.{at_most};
    ghost use Rattle.lx_fixrec.specs.Left.{GivesNext, count_of};

    ghost next_gives = { λ before item after. GivesNext item before after };

    ghost remaining = { λ r. at_most (count_of r) };

    fn next(&mut self) -> Option<Result<Fix, RecRefusal>> {
        if let Some(fix) = next_of(&mut self.current) {
            return Some(Ok(fix));
        }
        match next_record(&mut self.fields) {
            Ok(Some(found)) => {
                self.at = found.at;
                self.current = Some(found.record);
                Some(Ok(found.fix))
            }
            Ok(None) => {
                self.current = None;
                None
            }
            Err(refusal) => {
                // Nothing is read after a refusal.
                self.fields = Fields::of(&[]);
                self.current = None;
                Some(Err(refusal))
            }
        }
    }
}
