//! The cursor over a record's fields.

ghost use Rattle.std.specs.Prelude.{◌≡◌, ◌+◌, ◌<◌, ◌≤◌, ◌^◌, ◌↔◌, [], IsTrue, IfOk, IfErr, length};
ghost use Rattle.lx_bytes.specs.LittleEndian.{AreBytes};
ghost use Rattle.omf_fields.specs.Fields.{width, byte_at, bytes_at, number_at, name_at, index_at, index_below, index_or_zero, length_at, where_so};
ghost use Rattle.lx_types.specs.Answers.{as_is, Yields};
ghost use Rattle.omf_fields.specs.Taking.{with_short};

use crate::lengths::{LENGTH_16, LENGTH_24, LENGTH_32, MAX_SHORT_LENGTH};
use lx_bytes::{Cur, Short};
use obj_types::OmfRefusal;
use omf_frame::Rec;
use std::marker::Model;

/// The fields that are left of a record. A field that passes the record's end is `Short` at its first byte. Where
/// a field is refused, the cursor stays before it.
#[derive(Drop)]
pub struct Fields<'a> {
    cur: Cur<'a>,
}

impl<'a> Model for Fields<'a> {
    ghost use Rattle.lx_bytes.specs.Cursor.{Cursor};

    ghost Value = { Cursor };

    ghost view = { λ f. f.cur };
}

/// A read of the byte cursor, with the refusal of object files.
fn or_short<T>(read: Result<T, Short>) -> Result<T, OmfRefusal>
    ensures { result ≡ with_short read }
{
    match read {
        Ok(x) => Ok(x),
        Err(Short { at }) => Err(OmfRefusal::Short { at }),
    }
}

impl<'a> Fields<'a> {
    /// All fields of a record, with their places in the record's file.
    pub fn of(rec: &Rec<'a>) -> Fields<'a>
        ensures place { result.at ≡ rec.now.at + 3 }
        ensures bytes { result.left ≡ rec.now.body.now }
    {
        Fields {
            cur: Cur::of_part(rec.body, rec.at + 3),
        }
    }

    /// The place of the next field.
    pub fn at(&self) -> usize
        ensures { result ≡ self.now.at }
    {
        self.cur.at()
    }

    /// Whether no field is left.
    pub fn is_empty(&self) -> bool
        ensures empty { IsTrue result ↔ (self.now.left ≡ []) }
        ensures bytes { AreBytes self.now.left }
    {
        self.cur.left() == 0
    }

    /// The next byte.
    pub fn byte(&mut self) -> Result<u8, OmfRefusal>
        ensures { Yields (λ b. b) as_is result byte_at self.old self.new }
    {
        or_short(self.cur.u8())
    }

    /// The next `n` bytes.
    pub fn bytes(&mut self, n: usize) -> Result<&'a [u8], OmfRefusal>
        ensures read { Yields (λ b. b.now) as_is result (bytes_at n) self.old self.new }
        ensures bytes { IfOk result (λ b. AreBytes b.now) }
    {
        or_short(self.cur.take(n))
    }

    /// The next number of two bytes.
    pub fn word(&mut self) -> Result<u16, OmfRefusal>
        ensures { Yields (λ n. n) as_is result (number_at 2) self.old self.new }
    {
        or_short(self.cur.u16())
    }

    /// The next number of four bytes.
    pub fn double(&mut self) -> Result<u32, OmfRefusal>
        ensures { Yields (λ n. n) as_is result (number_at 4) self.old self.new }
    {
        or_short(self.cur.u32())
    }

    /// The next offset or length: four bytes in a record of the odd type of a pair, two in the even one.
    pub fn number(&mut self, wide: bool) -> Result<u32, OmfRefusal>
        ensures { Yields (λ n. n) as_is result (number_at (width wide)) self.old self.new }
    {
        if wide {
            self.double()
        } else {
            Ok(u32::from(self.word()?))
        }
    }

    /// The next byte, where it stands there.
    pub fn byte_where(&mut self, present: bool) -> Result<Option<u8>, OmfRefusal>
        ensures { Yields (λ b. b) as_is result (where_so present byte_at) self.old self.new }
    {
        if present {
            Ok(Some(self.byte()?))
        } else {
            Ok(None)
        }
    }

    /// The next number of two bytes, where it stands there.
    pub fn word_where(&mut self, present: bool) -> Result<Option<u16>, OmfRefusal>
        ensures { Yields (λ n. n) as_is result (where_so present (number_at 2)) self.old self.new }
    {
        if present {
            Ok(Some(self.word()?))
        } else {
            Ok(None)
        }
    }

    /// All bytes that are left.
    pub fn rest(&self) -> &'a [u8]
        ensures read { result.now ≡ self.now.left }
        ensures bytes { AreBytes result.now }
    {
        let mut ahead = self.cur.fork();
        let Ok(rest) = ahead.take(self.cur.left()) else {
            unreachable!()
        };
        rest
    }

    /// The next name: a length byte, and that many bytes.
    pub fn name(&mut self) -> Result<&'a [u8], OmfRefusal>
        ensures read { Yields (λ b. b.now) as_is result name_at self.old self.new }
        ensures short { IfOk result (λ b. length b.now < 256) }
        ensures bytes { IfOk result (λ b. AreBytes b.now) }
    {
        let at = self.cur.at();
        let mut ahead = self.cur.fork();
        let Ok(len) = ahead.u8() else {
            return Err(OmfRefusal::Short { at });
        };
        let Ok(name) = ahead.take(usize::from(len)) else {
            return Err(OmfRefusal::Short { at });
        };
        self.cur = ahead;
        Ok(name)
    }

    /// The next index: a byte below 80h, or two bytes, the first with its high bit set.
    pub fn index(&mut self) -> Result<u32, OmfRefusal>
        ensures { Yields (λ n. n) as_is result index_at self.old self.new }
    {
        let at = self.cur.at();
        let mut ahead = self.cur.fork();
        let Ok(first) = ahead.u8() else {
            return Err(OmfRefusal::Short { at });
        };
        let index = if first < 0x80 {
            u32::from(first)
        } else {
            let Ok(low) = ahead.u8() else {
                return Err(OmfRefusal::Short { at });
            };
            (u32::from(first) - 0x80) * 256 + u32::from(low)
        };
        self.cur = ahead;
        Ok(index)
    }

    /// The next index, which is one of `have`.
    #[tactic(auto, unfolding(crate::specs::Fields::index_below))]
    pub fn index_below(&mut self, have: u32) -> Result<u32, OmfRefusal>
        ensures read { Yields (λ n. n) as_is result (index_below have) self.old self.new }
        ensures range { IfOk result (λ n. (1 ≤ n) × (n ≤ have)) }
    {
        let at = self.at();
        let mut ahead = self.fork();
        let index = ahead.index()?;
        if index == 0 || have < index {
            return Err(OmfRefusal::BadIndex { at, index, have });
        }
        *self = ahead;
        Ok(index)
    }

    /// The next index, which is one of `have` or 0.
    #[tactic(auto, unfolding(crate::specs::Fields::index_or_zero))]
    pub fn index_or_zero(&mut self, have: u32) -> Result<u32, OmfRefusal>
        ensures read { Yields (λ n. n) as_is result (index_or_zero have) self.old self.new }
        ensures range { IfOk result (λ n. n ≤ have) }
    {
        let at = self.at();
        let mut ahead = self.fork();
        let index = ahead.index()?;
        if have < index {
            return Err(OmfRefusal::BadIndex { at, index, have });
        }
        *self = ahead;
        Ok(index)
    }

    /// The next length of a COMDEF ("B0h COMDEF"): a byte up to 80h, or 81h, 84h or 88h and a number of 2, 3 or
    /// 4 bytes. Another first byte is `BadField`.
    pub fn length(&mut self) -> Result<u32, OmfRefusal>
        ensures { Yields (λ n. n) as_is result length_at self.old self.new }
    {
        let at = self.cur.at();
        let mut ahead = self.cur.fork();
        let Ok(first) = ahead.u8() else {
            return Err(OmfRefusal::Short { at });
        };
        let count = match first {
            0..=MAX_SHORT_LENGTH => 0,
            LENGTH_16 => 2,
            LENGTH_24 => 3,
            LENGTH_32 => 4,
            _ => return Err(OmfRefusal::BadField { at }),
        };
        let Ok(bytes) = ahead.take(count) else {
            return Err(OmfRefusal::Short { at });
        };
        self.cur = ahead;
        Ok(match bytes {
            [a, b] => u32::from_le_bytes([*a, *b, 0, 0]),
            [a, b, c] => u32::from_le_bytes([*a, *b, *c, 0]),
            [a, b, c, d] => u32::from_le_bytes([*a, *b, *c, *d]),
            _ => u32::from(first),
        })
    }

    // A second cursor at the same place.
    fn fork(&self) -> Fields<'a>
        ensures { result ≡ self.now }
    {
        Fields {
            cur: self.cur.fork(),
        }
    }
}
