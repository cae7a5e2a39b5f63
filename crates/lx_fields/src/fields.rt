//! The fields of a table or of a record, read one after another.

ghost use Rattle.std.specs.Prelude.{◌≡◌, ◌+◌, ◌<◌, ◌^◌, length};
ghost use Rattle.lx_types.specs.Answers.{Reads, told_as};
ghost use Rattle.lx_model.specs.Reading.{number, text};
ghost use Rattle.lx_fields.specs.Faults.{short_fault};

use lx_bytes::Cur;
use std::marker::Model;

/// A field at a place passes the end.
#[derive(Clone, Copy)]
pub struct Short {
    pub at: u32,
}

/// The fields that are left of a table, whose places have 32 bits. Numbers are little-endian.
#[derive(Drop)]
pub struct Fields<'a> {
    cur: Cur<'a>,
}

impl<'a> Model for Fields<'a> {
    ghost use Rattle.std.specs.Prelude.{◌+◌, ◌<◌, ◌^◌, length};
    ghost use Rattle.lx_bytes.specs.Cursor.{Cursor};

    ghost Value = { Cursor };

    ghost view = { λ c. c.cur };

    ghost invariant = { λ c. c.cur.at + length c.cur.left < 2 ^ 32 };
}

impl<'a> Fields<'a> {
    /// The fields of a table's bytes.
    pub fn of(bytes: &'a [u8]) -> Fields<'a>
        requires { length bytes.now < 2 ^ 32 }
        ensures place { result.at ≡ 0 }
        ensures bytes { result.left ≡ bytes.now }
    {
        Fields {
            cur: Cur::of(bytes),
        }
    }

    /// The fields in some bytes of a file, where `at` bytes stand before them.
    pub fn of_part(bytes: &'a [u8], at: u32) -> Fields<'a>
        requires { at + length bytes.now < 2 ^ 32 }
        ensures place { result.at ≡ at }
        ensures bytes { result.left ≡ bytes.now }
    {
        Fields {
            cur: Cur::of_part(bytes, at as usize),
        }
    }

    /// The same fields once more, to read ahead in.
    pub fn fork(&self) -> Fields<'a>
        ensures { result ≡ self.now }
    {
        Fields {
            cur: self.cur.fork(),
        }
    }

    /// The place of the next field.
    pub fn at(&self) -> u32
        ensures { result ≡ self.now.at }
    {
        self.cur.at() as u32
    }

    /// How many bytes are left.
    pub fn left(&self) -> usize
        ensures { result ≡ length self.now.left }
    {
        self.cur.left()
    }

    /// The next `n` bytes.
    pub fn bytes(&mut self, n: usize) -> Result<&'a [u8], Short>
        ensures { Reads (λ b. b.now) (told_as short_fault) result (text n) self.old self.new }
    {
        let at = self.at();
        match self.cur.take(n) {
            Ok(bytes) => Ok(bytes),
            Err(_short) => Err(Short { at }),
        }
    }

    /// The next byte.
    pub fn byte(&mut self) -> Result<u8, Short>
        ensures { Reads (λ n. n) (told_as short_fault) result (number 1) self.old self.new }
    {
        let at = self.at();
        match self.cur.u8() {
            Ok(byte) => Ok(byte),
            Err(_short) => Err(Short { at }),
        }
    }

    /// The next number of two bytes.
    pub fn word(&mut self) -> Result<u16, Short>
        ensures { Reads (λ n. n) (told_as short_fault) result (number 2) self.old self.new }
    {
        let at = self.at();
        match self.cur.u16() {
            Ok(number) => Ok(number),
            Err(_short) => Err(Short { at }),
        }
    }

    /// The next number of four bytes.
    pub fn doubleword(&mut self) -> Result<u32, Short>
        ensures { Reads (λ n. n) (told_as short_fault) result (number 4) self.old self.new }
    {
        let at = self.at();
        match self.cur.u32() {
            Ok(number) => Ok(number),
            Err(_short) => Err(Short { at }),
        }
    }
}
