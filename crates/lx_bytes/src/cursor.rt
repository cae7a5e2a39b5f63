//! A place in a byte slice, and reads that move it on.

ghost use Rattle.std.specs.Prelude.{◌≡◌, ◌+◌, ◌<◌, ◌^◌, [], ◌∷◌, length, IfOk};
ghost use Rattle.lx_bytes.specs.Cursor.{Reads};
ghost use Rattle.lx_bytes.specs.LittleEndian.{AreBytes, little};

use byteorder::{ByteOrder, LittleEndian};
use std::marker::Model;
use thiserror::Error;

/// A field passes the end: `at` is the place of its first byte.
#[derive(Clone, Copy, Debug, Error)]
#[error("a field at {at} passes the end")]
pub struct Short {
    pub at: usize,
}

/// A cursor over a byte slice. Numbers are little-endian.
#[derive(Drop)]
pub struct Cur<'a> {
    left: &'a [u8],
    at: usize,
}

impl<'a> Model for Cur<'a> {
    ghost use Rattle.std.specs.Prelude.{◌+◌, ◌<◌, ◌^◌, length};
    ghost use Rattle.lx_bytes.specs.Cursor.{Cursor};
    ghost use Rattle.lx_bytes.specs.LittleEndian.{AreBytes};

    ghost Value = { Cursor };

    ghost view = { λ c. record { at = c.at; left = c.left.now } };

    ghost invariant = { λ c. (c.at + length c.left.now < 2 ^ 64) × AreBytes c.left.now };
}

impl<'a> Cur<'a> {
    /// A cursor at the first of the bytes.
    pub fn of(bytes: &'a [u8]) -> Cur<'a>
        ensures place { result.at ≡ 0 }
        ensures bytes { result.left ≡ bytes.now }
    {
        Cur { left: bytes, at: 0 }
    }

    /// A cursor at the first of some bytes of a file, where `at` bytes stand before them.
    pub fn of_part(bytes: &'a [u8], at: usize) -> Cur<'a>
        requires { at + length bytes.now < 2 ^ 64 }
        ensures place { result.at ≡ at }
        ensures bytes { result.left ≡ bytes.now }
    {
        Cur { left: bytes, at }
    }

    /// A second cursor at the same place, to read ahead with.
    pub fn fork(&self) -> Cur<'a>
        ensures { result ≡ self.now }
    {
        Cur {
            left: self.left,
            at: self.at,
        }
    }

    /// How many bytes stand before the cursor.
    pub fn at(&self) -> usize
        ensures place { result ≡ self.now.at }
        // Every place up to the end is a `usize`.
        ensures room { self.now.at + length self.now.left < 2 ^ 64 }
    {
        self.at
    }

    /// How many bytes are left.
    pub fn left(&self) -> usize
        ensures count { result ≡ length self.now.left }
        ensures bytes { AreBytes self.now.left }
    {
        self.left.len()
    }

    /// The next byte.
    pub fn u8(&mut self) -> Result<u8, Short>
        ensures { Reads 1 (λ bytes byte. bytes ≡ byte ∷ []) self.old result self.new }
    {
        Ok(self.take(1)?[0])
    }

    /// The number in the next two bytes.
    pub fn u16(&mut self) -> Result<u16, Short>
        ensures { Reads 2 (λ bytes n. n ≡ little bytes) self.old result self.new }
    {
        Ok(LittleEndian::read_u16(self.take(2)?))
    }

    /// The number in the next four bytes.
    pub fn u32(&mut self) -> Result<u32, Short>
        ensures { Reads 4 (λ bytes n. n ≡ little bytes) self.old result self.new }
    {
        Ok(LittleEndian::read_u32(self.take(4)?))
    }

    /// The next `n` bytes.
    pub fn take(&mut self, n: usize) -> Result<&'a [u8], Short>
        ensures read { Reads n (λ bytes taken. taken.now ≡ bytes) self.old result self.new }
        ensures bytes { IfOk result (λ taken. AreBytes taken.now) }
    {
        if self.left.len() < n {
            return Err(Short { at: self.at });
        }
        let (taken, left) = self.left.split_at(n);
        self.left = left;
        self.at += n;
        Ok(taken)
    }
}
