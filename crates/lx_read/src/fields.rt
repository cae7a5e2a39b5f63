//! Fields at places of a file.

ghost use Rattle.std.specs.Prelude.{◌≡◌, ◌+◌, ◌*◌, ◌<◌, ◌^◌};
ghost use Rattle.lx_model.specs.Judging.{Judged};
ghost use Rattle.lx_model.specs.Reading.{fault, first_of, short_at};
ghost use Rattle.lx_types.specs.Answers.{as_is, as_said};
ghost use Rattle.lx_read.specs.Fields.{IsField};

use lx_fields::{Width, number};
use lx_types::{Fail, LxKind, LxRefusal};

/// What is wrong, and where.
pub fn fault(kind: LxKind, at: u64) -> LxRefusal
    ensures { result ≡ fault kind at }
{
    LxRefusal { at, kind }
}

/// The number in the four bytes at a place. It is `Short` there where they pass the file's end.
pub fn doubleword(file: &[u8], at: u64) -> Result<u32, LxRefusal>
    requires { at < 2 ^ 62 }
    ensures { IsField 4 result file.now at }
{
    match number(file, at as usize, Width::Doubleword) {
        Some(number) => Ok(number),
        None => Err(fault(LxKind::Short, at)),
    }
}

/// A field of so many bytes has to be in the file. It is `Short` at its place where it passes the file's end.
pub fn whole(file: &[u8], at: u64, width: u64) -> Result<(), LxRefusal>
    requires at { at < 2 ^ 62 }
    requires width { width < 2 ^ 62 }
    ensures { Judged as_is result (short_at width file.now at) }
{
    if (file.len() as u64) < at + width {
        return Err(fault(LxKind::Short, at));
    }
    Ok(())
}

/// So many doublewords, one after the other, have to be in the file. The first that passes its end is `Short`.
pub fn whole_doublewords(file: &[u8], at: u64, count: u64) -> Result<(), LxRefusal>
    requires at { at < 2 ^ 61 }
    requires count { count < 2 ^ 32 }
    ensures { Judged as_is result (first_of count (λ k. short_at 4 file.now (at + 4 * k))) }
{
    for k in 0..count {
        whole(file, at + 4 * k, 4)?;
    }
    Ok(())
}

/// A judgement, in a call that takes memory.
pub fn said<T>(judged: Result<T, LxRefusal>) -> Result<T, Fail<LxRefusal>>
    ensures { result ≡ as_said judged }
{
    match judged {
        Ok(value) => Ok(value),
        Err(refusal) => Err(Fail::Said(refusal)),
    }
}
