//! From a page to groups of repeated bytes.

ghost use Rattle.std.specs.Prelude.{◌≡◌, ◌+◌, ◌*◌, ◌/◌, ◌≤◌, ◌<◌, ◌^◌, [], ◌∷◌, ◌++◌, length, take, drop, replicate, slice_index, find, IfOk};
ghost use Rattle.lx_model.specs.Iterated.{group_spelling, groups_spelling};
ghost use Rattle.lx_model.specs.Packed.{data_of, repeats, periods, runs_of, before_groups, groups_of, groups_of_runs, packed};

use lx_model::LONG_RUN;
use lx_types::{Bytes, NoMemory, PageBytes};
use std::alloc::{AllocError, Global};

/// The lengths of the patterns that are looked for.
const PERIODS: [usize; 5] = [1, 2, 4, 8, 16];

// The bytes of a page up to the last one that is not 0.
fn data_of(page: &[u8]) -> &[u8]
    ensures data_of { result.now ≡ data_of page.now }
    ensures within { length result.now ≤ length page.now }
{
    let mut end = page.len();
    while end > 0 && page[end - 1] == 0 {
        end -= 1;
    }
    &page[..end]
}

// Whether the bytes are the first `period` of them, again and again.
fn repeats(bytes: &[u8], period: usize) -> bool
    requires period { 0 < period }
    requires some { 0 < length bytes.now }
    ensures { result ≡ repeats bytes.now period }
{
    bytes.len() % period == 0 && bytes[period..] == bytes[..bytes.len() - period]
}

// How many bytes at the front are equal to the first.
fn run_length(bytes: &[u8]) -> usize
    requires { 0 < length bytes.now }
    ensures some { 0 < result }
    ensures within { result ≤ length bytes.now }
    ensures same { take result bytes.now ≡ replicate result (slice_index bytes.now 0) }
    ensures longest { runs_of bytes.now
        ≡ record { byte = slice_index bytes.now 0; times = result } ∷ runs_of (drop result bytes.now) }
{
    let mut len = 1;
    while len < bytes.len() && bytes[len] == bytes[0] {
        len += 1;
    }
    len
}

// Adds the spelling of a group: a count word, a length word, and the bytes.
fn push_group(into: &mut Vec<u8>, times: usize, bytes: &[u8]) -> Result<(), AllocError>
    requires times { times < 2 ^ 16 }
    requires bytes { length bytes.now < 2 ^ 16 }
    ensures { IfOk result (λ _. into.new.items
        ≡ into.old.items ++ group_spelling (record { times = times; bytes = bytes.now })) }
{
    into.extend_from_slice(&(times as u16).to_le_bytes())?;
    into.extend_from_slice(&(bytes.len() as u16).to_le_bytes())?;
    into.extend_from_slice(bytes)
}

// Adds bytes that stand once, where there are some.
fn push_once(into: &mut Vec<u8>, bytes: &[u8]) -> Result<(), AllocError>
    requires { length bytes.now < 2 ^ 16 }
    ensures { IfOk result (λ _. into.new.items
        ≡ into.old.items ++ groups_spelling (before_groups bytes.now [])) }
{
    if bytes.is_empty() {
        return Ok(());
    }
    push_group(into, 1, bytes)
}

// Adds the long runs of equal bytes, each as a group of one byte, and what is between them.
fn push_runs(into: &mut Vec<u8>, bytes: &[u8]) -> Result<(), AllocError>
    requires { length bytes.now < 2 ^ 16 }
    ensures { IfOk result (λ _. into.new.items
        ≡ into.old.items ++ groups_spelling (groups_of_runs (runs_of bytes.now))) }
{
    // The bytes from `once` up to `at` stand once.
    let mut once = 0;
    let mut at = 0;
    while at < bytes.len() {
        let len = run_length(&bytes[at..]);
        if len >= LONG_RUN {
            push_once(into, &bytes[once..at])?;
            push_group(into, len, &bytes[at..at + 1])?;
            once = at + len;
        }
        at += len;
    }
    push_once(into, &bytes[once..])
}

// The length of the shortest pattern that the bytes repeat.
fn period(bytes: &[u8]) -> Option<usize>
    requires { 0 < length bytes.now }
    ensures { result ≡ find (repeats bytes.now) periods }
{
    for period in PERIODS {
        if repeats(bytes, period) {
            return Some(period);
        }
    }
    None
}

// Adds the groups of some bytes.
fn push_groups(into: &mut Vec<u8>, bytes: &[u8]) -> Result<(), AllocError>
    requires some { 0 < length bytes.now }
    requires few { length bytes.now < 2 ^ 16 }
    ensures { IfOk result (λ _. into.new.items
        ≡ into.old.items ++ groups_spelling (groups_of bytes.now)) }
{
    match period(bytes) {
        Some(period) => push_group(into, bytes.len() / period, &bytes[..period]),
        None => push_runs(into, bytes),
    }
}

/// The iterated data in place of a page, where it is shorter than the page's bytes up to the last
/// one that is not 0.
///
/// Where these repeat their first 1, 2, 4, 8 or 16 bytes, the data is one group of the shortest
/// such pattern. Otherwise each run of 8 or more equal bytes is a group of one byte, and what is
/// between two runs is a group that stands once.
pub fn pack(alloc: Global, page: &PageBytes) -> Result<Option<Bytes>, NoMemory>
    ensures { IfOk result (λ d. d ≡ packed page.now) }
{
    let bytes = data_of(page);
    if bytes.is_empty() {
        return Ok(None);
    }
    let mut data = Vec::new(alloc);
    push_groups(&mut data, bytes)?;
    if data.len() < bytes.len() {
        Ok(Some(Bytes::from_vec(data)))
    } else {
        Ok(None)
    }
}
