//! The copies of an offset in the data of "A2h LIDATA", found without writing the blocks out: a walk over the blocks
//! takes the time of their bytes and of the copies.

ghost use Rattle.std.specs.Prelude.{◌≡◌, ◌+◌, ◌-◌, ◌*◌, ◌≤◌, ◌++◌, ◌∷◌, [], OnOk, IfOk, map, take, drop, vec_len};
ghost use Rattle.std.specs.List.{slice_range};
ghost use Rattle.omf_model.specs.Blocks.{contents as contents_of, origins};
ghost use Rattle.omf_model.specs.Copies.{is_inside as inside, place_in, repeated};
ghost use Rattle.omf_model.specs.Fixups.{places_of};
ghost use Rattle.lx_types.specs.Answers.{if_said, Gives, Reads};
ghost use Rattle.omf_model.specs.ReadBlocks.{blocks_in};
ghost use Rattle.omf_fix.specs.Found.{IsInContents, found_in, found_at, blocks_found, live_times as live_times_of};

use lx_types::{Fail, NoMemory};
use obj_types::{MAX_DEPTH, OmfRefusal};
use omf_fields::{Fields, said};
use omf_frame::Rec;
use std::alloc::Global;

/// A sum. What is past the last number would be past all memory too.
fn sum(first: usize, second: usize) -> Result<usize, NoMemory>
    ensures { IfOk result (λ n. n ≡ first + second) }
{
    match first.checked_add(second) {
        Some(sum) => Ok(sum),
        None => Err(NoMemory),
    }
}

/// A product. What is past the last number would be past all memory too.
fn product(times: u32, len: usize) -> Result<usize, NoMemory>
    ensures { IfOk result (λ n. n ≡ times * len) }
{
    match (times as usize).checked_mul(len) {
        Some(product) => Ok(product),
        None => Err(NoMemory),
    }
}

/// A place in data. Data of 2^32 bytes is in no segment.
fn place_at(base: usize, offset: usize) -> Result<u32, NoMemory>
    ensures { IfOk result (λ place. place ≡ base + offset) }
{
    match u32::try_from(sum(base, offset)?) {
        Ok(place) => Ok(place),
        Err(_) => Err(NoMemory),
    }
}

/// Adds the places from `start` up to `end` once more, each moved up by `shift`.
fn push_shifted(
    places: &mut Vec<u32>,
    start: usize,
    end: usize,
    shift: usize,
) -> Result<(), NoMemory>
    requires low { start ≤ end }
    requires high { end ≤ vec_len places.old }
    ensures { OnOk result (places.new.items ≡ places.old.items ++ map (λ x. shift + x) (slice_range places.old.items start end)) }
{
    let mut next = start;
    'places: while next < end {
        let place = places[next];
        places.push(place_at(shift, place as usize)?)?;
        next += 1;
    }
    Ok(())
}

/// Repeats the places from `start` on, which stand there once, for each repeat of `unit` bytes.
fn repeat_places(
    places: &mut Vec<u32>,
    start: usize,
    unit: usize,
    times: u32,
) -> Result<(), NoMemory>
    requires some { 1 ≤ times }
    requires there { start ≤ vec_len places.old }
    ensures { OnOk result (places.new.items ≡ take start places.old.items ++ repeated times unit (drop start places.old.items)) }
{
    let end = places.len();
    if start == end {
        return Ok(());
    }
    let mut done = 1;
    let mut shift = unit;
    'copies: while done < times {
        push_shifted(places, start, end, shift)?;
        shift = sum(shift, unit)?;
        done += 1;
    }
    Ok(())
}

/// What a walk over blocks has found: the length of the data, the places in it that an offset of the record is copied
/// to, and the places in the record of each innermost block's bytes.
#[derive(Drop)]
pub struct Copies {
    len: usize,
    pub places: Vec<u32>,
    pub contents: Vec<(usize, usize)>,
}

/// Repeats what was found after a length and a number of places.
fn repeat_found(found: &mut Copies, start: usize, before: usize, times: u32) -> Result<(), NoMemory>
    requires some { 1 ≤ times }
    requires there { start ≤ vec_len found.old.places }
    requires before { before ≤ found.old.len }
    ensures { OnOk result (found_in found.new
        ≡ (
          before + times * (found.old.len - before),
          take start found.old.places.items
              ++ repeated times (found.old.len - before) (drop start found.old.places.items),
          found.old.contents.items,
        )) }
{
    let unit = found.len - before;
    repeat_places(&mut found.places, start, unit, times)?;
    found.len = sum(before, product(times, unit)?)?;
    Ok(())
}

/// Whether a number is among those from a first one on, before another.
fn is_inside(first: usize, past: usize, number: usize) -> bool
    requires { first ≤ past }
    ensures { result ≡ inside first (past - first) number }
{
    first <= number && number < past
}

/// Adds the place of a number, in data that begins at `base` and has been copied from these numbers, if it is there.
fn push_inside(
    places: &mut Vec<u32>,
    base: usize,
    first: usize,
    past: usize,
    number: usize,
) -> Result<(), NoMemory>
    requires { first ≤ past }
    ensures { OnOk result (places.new.items ≡ places.old.items ++ map (λ x. base + x) (place_in first (past - first) number)) }
{
    if is_inside(first, past, number) {
        places.push(place_at(base, number - first)?)?;
    }
    Ok(())
}

/// Adds an innermost block whose bytes stand from a first place up to a last one, `times` times.
fn find_content(
    found: &mut Copies,
    first: usize,
    past: usize,
    times: u32,
    number: usize,
) -> Result<(), NoMemory>
    requires { first ≤ past }
    ensures { OnOk result (found_in found.new
        ≡ (
          found.old.len + times * (past - first),
          found.old.places.items
              ++ map (λ x. found.old.len + x) (repeated times (past - first) (place_in first (past - first) number)),
          found.old.contents.items
              ++ (first, past) ∷ [],
        )) }
{
    found.contents.push((first, past))?;
    if times == 0 {
        return Ok(());
    }
    let start = found.places.len();
    let before = found.len;
    push_inside(&mut found.places, before, first, past, number)?;
    found.len = sum(before, past - first)?;
    repeat_found(found, start, before, times)?;
    Ok(())
}

/// How often a block is repeated.
fn live_times(live: bool, times: u32) -> u32
    ensures { result ≡ live_times_of live times }
{
    if live { times } else { 0 }
}

/// What is looked for in blocks whose repeat counts have four bytes or two: the copies of an offset.
#[derive(Clone, Copy)]
struct Sought {
    wide: bool,
    number: usize,
}

/// Walks over the next block, with `left` depths left. What is repeated no time is not live: its contents alone are
/// found.
#[tactic(auto, unfolding(omf_model::specs::ReadBlocks::block_at))]
fn find_block(
    fields: &mut Fields,
    sought: Sought,
    left: u32,
    live: bool,
    found: &mut Copies,
) -> Result<(), Fail<OmfRefusal>>
    requires { IsInContents fields.old }
    ensures { Reads (λ _. found_in found.new) if_said result (found_at sought.number left sought.wide live (found_in found.old)) fields.old fields.new }
{
    let at = fields.at();
    let read = said(fields.number(sought.wide))?;
    if left == 0 {
        return Err(Fail::Said(OmfRefusal::Nested { at }));
    }
    let count = said(fields.word())?;
    let times = live_times(live, read);
    if count == 0 {
        let len = said(fields.byte())?;
        let first = fields.at() - 3;
        let _content = said(fields.bytes(usize::from(len)))?;
        let past = fields.at() - 3;
        find_content(found, first, past, times, sought.number)?;
        return Ok(());
    }
    let start = found.places.len();
    let before = found.len;
    let mut more = count;
    'inner: while more > 0 {
        find_block(fields, sought, left - 1, times > 0, found)?;
        more -= 1;
    }
    if times > 0 {
        repeat_found(found, start, before, times)?;
    }
    Ok(())
}

/// Walks over all blocks that are left.
fn find_blocks(
    fields: &mut Fields,
    sought: Sought,
    found: &mut Copies,
) -> Result<(), Fail<OmfRefusal>>
    requires { IsInContents fields.old }
    ensures { Gives (λ _. found_in found.new) if_said result (blocks_found sought.number sought.wide (found_in found.old) fields.old) }
{
    'all: while !fields.is_empty() {
        find_block(fields, sought, MAX_DEPTH, true, found)?;
    }
    Ok(())
}

/// The copies of an offset in the blocks that a body spells, and none where it spells no blocks.
pub fn copies_in(alloc: Global, wide: bool, body: &[u8], number: usize) -> Result<Copies, NoMemory>
    ensures places { IfOk result (λ c. c.places.items ≡ places_of number (origins wide 0 (blocks_in wide body.now))) }
    ensures contents { IfOk result (λ c. c.contents.items ≡ contents_of wide 0 (blocks_in wide body.now)) }
{
    let mut found = Copies {
        len: 0,
        places: Vec::new(alloc),
        contents: Vec::new(alloc),
    };
    let mut fields = Fields::of(&Rec { at: 0, ty: 0, body });
    // What is left of a record's contents is known to be bytes.
    let _all = fields.rest();
    match find_blocks(&mut fields, Sought { wide, number }, &mut found) {
        Ok(()) => Ok(found),
        Err(Fail::NoMemory) => Err(NoMemory),
        Err(Fail::Said(_)) => Ok(Copies {
            len: 0,
            places: Vec::new(alloc),
            contents: Vec::new(alloc),
        }),
    }
}
