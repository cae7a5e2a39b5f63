//! A command over each damaged form of one of its files, and how often it ended in which way.

use crate::outcome::shown;
use crate::row::{Ended, Named, Row, find_bytes};
use lx_types::NoMemory;
use std::alloc::{AllocError, Global};
use std::sync::Wait;
use std::thread::Threads;

/// What is wrong with each form of a file.
#[derive(Clone, Copy)]
pub enum Damage {
    /// It ends too early: after no byte, after the first, and so on.
    Prefixes,
    /// One bit of one byte is the other one, from the lowest bit of the first byte on.
    Bits,
}

/// A file of a row, and what is wrong with it in each form.
#[derive(Drop)]
pub struct Sweep {
    pub damage: Damage,
    pub name: String,
}

/// The bits of a byte.
const BITS: [u8; 8] = [0x01, 0x02, 0x04, 0x08, 0x10, 0x20, 0x40, 0x80];

/// How often a command ended in one way.
#[derive(Drop)]
struct Tally {
    way: String,
    count: u32,
}

// How many damaged forms there are of so many bytes.
fn forms(damage: Damage, length: usize) -> usize {
    match damage {
        Damage::Prefixes => length,
        Damage::Bits => length.saturating_mul(BITS.len()),
    }
}

// The damaged form of a number.
fn damaged(
    alloc: Global,
    damage: Damage,
    whole: &[u8],
    number: usize,
) -> Result<Vec<u8>, AllocError> {
    let mut bytes = whole.to_vec(alloc)?;
    match damage {
        Damage::Prefixes => bytes.truncate(number),
        Damage::Bits => {
            let bit = BITS.get(number % BITS.len()).copied().unwrap_or(0);
            if let Some(byte) = bytes.get_mut(number / BITS.len()) {
                *byte ^= bit;
            }
        }
    }
    Ok(bytes)
}

// The files, with other bytes under one name.
fn with_file(
    alloc: Global,
    files: &[Named],
    name: &str,
    bytes: Vec<u8>,
) -> Result<Vec<Named>, AllocError> {
    let mut others = Vec::new(alloc);
    for file in files {
        if file.name.as_str() != name {
            others.push(Named {
                name: file.name.clone()?,
                bytes: file.bytes.to_vec(alloc)?,
            })?;
        }
    }
    others.push(Named {
        name: name.to_string(alloc)?,
        bytes,
    })?;
    Ok(others)
}

// The kind of a refusal in its line: the first word after the name of the file that begins with a capital letter.
fn kind(line: &str) -> &str {
    line.split_whitespace()
        .skip(2)
        .find(|word| word.starts_with(|c: char| c.is_ascii_uppercase()))
        .unwrap_or("")
}

// In which way a command ended: its status, and what it told of a refusal. Of changed bits that is the kind alone.
fn way(alloc: Global, damage: Damage, ended: &Ended) -> Result<String, AllocError> {
    let status = ended.status;
    let text = shown(alloc, &ended.text)?;
    let line = text.as_str().trim_end_matches("\\n");
    let told = match (status, damage) {
        (0, _) => "",
        (_, Damage::Prefixes) => line,
        (_, Damage::Bits) => kind(line),
    };
    format!(in alloc; "status {status} {told}")
}

// Counts one more end in a way.
fn count(tallies: &mut Vec<Tally>, way: String) -> Result<(), AllocError> {
    match tallies
        .iter_mut()
        .find(|tally| tally.way.as_str() == way.as_str())
    {
        Some(tally) => tally.count = tally.count.saturating_add(1),
        None => tallies.push(Tally { way, count: 1 })?,
    }
    Ok(())
}

// A line for each way, in the order in which they came.
fn lines(alloc: Global, tallies: &[Tally]) -> Result<String, AllocError> {
    let mut text = String::new(alloc);
    for Tally { way, count } in tallies {
        let way = way.as_str().trim_end();
        text.push_str(format!(in alloc; "{count} {way}\n")?.as_str())?;
    }
    Ok(text)
}

impl Sweep {
    /// Runs the command of a row over each damaged form of the file, and tells how often it ended in which way.
    pub fn run<R: Threads + Wait + Sync>(
        &self,
        rt: &R,
        alloc: Global,
        row: &Row,
        files: &[Named],
    ) -> Result<String, NoMemory> {
        let name = self.name.as_str();
        let whole = find_bytes(files, name).unwrap_or(&[]);
        let mut tallies = Vec::new(alloc);
        for number in 0..forms(self.damage, whole.len()) {
            let bytes = damaged(alloc, self.damage, whole, number)?;
            let others = with_file(alloc, files, name, bytes)?;
            let ended = row.run(rt, alloc, &others)?;
            count(&mut tallies, way(alloc, self.damage, &ended)?)?;
        }
        Ok(lines(alloc, &tallies)?)
    }
}
