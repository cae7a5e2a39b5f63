//! The rows of a file, read and run one after another.

use crate::bytes::{add_lines, overlay};
use crate::line::{Change, Line};
use crate::outcome::{difference, shown};
use crate::row::{Ended, Held, Named, Row, find_bytes};
use lx_types::NoMemory;
use std::alloc::{AllocError, Global};
use std::sync::Wait;
use std::thread::Threads;

/// The files so far, the row that is being read, and what is told of those that were run.
#[derive(Drop)]
pub struct Runner {
    alloc: Global,
    files: Vec<Named>,
    row: Option<Row>,
    last: Option<Ended>,
    told: Vec<String>,
    rows: u32,
}

// Makes a change to bytes, and answers whether it can be made.
fn change(
    alloc: Global,
    bytes: &mut Vec<u8>,
    change: &Change<'_>,
    files: &[Named],
    saved: Option<&[u8]>,
) -> Result<bool, AllocError> {
    match change {
        Change::Bytes(more) => bytes.extend_from_slice(more)?,
        Change::Like(name) => match find_bytes(files, name) {
            Some(others) => bytes.extend_from_slice(others)?,
            None => return Ok(false),
        },
        Change::Saved => match saved {
            Some(others) => bytes.extend_from_slice(others)?,
            None => return Ok(false),
        },
        Change::Fill { count, byte } => {
            let others = vec![in alloc; *byte; *count]?;
            bytes.extend_from_slice(&others)?;
        }
        Change::Lines { count, line } => add_lines(alloc, bytes, *count, line)?,
        Change::At {
            place,
            bytes: others,
        } => return Ok(overlay(bytes, *place, others)),
        Change::Cut(length) => bytes.truncate(*length),
    }
    Ok(true)
}

impl Runner {
    /// No file and no row yet.
    pub fn new(alloc: Global) -> Runner {
        Runner {
            alloc,
            files: Vec::new(alloc),
            row: None,
            last: None,
            told: Vec::new(alloc),
            rows: 0,
        }
    }

    /// How many rows were run.
    pub fn rows(&self) -> u32 {
        self.rows
    }

    /// What is told: a line for each row that differs, and for each line that says nothing known.
    pub fn told(&self) -> &[String] {
        &self.told
    }

    /// Reads the lines of a file of rows, and runs each row where the next one, a file or the end follows it.
    pub fn run<R: Threads + Wait + Sync>(&mut self, rt: &R, text: &str) -> Result<(), NoMemory> {
        let mut number = 0u32;
        for text in text.lines() {
            number = number.saturating_add(1);
            let line = Line::of(self.alloc, text)?;
            if !self.take(rt, line)? {
                let told = format!(in self.alloc; "line {number} says nothing known")?;
                self.told.push(told)?;
            }
        }
        self.end_row(rt)
    }

    // Takes a line, and answers whether it may stand here.
    fn take<R: Threads + Wait + Sync>(&mut self, rt: &R, line: Line<'_>) -> Result<bool, NoMemory> {
        match line {
            Line::Blank => Ok(true),
            Line::File(name) => {
                self.end_row(rt)?;
                self.begin_file(name)?;
                Ok(true)
            }
            Line::Row(title) => {
                self.end_row(rt)?;
                self.row = Some(Row::new(self.alloc, title)?);
                Ok(true)
            }
            Line::Changes(change) => Ok(self.change(&change)?),
            Line::Unknown => Ok(false),
            of_row => match &mut self.row {
                Some(row) => Ok(take_in_row(self.alloc, row, of_row)?),
                None => Ok(false),
            },
        }
    }

    // A later file of a name stands in the place of an earlier one.
    fn begin_file(&mut self, name: &str) -> Result<(), AllocError> {
        self.files.retain(|file| file.name.as_str() != name);
        let file = Named {
            name: name.to_string(self.alloc)?,
            bytes: Vec::new(self.alloc),
        };
        self.files.push(file)?;
        Ok(())
    }

    // Changes what the lines stand below: the last saved file of the row, its text, or the last file.
    fn change(&mut self, line: &Change<'_>) -> Result<bool, AllocError> {
        if let Some(row) = &mut self.row {
            return match row.saved.last_mut() {
                Some(saved) => change(self.alloc, &mut saved.bytes, line, &self.files, None),
                None => change(self.alloc, &mut row.text, line, &self.files, None),
            };
        }
        let Some(mut file) = self.files.pop() else {
            return Ok(false);
        };
        let saved = match &self.last {
            Some(last) => last.files.get(file.name.as_str()),
            None => None,
        };
        let is_made = change(self.alloc, &mut file.bytes, line, &self.files, saved)?;
        self.files.push(file)?;
        Ok(is_made)
    }

    // Runs the row that was read, if there is one.
    fn end_row<R: Threads + Wait + Sync>(&mut self, rt: &R) -> Result<(), NoMemory> {
        let Some(row) = self.row.take() else {
            return Ok(());
        };
        self.rows = self.rows.saturating_add(1);
        if let Some(sweep) = &row.sweep {
            let text = sweep.run(rt, self.alloc, &row, &self.files)?;
            return self.end_sweep(&row, text.as_str());
        }
        let ended = row.run(rt, self.alloc, &self.files)?;
        if let Some(how) = difference(self.alloc, &row, &self.files, &ended)? {
            let title = row.title.as_str();
            self.told.push(format!(in self.alloc; "{title}: {how}")?)?;
        }
        self.last = Some(ended);
        Ok(())
    }

    // Tells how a command ended over damaged files, where that is not as it is wanted.
    fn end_sweep(&mut self, row: &Row, text: &str) -> Result<(), NoMemory> {
        if text.as_bytes() != row.text.as_slice() {
            let title = row.title.as_str();
            let ends = shown(self.alloc, text.as_bytes())?;
            self.told.push(format!(in self.alloc; "{title}: {ends}")?)?;
        }
        Ok(())
    }
}

// Takes a line of a row.
fn take_in_row(alloc: Global, row: &mut Row, line: Line<'_>) -> Result<bool, AllocError> {
    match line {
        Line::Words(words) => row.set_words(alloc, words)?,
        Line::Word(word) => row.words.push(word.to_string(alloc)?)?,
        Line::Status(status) => row.status = status,
        Line::Fails { port, number } => row.fail(port, number)?,
        Line::Each { damage, name } => row.set_sweep(alloc, damage, name)?,
        Line::Room(room) => row.set_room(room),
        Line::Share(share) => row.set_share(share),
        Line::Says(line) => row.add_saying(alloc, line)?,
        Line::Quiet => row.want_quiet(alloc),
        Line::Saves(name) => row.saved.push(Named {
            name: name.to_string(alloc)?,
            bytes: Vec::new(alloc),
        })?,
        Line::Holds { name, place, bytes } => row.held.push(Held {
            name: name.to_string(alloc)?,
            place,
            bytes,
        })?,
        _ => return Ok(false),
    }
    Ok(true)
}
