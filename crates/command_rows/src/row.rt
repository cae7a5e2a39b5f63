//! A row: a command, what fails in it, and what is wanted of it.

use crate::line::Port;
use crate::sweep::{Damage, Sweep};
use diagnostics::{Ending, Look, Tell, Watched, tell_on};
use lx_ports::NoGate;
use lx_tool::lx_main;
use lx_types::NoMemory;
use memory_ports::{MemFiles, MemSink};
use std::alloc::{AllocError, Global};
use std::sync::Wait;
use std::thread::Threads;

/// The bytes under a name.
#[derive(Drop)]
pub struct Named {
    pub name: String,
    pub bytes: Vec<u8>,
}

/// Bytes that a saved file has at a place.
#[derive(Drop)]
pub struct Held {
    pub name: String,
    pub place: usize,
    pub bytes: Vec<u8>,
}

/// The calls that fail, by their numbers from 1, and what the sink has room for.
#[derive(Drop)]
struct Ports {
    loads: Vec<u64>,
    saves: Vec<u64>,
    puts: Vec<u64>,
    room: usize,
    share: usize,
}

/// How the command of a row ended.
#[derive(Drop)]
pub struct Ended {
    pub status: u8,
    pub text: Vec<u8>,
    /// What was said on standard error.
    pub said: String,
    pub files: MemFiles,
}

/// Takes what is said on standard error, and shows the files of a row, as they were before its command.
#[derive(Drop)]
struct Sayings<'a> {
    said: String,
    files: &'a [Named],
}

impl Look for Sayings<'_> {
    fn front(&self, alloc: Global, name: &str) -> Option<Vec<u8>> {
        find_bytes(self.files, name)?.to_vec(alloc).ok()
    }

    fn is_there(&self, name: &str) -> bool {
        let folder = |file: &Named| file
            .name
            .as_str()
            .rsplit_once('/')
            .is_some_and(|(own, _)| own == name);
        find_bytes(self.files, name).is_some() || self.files.iter().any(folder)
    }

    fn answer(&self, _alloc: Global) -> Option<String> {
        None
    }
}

impl Tell for Sayings<'_> {
    fn tell(&mut self, text: &str) {
        if self.said.push_str(text).is_err() {
            self.said.clear();
        }
    }
}

/// A command with what is wanted of it.
#[derive(Drop)]
pub struct Row {
    pub title: String,
    pub words: Vec<String>,
    ports: Ports,
    /// The file that is damaged in each way, where the row is of one.
    pub sweep: Option<Sweep>,
    pub status: u8,
    pub text: Vec<u8>,
    /// What is to be said on standard error, where the row wants something of it.
    pub says: Option<String>,
    pub saved: Vec<Named>,
    pub held: Vec<Held>,
}

/// What a sink has room for where a row does not say it.
const ROOM: usize = 65_536;

/// What a sink takes of a piece, at most, where a row does not say it.
const SHARE: usize = 7;

/// The first of these under a name.
pub fn find_bytes<'a>(files: &'a [Named], name: &str) -> Option<&'a [u8]> {
    let file = files.iter().find(|file| file.name.as_str() == name)?;
    Some(&file.bytes)
}

impl Row {
    /// A row of which nothing fails, and which is to end with 0 and no text.
    pub fn new(alloc: Global, title: &str) -> Result<Row, AllocError> {
        Ok(Row {
            title: title.to_string(alloc)?,
            words: Vec::new(alloc),
            ports: Ports {
                loads: Vec::new(alloc),
                saves: Vec::new(alloc),
                puts: Vec::new(alloc),
                room: ROOM,
                share: SHARE,
            },
            sweep: None,
            status: 0,
            text: Vec::new(alloc),
            says: None,
            saved: Vec::new(alloc),
            held: Vec::new(alloc),
        })
    }

    /// Takes the words of a line as the command.
    pub fn set_words(&mut self, alloc: Global, line: &str) -> Result<(), AllocError> {
        for word in line.split_whitespace() {
            self.words.push(word.to_string(alloc)?)?;
        }
        Ok(())
    }

    /// Has the command run over each damaged form of a file.
    pub fn set_sweep(
        &mut self,
        alloc: Global,
        damage: Damage,
        name: &str,
    ) -> Result<(), AllocError> {
        let name = name.to_string(alloc)?;
        self.sweep = Some(Sweep { damage, name });
        Ok(())
    }

    /// Has a call of a port fail.
    pub fn fail(&mut self, port: Port, number: u64) -> Result<(), AllocError> {
        match port {
            Port::Load => self.ports.loads.push(number)?,
            Port::Save => self.ports.saves.push(number)?,
            Port::Put => self.ports.puts.push(number)?,
        }
        Ok(())
    }

    /// Wants one line more on standard error.
    pub fn add_saying(&mut self, alloc: Global, line: &str) -> Result<(), AllocError> {
        let mut says = match self.says.take() {
            Some(says) => says,
            None => String::new(alloc),
        };
        says.push_str(line)?;
        says.push('\n')?;
        self.says = Some(says);
        Ok(())
    }

    /// Wants nothing on standard error.
    pub fn want_quiet(&mut self, alloc: Global) {
        self.says = Some(String::new(alloc));
    }

    /// Gives the sink so much room.
    pub fn set_room(&mut self, room: usize) {
        self.ports.room = room;
    }

    /// Has the sink take so much of a piece, at most.
    pub fn set_share(&mut self, share: usize) {
        self.ports.share = share;
    }

    // The files in front of those in memory, which the row's calls fail.
    fn watched<'x>(
        &self,
        alloc: Global,
        files: &'x [Named],
    ) -> Result<Watched<MemFiles, Sayings<'x>>, NoMemory> {
        let (loads, saves) = self.ports.failing()?;
        let own = MemFiles::of(alloc, entries_of(alloc, files)?, loads, saves);
        let sayings = Sayings {
            said: String::new(alloc),
            files,
        };
        Ok(Watched::new(alloc, own, sayings, &self.words))
    }

    // What the command puts goes there.
    fn sink(&self, alloc: Global) -> Result<MemSink, NoMemory> {
        let puts = self.ports.puts.clone()?;
        Ok(MemSink::of(alloc, self.ports.room, self.ports.share.max(1), puts)?)
    }

    // Carries the command out, tells how it ended, and answers its status.
    fn carry_out<R: Threads + Wait + Sync>(
        &self,
        rt: &R,
        alloc: Global,
        watched: &mut Watched<MemFiles, Sayings<'_>>,
        out: &mut MemSink,
    ) -> u8 {
        let ended = lx_main(rt, alloc, &self.words, watched, out, &NoGate);
        let ending = Ending::of(&self.words, ended.status, ended.refused.as_ref()).over(
            ended.mapped.as_ref(),
            ended.library.as_deref(),
        );
        tell_on(alloc, &ending, watched);
        ended.status
    }

    /// Runs the command over these files, as the program does over real ones.
    pub fn run<R: Threads + Wait + Sync>(
        &self,
        rt: &R,
        alloc: Global,
        files: &[Named],
    ) -> Result<Ended, NoMemory> {
        let mut out = self.sink(alloc)?;
        let mut watched = self.watched(alloc, files)?;
        let status = self.carry_out(rt, alloc, &mut watched, &mut out);
        let text = out.written().to_vec(alloc)?;
        let (files, sayings) = watched.into_parts();
        Ok(Ended {
            status,
            text,
            said: sayings.said,
            files,
        })
    }
}

impl Ports {
    // The loads and the saves that fail.
    fn failing(&self) -> Result<(Vec<u64>, Vec<u64>), AllocError> {
        let loads = self.loads.clone()?;
        let saves = self.saves.clone()?;
        Ok((loads, saves))
    }
}

// The files as entries of files in memory.
fn entries_of(alloc: Global, files: &[Named]) -> Result<Vec<(String, Vec<u8>)>, NoMemory> {
    let mut entries = Vec::new(alloc);
    for file in files {
        entries.push((file.name.clone()?, file.bytes.to_vec(alloc)?))?;
    }
    Ok(entries)
}
