//! What a process does in one step, with modules named by one letter.

use load_model::{Command, Place};
use lx_types::{Bytes, Name, NoMemory};
use std::alloc::Global;

/// `len` bytes of an object of a module, from `offset` on.
#[derive(Clone, Copy)]
pub struct At {
    pub module: u8,
    pub object: u32,
    pub offset: u32,
    pub len: u32,
}

/// A step.
#[derive(Clone, Copy)]
pub enum Step<'a> {
    Load(u8),
    Free(u8),
    Exit,
    Touch(At),
    Peek(At),
    Shared(At),
    Write(At, &'a [u8]),
    Debug(At, &'a [u8]),
}

fn name(alloc: Global, letter: u8) -> Result<Name, NoMemory> {
    Name::of_short(alloc, &[letter])
}

fn place(alloc: Global, at: At) -> Result<Place, NoMemory> {
    Ok(Place {
        module: name(alloc, at.module)?,
        object: at.object,
        offset: at.offset,
        len: at.len,
    })
}

fn bytes(alloc: Global, run: &[u8]) -> Result<Bytes, NoMemory> {
    Ok(Bytes::from_vec(Vec::from_slice(alloc, run)?))
}

/// The command of a step.
pub fn command_of(alloc: Global, step: Step) -> Result<Command, NoMemory> {
    match step {
        Step::Load(letter) => Ok(Command::Load(name(alloc, letter)?)),
        Step::Free(letter) => Ok(Command::Free(name(alloc, letter)?)),
        Step::Exit => Ok(Command::Exit),
        Step::Touch(at) => Ok(Command::Touch(place(alloc, at)?)),
        Step::Peek(at) => Ok(Command::Peek(place(alloc, at)?)),
        Step::Shared(at) => Ok(Command::Shared(place(alloc, at)?)),
        Step::Write(at, run) => Ok(Command::Write(place(alloc, at)?, bytes(alloc, run)?)),
        Step::Debug(at, run) => Ok(Command::Debug(place(alloc, at)?, bytes(alloc, run)?)),
    }
}
