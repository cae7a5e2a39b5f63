//! Rows over the board of a loader, and the transcript of each: what began, what was called and what is gone, what was written
//! and read, and what was refused; by processes that take turns, and by their views alone, in one thread.
#![tactic(auto)]

mod bytes;
mod loads;
mod playing;

use bytes::byte_rows;
use loads::load_rows;
use lx_types::NoMemory;
use playing::{Row, played};
use std::alloc::Global;
use std::io::{self, Write};
use std::sync::Wait;

// The transcript of a row, and whether views without turns have the same.
fn tell_row<R: Wait + AllocGlobal>(
    rt: &R,
    alloc: Global,
    text: &mut Vec<u8>,
    row: &Row,
) -> Result<(), NoMemory> {
    let Some((mut turns, mut alone)) = played(rt, alloc, row)? else {
        text.extend_from_slice(b"no processes over a library\n")?;
        return Ok(());
    };
    let same = turns.as_slice() == alone.as_slice();
    text.append(&mut turns)?;
    if same {
        text.extend_from_slice(b"without turns: the same\n")?;
    } else {
        text.extend_from_slice(b"without turns:\n")?;
        text.append(&mut alone)?;
    }
    Ok(())
}

// The transcripts of rows, each after its title.
fn tell<R: Wait + AllocGlobal>(
    rt: &R,
    alloc: Global,
    text: &mut Vec<u8>,
    rows: &[Row],
) -> Result<(), NoMemory> {
    for row in rows {
        text.extend_from_slice(row.title)?;
        text.push(b'\n')?;
        tell_row(rt, alloc, text, row)?;
    }
    Ok(())
}

// The transcripts of all rows.
fn told<R: Wait + AllocGlobal>(rt: &R, alloc: Global) -> Result<Vec<u8>, NoMemory> {
    let mut text = Vec::new(alloc);
    tell(rt, alloc, &mut text, &load_rows(alloc)?)?;
    tell(rt, alloc, &mut text, &byte_rows(alloc)?)?;
    Ok(text)
}

fn main(rt: HostRuntime) -> io::Result<()> {
    match told(&rt, rt.alloc()) {
        Ok(text) => io::writer(&rt).write_all(text.as_slice()),
        Err(NoMemory) => println!(rt; "no memory"),
    }
}
