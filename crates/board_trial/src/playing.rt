//! A row that is played.

use lx_types::{MAX_PROCESSES, NoMemory};
use std::alloc::Global;
use std::sync::{Arc, Wait};
use stepped_runs::{Alone, Cast, Shape, Step, library};

/// Steps of processes over some modules, each with its process, where the initialisations of these pairs of a process and a
/// module fail; and how many lines of the transcript are told, from its end.
#[derive(Drop)]
pub struct Row {
    pub title: &'static [u8],
    pub shapes: Vec<Shape<'static>>,
    pub processes: u32,
    pub failing: Vec<(u32, u32)>,
    pub steps: Vec<(u32, Step<'static>)>,
    pub lines: usize,
}

impl Row {
    /// Steps of two processes, where no initialisation fails and all of the transcript is told.
    pub fn of(
        alloc: Global,
        title: &'static [u8],
        shapes: &[Shape<'static>],
        steps: &[(u32, Step<'static>)],
    ) -> Result<Row, NoMemory> {
        Ok(Row {
            title,
            shapes: Vec::from_slice(alloc, shapes)?,
            processes: 2,
            failing: Vec::new(alloc),
            steps: Vec::from_slice(alloc, steps)?,
            lines: usize::MAX,
        })
    }
}

// So many lines from the end of a text.
fn last_lines(text: &[u8], lines: usize) -> &[u8] {
    let mut left = lines;
    for (place, byte) in text.iter().enumerate().rev() {
        if *byte == b'\n' {
            if left == 0 {
                return text.get(place.saturating_add(1)..).unwrap_or(text);
            }
            left -= 1;
        }
    }
    text
}

// Takes the steps.
fn take_steps<R: Wait>(
    rt: &R,
    alloc: Global,
    cast: &mut Cast,
    steps: &[(u32, Step<'static>)],
) -> Result<(), NoMemory> {
    for (pid, step) in steps {
        cast.act(rt, alloc, pid.saturating_sub(1) as usize, *step)?;
    }
    Ok(())
}

// Takes the steps in one thread.
fn take_alone<R: Wait + AllocGlobal>(
    rt: &R,
    alloc: Global,
    alone: &mut Alone,
    steps: &[(u32, Step<'static>)],
) -> Result<(), NoMemory> {
    for (pid, step) in steps {
        alone.act(rt, alloc, pid.saturating_sub(1) as usize, *step)?;
    }
    Ok(())
}

/// The last lines of a row's transcript, by processes that take turns, and by their views alone over one board. A row without
/// modules or processes has none.
pub fn played<R: Wait + AllocGlobal>(
    rt: &R,
    alloc: Global,
    row: &Row,
) -> Result<Option<(Vec<u8>, Vec<u8>)>, NoMemory> {
    let Some(lib) = library(alloc, row.shapes.as_slice())? else {
        return Ok(None);
    };
    if row.processes < 1 || row.processes > MAX_PROCESSES {
        return Ok(None);
    }
    let lib = Arc::new(alloc, lib)?;
    let mut cast = Cast::make(alloc, &lib, row.processes, row.failing.as_slice())?;
    take_steps(rt, alloc, &mut cast, row.steps.as_slice())?;
    let text = cast.finish(alloc, &lib)?;
    let mut alone = Alone::make(alloc, &lib, row.processes, row.failing.as_slice())?;
    take_alone(rt, alloc, &mut alone, row.steps.as_slice())?;
    let same = alone.finish(alloc, &lib)?;
    Ok(Some((
        Vec::from_slice(alloc, last_lines(text.as_slice(), row.lines))?,
        Vec::from_slice(alloc, last_lines(same.as_slice(), row.lines))?,
    )))
}
