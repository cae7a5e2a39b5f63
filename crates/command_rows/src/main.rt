//! Runs the commands of rows, each over its files, and tells the rows that end with another status, text or saved file
//! than the one that they want. The words of the command line name the files of rows.
#![tactic(auto)]

mod bytes;
mod line;
mod outcome;
mod row;
mod runner;
mod sweep;

use crate::runner::Runner;
use std::io::ErrorKind;
use std::{env, fs, io};

fn main(rt: HostRuntime) -> io::Result<()> {
    let mut rows = 0u32;
    let mut differ = 0usize;
    let names: Vec<String> = env::args(&rt)?.skip(1).collect(rt.alloc())?;
    for name in &names {
        let text = fs::read_to_string(&rt, name.as_str())?;
        let mut runner = Runner::new(rt.alloc());
        runner
            .run(&rt, text.as_str())
            .map_err(|_| io::Error::from(ErrorKind::OutOfMemory))?;
        for told in runner.told() {
            println!(rt; "{name}: {told}")?;
        }
        rows = rows.saturating_add(runner.rows());
        differ = differ.saturating_add(runner.told().len());
    }
    println!(rt; "{rows} rows, {differ} differ")
}
