//! The pairs of a process and a module that the lines of a session mean.

ghost use Rattle.std.specs.Prelude.{◌≡◌, ◌≤◌, ◌<◌, ◌==◌, IfOk, IfSome, filter_map, length, position};
ghost use Rattle.lx_types.specs.declared.limits.TheConstants.{MAX_PROCESSES};
ghost use Rattle.session_model.specs.FailingPairs as pairs;
ghost use Rattle.session_model.specs.Bounds.{IsSession};

use lx_types::NoMemory;
use mod_graph::Library;
use session_model::{FailingLine, FailingLines, Script, Session};
use session_read::first_kept;
use std::alloc::Global;

// The place of the script of a number.
fn place_of(scripts: &[Script], number: u32) -> Option<usize>
    ensures place { result ≡ position (λ script. script.pid == number) scripts.now }
    ensures within { IfSome result (λ place. place < length scripts.now) }
{
    scripts.iter().position(|script| script.pid == number)
}

// The process of the script of a number: processes count from 1 in the order of the scripts.
fn process_of(scripts: &[Script], number: u32) -> Option<u32>
    requires { length scripts.now ≤ MAX_PROCESSES }
    ensures { result ≡ pairs.process_of scripts.now number }
{
    match place_of(scripts, number) {
        Some(place) => Some(place as u32 + 1),
        None => None,
    }
}

// The process and the module of a line, where there are both.
fn pair_of(lib: &Library, scripts: &[Script], line: &FailingLine) -> Option<(u32, u32)>
    requires { length scripts.now ≤ MAX_PROCESSES }
    ensures { result ≡ pairs.pair_of lib.now scripts.now line.now }
{
    match lib.find(&line.module) {
        Some(module) => match process_of(scripts, line.pid) {
            Some(process) => Some((process, module)),
            None => None,
        },
        None => None,
    }
}

fn pairs_in(
    alloc: Global,
    lib: &Library,
    scripts: &[Script],
    lines: &FailingLines,
) -> Result<Vec<(u32, u32)>, NoMemory>
    requires { length scripts.now ≤ MAX_PROCESSES }
    ensures { IfOk result (λ found. found.items ≡ filter_map (pairs.pair_of lib.now scripts.now) lines.now) }
{
    let mut found = Vec::new(alloc);
    let mut left = lines.text();
    while let Some(cut) = first_kept::<FailingLine>(alloc, left)? {
        if let Some(pair) = pair_of(lib, scripts, &cut.line) {
            found.push(pair)?;
        }
        left = cut.after;
    }
    Ok(found)
}

/// The pairs of a process and a module whose initialisation fails in it. A line whose name no module has, or whose number no
/// script, is passed over.
pub fn failing_pairs(
    alloc: Global,
    lib: &Library,
    session: &Session,
) -> Result<Vec<(u32, u32)>, NoMemory>
    requires { IsSession session.now }
    ensures { IfOk result (λ found. found.items ≡ pairs.failing_pairs lib.now session.now) }
{
    pairs_in(alloc, lib, session.scripts.as_slice(), &session.failing)
}
