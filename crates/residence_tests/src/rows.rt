//! Rows of entries.

ghost use Rattle.residence_tests.specs.Kept.{KeptSound};

use crate::entries::{Entry, Kept, enter, left, nothing_kept};
use crate::modules::{Shape, library_of};
use load_model::How;
use lx_types::NoMemory;
use mod_graph::Library;
use mod_refs::Leaving;
use std::alloc::Global;
use std::test::Fail;

#[derive(Clone, Copy)]
enum Step {
    Start(u32),
    Load(u32),
    Free(u32),
    Exit,
}

const LIBRARY: u32 = 0x8000;

const PROGRAM: u32 = 0;

const EACH: u32 = 0x4000_0004;

fn shape(name: u8, flags: u32, imports: &'static [u8]) -> Shape {
    Shape {
        name,
        flags,
        imports,
    }
}

/// What an entry tells.
fn told_by(
    kept: &mut Kept,
    alloc: Global,
    lib: &Library,
    failing: &[(u32, u32)],
    row: (u32, Step),
) -> Result<String, NoMemory>
    requires { KeptSound lib.now kept.old }
    ensures { KeptSound lib.now kept.new }
{
    let (pid, step) = row;
    match step {
        Step::Start(module) => {
            let entry = Entry {
                pid,
                how: How::Start,
                module,
            };
            enter(kept, alloc, lib, failing, entry)
        }
        Step::Load(module) => {
            let entry = Entry {
                pid,
                how: How::Load,
                module,
            };
            enter(kept, alloc, lib, failing, entry)
        }
        Step::Free(module) => left(kept, alloc, lib, pid, Leaving::One(module)),
        Step::Exit => left(kept, alloc, lib, pid, Leaving::All),
    }
}

/// What each of some entries tells, over a library.
fn told_over(
    alloc: Global,
    lib: &Library,
    failing: &[(u32, u32)],
    steps: &[(u32, Step, &str)],
) -> Result<Vec<String>, NoMemory> {
    let mut kept = nothing_kept(alloc, lib)?;
    let mut texts = Vec::new(alloc);
    for (pid, row, _) in steps {
        texts.push(told_by(&mut kept, alloc, lib, failing, (*pid, *row))?)?;
    }
    Ok(texts)
}

/// What each of some entries tells, over modules of these shapes.
fn told(
    alloc: Global,
    shapes: &[Shape],
    failing: &[(u32, u32)],
    steps: &[(u32, Step, &str)],
) -> Result<Vec<String>, NoMemory> {
    let lib = library_of(alloc, shapes)?;
    told_over(alloc, &lib, failing, steps)
}

#[test]
fn entries_by_hand(rt: HostRuntime) -> Result<(), Fail> {
    // A imports B and C, which both import D. A free takes two of the four.
    let diamond = [
        shape(b'A', LIBRARY, b"BC"),
        shape(b'B', LIBRARY, b"D"),
        shape(b'C', LIBRARY, b"D"),
        shape(b'D', LIBRARY, b""),
    ];
    // P imports X, which is initialised and terminated for each process.
    let program = [shape(b'X', LIBRARY | EACH, b""), shape(b'P', PROGRAM, b"X")];
    // X and Y import each other; S imports itself.
    let each_other = [
        shape(b'X', LIBRARY, b"Y"),
        shape(b'Y', LIBRARY, b"X"),
        shape(b'S', LIBRARY, b"S"),
    ];
    let cases: [(&[Shape], &[(u32, u32)], &[(u32, Step, &str)]); 4] = [
        (
            &diamond,
            &[],
            &[
                (
                    1,
                    Step::Load(0),
                    "+1:3@10000000 +2:1@10010000 +3:2@10020000 +4:0@10030000 I1:3@10000000 I2:1@10010000 I3:2@10020000 I4:0@10030000 ",
                ),
                (2, Step::Load(2), ""),
                (1, Step::Free(0), "T4:0@10030000 T2:1@10010000 -4:0 -2:1 "),
                (
                    1,
                    Step::Load(0),
                    "+5:1@10010000 +6:0@10030000 I5:1@10010000 I6:0@10030000 ",
                ),
                (1, Step::Exit, "T6:0@10030000 T5:1@10010000 -6:0 -5:1 "),
                (2, Step::Exit, "T3:2@10020000 T1:3@10000000 -3:2 -1:3 "),
            ],
        ),
        (
            &program,
            &[],
            &[
                (
                    1,
                    Step::Start(1),
                    "+1:0@10000000 +2:1@10000 I1:0@10000000 M2:1@10000 ",
                ),
                (2, Step::Start(1), "I1:0@10000000 M2:1@10000 "),
                (3, Step::Start(1), "I1:0@10000000 M2:1@10000 "),
                (1, Step::Exit, "T1:0@10000000 "),
                (3, Step::Exit, "T1:0@10000000 "),
                (2, Step::Exit, "T1:0@10000000 -2:1 -1:0 "),
            ],
        ),
        (
            &each_other,
            &[],
            &[
                (
                    1,
                    Step::Load(0),
                    "+1:1@10000000 +2:0@10010000 I1:1@10000000 I2:0@10010000 ",
                ),
                (2, Step::Load(1), ""),
                (1, Step::Free(0), ""),
                (2, Step::Free(1), "T1:1@10000000 T2:0@10010000 -1:1 -2:0 "),
                (1, Step::Load(2), "+3:2@10000000 I3:2@10000000 "),
                (1, Step::Free(2), "T3:2@10000000 -3:2 "),
            ],
        ),
        // The initialisation of B fails in process 2.
        (
            &diamond,
            &[(2, 1)],
            &[
                (
                    2,
                    Step::Load(0),
                    "+1:3@10000000 +2:1@10010000 +3:2@10020000 +4:0@10030000 I1:3@10000000 I2:1@10010000 T1:3@10000000 -4:0 -3:2 -2:1 -1:3 ",
                ),
                (
                    1,
                    Step::Load(1),
                    "+5:3@10000000 +6:1@10010000 I5:3@10000000 I6:1@10010000 ",
                ),
                (
                    2,
                    Step::Load(0),
                    "+7:2@10020000 +8:0@10030000 I7:2@10020000 I8:0@10030000 ",
                ),
            ],
        ),
    ];
    for (shapes, failing, steps) in cases {
        let texts = told(rt.alloc(), shapes, failing, steps)
            .ok()
            .ok_or("memory")?;
        for (place, (_, _, wanted)) in steps.iter().enumerate() {
            let text = texts.get(place).ok_or("an entry")?;
            assert_eq!(rt; text.as_str(), *wanted);
        }
    }
    Ok(())
}
