//! The program `lx`.
#![tactic(auto)]

use lx_start::program;
use std::process::ExitCode;

fn main(rt: HostRuntime) -> ExitCode {
    program(&rt)
}
