//! The program once more, for a stored run of another status: a replay over two dictionaries, of which the first has
//! the higher priority.
#![tactic(auto)]

use audit_top::run_program;
use outside::{RealFiles, RealSink};
use std::env;
use std::process::ExitCode;
use steal_rounds::NoGate;

fn main(rt: HostRuntime) -> ExitCode {
    let alloc = rt.alloc();
    let mut files = RealFiles::new(&rt, alloc);
    let mut out = RealSink::new(&rt);
    ExitCode::from(run_program(&rt, alloc, env::args(&rt), &mut files, &mut out, &NoGate))
}
