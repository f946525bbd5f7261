//! The program: `audit_top` over real files and standard output.
#![tactic(auto)]

use audit_top::run_program;
use outside::{RealFiles, RealSink};
use std::env;
use std::process::ExitCode;
use steal_rounds::NoGate;

fn main(rt: HostRuntime) -> ExitCode {
    let alloc = rt.alloc();
    let mut files = RealFiles::new(&rt, alloc);
    let mut out = RealSink::new(&rt);
    ExitCode::from(run_program(&rt, alloc, env::args(&rt), &mut files, &mut out, &NoGate))
}
