//! The program `factex` again, which the gate runs with a word too many.
#![tactic(auto)]

use fx_edge::run_standard;
use std::process::ExitCode;

fn main(rt: HostRuntime) -> ExitCode {
    ExitCode::from(run_standard(&rt, &rt))
}
