//! The program `factex` again, which the gate runs on a step whose budget ends.
#![tactic(auto)]

use fx_edge::run_standard;
use std::process::ExitCode;

fn main(rt: HostRuntime) -> ExitCode {
    ExitCode::from(run_standard(&rt, &rt))
}
