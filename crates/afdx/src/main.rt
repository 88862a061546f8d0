//! The program `afdx`. It has no more than `main`: a program's own functions are proved after all
//! that it reaches is loaded.
#![tactic(auto)]

use afdx_command_line::run_command_line;
use std::process::ExitCode;

fn main(rt: HostRuntime) -> ExitCode {
    ExitCode::from(run_command_line(&rt))
}
