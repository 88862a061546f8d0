//! The commands over a configuration alone.

use crate::console::{Cause, Traced, WatchedWriter, error_lines, explain_if_asked, read_config};
use crate::running::refuse;
use afdx_command_tables::status::DONE;
use afdx_command_words::{check_options, solve_options};
use afdx_replay::{Watched, check_lines, solve_config};
use clap::ArgMatches;
use std::io::Write;

/// Explains the fault of a command that has ended with this status, or its last line on standard
/// output, if that is asked for.
fn explain_end<O: Write + Drop, E: Write + Drop>(
    rt: &HostRuntime,
    matches: &ArgMatches<'_>,
    config: &[u8],
    status: u8,
    output: Watched<WatchedWriter<Traced<O>>>,
    errors: Watched<WatchedWriter<E>>,
) -> u8 {
    let (output, errors) = (output.into_inner(), errors.into_inner());
    let cause = Cause {
        config,
        path: "",
        reason: output.device().reason(),
    };
    if status == DONE {
        return status;
    }
    if errors.line().is_empty() {
        explain_if_asked(rt, matches, output.line(), &cause);
    } else {
        explain_if_asked(rt, matches, errors.line(), &cause);
    }
    status
}

/// Checks a configuration.
pub fn check_config(rt: &HostRuntime, matches: &ArgMatches<'_>) -> u8 {
    let config = match read_config(rt, matches) {
        Ok(config) => config,
        Err(status) => return status,
    };
    let config = config.as_slice();
    let mut output = Watched::new(WatchedWriter::new(Traced::new(rt.stdout())));
    let mut errors = Watched::new(WatchedWriter::new(error_lines(rt)));
    let options = check_options(matches);
    let status = check_lines(rt.alloc(), options, config, &mut output, &mut errors);
    explain_end(rt, matches, config, status, output, errors)
}

/// Writes the solution of a configuration.
pub fn solve_tables(rt: &HostRuntime, matches: &ArgMatches<'_>) -> u8 {
    let config = match read_config(rt, matches) {
        Ok(config) => config,
        Err(status) => return status,
    };
    let config = config.as_slice();
    let mut output = Watched::new(WatchedWriter::new(Traced::new(rt.stdout())));
    let mut errors = Watched::new(WatchedWriter::new(error_lines(rt)));
    let options = match solve_options(matches) {
        Ok(options) => options,
        Err(refused) => return refuse(rt, matches, refused),
    };
    let status = solve_config(rt.alloc(), options, config, &mut output, &mut errors);
    explain_end(rt, matches, config, status, output, errors)
}
