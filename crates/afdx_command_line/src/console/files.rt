//! The files of a command: the configuration, and what is told where one can't be had.

use crate::console::explaining::{Cause, explain_if_asked};
use crate::console::telling::{complain, memory};
use afdx_command_tables::status::{NO_DEVICE_OR_MEMORY, WRONG_WORDS};
use clap::ArgMatches;
use std::fs::File;
use std::io;
use std::io::Read;

/// The most bytes of a configuration.
const LARGEST_CONFIG: u64 = 4_194_304;

/// Tells that a file can't be had.
pub fn no_file(
    rt: &HostRuntime,
    matches: &ArgMatches<'_>,
    line: &str,
    path: &str,
    reason: io::Error,
) -> u8 {
    complain(rt, line);
    let cause = Cause {
        config: &[],
        path,
        reason: Some(reason),
    };
    explain_if_asked(rt, matches, line, &cause);
    NO_DEVICE_OR_MEMORY
}

/// The bytes of a configuration, or the status where it is not there. More than it may have are not
/// read.
pub fn read_config(rt: &HostRuntime, matches: &ArgMatches<'_>) -> Result<Vec<u8>, u8> {
    let Some(path) = matches.get_str("CONFIG") else {
        return Err(WRONG_WORDS);
    };
    let file = match File::open(rt, path) {
        Ok(file) => file,
        Err(reason) => return Err(no_file(rt, matches, "device Config", path, reason)),
    };
    let mut bytes = Vec::new(rt.alloc());
    match file.take(LARGEST_CONFIG + 1).read_to_end(&mut bytes) {
        Ok(count) if count as u64 <= LARGEST_CONFIG => Ok(bytes),
        Ok(_) => {
            let reason = io::Error::other("more than 4,194,304 bytes");
            Err(no_file(rt, matches, "device Config", path, reason))
        }
        Err(error) if error.kind() == io::ErrorKind::OutOfMemory => Err(memory(rt)),
        Err(reason) => Err(no_file(rt, matches, "device Config", path, reason)),
    }
}
