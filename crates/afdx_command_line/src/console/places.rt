//! The places of standard streams that are closed.

use afdx_input_lines::RunFault;
use std::fs::File;
use std::os::fd::AsFd;

/// What the system answers of a descriptor that isn't there (EBADF).
const NO_DESCRIPTOR: i32 = 9;

/// What can be opened, and neither read nor written.
const NOTHING: &str = "/";

/// Files that are in the places of closed streams.
#[derive(Drop)]
pub struct StandIns {
    _input: Option<File>,
    _output: Option<File>,
    _errors: Option<File>,
}

/// Whether a standard stream is closed.
fn is_closed<S: AsFd>(stream: &S) -> bool {
    match stream.as_fd().try_clone_to_owned() {
        Ok(_) => false,
        Err(error) => error.raw_os_error() == Some(NO_DESCRIPTOR),
    }
}

/// Takes the place of a standard stream, if that is closed and no place before it is free. Err:
/// the fault, if that can't be done.
fn take_place<S: AsFd>(
    rt: &HostRuntime,
    stream: &S,
    fault: RunFault,
) -> Result<Option<File>, RunFault> {
    if !is_closed(stream) {
        return Ok(None);
    }
    match File::open(rt, NOTHING) {
        Ok(file) => Ok(Some(file)),
        Err(_) => Err(fault),
    }
}

/// Takes the places of the standard streams that are closed, as long as the answer is held: so that
/// no file gets one, and reading or writing the stream fails. No file may be open yet. Err: the
/// fault, if that can't be done.
pub fn take_places(rt: &HostRuntime) -> Result<StandIns, RunFault> {
    Ok(StandIns {
        _input: take_place(rt, &rt.stdin(), RunFault::Read)?,
        _output: take_place(rt, &rt.stdout(), RunFault::Write)?,
        _errors: take_place(rt, &rt.stderr(), RunFault::Write)?,
    })
}
