//! What the program tells on standard error, in whole lines.

use crate::console::visible::visible_text;
use afdx_input_lines::RunFault;
use afdx_text::WholeLines;
use std::fmt::Display;
use std::io::{Print, Stderr};

/// Standard error, which gets each line in one write.
pub fn error_lines(rt: &HostRuntime) -> WholeLines<Stderr> {
    WholeLines::new(rt.stderr())
}

/// A line on standard error. There is nothing to be done where that fails too.
pub fn complain(rt: &HostRuntime, line: &str) {
    let _ = rt.eprintln(line);
}

/// A text of any length on standard error, in one write if there is memory for it.
pub fn tell_text<D: Display>(rt: &HostRuntime, text: &D) {
    match text.to_string(rt.alloc()) {
        Ok(whole) => {
            let _ = rt.stderr().write_all(whole.as_bytes());
        }
        Err(_) => {
            let _ = rt.eprint(text);
        }
    }
}

/// A line of any length on standard error, as a terminal can show it, if there is memory for it.
pub fn tell_visible<D: Display>(rt: &HostRuntime, line: &D) {
    if let Ok(line) = line.to_string(rt.alloc())
        && let Ok(line) = visible_text(rt.alloc(), line.as_str())
    {
        tell_text(rt, &format_args!("{line}\n"));
    }
}

/// A fault's one line on standard error, and its exit status.
pub fn end_with(rt: &HostRuntime, fault: RunFault) -> u8 {
    let status = fault.status();
    let _ = rt.eprintln(fault);
    status
}

/// Want of memory, told in one line, and its exit status.
pub fn memory(rt: &HostRuntime) -> u8 {
    end_with(rt, RunFault::Memory)
}
