//! Explanations: the command `explain`, and what follows the line of a fault with `--explain`.

use crate::console::devices::INPUT_NAME;
use crate::console::inputs::{tell_absent_place, tell_exchanged, tell_input};
use crate::console::nearest::nearest_to;
use crate::console::telling::tell_text;
use crate::console::visible::visible_text;
use crate::locating::place_in;
use afdx_explain::{kind_of, meaning_of};
use clap::ArgMatches;
use std::alloc::{AllocError, Global};
use std::io;
use std::io::{ErrorKind, IsTerminal};

/// What the program knows of a fault beside its line: the bytes of the configuration, and the path
/// of a device and why it failed.
#[derive(Drop)]
pub struct Cause<'a> {
    pub config: &'a [u8],
    pub path: &'a str,
    pub reason: Option<io::Error>,
}

impl Cause<'_> {
    /// Nothing is known beside the line.
    pub fn none() -> Cause<'static> {
        Cause {
            config: &[],
            path: "",
            reason: None,
        }
    }
}

/// The words of a line, one space apart.
pub fn line_of(alloc: Global, words: &[&str]) -> Result<String, AllocError> {
    let mut line = String::new(alloc);
    for word in words {
        if !line.is_empty() {
            line.push(' ')?;
        }
        line.push_str(word)?;
    }
    Ok(line)
}

/// Prints what a line means.
pub fn print_meaning(rt: &HostRuntime, line: &str, meaning: &str) -> io::Result<()> {
    if let Some(kind) = kind_of(line) {
        println!(rt; "{kind}")?;
    }
    println!(rt; "{meaning}")
}

/// Where a configuration stops being TOML, and why.
fn tell_end(rt: &HostRuntime, config: &[u8]) {
    if let Err(error) = toml::table_from_slice(rt.alloc(), config) {
        tell_text(rt, &error);
    }
}

/// Where the table and the key of a fault of a configuration stand in it.
fn tell_place(rt: &HostRuntime, line: &str, config: &[u8]) {
    if let Some(text) = place_in(rt.alloc(), line, config) {
        tell_text(rt, &text);
    }
}

/// What a person is told of the device that failed.
fn device_in<'a>(line: &str, cause: &Cause<'a>) -> &'a str {
    match line {
        "device Write" => "standard output",
        _ => cause.path,
    }
}

/// Which device failed, and why.
fn tell_device(rt: &HostRuntime, line: &str, cause: &Cause<'_>) {
    let Ok(path) = visible_text(rt.alloc(), device_in(line, cause)) else {
        return;
    };
    match &cause.reason {
        Some(reason) if path.as_str() == INPUT_NAME && reason.kind() == ErrorKind::IsADirectory => {
            tell_text(rt, &format_args!("{path}: {reason}, or closed\n"));
        }
        Some(reason) => {
            tell_text(rt, &format_args!("{path}: {reason}\n"));
        }
        None => {
            tell_text(rt, &format_args!("{path}\n"));
        }
    }
}

/// The word that may have been meant by a text that `explain` doesn't know.
fn tell_near(rt: &HostRuntime, matches: &ArgMatches<'_>) {
    let given = matches.get_strs("TEXT").unwrap_or(&[]);
    if let Some(word) = nearest_to(rt.alloc(), given) {
        tell_text(rt, &format_args!("Is '{word}' meant?\n"));
    }
}

/// What the program knows of the cause of a fault, by its line.
fn tell_cause(rt: &HostRuntime, matches: &ArgMatches<'_>, line: &str, cause: &Cause<'_>) {
    match line {
        "config NotToml" => {
            tell_end(rt, cause.config);
            tell_exchanged(rt, matches, cause.config);
        }
        "device Config" | "device List" | "device Read" | "device Write" => {
            tell_device(rt, line, cause);
        }
        "words BadInterface" => tell_absent_place(rt, matches, cause.config),
        "words UnknownText" => tell_near(rt, matches),
        _ if line.starts_with("list ") || line.starts_with("recording ") => {
            tell_input(rt, matches, cause.config, line);
        }
        _ => tell_place(rt, line, cause.config),
    }
}

/// After the line of a fault: what it means, and what the program knows of its cause. There is
/// nothing to be done where standard error fails.
fn explain(rt: &HostRuntime, matches: &ArgMatches<'_>, line: &str, cause: &Cause<'_>) {
    let Some(meaning) = meaning_of(line) else {
        return;
    };
    if let Some(kind) = kind_of(line) {
        let _ = rt.eprintln(kind);
    }
    let _ = rt.eprintln(meaning);
    tell_cause(rt, matches, line, cause);
}

/// The variable that says when faults are explained, where the option doesn't.
const VARIABLE: &str = "AFDX_EXPLAIN";

/// Whether a word asks for explanations: by default, if a person reads standard error.
fn asks(rt: &HostRuntime, when: &str) -> bool {
    match when {
        "always" => true,
        "never" => false,
        _ => rt.stderr().is_terminal(),
    }
}

/// Whether an explanation is asked for.
fn is_asked(rt: &HostRuntime, matches: &ArgMatches<'_>) -> bool {
    if let Some(when) = matches.get_str("explain") {
        return asks(rt, when);
    }
    match std::env::var(rt, VARIABLE) {
        Ok(when) => asks(rt, when.as_str()),
        Err(_) => asks(rt, "auto"),
    }
}

/// What follows the line of a fault, if that is asked for; and whether it is.
pub fn explain_if_asked(
    rt: &HostRuntime,
    matches: &ArgMatches<'_>,
    line: &str,
    cause: &Cause<'_>,
) -> bool {
    let asked = is_asked(rt, matches);
    if asked {
        explain(rt, matches, line, cause);
    }
    asked
}
