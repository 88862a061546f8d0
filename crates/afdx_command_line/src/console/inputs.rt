//! What is told of the input that a fault is about.

use crate::console::devices::name_of_input;
use crate::console::telling::tell_visible;
use crate::locating::{FoundSwitches, Listing, Look, look_of, wrong_field};
use afdx_command_words::STANDARD_INPUT;
use clap::ArgMatches;
use std::fs::{File, metadata};
use std::io::{BufRead, BufReader, Read};

/// So many bytes of a file tell what it looks like.
const HEAD: u64 = 4_096;

/// The most bytes of a list's line.
const LONGEST_LINE: u64 = 4_200;

/// A file that a word names, to be read again; None for standard input and what else isn't a file.
fn reopened(rt: &HostRuntime, word: &str) -> Option<File> {
    if word == STANDARD_INPUT || !metadata(rt, word).ok()?.is_file() {
        return None;
    }
    File::open(rt, word).ok()
}

/// What the file looks like that a word names.
fn look_at(rt: &HostRuntime, word: &str) -> Option<Look> {
    let mut bytes = Vec::new(rt.alloc());
    reopened(rt, word)?.take(HEAD).read_to_end(&mut bytes).ok()?;
    look_of(bytes.as_slice())
}

/// The line of this number, from 1, of a list, without its end.
fn line_at(rt: &HostRuntime, word: &str, number: u64) -> Option<String> {
    let mut reader = BufReader::new(rt.alloc(), reopened(rt, word)?).ok()?;
    for _ in 1..number {
        reader.skip_until(b'\n').ok()?;
    }
    let mut line = Vec::new(rt.alloc());
    reader.take(LONGEST_LINE).read_until(b'\n', &mut line).ok()?;
    let text = std::str::from_utf8(line.as_slice()).ok()?;
    let text = text.strip_suffix('\n').unwrap_or(text);
    String::from_str(rt.alloc(), text.strip_suffix('\r').unwrap_or(text)).ok()
}

/// The word that names the input of which a fault's line tells.
fn input_in<'a>(line: &str, matches: &ArgMatches<'a>) -> Option<&'a str> {
    if line.starts_with("list left ") || line.ends_with(" left") {
        return matches.get_str("LEFT");
    }
    if line.ends_with(" B") {
        return matches.get_str("LIST_B");
    }
    let first = matches.get_str("LIST").or(matches.get_str("CAME"));
    first.or(matches.get_str("SUBMISSIONS"))
}

/// The lines that the list of a command has.
fn listing_of(matches: &ArgMatches<'_>, switches: &FoundSwitches) -> Listing {
    if matches.contains_id("SUBMISSIONS") {
        return Listing::Submissions;
    }
    if switches.are_several() && !matches.contains_id("CAME") {
        return Listing::SitedFrames;
    }
    Listing::Frames
}

/// Tells what a file looks like that can't be what its place wants.
fn tell_look(rt: &HostRuntime, word: &str, look: Look) {
    let (name, what) = (name_of_input(word), look.name());
    tell_visible(rt, &format_args!("{name} looks like {what}."));
}

/// Tells what CONFIG looks like, and the input, where neither is what its place wants.
pub(crate) fn tell_exchanged(rt: &HostRuntime, matches: &ArgMatches<'_>, config: &[u8]) {
    let (Some(word), Some(look)) = (matches.get_str("CONFIG"), look_of(config)) else {
        return;
    };
    if look == Look::Configuration {
        return;
    }
    tell_look(rt, word, look);
    let Some(input) = input_in("", matches) else {
        return;
    };
    if let Some(Look::Configuration) = look_at(rt, input) {
        tell_look(rt, input, Look::Configuration);
        tell_visible(rt, &"CONFIG and the list have changed places.");
    }
}

/// The number of the line that a fault of a list tells.
fn number_in(line: &str) -> Option<u64> {
    let (_, number) = line.strip_prefix("list ")?.rsplit_once(' ')?;
    number.parse::<u64>().ok()
}

/// Tells which line of which list a fault is about and, where it has not the form of such a line,
/// what is wrong with it.
fn tell_line(
    rt: &HostRuntime,
    matches: &ArgMatches<'_>,
    config: &[u8],
    line: &str,
    word: &str,
    number: u64,
) {
    let name = name_of_input(word);
    let switches = FoundSwitches::of(rt.alloc(), config);
    let listing = listing_of(matches, &switches);
    let wrong = match line_at(rt, word, number) {
        Some(text) if line.contains(" BadLine ") => {
            wrong_field(rt.alloc(), listing, &switches, text.as_str())
        }
        _ => None,
    };
    match wrong {
        Some(wrong) => tell_visible(rt, &format_args!("Line {number} of {name}: {wrong}.")),
        None => tell_visible(rt, &format_args!("Line {number} of {name}.")),
    }
}

/// What the list of a command looks like.
fn wanted_look(matches: &ArgMatches<'_>) -> Look {
    if matches.contains_id("SUBMISSIONS") {
        Look::SubmissionList
    } else {
        Look::FrameList
    }
}

/// Tells which input a fault of a list or of a recording is about and, where a line hasn't the form
/// of the command's list, what the file looks like, if that is another thing.
pub(crate) fn tell_input(rt: &HostRuntime, matches: &ArgMatches<'_>, config: &[u8], line: &str) {
    let Some(word) = input_in(line, matches) else {
        return;
    };
    match number_in(line) {
        Some(number) => tell_line(rt, matches, config, line, word, number),
        None => tell_visible(rt, &name_of_input(word)),
    }
    if line.contains(" BadLine ")
        && let Some(look) = look_at(rt, word)
        && look != wanted_look(matches)
    {
        tell_look(rt, word, look);
    }
}

/// Tells which word of `--interface` names a place that the configuration hasn't.
pub(crate) fn tell_absent_place(rt: &HostRuntime, matches: &ArgMatches<'_>, config: &[u8]) {
    let words = matches.get_strs("interface").unwrap_or(&[]);
    let switches = FoundSwitches::of(rt.alloc(), config);
    let Some((word, why)) = switches.absent_place(words) else {
        return;
    };
    tell_visible(rt, &format_args!("--interface '{word}': {why}."));
}
