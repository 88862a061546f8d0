//! The commands, by the words of the command line.

ghost use Rattle.std.specs.Prelude.{◌≡◌};

use crate::configs::{check_config, solve_tables};
use crate::conforming::judge_inputs;
use crate::console::{
    Cause, complain, end_with, explain_if_asked, line_of, memory, print_lists, print_meaning,
    read_config, take_places, tell_text, visible_text,
};
use crate::running::{Replaying, Run, run_inputs, run_sender};
use crate::senders::judge_what_came;
use afdx_command_tables::status::{DONE, WRONG_WORDS};
use afdx_command_words::{
    PoliceOptions, afdx_command, conform_inputs, inputs_in, names_left, police_options,
    replay_options, send_words, wants_lists, wants_senders,
};
use afdx_explain::meaning_of;
use afdx_replay::{CommandedRule, RunFault};
use clap::error::ErrorKind;
use clap::{ArgMatches, Error};
use std::alloc::{AllocError, Global};

/// The rule that the words of `police` give.
fn commanded_rule(said: PoliceOptions) -> CommandedRule
    ensures link { (result.vl ≡ said.vl) × (result.port ≡ said.port) }
    ensures times { (result.bag_ms ≡ said.bag_ms) × (result.jitter_us ≡ said.jitter_us) }
    ensures lengths { (result.lmin ≡ said.lmin) × (result.lmax ≡ said.lmax) }
    ensures charge { result.policing ≡ said.policing }
{
    CommandedRule {
        vl: said.vl,
        port: said.port,
        bag_ms: said.bag_ms,
        lmin: said.lmin,
        lmax: said.lmax,
        jitter_us: said.jitter_us,
        policing: said.policing,
    }
}

/// The status with which a run ended, or why there was none.
fn ended(status: Result<u8, u8>) -> u8 {
    match status {
        Ok(status) | Err(status) => status,
    }
}

fn police_list(rt: &HostRuntime, matches: &ArgMatches<'_>) -> u8 {
    let (Some(inputs), Some(said)) = (inputs_in(matches), police_options(matches)) else {
        return WRONG_WORDS;
    };
    let run = Run::Police(commanded_rule(said));
    ended(run_inputs(rt, matches, &run, inputs.list, None))
}

fn replay_list(rt: &HostRuntime, matches: &ArgMatches<'_>) -> u8 {
    let Some(inputs) = inputs_in(matches) else {
        return WRONG_WORDS;
    };
    let config = match read_config(rt, matches) {
        Ok(config) => config,
        Err(status) => return status,
    };
    let replaying = Replaying {
        config: config.as_slice(),
        options: replay_options(matches),
    };
    let run = Run::Replay(replaying);
    ended(run_inputs(rt, matches, &run, inputs.list, inputs.second))
}

/// Judges a switch by what came and what left, with the systems that send to it, or these alone by
/// what came.
fn judge_switch(rt: &HostRuntime, matches: &ArgMatches<'_>) -> u8 {
    let Some(inputs) = conform_inputs(matches) else {
        return WRONG_WORDS;
    };
    let config = match read_config(rt, matches) {
        Ok(config) => config,
        Err(status) => return status,
    };
    if wants_senders(matches) && inputs.left.is_none() && !names_left(matches) {
        return ended(judge_what_came(rt, matches, config.as_slice(), inputs.came));
    }
    ended(judge_inputs(rt, matches, config.as_slice(), inputs))
}

fn list_numbers(rt: &HostRuntime, matches: &ArgMatches<'_>) -> u8 {
    let Some(inputs) = inputs_in(matches) else {
        return WRONG_WORDS;
    };
    let config = match read_config(rt, matches) {
        Ok(config) => config,
        Err(status) => return status,
    };
    let run = Run::List {
        config: config.as_slice(),
    };
    ended(run_inputs(rt, matches, &run, inputs.list, inputs.second))
}

fn send_list(rt: &HostRuntime, matches: &ArgMatches<'_>) -> u8 {
    let Some(said) = send_words(matches) else {
        return WRONG_WORDS;
    };
    let config = match read_config(rt, matches) {
        Ok(config) => config,
        Err(status) => return status,
    };
    ended(run_sender(rt, matches, config.as_slice(), said))
}

/// Tells that a text is no line or word of the program, and gives the status.
fn refuse_text(rt: &HostRuntime, matches: &ArgMatches<'_>) -> u8 {
    let line = "words UnknownText";
    complain(rt, line);
    explain_if_asked(rt, matches, line, &Cause::none());
    WRONG_WORDS
}

/// Says what a line means, or what each word of the closed lists means.
fn explain_words(rt: &HostRuntime, matches: &ArgMatches<'_>) -> u8 {
    if wants_lists(matches) {
        if print_lists(rt).is_err() {
            return end_with(rt, RunFault::Write);
        }
        return DONE;
    }
    let Some(words) = matches.get_strs("TEXT") else {
        return WRONG_WORDS;
    };
    let Ok(line) = line_of(rt.alloc(), words) else {
        return memory(rt);
    };
    let line = line.as_str();
    let Some(meaning) = meaning_of(line) else {
        return refuse_text(rt, matches);
    };
    if print_meaning(rt, line, meaning).is_err() {
        return end_with(rt, RunFault::Write);
    }
    DONE
}

fn run_matches(rt: &HostRuntime, matches: &ArgMatches<'_>) -> u8 {
    match matches.subcommand() {
        Some(("check", matches)) => check_config(rt, matches),
        Some(("conform", matches)) => judge_switch(rt, matches),
        Some(("explain", matches)) => explain_words(rt, matches),
        Some(("list", matches)) => list_numbers(rt, matches),
        Some(("police", matches)) => police_list(rt, matches),
        Some(("replay", matches)) => replay_list(rt, matches),
        Some(("send", matches)) => send_list(rt, matches),
        Some(("solve", matches)) => solve_tables(rt, matches),
        _ => WRONG_WORDS,
    }
}

/// The words as a terminal can show them.
fn visible_words(alloc: Global, given: &[String]) -> Result<Vec<String>, AllocError> {
    let mut words = Vec::new(alloc);
    for word in given {
        words.push(visible_text(alloc, word.as_str())?)?;
    }
    Ok(words)
}

/// What `clap` says of words that it refuses, as a terminal can show them: with an escape in them
/// they are refused for the same reason, since no option and no value has a backslash.
fn refuse_words(rt: &HostRuntime, given: &[String]) -> Result<u8, AllocError> {
    let words = visible_words(rt.alloc(), given)?;
    let command = afdx_command(rt.alloc())?;
    if let Err(refusal) = command.try_get_matches_from(words.as_slice()) {
        if refusal.kind() == ErrorKind::OutOfMemory {
            return Ok(memory(rt));
        }
        tell_text(rt, &refusal);
    }
    Ok(WRONG_WORDS)
}

/// What `clap` says of words that it refuses, and of `--help` and `--version`.
fn answer_refusal(rt: &HostRuntime, refusal: &Error, given: &[String]) -> Result<u8, AllocError> {
    if refusal.kind() == ErrorKind::OutOfMemory {
        return Ok(memory(rt));
    }
    if refusal.use_stderr() {
        return refuse_words(rt, given);
    }
    if refusal.print(rt).is_err() {
        return Ok(end_with(rt, RunFault::Write));
    }
    Ok(DONE)
}

fn run_words(rt: &HostRuntime, given: &[String]) -> Result<u8, AllocError> {
    let command = afdx_command(rt.alloc())?;
    match command.try_get_matches_from(given) {
        Ok(matches) => Ok(run_matches(rt, &matches)),
        Err(refusal) => answer_refusal(rt, &refusal, given),
    }
}

/// Runs the command that the words of the command line give, and gives the exit status.
pub fn run_command_line(rt: &HostRuntime) -> u8 {
    let _places = match take_places(rt) {
        Ok(places) => places,
        Err(fault) => return end_with(rt, fault),
    };
    let given = match std::env::args(rt) {
        Ok(given) => given,
        Err(error) if error.kind() == std::io::ErrorKind::OutOfMemory => return memory(rt),
        Err(_) => {
            complain(rt, "words NotText");
            return WRONG_WORDS;
        }
    };
    let given: Vec<String> = match given.collect(rt.alloc()) {
        Ok(given) => given,
        Err(_) => return memory(rt),
    };
    match run_words(rt, given.as_slice()) {
        Ok(status) => status,
        Err(_) => memory(rt),
    }
}
