//! What the words of `check`, `solve`, `police`, `replay`, `list`, `send` and `explain` ask for.

ghost use Rattle.std.specs.Prelude.{◌≡◌, ◌≤◌, IfOk, IfSome, codes, map, option_map};
ghost use Rattle.clap.specs.Words.{first_value, found_of};
ghost use Rattle.afdx_command_words.specs.AskedSaid.{SaysCheck, SaysConformInputs, SaysInputs, SaysPolice};
ghost use Rattle.afdx_command_words.specs.AskedSaid.{SaysReplay, SaysSend, SaysSolve, charged_by, is_among};
ghost use Rattle.afdx_command_words.specs.AskedSaid.{is_kept};
ghost use Rattle.afdx_command_words.specs.RecordingSaid.{is_said};
ghost use Rattle.afdx_command_words.specs.Said.{SaysFlag, SaysOrZero};

use crate::recording_words::Refused;
use crate::said::{is_given, is_word, number_of};
use afdx_command_tables::{CheckOptions, KeptKeys, SolveOptions};
use afdx_frame::Policing;
use clap::ArgMatches;

/// What the words of `check` ask for.
pub fn check_options(matches: &ArgMatches<'_>) -> CheckOptions
    ensures { SaysCheck (found_of matches.now) result }
{
    CheckOptions {
        all: is_given(matches, "all"),
        margins: is_given(matches, "margins"),
    }
}

/// Whether one of some words is this one.
fn is_one_of(word: &str, words: &[&str]) -> bool
    ensures { result ≡ is_among word.now (map (λ said. said.now) words.now) }
{
    words.contains(&word)
}

/// Whether a key stands behind `--keep`.
fn keeps(matches: &ArgMatches<'_>, key: &str) -> bool
    ensures { result ≡ is_kept (found_of matches.now) key.now }
{
    let words = matches.get_strs("keep").unwrap_or(&[]);
    is_one_of(key, words)
}

/// The most by which one copy of a frame may be sent later than the other, in ns.
const MOST_APART: u64 = 100_000_000;

/// By how much later it may be, if that is in range.
fn apart_in<'a>(matches: &ArgMatches<'a>) -> Result<u64, Refused<'a>>
    ensures said { IfOk result (SaysOrZero (found_of matches.now) (codes "apart")) }
    ensures range { IfOk result (λ ns. ns ≤ 100000000) }
{
    let ns = number_of(matches, "apart").unwrap_or(0);
    if ns > MOST_APART {
        return Err(Refused::BadNumber);
    }
    Ok(ns)
}

/// What the words of `solve` ask for, if its number is in range.
pub fn solve_options<'a>(matches: &ArgMatches<'a>) -> Result<SolveOptions, Refused<'a>>
    ensures { IfOk result (SaysSolve (found_of matches.now)) }
{
    Ok(SolveOptions {
        kept: KeptKeys {
            jitter: keeps(matches, "jitter"),
            buffer: keeps(matches, "buffer"),
            latency: keeps(matches, "latency"),
            skew: keeps(matches, "skew"),
        },
        raise_only: is_given(matches, "raise-only"),
        apart: apart_in(matches)?,
    })
}

/// The rule of a link that the words of `police` give, its numbers also where they are out of their
/// ranges.
#[derive(Clone, Copy, Debug)]
pub struct PoliceOptions {
    pub vl: u64,
    pub port: u64,
    pub bag_ms: u64,
    pub lmin: u64,
    pub lmax: u64,
    pub jitter_us: u64,
    pub policing: Policing,
}

/// How the words of `police` say that a frame is charged.
fn policing_in(matches: &ArgMatches<'_>) -> Option<Policing>
    ensures { IfSome result (λ policing. policing
        ≡ charged_by (is_said (found_of matches.now) (codes "policing") (codes "frame"))) }
{
    if is_word(matches, "policing", "frame")? {
        Some(Policing::Frame)
    } else {
        Some(Policing::Byte)
    }
}

/// What the words of `police` ask for.
pub fn police_options(matches: &ArgMatches<'_>) -> Option<PoliceOptions>
    ensures { IfSome result (SaysPolice (found_of matches.now)) }
{
    Some(PoliceOptions {
        vl: number_of(matches, "vl")?,
        port: number_of(matches, "port")?,
        bag_ms: number_of(matches, "BAG_MS")?,
        lmin: number_of(matches, "lmin")?,
        lmax: number_of(matches, "LMAX")?,
        jitter_us: number_of(matches, "JITTER_US")?,
        policing: policing_in(matches)?,
    })
}

/// How the words of `replay` say that it is replayed.
#[derive(Clone, Copy, Debug)]
pub struct ReplayOptions {
    /// Whether the tables have to be admitted.
    pub admission: bool,
    /// Whether it is told how much too early dropped frames came.
    pub explains_drops: bool,
}

/// What the words of `replay` ask for.
pub fn replay_options(matches: &ArgMatches<'_>) -> ReplayOptions
    ensures { SaysReplay (found_of matches.now) result }
{
    let freely = is_given(matches, "no-admission");
    let explains_drops = is_given(matches, "explain-drops");
    ReplayOptions {
        admission: !freely,
        explains_drops,
    }
}

/// The words that name the inputs of `replay` or `list`: one, or two that are read at once.
#[derive(Clone, Copy, Debug)]
pub struct Inputs<'a> {
    pub list: &'a str,
    pub second: Option<&'a str>,
}

/// The inputs that the words of `replay` or `list` name.
pub fn inputs_in<'a>(matches: &ArgMatches<'a>) -> Option<Inputs<'a>>
    ensures { IfSome result (SaysInputs (found_of matches.now)) }
{
    Some(Inputs {
        list: matches.get_str("LIST")?,
        second: matches.get_str("LIST_B"),
    })
}

/// The words that name the inputs of `conform`.
#[derive(Clone, Copy, Debug)]
pub struct ConformInputs<'a> {
    pub came: &'a str,
    pub left: Option<&'a str>,
}

/// The inputs that the words of `conform` name.
pub fn conform_inputs<'a>(matches: &ArgMatches<'a>) -> Option<ConformInputs<'a>>
    ensures { IfSome result (SaysConformInputs (found_of matches.now)) }
{
    Some(ConformInputs {
        came: matches.get_str("CAME")?,
        left: matches.get_str("LEFT"),
    })
}

/// The name of the switch that `conform` judges, if it is said.
pub fn switch_in<'a>(matches: &ArgMatches<'a>) -> Option<&'a str>
    ensures { option_map (λ name. name.now) result
        ≡ first_value (found_of matches.now) (codes "switch") }
{
    matches.get_str("switch")
}

/// The system that sends, and the word that names its messages.
#[derive(Clone, Copy, Debug)]
pub struct SendWords<'a> {
    pub system: &'a str,
    pub submissions: &'a str,
}

/// What the words of `send` say.
pub fn send_words<'a>(matches: &ArgMatches<'a>) -> Option<SendWords<'a>>
    ensures { IfSome result (SaysSend (found_of matches.now)) }
{
    Some(SendWords {
        system: matches.get_str("SYSTEM")?,
        submissions: matches.get_str("SUBMISSIONS")?,
    })
}

/// Whether `explain` is asked for all words and lines.
pub fn wants_lists(matches: &ArgMatches<'_>) -> bool
    ensures { SaysFlag (found_of matches.now) (codes "list") result }
{
    is_given(matches, "list")
}

/// Whether the counts of a run are asked for.
pub fn wants_summary(matches: &ArgMatches<'_>) -> bool
    ensures { SaysFlag (found_of matches.now) (codes "summary") result }
{
    is_given(matches, "summary")
}
