//! What a line means.

ghost use Rattle.std.specs.Prelude.{◌≡◌};
ghost use Rattle.std.specs.Option.{option_copied};
ghost use Rattle.afdx_explain.specs.Explained as spec;

use crate::conform_lines::CONFORM_LINES;
use crate::entry::{
    behind, formed_among, named_among, named_row, row_among, text_among, text_behind,
};
use crate::faults::FAULTS;
use crate::keys::key;
use crate::kinds::KINDS;
use crate::lines::LINES;
use crate::unlawful::unlawful;
use afdx_admit::{ADMISSION, CASCADE_ADMISSION};
use afdx_config::CONFIG_FAULTS;
use afdx_conform::STRANGE_REASONS;
use afdx_frame::{IP_FAULTS, MAC_FAULTS};
use afdx_input_lines::{RECORDING_FAULTS, RUN_FAULTS};
use afdx_input_sources::SKIPPED;
use afdx_police::REASONS;
use afdx_receive::DROP_REASONS;
use afdx_send::SEND_FAULTS;

/// The forms of a line that tells why a switch dropped a frame.
const SWITCH_FORMS: &[u8] = b"?\nV n A|B drop ?\nV n A|B * drop ?";

/// The forms of a line that tells why a frame that left is strange.
const STRANGE_FORMS: &[u8] = b"?\nstrange n A|B n ?";

/// The form of a line that tells why a frame was to be dropped that left.
const PASSED_FORM: &[u8] = b"passed n A|B n ?";

/// The forms of a line that tells why a receiver dropped a frame.
const RECEIVER_FORMS: &[u8] = b"?\nX n * n ?";

/// The forms of a line that tells why a message was refused.
const REFUSAL_FORMS: &[u8] = b"?\n# n ?";

/// The forms of a line that tells why a number of a recording is skipped.
const SKIPPED_FORMS: &[u8] = b"?\n# ? n";

/// What a fault of the words means, or of a file that can't be opened.
#[tactic(auto, unfolding(crate::specs::Explained::fault))]
fn fault(line: &[u8]) -> Option<&'static str>
    ensures { option_copied result ≡ spec.fault line.now }
{
    text_among(&FAULTS, line)
}

/// What the fault of a run means.
#[tactic(auto, unfolding(crate::specs::Explained::run_fault))]
fn run_fault(line: &[u8]) -> Option<&'static str>
    ensures { option_copied result ≡ spec.run_fault line.now }
{
    text_among(&RUN_FAULTS, line)
}

/// What the fault of one of two lists means.
#[tactic(auto, unfolding(crate::specs::Explained::list_fault))]
fn list_fault(line: &[u8]) -> Option<&'static str>
    ensures { option_copied result ≡ spec.list_fault line.now }
{
    if line.starts_with(b"list came ") || line.starts_with(b"list left ") {
        text_behind(&RUN_FAULTS[..7], 5, behind(line, 10))
    } else {
        None
    }
}

/// The line of a fault without what stands behind it where it is that of one of two recordings: a
/// network, or which of what came and what left it is.
#[tactic(auto, unfolding(crate::specs::Explained::without_recording))]
fn without_recording(line: &[u8]) -> &[u8]
    ensures { result.now ≡ spec.without_recording line.now }
{
    let (fault, network) = line.split_at(line.len().saturating_sub(2));
    if network == b" A".as_slice() || network == b" B".as_slice() {
        return fault;
    }
    let (fault, role) = line.split_at(line.len().saturating_sub(5));
    if role == b" came".as_slice() || role == b" left".as_slice() {
        return fault;
    }
    line
}

/// What the fault of a recording means.
#[tactic(auto, unfolding(crate::specs::Explained::recording_fault))]
fn recording_fault(line: &[u8]) -> Option<&'static str>
    ensures { option_copied result ≡ spec.recording_fault line.now }
{
    text_among(&RECORDING_FAULTS, without_recording(line))
}

/// What the fault of a whole configuration means.
#[tactic(auto, unfolding(crate::specs::Explained::config_fault))]
fn config_fault(line: &[u8]) -> Option<&'static str>
    ensures { option_copied result ≡ spec.config_fault line.now }
{
    formed_among(&CONFIG_FAULTS[..2], line)
}

/// What it means that a line of admission is false.
#[tactic(auto, unfolding(crate::specs::Explained::admission))]
fn admission(line: &[u8]) -> Option<&'static str>
    ensures { option_copied result ≡ spec.admission line.now }
{
    formed_among(&ADMISSION, line)
}

/// What it means that a line is false which joins a link's rows at two switches.
#[tactic(auto, unfolding(crate::specs::Explained::hop))]
fn hop(line: &[u8]) -> Option<&'static str>
    ensures { option_copied result ≡ spec.hop line.now }
{
    formed_among(&CASCADE_ADMISSION, line)
}

/// Why a switch dropped a frame.
#[tactic(auto, unfolding(crate::specs::Explained::dropped))]
fn dropped(line: &[u8]) -> Option<&'static str>
    ensures { option_copied result ≡ spec.dropped line.now }
{
    row_among(&REASONS, SWITCH_FORMS, line)
}

/// Why a frame that left is strange, by its shape.
#[tactic(auto, unfolding(crate::specs::Explained::strange_shape))]
fn strange_shape(line: &[u8]) -> Option<&'static str>
    ensures { option_copied result ≡ spec.strange_shape line.now }
{
    row_among(&REASONS[..5], STRANGE_FORMS, line)
}

/// Why a frame that left is strange.
#[tactic(auto, unfolding(crate::specs::Explained::strange))]
fn strange(line: &[u8]) -> Option<&'static str>
    ensures { option_copied result ≡ spec.strange line.now }
{
    row_among(&STRANGE_REASONS, STRANGE_FORMS, line)
}

/// Why a frame was to be dropped that left: it is damaged.
#[tactic(auto, unfolding(crate::specs::Explained::passed_damaged))]
fn passed_damaged(line: &[u8]) -> Option<&'static str>
    ensures { option_copied result ≡ spec.passed_damaged line.now }
{
    row_among(&REASONS[..3], PASSED_FORM, line)
}

/// Why a frame was to be dropped that left, by its link's rule.
#[tactic(auto, unfolding(crate::specs::Explained::passed))]
fn passed(line: &[u8]) -> Option<&'static str>
    ensures { option_copied result ≡ spec.passed line.now }
{
    row_among(&REASONS[5..], PASSED_FORM, line)
}

/// What another line of `conform` means.
#[tactic(auto, unfolding(crate::specs::Explained::judged))]
fn judged(line: &[u8]) -> Option<&'static str>
    ensures { option_copied result ≡ spec.judged line.now }
{
    text_among(&CONFORM_LINES, line)
}

/// What is found at a switch that was recorded, or of a system that sent to it.
#[tactic(auto, unfolding(crate::specs::Explained::found))]
fn found(line: &[u8]) -> Option<&'static str>
    ensures { option_copied result ≡ spec.found line.now }
{
    if let Some(text) = strange_shape(line) {
        return Some(text);
    }
    if let Some(text) = strange(line) {
        return Some(text);
    }
    if let Some(text) = passed_damaged(line) {
        return Some(text);
    }
    if let Some(text) = passed(line) {
        return Some(text);
    }
    if let Some(text) = unlawful(line) {
        return Some(text);
    }
    judged(line)
}

/// Why a receiver dropped bytes that are no frame.
#[tactic(auto, unfolding(crate::specs::Explained::no_frame))]
fn no_frame(line: &[u8]) -> Option<&'static str>
    ensures { option_copied result ≡ spec.no_frame line.now }
{
    row_among(&MAC_FAULTS, RECEIVER_FORMS, line)
}

/// Why a receiver dropped a frame.
#[tactic(auto, unfolding(crate::specs::Explained::not_received))]
fn not_received(line: &[u8]) -> Option<&'static str>
    ensures { option_copied result ≡ spec.not_received line.now }
{
    row_among(&DROP_REASONS, RECEIVER_FORMS, line)
}

/// Why a receiver dropped a frame that won.
#[tactic(auto, unfolding(crate::specs::Explained::no_datagram))]
fn no_datagram(line: &[u8]) -> Option<&'static str>
    ensures { option_copied result ≡ spec.no_datagram line.now }
{
    row_among(&IP_FAULTS, RECEIVER_FORMS, line)
}

/// Why a message was refused.
#[tactic(auto, unfolding(crate::specs::Explained::refused))]
fn refused(line: &[u8]) -> Option<&'static str>
    ensures { option_copied result ≡ spec.refused line.now }
{
    row_among(&SEND_FAULTS[..5], REFUSAL_FORMS, line)
}

/// Why a number of a recording is skipped.
#[tactic(auto, unfolding(crate::specs::Explained::skipped))]
fn skipped(line: &[u8]) -> Option<&'static str>
    ensures { option_copied result ≡ spec.skipped line.now }
{
    row_among(&SKIPPED, SKIPPED_FORMS, line)
}

/// What another line of the output means.
#[tactic(auto, unfolding(crate::specs::Explained::told))]
fn told(line: &[u8]) -> Option<&'static str>
    ensures { option_copied result ≡ spec.told line.now }
{
    text_among(&LINES, line)
}

/// What a fault means.
#[tactic(auto, unfolding(crate::specs::Explained::any_fault))]
fn any_fault(line: &[u8]) -> Option<&'static str>
    ensures { option_copied result ≡ spec.any_fault line.now }
{
    if let Some(text) = fault(line) {
        return Some(text);
    }
    if let Some(text) = run_fault(line) {
        return Some(text);
    }
    if let Some(text) = list_fault(line) {
        return Some(text);
    }
    if let Some(text) = recording_fault(line) {
        return Some(text);
    }
    if let Some(text) = config_fault(line) {
        return Some(text);
    }
    if let Some(text) = key(line) {
        return Some(text);
    }
    if let Some(text) = admission(line) {
        return Some(text);
    }
    hop(line)
}

/// What a line of the output means, or a word of one.
#[tactic(auto, unfolding(crate::specs::Explained::any_line))]
fn any_line(line: &[u8]) -> Option<&'static str>
    ensures { option_copied result ≡ spec.any_line line.now }
{
    if let Some(text) = dropped(line) {
        return Some(text);
    }
    if let Some(text) = no_frame(line) {
        return Some(text);
    }
    if let Some(text) = not_received(line) {
        return Some(text);
    }
    if let Some(text) = no_datagram(line) {
        return Some(text);
    }
    if let Some(text) = refused(line) {
        return Some(text);
    }
    if let Some(text) = skipped(line) {
        return Some(text);
    }
    if let Some(text) = found(line) {
        return Some(text);
    }
    told(line)
}

/// What the fault of this name means, of the words or of a file that can't be opened.
#[tactic(auto, unfolding(crate::specs::Explained::named_fault))]
fn named_fault(line: &[u8]) -> Option<&'static str>
    ensures { option_copied result ≡ spec.named_fault line.now }
{
    named_among(&FAULTS, line)
}

/// What the fault of this name means, of a run.
#[tactic(auto, unfolding(crate::specs::Explained::named_run_fault))]
fn named_run_fault(line: &[u8]) -> Option<&'static str>
    ensures { option_copied result ≡ spec.named_run_fault line.now }
{
    named_among(&RUN_FAULTS, line)
}

/// What the fault of this name means, of a recording.
#[tactic(auto, unfolding(crate::specs::Explained::named_recording_fault))]
fn named_recording_fault(line: &[u8]) -> Option<&'static str>
    ensures { option_copied result ≡ spec.named_recording_fault line.now }
{
    named_among(&RECORDING_FAULTS, line)
}

/// What the fault of this name means, of a configuration.
#[tactic(auto, unfolding(crate::specs::Explained::named_config_fault))]
fn named_config_fault(line: &[u8]) -> Option<&'static str>
    ensures { option_copied result ≡ spec.named_config_fault line.now }
{
    named_row(&CONFIG_FAULTS[..8], line)
}

/// What the fault of this name means, without a place or a number.
#[tactic(auto, unfolding(crate::specs::Explained::named))]
fn named(line: &[u8]) -> Option<&'static str>
    ensures { option_copied result ≡ spec.named line.now }
{
    if let Some(text) = named_fault(line) {
        return Some(text);
    }
    if let Some(text) = named_run_fault(line) {
        return Some(text);
    }
    if let Some(text) = named_recording_fault(line) {
        return Some(text);
    }
    named_config_fault(line)
}

/// What a line of the program means, or None where it is none that the program writes.
///
/// The line stands without its line feed. A word alone is one that stands in a line: why a frame
/// was dropped, a line of admission, why a message was refused; its letter, as `D`; or the name of
/// a fault, which may also stand behind its first word.
#[tactic(auto, unfolding(crate::specs::Explained::meaning_of))]
pub fn meaning_of(line: &str) -> Option<&'static str>
    ensures { option_copied result ≡ spec.meaning_of line.now }
{
    let line = line.as_bytes();
    if let Some(text) = any_fault(line) {
        return Some(text);
    }
    if let Some(text) = any_line(line) {
        return Some(text);
    }
    named(line)
}

/// What is said of all faults of the configuration of this one's kind.
#[tactic(auto, unfolding(crate::specs::Explained::config_kind))]
fn config_kind(line: &[u8]) -> Option<&'static str>
    ensures { option_copied result ≡ spec.config_kind line.now }
{
    formed_among(&CONFIG_FAULTS[2..8], line)
}

/// What is said of all other lines of a kind.
#[tactic(auto, unfolding(crate::specs::Explained::other_kind))]
fn other_kind(line: &[u8]) -> Option<&'static str>
    ensures { option_copied result ≡ spec.other_kind line.now }
{
    text_among(&KINDS, line)
}

/// What is said of all lines of this one's kind, where there are several.
#[tactic(auto, unfolding(crate::specs::Explained::kind_of))]
pub fn kind_of(line: &str) -> Option<&'static str>
    ensures { option_copied result ≡ spec.kind_of line.now }
{
    let line = line.as_bytes();
    if let Some(text) = config_kind(line) {
        return Some(text);
    }
    other_kind(line)
}
