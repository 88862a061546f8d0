//! Why a frame that a system sent isn't lawful by itself.

ghost use Rattle.std.specs.Prelude.{◌≡◌};
ghost use Rattle.std.specs.Option.{option_copied};
ghost use Rattle.afdx_explain.specs.Explained as spec;

use crate::entry::row_among;
use afdx_frame::IP_FAULTS;
use afdx_police::REASONS;
use afdx_text::{FLAW_REASONS, NO_SOURCE_REASONS};

/// The form of a line that tells why such a frame isn't lawful.
const UNLAWFUL_FORM: &[u8] = b"unlawful n A|B n ?";

/// The forms of one that has a word of its own.
const OWN_FORMS: &[u8] = b"?\nunlawful n A|B n ?";

/// It is damaged.
#[tactic(auto, unfolding(crate::specs::Explained::unlawful_damaged))]
fn damaged(line: &[u8]) -> Option<&'static str>
    ensures { option_copied result ≡ spec.unlawful_damaged line.now }
{
    row_among(&REASONS[..3], UNLAWFUL_FORM, line)
}

/// It is of no link of the tables.
#[tactic(auto, unfolding(crate::specs::Explained::unlawful_link))]
fn of_no_link(line: &[u8]) -> Option<&'static str>
    ensures { option_copied result ≡ spec.unlawful_link line.now }
{
    row_among(&REASONS[4..5], UNLAWFUL_FORM, line)
}

/// It is longer or shorter than its link's frames may be.
#[tactic(auto, unfolding(crate::specs::Explained::unlawful_length))]
fn of_other_length(line: &[u8]) -> Option<&'static str>
    ensures { option_copied result ≡ spec.unlawful_length line.now }
{
    row_among(&REASONS[6..8], UNLAWFUL_FORM, line)
}

/// It carries no datagram.
#[tactic(auto, unfolding(crate::specs::Explained::unlawful_datagram))]
fn without_datagram(line: &[u8]) -> Option<&'static str>
    ensures { option_copied result ≡ spec.unlawful_datagram line.now }
{
    row_among(&IP_FAULTS, UNLAWFUL_FORM, line)
}

/// It has another address than its system's.
#[tactic(auto, unfolding(crate::specs::Explained::unlawful_address))]
fn of_other_address(line: &[u8]) -> Option<&'static str>
    ensures { option_copied result ≡ spec.unlawful_address line.now }
{
    row_among(&FLAW_REASONS, OWN_FORMS, line)
}

/// Another system sends its link.
#[tactic(auto, unfolding(crate::specs::Explained::unlawful_source))]
fn of_other_source(line: &[u8]) -> Option<&'static str>
    ensures { option_copied result ≡ spec.unlawful_source line.now }
{
    row_among(&NO_SOURCE_REASONS, OWN_FORMS, line)
}

/// Why it isn't lawful.
#[tactic(auto, unfolding(crate::specs::Explained::unlawful))]
pub fn unlawful(line: &[u8]) -> Option<&'static str>
    ensures { option_copied result ≡ spec.unlawful line.now }
{
    if let Some(text) = damaged(line) {
        return Some(text);
    }
    if let Some(text) = of_no_link(line) {
        return Some(text);
    }
    if let Some(text) = of_other_length(line) {
        return Some(text);
    }
    if let Some(text) = without_datagram(line) {
        return Some(text);
    }
    if let Some(text) = of_other_address(line) {
        return Some(text);
    }
    of_other_source(line)
}
