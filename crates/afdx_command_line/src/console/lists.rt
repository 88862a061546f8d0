//! The closed lists of words and of forms of lines, each with what it means.

use afdx_admit::{ADMISSION, CASCADE_ADMISSION};
use afdx_config::{
    CASCADE_KEYS, CONFIG_FAULTS, Key, LINK_KEYS, NEIGHBOUR_KEYS, PORT_KEYS, SWITCH_KEYS,
    SYSTEM_KEYS, TOP_KEYS, UNKNOWN_KEYS, WIDER_KEYS,
};
use afdx_conform::STRANGE_REASONS;
use afdx_explain::{CONFORM_LINES, FAULTS, LINES};
use afdx_frame::{IP_FAULTS, MAC_FAULTS};
use afdx_input_lines::{RECORDING_FAULTS, RUN_FAULTS};
use afdx_input_sources::SKIPPED;
use afdx_police::REASONS;
use afdx_receive::DROP_REASONS;
use afdx_send::SEND_FAULTS;
use afdx_text::{FLAW_REASONS, NO_SOURCE_REASONS};
use std::io;

/// What takes the rows of the lists.
pub(crate) trait Hearer {
    /// Why it takes no more.
    type Error: Drop;

    /// Takes the forms of a row, a line each, of the list of this name, and what they mean.
    fn hear(&mut self, list: &str, forms: &str, meaning: &str) -> Result<(), Self::Error>;
}

/// The words of a list.
fn words<T, H: Hearer>(to: &mut H, list: &str, rows: &[(T, &str, &str)]) -> Result<(), H::Error> {
    for (_, word, meaning) in rows {
        to.hear(list, word, meaning)?;
    }
    Ok(())
}

/// The words of a list whose lines have forms of their own.
fn formed<H: Hearer>(to: &mut H, list: &str, rows: &[(&str, &str, &str)]) -> Result<(), H::Error> {
    for (word, _, meaning) in rows {
        to.hear(list, word, meaning)?;
    }
    Ok(())
}

/// The forms of lines.
fn forms<H: Hearer>(to: &mut H, list: &str, rows: &[(&str, &str)]) -> Result<(), H::Error> {
    for (forms, meaning) in rows {
        to.hear(list, forms, meaning)?;
    }
    Ok(())
}

/// The keys of a part, by the forms of their faults.
fn keys<H: Hearer>(to: &mut H, keys: &[Key]) -> Result<(), H::Error> {
    for (_, _, _, forms, meaning) in keys {
        to.hear("key", forms, meaning)?;
    }
    Ok(())
}

// Each list has a function of its own, since a proof carries each letter of a table that is named.

/// Why a switch drops a frame.
fn drops<H: Hearer>(to: &mut H) -> Result<(), H::Error> {
    words(to, "drop", &REASONS)
}

/// Why bytes are no frame.
fn no_frames<H: Hearer>(to: &mut H) -> Result<(), H::Error> {
    words(to, "unread", &MAC_FAULTS)
}

/// Why a system drops a frame.
fn own_drops<H: Hearer>(to: &mut H) -> Result<(), H::Error> {
    words(to, "unread", &DROP_REASONS)
}

/// Why a frame carries no datagram.
fn no_datagrams<H: Hearer>(to: &mut H) -> Result<(), H::Error> {
    words(to, "unread", &IP_FAULTS)
}

/// Why a message is refused.
fn refusals<H: Hearer>(to: &mut H) -> Result<(), H::Error> {
    words(to, "refusal", &SEND_FAULTS[..5])
}

/// Why a frame is strange that left.
fn strange<H: Hearer>(to: &mut H) -> Result<(), H::Error> {
    words(to, "strange", &STRANGE_REASONS)
}

/// Why a frame that a system sent isn't lawful.
fn unlawful<H: Hearer>(to: &mut H) -> Result<(), H::Error> {
    words(to, "unlawful", &FLAW_REASONS)?;
    words(to, "unlawful", &NO_SOURCE_REASONS)
}

/// Why a number of a recording is skipped.
fn skipped<H: Hearer>(to: &mut H) -> Result<(), H::Error> {
    words(to, "skipped", &SKIPPED)
}

/// The lines of admission.
fn admission_lines<H: Hearer>(to: &mut H) -> Result<(), H::Error> {
    formed(to, "admission", &ADMISSION)?;
    formed(to, "admission", &CASCADE_ADMISSION)
}

/// The faults of a configuration.
fn config_faults<H: Hearer>(to: &mut H) -> Result<(), H::Error> {
    formed(to, "config", &CONFIG_FAULTS[..8])
}

/// The keys of the top.
fn top_keys<H: Hearer>(to: &mut H) -> Result<(), H::Error> {
    keys(to, &TOP_KEYS)
}

/// The keys of a system.
fn system_keys<H: Hearer>(to: &mut H) -> Result<(), H::Error> {
    keys(to, &SYSTEM_KEYS)
}

/// The keys of a link.
fn link_keys<H: Hearer>(to: &mut H) -> Result<(), H::Error> {
    keys(to, &LINK_KEYS)
}

/// The keys of a port entry.
fn port_keys<H: Hearer>(to: &mut H) -> Result<(), H::Error> {
    keys(to, &PORT_KEYS)
}

/// The keys of the top of a file that describes several switches.
fn cascade_keys<H: Hearer>(to: &mut H) -> Result<(), H::Error> {
    keys(to, &CASCADE_KEYS)
}

/// The keys of a switch.
fn switch_keys<H: Hearer>(to: &mut H) -> Result<(), H::Error> {
    keys(to, &SWITCH_KEYS)
}

/// The keys of a neighbour.
fn neighbour_keys<H: Hearer>(to: &mut H) -> Result<(), H::Error> {
    keys(to, &NEIGHBOUR_KEYS)
}

/// The keys that mean more in a switch of several.
fn wider_keys<H: Hearer>(to: &mut H) -> Result<(), H::Error> {
    forms(to, "key", &WIDER_KEYS)
}

/// What is said of keys that aren't known.
fn unknown_keys<H: Hearer>(to: &mut H) -> Result<(), H::Error> {
    forms(to, "key", &UNKNOWN_KEYS)
}

/// The faults of a run.
fn run_faults<H: Hearer>(to: &mut H) -> Result<(), H::Error> {
    forms(to, "fault", &RUN_FAULTS)
}

/// The faults of a recording.
fn recording_faults<H: Hearer>(to: &mut H) -> Result<(), H::Error> {
    forms(to, "fault", &RECORDING_FAULTS)
}

/// The other faults.
fn other_faults<H: Hearer>(to: &mut H) -> Result<(), H::Error> {
    forms(to, "fault", &FAULTS)
}

/// The lines of the output.
fn output_lines<H: Hearer>(to: &mut H) -> Result<(), H::Error> {
    forms(to, "line", &LINES)
}

/// The lines of `conform`.
fn conform_lines<H: Hearer>(to: &mut H) -> Result<(), H::Error> {
    forms(to, "line", &CONFORM_LINES)
}

/// All lists, in turn: a row has forms, and the words of a list are forms of one word.
pub(crate) fn hear_lists<H: Hearer>(to: &mut H) -> Result<(), H::Error> {
    drops(to)?;
    no_frames(to)?;
    own_drops(to)?;
    no_datagrams(to)?;
    refusals(to)?;
    strange(to)?;
    unlawful(to)?;
    skipped(to)?;
    admission_lines(to)?;
    config_faults(to)?;
    top_keys(to)?;
    system_keys(to)?;
    link_keys(to)?;
    port_keys(to)?;
    cascade_keys(to)?;
    switch_keys(to)?;
    neighbour_keys(to)?;
    wider_keys(to)?;
    unknown_keys(to)?;
    run_faults(to)?;
    recording_faults(to)?;
    other_faults(to)?;
    output_lines(to)?;
    conform_lines(to)
}

/// Prints rows: each form with the name of its list, then what they mean, then an empty line.
#[derive(Drop)]
struct Printer<'a> {
    rt: &'a HostRuntime,
}

impl Hearer for Printer<'_> {
    type Error = io::Error;

    fn hear(&mut self, list: &str, forms: &str, meaning: &str) -> io::Result<()> {
        for form in forms.split('\n') {
            println!(self.rt; "{list} {form}")?;
        }
        println!(self.rt; "{meaning}\n")
    }
}

/// Prints each closed list: for each of its words, or of the forms of its lines, the list's name
/// with it, then what it means, then an empty line.
pub fn print_lists(rt: &HostRuntime) -> io::Result<()> {
    hear_lists(&mut Printer { rt })
}
