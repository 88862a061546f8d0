//! What a command takes of a configuration: of one switch on a side, or of several. What it refuses
//! is tried at the program (tests/program/check.sh, send.sh).

use crate::texts::short_text;
use afdx_command_tables::{Taken, take_file, take_sender};
use afdx_input_lines::Watched;
use afdx_test_samples::{ShortText, base, equal, two_switches};
use std::alloc::Global;
use std::test::Fail;

/// What is taken, in words.
fn words_of(taken: &Taken) -> &'static str {
    match taken {
        Taken::OneAdmitted(_) => "one admitted",
        Taken::OneUnasked(_) => "one unasked",
        Taken::SeveralAdmitted(_) => "several admitted",
        Taken::SeveralUnasked(_) => "several unasked",
    }
}

/// The status, 0 where something is taken; what that is; and what is told.
type Answer = (u8, ShortText, ShortText);

fn taken(alloc: Global, admission: bool, config: &str) -> Result<Answer, Fail> {
    let mut errors = Watched::new(Vec::new(alloc));
    let (status, words) = match take_file(alloc, admission, config.as_bytes(), &mut errors) {
        Ok(taken) => (0, words_of(&taken)),
        Err(status) => (status, ""),
    };
    let told = short_text(errors.into_inner().as_slice())?;
    Ok((status, ShortText::from(words)?, told))
}

/// Whether this is taken, and nothing is told.
fn is_taken(alloc: Global, admission: bool, config: &str, words: &str) -> Result<(), Fail> {
    let (status, found, told) = taken(alloc, admission, config)?;
    equal((status, found.as_str(), told.as_str()), (0, words, ""))
}

#[test]
fn files_are_taken(rt: HostRuntime) -> Result<(), Fail> {
    let alloc = rt.alloc();
    is_taken(alloc, true, base(), "one admitted")?;
    is_taken(alloc, false, base(), "one unasked")?;
    is_taken(alloc, true, two_switches(), "several admitted")?;
    is_taken(alloc, false, two_switches(), "several unasked")
}

/// The name of the switch of a sender, how many systems that has, and the sender's place.
fn sender(alloc: Global, config: &str, name: &str) -> Result<(ShortText, usize, u8), Fail> {
    let mut errors = Watched::new(Vec::new(alloc));
    let Ok(taken) = take_sender(alloc, config.as_bytes(), name, &mut errors) else {
        return Err("it isn't taken".into());
    };
    let switch = ShortText::from(taken.switch.as_str())?;
    Ok((switch, taken.admitted.tables().own_count(), taken.system.0))
}

#[test]
fn a_sender_is_taken(rt: HostRuntime) -> Result<(), Fail> {
    let (switch, count, place) = sender(rt.alloc(), two_switches(), "s3")?;
    equal((switch.as_str(), count, place), ("aft", 2, 1))
}
