//! What is wrong with a line of a list that can't be read.

use crate::locating::looks::is_number;
use crate::locating::switches::FoundSwitches;
use std::alloc::{AllocError, Global};

/// The kinds of lists, by their lines.
#[derive(Clone, Copy, Debug, PartialEq, Eq)]
pub enum Listing {
    /// Frames, of one switch on a side.
    Frames,
    /// Frames, of several switches on a side.
    SitedFrames,
    /// Messages that a system sends.
    Submissions,
}

/// A field of a line.
#[derive(Clone, Copy, Debug, PartialEq, Eq)]
enum Field {
    Kind,
    Time,
    Side,
    Switch,
    Port,
    Hex,
    Vl,
    Sub,
    Udp,
}

impl Field {
    /// Its name, as a list's form has it.
    fn name(self) -> &'static str {
        match self {
            Field::Kind => "K",
            Field::Time => "time",
            Field::Side => "side",
            Field::Switch => "SWITCH",
            Field::Port => "port",
            Field::Hex => "HEX",
            Field::Vl => "vl",
            Field::Sub => "sub",
            Field::Udp => "udp",
        }
    }

    /// What it may be.
    fn values(self) -> &'static str {
        match self {
            Field::Kind => "F, B or R",
            Field::Time | Field::Port => "a number in decimal digits",
            Field::Side => "A or B",
            Field::Switch => "the name of a switch of CONFIG",
            Field::Hex => "hexadecimal digits, or -",
            Field::Vl | Field::Udp => "0 to 65535",
            Field::Sub => "0 to 255",
        }
    }

    /// Whether the word is one of these.
    fn has(self, word: &str, switches: &FoundSwitches) -> bool {
        match self {
            Field::Kind => matches!(word, "F" | "B" | "R"),
            Field::Time | Field::Port => is_number(word),
            Field::Side => matches!(word, "A" | "B"),
            Field::Switch => switches.has(word),
            Field::Hex => !word.is_empty(),
            Field::Vl | Field::Udp => is_number(word) && word.parse::<u16>().is_ok(),
            Field::Sub => is_number(word) && word.parse::<u8>().is_ok(),
        }
    }
}

impl Listing {
    /// The fields of its lines.
    fn fields(self) -> &'static [Field] {
        match self {
            Listing::Frames => &[
                Field::Kind,
                Field::Time,
                Field::Side,
                Field::Port,
                Field::Hex,
            ],
            Listing::SitedFrames => &[
                Field::Kind,
                Field::Time,
                Field::Side,
                Field::Switch,
                Field::Port,
                Field::Hex,
            ],
            Listing::Submissions => &[Field::Time, Field::Vl, Field::Sub, Field::Udp, Field::Hex],
        }
    }
}

/// Puts the form of a list's lines.
fn put_form(text: &mut String, listing: Listing) -> Result<(), AllocError> {
    for (place, field) in listing.fields().iter().enumerate() {
        if place > 0 {
            text.push(' ')?;
        }
        text.push_str(field.name())?;
    }
    Ok(())
}

/// Puts that a line has so many fields.
fn put_count(text: &mut String, listing: Listing, count: usize) -> Result<(), AllocError> {
    let wanted = listing.fields().len();
    write!(
        text,
        "{count} fields, with one space between, and not {wanted}: "
    )?;
    put_form(text, listing)
}

/// Puts the first of the words that can't be its field.
fn put_first(
    text: &mut String,
    listing: Listing,
    words: &[&str],
    switches: &FoundSwitches,
) -> Result<(), AllocError> {
    for (field, word) in listing.fields().iter().zip(words) {
        if !field.has(word, switches) {
            let (name, values) = (field.name(), field.values());
            return write!(text, "{name} is '{word}', and not {values}");
        }
    }
    Ok(())
}

/// What is wrong with a line of a list, without its end, that has not the form of the list's lines;
/// the switches have these names. None where nothing is wrong with it, or where there is no memory.
pub fn wrong_field(
    alloc: Global,
    listing: Listing,
    switches: &FoundSwitches,
    line: &str,
) -> Option<String> {
    let mut words = Vec::new(alloc);
    for word in line.split(' ') {
        words.push(word).ok()?;
    }
    let mut text = String::new(alloc);
    if words.len() == listing.fields().len() {
        put_first(&mut text, listing, words.as_slice(), switches).ok()?;
    } else {
        put_count(&mut text, listing, words.len()).ok()?;
    }
    if text.is_empty() { None } else { Some(text) }
}
