//! Why a word of `--interface` or `--left` is refused.

ghost use Rattle.std.specs.Prelude.{◌≡◌};

use crate::recording_words::Refused;
use std::fmt;
use std::fmt::{Display, Formatter, Write};

/// Why a word that says where an interface was is refused.
#[derive(Clone, Copy, Debug, PartialEq, Eq)]
pub enum Misplaced {
    /// It has another form.
    Form,
    /// The interface was named before.
    Twice,
    /// A switch is named where each side has one.
    Switch,
    /// More switches are named than can be.
    Many,
    /// No port is said where one is needed.
    Port,
}

impl Misplaced {
    /// The cause in words.
    fn text(self) -> &'static str {
        match self {
            Misplaced::Form => "this is no K=PLACE with an interface and a place",
            Misplaced::Twice => "the interface was named before",
            Misplaced::Switch => "no switch can be named here",
            Misplaced::Many => "more than 65,536 names of switches",
            Misplaced::Port => "here a port is needed, as in A:1",
        }
    }
}

/// An option with the word behind it that says where an interface was.
#[derive(Clone, Copy, Debug, PartialEq, Eq)]
pub(crate) struct Given<'a> {
    pub(crate) option: &'static str,
    pub(crate) word: &'a str,
}

impl<'a> Given<'a> {
    /// A word of `--interface`.
    pub(crate) fn interface(word: &'a str) -> Given<'a>
        ensures { result.word.now ≡ word.now }
    {
        Given {
            option: "interface",
            word,
        }
    }

    /// A word of `--left`.
    pub(crate) fn left(word: &'a str) -> Given<'a>
        ensures { result.word.now ≡ word.now }
    {
        Given {
            option: "left",
            word,
        }
    }

    /// Refuses it.
    pub(crate) fn refused(self, why: Misplaced) -> Refused<'a> {
        Refused::BadInterface(BadPlace::Word(self.option, self.word, why))
    }
}

/// What is wrong with the words of `--interface` and `--left`.
#[derive(Clone, Copy, Debug, PartialEq, Eq)]
pub enum BadPlace<'a> {
    /// An option, the word behind it, and why that is refused.
    Word(&'static str, &'a str, Misplaced),
    /// An option that is needed isn't there.
    Absent(&'static str),
}

impl Display for BadPlace<'_> {
    fn fmt<W: Write>(&self, f: &mut Formatter<W>) -> fmt::Result {
        match self {
            BadPlace::Word(option, word, why) => {
                let text = why.text();
                write!(f, "--{option} '{word}': {text}.")
            }
            BadPlace::Absent(option) => {
                write!(
                    f,
                    "There is no --{option}, and recordings of 'conform' need one."
                )
            }
        }
    }
}
