//! The word that somebody may have meant.

use crate::console::lists::{Hearer, hear_lists};
use afdx_explain::meaning_of;
use std::alloc::{AllocError, Global};
use strsim::jaro_winkler;

/// From here on two words are alike, where 1 is the same word.
const ALIKE: f64 = 0.85;

/// Whether a word of a form stands for others.
fn is_general(word: &str) -> bool {
    matches!(word, "n" | "*" | "?") || word.contains('|')
}

/// The word of the lists that is the most like a word that was given.
#[derive(Drop)]
struct Nearest<'a> {
    alloc: Global,
    given: &'a [&'a str],
    word: String,
    likeness: f64,
}

impl Nearest<'_> {
    /// How much a word is like the one that is the most like it of those that were given.
    fn likeness_of(&self, word: &str) -> Result<f64, AllocError> {
        let mut most = 0.0;
        for given in self.given {
            let likeness = jaro_winkler(self.alloc, given, word)?;
            if most < likeness {
                most = likeness;
            }
        }
        Ok(most)
    }

    /// Takes a word that has a meaning alone, if it is more like what was given.
    fn consider(&mut self, word: &str) -> Result<(), AllocError> {
        let likeness = self.likeness_of(word)?;
        if self.likeness < likeness && meaning_of(word).is_some() {
            self.word = String::from_str(self.alloc, word)?;
            self.likeness = likeness;
        }
        Ok(())
    }
}

impl Hearer for Nearest<'_> {
    type Error = AllocError;

    fn hear(&mut self, _list: &str, forms: &str, _meaning: &str) -> Result<(), AllocError> {
        for word in forms.split([' ', '\n']) {
            if !is_general(word) {
                self.consider(word)?;
            }
        }
        Ok(())
    }
}

/// The word of the lists that is the most like one of these; None where none is like one, or there
/// is no memory.
pub(crate) fn nearest_to(alloc: Global, given: &[&str]) -> Option<String> {
    let mut nearest = Nearest {
        alloc,
        given,
        word: String::new(alloc),
        likeness: ALIKE,
    };
    hear_lists(&mut nearest).ok()?;
    if nearest.word.is_empty() {
        return None;
    }
    Some(nearest.word)
}
