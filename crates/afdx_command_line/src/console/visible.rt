//! Texts as a terminal can show them.

use std::alloc::{AllocError, Global};

/// The ranges of characters that no reader sees, or that turn the direction of a text.
const UNSEEN: [(char, char); 4] = [
    ('\u{200b}', '\u{200f}'),
    ('\u{2028}', '\u{202e}'),
    ('\u{2060}', '\u{206f}'),
    ('\u{feff}', '\u{feff}'),
];

/// Whether a terminal would obey the character, or hide it.
fn is_obeyed(letter: char) -> bool {
    letter.is_control()
        || UNSEEN
            .iter()
            .any(|(first, last)| *first <= letter && letter <= *last)
}

/// The text, with the escape of each character that a terminal would obey or hide, as `\u{1b}`.
pub fn visible_text(alloc: Global, text: &str) -> Result<String, AllocError> {
    let mut visible = String::new(alloc);
    for letter in text.chars() {
        if is_obeyed(letter) {
            let escape = letter.escape_default();
            write!(visible, "{escape}")?;
        } else {
            visible.push(letter)?;
        }
    }
    Ok(visible)
}
