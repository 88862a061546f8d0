//! Whether a line has a form.

ghost use Rattle.std.specs.Prelude.{◌≡◌};
ghost use Rattle.std.specs.List.{list_any};
ghost use Rattle.std.specs.Str.{bytes_eq};
ghost use Rattle.afdx_input_lines.specs.Splitting.{all_digits};
ghost use Rattle.afdx_explain.specs.Forms.{between_bars, has_form, has_name, stands_for};

use afdx_input_lines::first_field;

/// Whether all bytes are digits.
fn are_digits(mut word: &[u8]) -> bool
    ensures { result ≡ all_digits word.entry.now }
{
    while let [byte, rest @ ..] = word {
        if !byte.is_ascii_digit() {
            return false;
        }
        word = rest;
    }
    true
}

/// Whether the word is one of those between bars.
fn is_one_of(word: &[u8], words: &[u8]) -> bool
    ensures { result ≡ list_any (bytes_eq word.now) (between_bars words.now) }
{
    let (first, rest) = first_field(words, b'|');
    if word == first {
        return true;
    }
    match rest {
        Some(rest) => is_one_of(word, rest),
        None => false,
    }
}

/// Whether a form's word stands for this one, where the row of the form is about its own.
#[tactic(auto, unfolding(crate::specs::Forms::stands_for))]
fn stands_for(own: &[u8], wanted: &[u8], word: &[u8]) -> bool
    ensures { result ≡ stands_for own.now wanted.now word.now }
{
    if wanted == b"n".as_slice() {
        !word.is_empty() && are_digits(word)
    } else if wanted == b"*".as_slice() {
        !word.is_empty()
    } else if wanted == b"?".as_slice() {
        word == own
    } else {
        is_one_of(word, wanted)
    }
}

/// Whether the words of the form, in a row that is about its own word, stand for those of the line.
#[tactic(auto, using(crate::proofs::FormLemmas::too_few, crate::proofs::FormLemmas::too_many))]
pub fn has_form(own: &[u8], line: &[u8], form: &[u8]) -> bool
    ensures { result ≡ has_form own.now line.now form.now }
{
    let (wanted, wanted_rest) = first_field(form, b' ');
    let (word, rest) = first_field(line, b' ');
    if !stands_for(own, wanted, word) {
        return false;
    }
    match (rest, wanted_rest) {
        (Some(rest), Some(wanted_rest)) => has_form(own, rest, wanted_rest),
        (None, None) => true,
        (None, Some(_)) => false,
        (Some(_), None) => false,
    }
}

/// Whether the line is the name of a form, which is its second word, alone or behind its first one.
#[tactic(auto, using(crate::proofs::FormLemmas::three_words))]
pub fn has_name(own: &[u8], line: &[u8], form: &[u8]) -> bool
    ensures { result ≡ has_name own.now line.now form.now }
{
    let (kind, rest) = first_field(form, b' ');
    let Some(rest) = rest else {
        return false;
    };
    let (name, _) = first_field(rest, b' ');
    let (first, rest) = first_field(line, b' ');
    let Some(rest) = rest else {
        return stands_for(own, name, first);
    };
    let (second, rest) = first_field(rest, b' ');
    match rest {
        None => stands_for(own, kind, first) && stands_for(own, name, second),
        Some(_) => false,
    }
}
