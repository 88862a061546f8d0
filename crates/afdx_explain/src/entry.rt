//! The rows of tables: a word or the forms of a line, and what such a line means.

ghost use Rattle.std.specs.Prelude.{◌≡◌, [], drop, map};
ghost use Rattle.std.specs.Option.{option_copied};
ghost use Rattle.afdx_explain.specs.Forms.{has_form, has_some_form, text_among};
ghost use Rattle.afdx_explain.specs.Forms.{row_among, formed_row, formed_among};
ghost use Rattle.afdx_explain.specs.Forms.{named_among, named_row};

use crate::forms::{has_form, has_name};
use afdx_config::Key;
use afdx_input_lines::first_field;

/// The forms of a line, each on a line of its own, and what such a line means: one or more lines of
/// text.
///
/// In a form `n` stands for a whole number, `*` for any word, words between bars for one of
/// them; `?` for the word that the row is about; all other words stand for themselves.
pub type Entry = (&'static str, &'static str);

/// Whether the line has one of the forms, in a row that is about its own word.
#[tactic(auto, unfolding(crate::specs::Forms::has_some_form))]
fn has_some_form(own: &[u8], line: &[u8], forms: &[u8]) -> bool
    ensures { result ≡ has_some_form own.now line.now forms.now }
{
    let (form, rest) = first_field(forms, b'\n');
    if has_form(own, line, form) {
        return true;
    }
    match rest {
        Some(rest) => has_some_form(own, line, rest),
        None => false,
    }
}

/// The text of the first entry that has a form of the line.
pub fn text_among(mut entries: &'static [Entry], line: &[u8]) -> Option<&'static str>
    ensures { option_copied result ≡
        text_among (map (λ entry. (entry.0.now, entry.1.now)) entries.entry.now) line.now }
{
    while let [(forms, text), rest @ ..] = entries {
        if has_some_form(b"", line, forms.as_bytes()) {
            return Some(text);
        }
        entries = rest;
    }
    None
}

/// The bytes behind the first ones, so many.
pub fn behind(bytes: &[u8], count: usize) -> &[u8]
    ensures { result.now ≡ drop count bytes.now }
{
    match bytes.get(count..) {
        Some(rest) => rest,
        None => b"",
    }
}

/// The text of the first entry that has a form of the line, without the first bytes of the form, so
/// many.
pub fn text_behind(mut entries: &'static [Entry], count: usize, line: &[u8]) -> Option<&'static str>
    ensures { option_copied result ≡
        text_among (map (λ entry. (drop count entry.0.now, entry.1.now)) entries.entry.now)
        line.now }
{
    while let [(forms, text), rest @ ..] = entries {
        if has_some_form(b"", line, behind(forms.as_bytes(), count)) {
            return Some(text);
        }
        entries = rest;
    }
    None
}

/// The text of the first entry whose form has this name.
pub fn named_among(mut entries: &'static [Entry], line: &[u8]) -> Option<&'static str>
    ensures { option_copied result ≡
        named_among (map (λ entry. (entry.0.now, entry.1.now)) entries.entry.now) line.now }
{
    while let [(form, text), rest @ ..] = entries {
        if has_name(b"", line, form.as_bytes()) {
            return Some(text);
        }
        entries = rest;
    }
    None
}

/// The text of the first row in whose word the line has one of these forms.
pub fn row_among<T>(
    mut rows: &'static [(T, &'static str, &'static str)],
    forms: &[u8],
    line: &[u8],
) -> Option<&'static str>
    ensures { option_copied result ≡ row_among forms.now
        (map (λ row. (row.1.now, row.2.now)) rows.entry.now) line.now }
{
    while let [(_, word, text), rest @ ..] = rows {
        if has_some_form(word.as_bytes(), line, forms) {
            return Some(text);
        }
        rows = rest;
    }
    None
}

/// The text of the first row that has a form of the line, by its word, its forms and its text.
pub fn formed_among(
    mut rows: &'static [(&'static str, &'static str, &'static str)],
    line: &[u8],
) -> Option<&'static str>
    ensures { option_copied result ≡ formed_among
        (map (λ row. formed_row row.0.now row.1.now row.2.now) rows.entry.now) line.now }
{
    while let [(word, forms, text), rest @ ..] = rows {
        if has_some_form(word.as_bytes(), line, forms.as_bytes()) {
            return Some(text);
        }
        rows = rest;
    }
    None
}

/// The text of the first row whose form has this name, by its word, its form and its text.
pub fn named_row(
    mut rows: &'static [(&'static str, &'static str, &'static str)],
    line: &[u8],
) -> Option<&'static str>
    ensures { option_copied result ≡ named_row
        (map (λ row. formed_row row.0.now row.1.now row.2.now) rows.entry.now) line.now }
{
    while let [(word, form, text), rest @ ..] = rows {
        if has_name(word.as_bytes(), line, form.as_bytes()) {
            return Some(text);
        }
        rows = rest;
    }
    None
}

/// The text of the first key that has a form of the line.
pub fn key_among(mut keys: &'static [Key], line: &[u8]) -> Option<&'static str>
    ensures { option_copied result ≡
        text_among (map (λ key. (key.3.now, key.4.now)) keys.entry.now) line.now }
{
    while let [(_, _, _, forms, text), rest @ ..] = keys {
        if has_some_form(b"", line, forms.as_bytes()) {
            return Some(text);
        }
        keys = rest;
    }
    None
}
