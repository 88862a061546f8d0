//! Lines that are explained, and lines that aren't. Each form of a line is tried at the program
//! (tests/program/explain.sh, explained_formats.py).

use afdx_explain::{kind_of, meaning_of};
use afdx_test_samples::{all_right, equal};
use std::test::Fail;

fn says(line: &str, beginning: &str) -> bool {
    meaning_of(line).is_some_and(|text| text.starts_with(beginning))
}

/// The first of the lines whose text doesn't begin so.
fn otherwise_explained<'a>(rows: &[(&'a str, &str)]) -> Option<&'a str> {
    for (line, beginning) in rows {
        if !says(line, beginning) {
            return Some(line);
        }
    }
    None
}

#[test]
fn lines_are_explained() -> Result<(), Fail> {
    let rows = [
        (
            "config Missing link 1 key 7",
            "Key 7 of a link is jitter_us:",
        ),
        ("V 7 A drop over-rate", "over-rate:"),
        ("R 6720 B aft 2 0300", "R time B port HEX:"),
    ];
    all_right(otherwise_explained(&rows))
}

#[test]
fn of_some_lines_the_kind_is_known() -> Result<(), Fail> {
    let kinds = [
        kind_of("V 1 A fwd drop over-rate").is_some(),
        kind_of("stopped 1 A 3").is_some(),
        kind_of("over-rate").is_some(),
    ];
    equal(kinds, [true, false, false])?;
    equal(meaning_of("V 1 C accept").is_none(), true)
}
