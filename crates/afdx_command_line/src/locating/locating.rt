//! Where in a configuration the table and the key of a fault stand.

use crate::locating::searching::{Step, line_with};
use afdx_config::{
    CASCADE_KEYS, Key, LINK_KEYS, NEIGHBOUR_KEYS, PORT_KEYS, SWITCH_KEYS, SYSTEM_KEYS, TOP_KEYS,
};
use std::alloc::{AllocError, Global};
use std::fmt::Display;
use toml::{Table, Value};

/// The place that a fault's line names: the number of the switch, or 0 where it names none; the
/// part, the number of its table, which is 0 for the top, and that of the key.
#[derive(Clone, Copy)]
struct FaultPlace<'a> {
    switch: usize,
    part: &'a str,
    index: usize,
    number: usize,
}

/// The words of a place: of its numbers as they stand there, "0" where no switch is named.
#[derive(Clone, Copy)]
struct Words<'a> {
    switch: &'a str,
    part: &'a str,
    index: &'a str,
    number: &'a str,
}

/// The words of the place of a fault's line, or None where it has none.
fn words_of(fault: &str) -> Option<Words<'_>> {
    let (_, place) = fault.strip_prefix("config ")?.split_once(' ')?;
    let (switch, place) = match place.strip_prefix("switch ") {
        Some(place) => place.split_once(' ')?,
        None => ("0", place),
    };
    let (part, place) = place.split_once(' ')?;
    let (index, number) = place.split_once(" key ")?;
    Some(Words {
        switch,
        part,
        index,
        number,
    })
}

/// The place of a fault's line, or None where it has none.
fn place_of(fault: &str) -> Option<FaultPlace<'_>> {
    let words = words_of(fault)?;
    Some(FaultPlace {
        switch: words.switch.parse::<usize>().ok()?,
        part: words.part,
        index: words.index.parse::<usize>().ok()?,
        number: words.number.parse::<usize>().ok()?,
    })
}

/// Whether the configuration describes several switches, by the keys of its top.
pub(crate) fn has_switches(tree: &Table) -> bool {
    tree.contains_key("switch") && !tree.contains_key("profile")
}

/// The keys of the part, and the number of the first one.
fn keys_at(tree: &Table, place: FaultPlace<'_>) -> (&'static [Key], usize) {
    match place.part {
        "system" => (&SYSTEM_KEYS, 1),
        "link" => (&LINK_KEYS, 1),
        "port" => (&PORT_KEYS, 1),
        "neighbour" => (&NEIGHBOUR_KEYS, 1),
        _ if place.switch > 0 => (&SWITCH_KEYS, 1),
        _ if has_switches(tree) => (&CASCADE_KEYS, 6),
        _ => (&TOP_KEYS, 1),
    }
}

/// The name of the key in its table: of the first key that isn't known, where its number is 0.
fn name_at<'a>(tree: &Table, place: FaultPlace<'_>, row: &'a Table) -> Option<&'a str> {
    let (keys, first) = keys_at(tree, place);
    if place.number == 0 {
        let is_unknown = |name: &&String| keys.iter().all(|key| key.0 != name.as_str());
        return Some(row.keys().find(is_unknown)?.as_str());
    }
    Some(keys.get(place.number.checked_sub(first)?)?.0)
}

/// A table that a fault's line names: the key of its array, its number from 1, and its keys.
#[derive(Clone, Copy)]
struct Named<'a> {
    array: &'a str,
    number: usize,
    row: &'a Table,
}

/// The tables that a fault's line names, each in the one before it: a switch, and one of a part.
fn tables_at<'a>(alloc: Global, tree: &'a Table, place: FaultPlace<'a>) -> Option<Vec<Named<'a>>> {
    let mut tables = Vec::new(alloc);
    let mut row = tree;
    for (array, number) in [("switch", place.switch), (place.part, place.index)] {
        if let Some(before) = number.checked_sub(1) {
            row = row.get(array)?.get(before)?.as_table()?;
            tables.push(Named { array, number, row }).ok()?;
        }
    }
    Some(tables)
}

/// The keys by which a person knows a table.
fn marks_of(array: &str) -> &'static [&'static str] {
    match array {
        "switch" => &["name"],
        "system" => &["name", "id"],
        "link" => &["vl"],
        "port" => &["system", "link", "udp"],
        "neighbour" => &["name", "port"],
        _ => &[],
    }
}

/// Whether a text has at most 40 bytes, and a terminal can show it.
fn is_shown(text: &str) -> bool {
    !text.is_empty() && text.len() <= 40 && text.bytes().all(|byte| byte.is_ascii_graphic())
}

/// Puts a key of a table, and its value.
fn put_mark<D: Display>(
    text: &mut String,
    before: &str,
    mark: &str,
    value: &D,
) -> Result<(), AllocError> {
    write!(text, "{before}{mark} {value}")
}

/// Puts a table, and the values by which a person knows it.
fn put_table(text: &mut String, table: &Named<'_>) -> Result<(), AllocError> {
    write!(text, "{} {}", table.array, table.number)?;
    let mut before = " (";
    for mark in marks_of(table.array) {
        match table.row.get(*mark) {
            Some(Value::Integer(value)) => put_mark(text, before, mark, value)?,
            Some(Value::String(value)) if is_shown(value) => put_mark(text, before, mark, value)?,
            _ => continue,
        }
        before = ", ";
    }
    if before == ", " {
        text.push(')')?;
    }
    Ok(())
}

/// Puts the tables, the last one first.
fn put_tables(text: &mut String, tables: &[Named<'_>]) -> Result<(), AllocError> {
    for (place, table) in tables.iter().rev().enumerate() {
        if place > 0 {
            text.push_str(" of ")?;
        }
        put_table(text, table)?;
    }
    Ok(())
}

/// Puts what a key is, if that is short.
fn put_value(text: &mut String, value: &Value) -> Result<(), AllocError> {
    match value {
        Value::Integer(value) => write!(text, " is {value}"),
        Value::Boolean(value) => write!(text, " is {value}"),
        Value::String(value) if value.is_empty() || is_shown(value) => {
            write!(text, " is '{value}'")
        }
        _ => Ok(()),
    }
}

/// Puts a key with its table.
fn put_key(text: &mut String, name: &str, tables: &[Named<'_>]) -> Result<(), AllocError> {
    text.push_str(if is_shown(name) { name } else { "the key" })?;
    if !tables.is_empty() {
        text.push_str(" of ")?;
        put_tables(text, tables)?;
    }
    Ok(())
}

/// Puts the key with its table and its value, which is left out where the key isn't known; or the
/// table, which lacks the key.
fn put_found(
    text: &mut String,
    name: &str,
    value: Option<&Value>,
    is_known: bool,
    tables: &[Named<'_>],
) -> Result<(), AllocError> {
    match value {
        None => {
            put_tables(text, tables)?;
            write!(text, ", without {name}")?;
        }
        Some(value) => {
            put_key(text, name, tables)?;
            if is_known {
                put_value(text, value)?;
            }
        }
    }
    text.push_str(".\n")
}

/// The line of the configuration in which the key stands that a fault's line names, or its table;
/// None where the fault has no place, or there is no memory.
pub fn place_in(alloc: Global, fault: &str, config: &[u8]) -> Option<String> {
    let place = place_of(fault)?;
    let config = std::str::from_utf8(config).ok()?;
    let tree = toml::table_from_str(alloc, config).ok()?;
    let tables = tables_at(alloc, &tree, place)?;
    let row = tables.last().map_or(&tree, |table| table.row);
    let name = name_at(&tree, place, row)?;
    let value = row.get(name);
    let mut steps = Vec::new(alloc);
    for table in tables.iter() {
        steps.push(Step::to(table.array, table.number)).ok()?;
    }
    let line = line_with(alloc, config, steps, value.is_some().then_some(name))?;
    let mut text = String::new(alloc);
    write!(text, "Line {line} of CONFIG: ").ok()?;
    put_found(&mut text, name, value, place.number > 0, tables.as_slice()).ok()?;
    Some(text)
}
