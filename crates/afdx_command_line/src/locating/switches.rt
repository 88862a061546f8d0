//! The switches of a configuration, and places that it hasn't.

use crate::locating::locating::has_switches;
use std::alloc::Global;
use toml::{Table, Value};

/// The switches of a configuration that describes several on a side.
#[derive(Drop)]
pub struct FoundSwitches {
    tree: Table,
}

/// The tables of an array.
fn rows_at<'a>(table: &'a Table, array: &str) -> &'a [Value] {
    match table.get(array) {
        Some(Value::Array(rows)) => rows.as_slice(),
        _ => &[],
    }
}

/// Whether a table has this name.
fn has_name(row: &Value, name: &str) -> bool {
    row.get("name").and_then(Value::as_str) == Some(name)
}

/// Whether a cable is at this port of a switch.
fn has_cable(row: &Value, port: &str) -> bool {
    let (Value::Table(table), Ok(port)) = (row, port.parse::<i64>()) else {
        return false;
    };
    let is_there = |neighbour: &Value| neighbour.get("port").and_then(Value::as_integer)
        == Some(port);
    rows_at(table, "neighbour").iter().any(is_there)
}

impl FoundSwitches {
    /// Those of a configuration, of which there are none where it isn't TOML.
    pub fn of(alloc: Global, config: &[u8]) -> FoundSwitches {
        let tree = match toml::table_from_slice(alloc, config) {
            Ok(tree) => tree,
            Err(_) => Table::new(alloc),
        };
        FoundSwitches { tree }
    }

    /// Whether there are several on a side.
    pub fn are_several(&self) -> bool {
        has_switches(&self.tree)
    }

    /// Whether one has this name.
    pub fn has(&self, name: &str) -> bool {
        rows_at(&self.tree, "switch")
            .iter()
            .any(|row| has_name(row, name))
    }

    /// Why the place of a word `K=PLACE` of `--interface` isn't one of theirs.
    fn why_absent(&self, word: &str) -> Option<&'static str> {
        let (_, place) = word.split_once('=')?;
        let (site, port) = match place.split_once(':') {
            Some((site, port)) => (site, Some(port)),
            None => (place, None),
        };
        let Some((_, name)) = site.split_once(' ') else {
            return match port {
                Some(_) if self.are_several() => Some("a port needs the name of its switch"),
                _ => None,
            };
        };
        if !self.are_several() {
            return Some("CONFIG describes one switch a side");
        }
        let mut rows = rows_at(&self.tree, "switch").iter();
        match (rows.find(|row| has_name(row, name)), port) {
            (None, _) => Some("CONFIG has no switch of this name"),
            (Some(row), Some(port)) if has_cable(row, port) => Some("a cable is at this port"),
            _ => None,
        }
    }

    /// The first of the words of `--interface` that names a place that isn't one of theirs, and
    /// why; None where there is none.
    pub fn absent_place<'a>(&self, words: &[&'a str]) -> Option<(&'a str, &'static str)> {
        for word in words {
            if let Some(why) = self.why_absent(word) {
                return Some((word, why));
            }
        }
        None
    }
}
