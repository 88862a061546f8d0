//! A search through a text that is TOML: for a key, or for a table of an array of tables.

use std::alloc::Global;
use toml_parser::text::{first, skip_blank, skip_ws};
use toml_parser::{ParseError, dotted_key, quoted, starts_string, unquoted};

/// A table that leads to what is searched for: one of an array of tables.
#[derive(Clone, Copy)]
pub(crate) struct Step<'a> {
    /// The array's key.
    array: &'a str,
    /// How many of its tables are still to begin up to this one, and with it.
    left: usize,
    /// It was the last of them to begin.
    is_open: bool,
}

impl<'a> Step<'a> {
    /// The table of this number, from 1.
    pub(crate) fn to(array: &'a str, number: usize) -> Step<'a> {
        Step {
            array,
            left: number,
            is_open: false,
        }
    }
}

/// A search for a key, or for its table.
#[derive(Drop)]
struct Search<'a> {
    alloc: Global,
    /// The tables that lead to the key, each in the one before it: none if it is one of the top.
    steps: Vec<Step<'a>>,
    /// The name of the key, or none if the table is searched for.
    key: Option<&'a str>,
    /// How many of the steps lead to the table of the next key, or none if it is another.
    level: Option<usize>,
    /// How many brackets of a value are open.
    depth: usize,
    is_found: bool,
}

impl<'a> Search<'a> {
    /// Whether the next key belongs to the table at the end of all steps.
    fn is_there(&self) -> bool {
        self.level == Some(self.steps.len())
    }

    /// Whether this key of the table has the tables of the next step.
    fn is_next(&self, name: &str) -> bool {
        let next = self.level.and_then(|level| self.steps.get(level));
        next.is_some_and(|step| step.array == name)
    }

    /// A key of the table comes.
    fn meet(&mut self, name: &str) {
        self.is_found |= self.is_there() && self.key == Some(name);
    }

    /// What follows belongs to the table of the next step that began last.
    fn enter(&mut self) {
        self.level = match self.level {
            Some(level) if self.steps.get(level).is_some_and(|step| step.is_open) => {
                Some(level.saturating_add(1))
            }
            _ => None,
        };
    }

    /// A table of the next step begins.
    fn begin_table(&mut self) {
        if let Some(level) = self.level
            && let Some(step) = self.steps.get_mut(level)
        {
            step.is_open = step.left == 1;
            step.left = step.left.saturating_sub(1);
        }
        self.enter();
        self.is_found |= self.is_there() && self.key.is_none();
    }

    /// A table of the next step begins between braces. All of it is skipped if it leads nowhere.
    fn open_brace(&mut self) {
        let level = self.level;
        self.begin_table();
        if self.level.is_none() {
            self.level = level;
            self.depth = 1;
        }
    }

    /// The head of a table of a step, of one that is a key of such a table, or of another.
    fn take_head<'b>(&mut self, text: &'b str) -> Result<&'b str, ParseError> {
        let (key, rest) = dotted_key(self.alloc, skip_ws(text.trim_start_matches('[')))?;
        self.level = Some(0);
        for name in key.path.iter() {
            self.meet(name);
            if !self.is_next(name) {
                self.level = None;
            }
            self.enter();
        }
        self.meet(&key.last);
        if !self.is_next(&key.last) {
            self.level = None;
        }
        self.begin_table();
        Ok(rest.trim_start_matches(']'))
    }

    /// A key, and its value or what opens it.
    fn take_pair<'b>(&mut self, text: &'b str) -> Result<&'b str, ParseError> {
        let (key, rest) = dotted_key(self.alloc, text)?;
        let name = key.path.first().unwrap_or(&key.last).as_str();
        self.meet(name);
        let value = skip_ws(rest.trim_start_matches('='));
        if starts_string(value) {
            return Ok(quoted(self.alloc, value)?.1);
        }
        match value.strip_prefix(['[', '{']) {
            Some(rest) if self.is_next(name) => Ok(rest),
            Some(rest) => {
                self.depth = 1;
                Ok(rest)
            }
            None => Ok(unquoted(self.alloc, value)?.1),
        }
    }

    /// What stands behind the next head, key, text or sign.
    fn take<'b>(&mut self, text: &'b str) -> Result<&'b str, ParseError> {
        match first(text) {
            b'"' | b'\'' if self.depth > 0 => return Ok(quoted(self.alloc, text)?.1),
            b'[' | b'{' if self.depth > 0 => self.depth = self.depth.saturating_add(1),
            b']' | b'}' if self.depth > 0 => self.depth -= 1,
            _ if self.depth > 0 => {}
            b'{' => self.open_brace(),
            b'}' => self.level = self.level.map(|level| level.saturating_sub(1)),
            b',' | b']' => {}
            b'[' => return self.take_head(text),
            _ => return self.take_pair(text),
        }
        let mut rest = text.chars();
        rest.next();
        Ok(rest.as_str())
    }

    /// The number of the line on which it is found.
    fn run(&mut self, text: &str) -> Option<usize> {
        let mut rest = text.trim_start_matches('\u{feff}');
        for _ in 0..text.len() {
            rest = skip_blank(rest, true);
            let place = text.len().saturating_sub(rest.len());
            rest = self.take(rest).ok()?;
            if self.is_found {
                let before = &text.as_bytes()[..place];
                let feeds = before.iter().filter(|byte| **byte == b'\n').count();
                return Some(feeds.saturating_add(1));
            }
        }
        None
    }
}

/// The number of the line, from 1, on which a text that is TOML has this key of the table to which
/// the steps lead, each in the one before it, or without a key on which that table begins. None
/// where there is no such, or no memory.
pub(crate) fn line_with<'a>(
    alloc: Global,
    text: &str,
    steps: Vec<Step<'a>>,
    key: Option<&'a str>,
) -> Option<usize> {
    let mut search = Search {
        alloc,
        steps,
        key,
        level: Some(0),
        depth: 0,
        is_found: false,
    };
    search.run(text)
}
