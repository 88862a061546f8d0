//! The reading of one key of a table.

ghost use Rattle.std.specs.Prelude.{◌≡◌, ◌≢◌, ◌≤◌, IfOk, IfErr, length, option_map};
ghost use Rattle.toml.specs.Data.{get_member, as_table, as_array, as_str};
ghost use Rattle.toml.specs.View.{view, table_view, items_view};
ghost use Rattle.afdx_config.specs.Lawful.{IsWithin, IsOneOf};
ghost use Rattle.afdx_frame.specs.Checks.{or_else};
ghost use Rattle.afdx_config.specs.Fault.{Gives};
ghost use Rattle.afdx_config.specs.Format.{last_link_key};
ghost use Rattle.afdx_config.specs.Trees.{trees, lent_texts};
ghost use Rattle.afdx_config.specs.Keys as spec;

use crate::cascade_keys::{CASCADE_KEYS, NEIGHBOUR_KEYS, SWITCH_KEYS};
use crate::fault::{ConfigFault, Part, Place};
use crate::key_tables::{Key, LINK_KEYS, PORT_KEYS, SYSTEM_KEYS, TOP_KEYS};
use std::alloc::Global;
use toml::{Table, Value};

pub(crate) fn place(part: Part, index: usize, key: u8) -> Place
    ensures { result ≡ spec.place part index key }
{
    Place { part, index, key }
}

/// A key that is looked at in a table, with the place of its faults.
#[derive(Clone, Copy)]
pub(crate) struct At {
    pub(crate) place: Place,
    pub(crate) name: &'static str,
    pub(crate) least: u64,
    pub(crate) greatest: u64,
}

/// The key of this number, in the table of this number of its part.
#[tactic(auto, unfolding(crate::specs::Keys::spot_of))]
fn key_of(part: Part, keys: &'static [Key], index: usize, number: u8) -> At
    requires { (1 ≤ number) × (number ≤ length keys.now) }
    ensures spot { spec.spot_of result ≡ spec.spot part (spec.key_rows keys.now) index number }
    ensures place { result.place ≡ spec.place part index number }
{
    let (name, least, greatest, _, _) = keys[usize::from(number) - 1];
    At {
        place: place(part, index, number),
        name,
        least,
        greatest,
    }
}

/// The key of the top of this number.
#[tactic(auto, unfolding(crate::specs::Keys::top_keys))]
pub(crate) fn top_at(number: u8) -> At
    requires { (1 ≤ number) × (number ≤ 5) }
    ensures spot { spec.spot_of result ≡ spec.top_at number }
    ensures place { result.place ≡ spec.place Part.Top 0 number }
{
    key_of(Part::Top, &TOP_KEYS, 0, number)
}

/// The key of this number, of the system of this number.
#[tactic(auto, unfolding(crate::specs::Keys::system_keys))]
pub(crate) fn system_at(index: usize, number: u8) -> At
    requires { (1 ≤ number) × (number ≤ 5) }
    ensures spot { spec.spot_of result ≡ spec.system_at index number }
    ensures place { result.place ≡ spec.place Part.System index number }
{
    key_of(Part::System, &SYSTEM_KEYS, index, number)
}

/// The key of this number, of the link of this number.
#[tactic(auto, unfolding(crate::specs::Keys::link_keys))]
pub(crate) fn link_at(index: usize, number: u8) -> At
    requires { (1 ≤ number) × (number ≤ last_link_key) }
    ensures spot { spec.spot_of result ≡ spec.link_at index number }
    ensures place { result.place ≡ spec.place Part.Link index number }
{
    key_of(Part::Link, &LINK_KEYS, index, number)
}

/// The key of this number, of the port entry of this number.
#[tactic(auto, unfolding(crate::specs::Keys::port_keys))]
pub(crate) fn port_at(index: usize, number: u8) -> At
    requires { (1 ≤ number) × (number ≤ 5) }
    ensures spot { spec.spot_of result ≡ spec.port_at index number }
    ensures place { result.place ≡ spec.place Part.Port index number }
{
    key_of(Part::Port, &PORT_KEYS, index, number)
}

/// The one key at the top of a file that describes several switches.
#[tactic(auto, unfolding(crate::specs::Keys::cascade_keys, crate::specs::Keys::spot_of))]
pub(crate) fn switches_at() -> At
    ensures spot { spec.spot_of result ≡ spec.switches_at }
    ensures place { result.place ≡ spec.place Part.Top 0 6 }
{
    At {
        place: place(Part::Top, 0, 6),
        ..key_of(Part::Top, &CASCADE_KEYS, 0, 1)
    }
}

/// The key of this number, of the top of a switch.
#[tactic(auto, unfolding(crate::specs::Keys::switch_keys))]
pub(crate) fn switch_at(number: u8) -> At
    requires { (1 ≤ number) × (number ≤ 7) }
    ensures spot { spec.spot_of result ≡ spec.switch_at number }
    ensures place { result.place ≡ spec.place Part.Top 0 number }
{
    key_of(Part::Top, &SWITCH_KEYS, 0, number)
}

/// The key of this number, of the neighbour of this number.
#[tactic(auto, unfolding(crate::specs::Keys::neighbour_keys))]
pub(crate) fn neighbour_at(index: usize, number: u8) -> At
    requires { (1 ≤ number) × (number ≤ 3) }
    ensures spot { spec.spot_of result ≡ spec.neighbour_at index number }
    ensures place { result.place ≡ spec.place Part.Neighbour index number }
{
    key_of(Part::Neighbour, &NEIGHBOUR_KEYS, index, number)
}

impl At {
    ghost use Rattle.std.specs.Prelude.{◌≡◌};
    ghost use Rattle.afdx_config.specs.Keys.{spot_of};
    ghost use Rattle.afdx_config.specs.Keys as spec;

    /// The key with another least value.
    #[tactic(auto, unfolding(crate::specs::Keys::spot_of))]
    pub(crate) fn at_least(self, least: u64) -> At
        ensures { spot_of result ≡ spec.at_least least (spot_of self) }
    {
        At { least, ..self }
    }

    /// The key with another greatest value.
    #[tactic(auto, unfolding(crate::specs::Keys::spot_of))]
    pub(crate) fn at_most(self, greatest: u64) -> At
        ensures { spot_of result ≡ spec.at_most greatest (spot_of self) }
    {
        At { greatest, ..self }
    }
}

pub(crate) fn member<'a>(table: &'a Table, key: &str) -> Option<&'a Value>
    ensures { option_map (λ v. view v.now) result ≡ get_member key.now (table_view table.now) }
{
    table.get(key)
}

/// The value at a key that has to be there.
fn required<'a>(table: &'a Table, at: At) -> Result<&'a Value, ConfigFault>
    ensures value { Gives (λ v. view v.now) result
        (or_else (get_member at.name.now (table_view table.now)) (ConfigFault.Missing at.place)) }
    ensures fault { IfErr result (λ e. e ≢ ConfigFault.Memory) }
{
    match member(table, at.name) {
        Some(value) => Ok(value),
        None => Err(ConfigFault::Missing(at.place)),
    }
}

fn in_range(number: i64, at: Place, low: u64, high: u64) -> Result<u64, ConfigFault>
    ensures value { Gives (λ n. n) result (spec.in_range at low high number) }
    ensures within { IfOk result (IsWithin low high) }
    ensures fault { IfErr result (λ e. e ≢ ConfigFault.Memory) }
{
    if number < 0 {
        return Err(ConfigFault::OutOfRange(at));
    }
    let number = number as u64;
    if low <= number && number <= high {
        Ok(number)
    } else {
        Err(ConfigFault::OutOfRange(at))
    }
}

/// A whole number within the key's range.
#[tactic(auto, unfolding(crate::specs::Keys::whole, crate::specs::Keys::spot_of))]
pub(crate) fn whole(table: &Table, at: At) -> Result<u64, ConfigFault>
    ensures value { Gives (λ n. n) result (spec.whole (spec.spot_of at) (table_view table.now)) }
    ensures within { IfOk result (IsWithin (spec.spot_of at).least (spec.spot_of at).greatest) }
    ensures fault { IfErr result (λ e. e ≢ ConfigFault.Memory) }
{
    let value = required(table, at)?;
    let Some(number) = value.as_integer() else {
        return Err(ConfigFault::WrongKind(at.place));
    };
    in_range(number, at.place, at.least, at.greatest)
}

/// One of some whole numbers in the key's range.
#[tactic(auto, unfolding(crate::specs::Keys::one_of, crate::specs::Keys::spot_of))]
pub(crate) fn one_of(table: &Table, at: At, values: &[u64]) -> Result<u64, ConfigFault>
    ensures value { Gives (λ n. n) result
        (spec.one_of (spec.spot_of at) values.now (table_view table.now)) }
    ensures among { IfOk result (IsOneOf values.now) }
{
    let number = whole(table, at)?;
    if values.contains(&number) {
        Ok(number)
    } else {
        Err(ConfigFault::OutOfRange(at.place))
    }
}

#[tactic(auto, unfolding(crate::specs::Keys::text, crate::specs::Keys::spot_of))]
pub(crate) fn text<'a>(table: &'a Table, at: At) -> Result<&'a str, ConfigFault>
    ensures { Gives (λ s. s.now) result (spec.text (spec.spot_of at) (table_view table.now)) }
{
    let value = required(table, at)?;
    match value.as_str() {
        Some(word) => Ok(word),
        None => Err(ConfigFault::WrongKind(at.place)),
    }
}

fn tables_in<'a>(
    alloc: Global,
    items: &'a [Value],
    at: Place,
) -> Result<Vec<&'a Table>, ConfigFault>
    ensures { Gives (λ v. trees v.items) result
        (or_else (spec.all_as as_table (items_view items.now)) (ConfigFault.WrongKind at)) }
{
    let mut rows = Vec::new(alloc);
    for item in items {
        match item.as_table() {
            Some(table) => rows.push(table)?,
            None => return Err(ConfigFault::WrongKind(at)),
        }
    }
    Ok(rows)
}

fn array<'a>(value: &'a Value, at: Place) -> Result<&'a [Value], ConfigFault>
    ensures { Gives (λ items. items_view items.now) result
        (or_else (as_array (view value.now)) (ConfigFault.WrongKind at)) }
{
    match value.as_array() {
        Some(items) => Ok(items.as_slice()),
        None => Err(ConfigFault::WrongKind(at)),
    }
}

fn tables_or_none<'a>(
    alloc: Global,
    table: &'a Table,
    at: At,
) -> Result<Vec<&'a Table>, ConfigFault>
    ensures { Gives (λ v. trees v.items) result
        (spec.tables_or_none at.place (get_member at.name.now (table_view table.now))) }
{
    match member(table, at.name) {
        None => Ok(Vec::new(alloc)),
        Some(value) => {
            let items = array(value, at.place)?;
            tables_in(alloc, items, at.place)
        }
    }
}

/// An array of at most as many tables as the key's range says. One that is absent is empty.
#[tactic(auto, unfolding(crate::specs::Keys::tables, crate::specs::Keys::spot_of))]
pub(crate) fn tables<'a>(
    alloc: Global,
    table: &'a Table,
    at: At,
) -> Result<Vec<&'a Table>, ConfigFault>
    ensures value { Gives (λ v. trees v.items) result
        (spec.tables (spec.spot_of at) (table_view table.now)) }
    ensures within { IfOk result (λ v. length v.items ≤ (spec.spot_of at).greatest) }
{
    let rows = tables_or_none(alloc, table, at)?;
    if rows.len() as u64 <= at.greatest {
        Ok(rows)
    } else {
        Err(ConfigFault::OutOfRange(at.place))
    }
}

fn texts_in<'a>(alloc: Global, items: &'a [Value], at: Place) -> Result<Vec<&'a str>, ConfigFault>
    ensures { Gives (λ v. lent_texts v.items) result
        (or_else (spec.all_as as_str (items_view items.now)) (ConfigFault.WrongKind at)) }
{
    let mut words = Vec::new(alloc);
    for item in items {
        match item.as_str() {
            Some(word) => words.push(word)?,
            None => return Err(ConfigFault::WrongKind(at)),
        }
    }
    Ok(words)
}

/// An array of texts, as many as the key's range says.
#[tactic(auto, unfolding(crate::specs::Keys::texts, crate::specs::Keys::spot_of))]
pub(crate) fn texts<'a>(
    alloc: Global,
    table: &'a Table,
    at: At,
) -> Result<Vec<&'a str>, ConfigFault>
    ensures value { Gives (λ v. lent_texts v.items) result
        (spec.texts (spec.spot_of at) (table_view table.now)) }
    ensures within { IfOk result
        (λ v. IsWithin (spec.spot_of at).least (spec.spot_of at).greatest (length v.items)) }
{
    let value = required(table, at)?;
    let items = array(value, at.place)?;
    let words = texts_in(alloc, items, at.place)?;
    let count = words.len() as u64;
    if at.least <= count && count <= at.greatest {
        Ok(words)
    } else {
        Err(ConfigFault::OutOfRange(at.place))
    }
}
