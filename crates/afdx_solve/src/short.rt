//! Links that leave the copies of their frames less than is asked for.

ghost use Rattle.std.specs.Prelude.{◌≡◌, ◌<◌, length, Some, IfSome};
ghost use Rattle.afdx_config.specs.AtSwitch.{tables_at};
ghost use Rattle.afdx_config.specs.Rows.{Rows};
ghost use Rattle.afdx_solve.specs.Short as spec;

use afdx_admit::{link_apart, row_apart_at};
use afdx_config::{SwitchId, Switches, Tables};
use afdx_frame::VlId;

/// A link, and how far apart the copies of its frames may be sent, in ns.
#[derive(Clone, Copy, Debug, PartialEq, Eq)]
pub struct Short {
    pub vl: VlId,
    pub ns: u64,
}

/// A row of a switch, and how far apart the copies may be sent that go to systems there.
#[derive(Clone, Copy, Debug, PartialEq, Eq)]
pub struct ShortAt {
    pub switch: SwitchId,
    pub short: Short,
}

/// A link that leaves so much, if that is less than is asked for.
fn if_less(apart: u64, vl: VlId, ns: u64) -> Option<Short>
    ensures { result ≡ spec.if_less apart vl.0 ns }
{
    if ns < apart {
        Some(Short { vl, ns })
    } else {
        None
    }
}

/// The link at a place, if it leaves less.
#[tactic(auto, unfolding(crate::specs::Short::short_link))]
fn short_link(apart: u64, tables: &Tables, index: usize) -> Option<Short>
    requires { index < length tables.now.links }
    ensures { result ≡ spec.short_link apart tables.now index }
{
    let link = tables.link(index);
    let ns = link_apart(tables, link)?;
    if_less(apart, link.vl, ns)
}

/// The first link that leaves the copies of its frames less than this, in ns, if one does.
pub fn first_short(apart: u64, tables: &Tables) -> Option<Short>
    ensures { result ≡ spec.first_short apart tables.now }
{
    let count = tables.link_count();
    let mut first = None;
    for i in 0..count {
        let here = short_link(apart, tables, i);
        first = first.or(here);
    }
    first
}

/// The row at a place of a switch, if it leaves less.
#[tactic(auto, unfolding(crate::specs::Short::short_place))]
fn short_place(apart: u64, switches: &Switches, switch: SwitchId, index: usize) -> Option<Short>
    requires switch { switch.0 < length switches.now }
    requires within { (t : Rows) → tables_at switches.now switch.0 ≡ Some t →
        index < length t.links }
    ensures { (t : Rows) → tables_at switches.now switch.0 ≡ Some t →
        result ≡ spec.short_place apart switches.now switch.0 t index }
{
    let tables = switches.tables(switch);
    let link = tables.link(index);
    let ns = row_apart_at(switches, switch, link)?;
    if_less(apart, link.vl, ns)
}

/// The first row of a switch that leaves less.
fn first_row(apart: u64, switches: &Switches, switch: SwitchId) -> Option<Short>
    requires { switch.0 < length switches.now }
    ensures { (t : Rows) → tables_at switches.now switch.0 ≡ Some t → result
        ≡ spec.first_of (spec.short_place apart switches.now switch.0 t) (length t.links) }
{
    let count = switches.tables(switch).link_count();
    let mut first = None;
    for i in 0..count {
        let here = short_place(apart, switches, switch, i);
        first = first.or(here);
    }
    first
}

/// The same, with the switch.
#[tactic(auto, unfolding(crate::specs::Short::short_switch))]
fn short_switch(apart: u64, switches: &Switches, switch: SwitchId) -> Option<ShortAt>
    requires { switch.0 < length switches.now }
    ensures { result ≡ spec.short_switch apart switches.now switch.0 }
{
    let short = first_row(apart, switches, switch)?;
    Some(ShortAt { switch, short })
}

/// The same of several switches on a side: the first row that leaves copies to systems of its
/// switch less than this.
pub fn first_short_at(apart: u64, switches: &Switches) -> Option<ShortAt>
    ensures first { result ≡ spec.first_short_at apart switches.now }
    ensures known { IfSome result (λ found. found.switch.0 < length switches.now) }
{
    let count = switches.id_count();
    let mut first = None;
    for k in 0..count {
        let here = short_switch(apart, switches, SwitchId(k));
        first = first.or(here);
    }
    first
}
