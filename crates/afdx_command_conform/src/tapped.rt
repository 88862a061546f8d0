//! Which streams are judged, by the ports that were recorded.

ghost use Rattle.std.specs.Prelude.{◌≡◌, ◌<◌, ◌≤◌, IfSome, Some, is_none, length, slice_get, true};
ghost use Rattle.std.specs.Prelude.{if◌then◌else◌};
ghost use Rattle.afdx_config.specs.Rows.{LinkRow, is_to};
ghost use Rattle.afdx_law_bounds.specs.Tables.{port_of};
ghost use Rattle.afdx_police.specs.Arrival.{Arrival};
ghost use Rattle.afdx_command_conform.specs.Frames.{is_stranger, link_to};
ghost use Rattle.afdx_command_conform.specs.Tapped as spec;
ghost use Rattle.afdx_command_conform.specs.Sight.{sight_in};

use crate::outlets::{Outlet, outlet_at, receiver};
use afdx_config::{SystemId, Tables};
use afdx_frame::Side;
use afdx_input_lines::Role;
use afdx_input_sources::Taps;

/// Whether the port at which a link comes in is recorded on a side.
pub(crate) fn is_heard(tables: &Tables, taps: &Taps, side: Side, link: usize) -> bool
    requires link { link < length tables.now.links }
    ensures at { result
        ≡ spec.is_heard_at tables.now (sight_in tables.now taps.now) side (Some link) }
    ensures is { (l : LinkRow) → slice_get tables.now.links link ≡ Some l →
        result ≡ spec.is_heard tables.now (sight_in tables.now taps.now) side l }
{
    let sender = tables.link(link).from;
    taps.is_tapped(Role::Came, side, tables.system(sender).port)
}

/// Whether the port of a system or neighbour is recorded on a side: what leaves there.
pub(crate) fn is_seen(tables: &Tables, taps: &Taps, side: Side, system: SystemId) -> bool
    requires system { system.0 < length tables.now.systems }
    ensures { result ≡ (sight_in tables.now taps.now).is_seen side
        (port_of tables.now system.0) }
{
    taps.is_tapped(Role::Left, side, tables.system(system).port)
}

/// The place of the link that is named, and the system or neighbour at an output port, if the link
/// goes to it and the port at which the link comes in is recorded on the side.
pub(crate) fn heard_outlet(
    tables: &Tables,
    taps: &Taps,
    side: Side,
    named: Option<usize>,
    port: u8,
) -> Option<(usize, SystemId)>
    requires { IfSome named (λ link. link < length tables.now.links) }
    ensures link { IfSome result (λ to. (named ≡ Some to.0) × (to.0 < length tables.now.links)) }
    ensures system { IfSome result (λ to. to.1.0 < length tables.now.systems) }
    ensures to { (l : LinkRow) → IfSome result (λ to. slice_get tables.now.links to.0 ≡ Some l →
        (link_to tables.now to.0 port ≡ Some l) × (port_of tables.now to.1.0 ≡ port)
        × (is_to to.1.0 l ≡ true)) }
    ensures strange { (x : Arrival) → x.side ≡ side → x.port ≡ port →
        named ≡ spec.place_named tables.now x.bytes →
        is_none result ≡ is_stranger tables.now (sight_in tables.now taps.now) x }
{
    match outlet_at(tables, named, port) {
        Some((link, system)) => {
            if is_heard(tables, taps, side, link) {
                Some((link, system))
            } else {
                None
            }
        }
        None => None,
    }
}

/// Whether the stream at an outlet is judged: the port at which its link comes in and the one at
/// which it leaves are recorded.
pub(crate) fn is_judged(tables: &Tables, taps: &Taps, outlet: Outlet) -> bool
    requires link { outlet.link < length tables.now.links }
    requires system { outlet.system.0 < length tables.now.systems }
    ensures { (l : LinkRow) → slice_get tables.now.links outlet.link ≡ Some l →
        result ≡ spec.is_judged tables.now (sight_in tables.now taps.now) outlet.side l
        (port_of tables.now outlet.system.0) }
{
    is_heard(tables, taps, outlet.side, outlet.link)
        && is_seen(tables, taps, outlet.side, outlet.system)
}

/// 1 if it isn't, else 0.
fn unseen_at(tables: &Tables, taps: &Taps, outlet: Outlet) -> u64
    requires link { outlet.link < length tables.now.links }
    requires system { outlet.system.0 < length tables.now.systems }
    ensures count { (l : LinkRow) → slice_get tables.now.links outlet.link ≡ Some l →
        result ≡ (if spec.is_judged tables.now (sight_in tables.now taps.now) outlet.side l
        (port_of tables.now outlet.system.0) then 0 else 1) }
    ensures few { result ≤ 1 }
{
    if is_judged(tables, taps, outlet) {
        0
    } else {
        1
    }
}

/// How many streams of a link aren't judged on a side.
fn unseen_to(tables: &Tables, taps: &Taps, side: Side, link: usize) -> u64
    requires link { link < length tables.now.links }
    ensures count { (l : LinkRow) → slice_get tables.now.links link ≡ Some l →
        result ≡ spec.unseen_to tables.now (sight_in tables.now taps.now) side l l.to }
    ensures few { result ≤ 24 }
{
    let mut count: u64 = 0;
    for rank in 0..tables.link(link).to.len() {
        let system = receiver(tables, link, rank);
        let outlet = Outlet { side, link, system };
        count += unseen_at(tables, taps, outlet);
    }
    count
}

/// How many aren't of any link.
fn unseen_on(tables: &Tables, taps: &Taps, side: Side) -> u64
    ensures count { result
        ≡ spec.unseen_among tables.now (sight_in tables.now taps.now) side tables.now.links }
    ensures few { result ≤ 98_304 }
{
    let mut count: u64 = 0;
    for link in 0..tables.link_count() {
        count += unseen_to(tables, taps, side, link);
    }
    count
}

/// How many streams aren't judged, on both sides.
pub fn unseen_of(tables: &Tables, taps: &Taps) -> u64
    ensures { result ≡ spec.unseen_of tables.now (sight_in tables.now taps.now) }
{
    unseen_on(tables, taps, Side::A) + unseen_on(tables, taps, Side::B)
}
