//! Where the frames of the tables' links leave, and by what they are judged there.

ghost use Rattle.std.specs.Prelude.{◌≡◌, ◌<◌, ◌*◌, [], IfNone, IfSome, None, Some, get_or, option_and_then, length, slice_get, true, ℕ};
ghost use Rattle.afdx_law_bounds.specs.Tables.{port_of, rule_of as rule_in};
ghost use Rattle.afdx_config.specs.Lawful.{IsLawfulSwitch};
ghost use Rattle.afdx_config.specs.Rows.{LinkRow, SystemRow, is_to};
ghost use Rattle.afdx_police.specs.RuleOf.{rule_of};
ghost use Rattle.afdx_conform.specs.Histories.{nothing_judged};
ghost use Rattle.afdx_conform.specs.Standing.{StandsFor, due_of};
ghost use Rattle.afdx_command_conform.specs.Choices.{Choices};
ghost use Rattle.afdx_command_conform.specs.Frames.{link_to, terms_at};
ghost use Rattle.afdx_command_conform.specs.Keys.{key_of};
ghost use Rattle.afdx_command_conform.specs.Ruled.{IsRuled};

use crate::key::Key;
use afdx_config::{SystemId, Tables};
use afdx_conform::{Leeway, Stream};
use afdx_frame::Side;
use afdx_input_sources::Taps;
use afdx_police::LinkRule;
use std::alloc::Global;

/// By what a stream is judged: the tables, which ports were recorded, and how much stamps and
/// clocks may be off.
#[derive(Clone, Copy)]
pub(crate) struct StreamRules<'a> {
    pub(crate) tables: &'a Tables,
    pub(crate) taps: &'a Taps,
    pub(crate) leeway: Leeway,
}

/// Where a link leaves on a side: to a system or neighbour. The link is its place in the tables.
#[derive(Clone, Copy, Debug)]
pub(crate) struct Outlet {
    pub(crate) side: Side,
    pub(crate) link: usize,
    pub(crate) system: SystemId,
}

/// The key of the stream that leaves there.
pub(crate) fn key_at(tables: &Tables, outlet: Outlet) -> Key
    requires link { outlet.link < length tables.now.links }
    requires system { outlet.system.0 < length tables.now.systems }
    ensures lawful { IsLawfulSwitch tables.now }
    ensures key { result ≡ key_of tables.now outlet }
{
    Key {
        side: outlet.side,
        port: tables.system(outlet.system).port,
        link: Some(outlet.link as u16),
    }
}

/// The system or neighbour at this rank among those to which a link goes.
pub(crate) fn receiver(tables: &Tables, link: usize, rank: usize) -> SystemId
    requires link { link < length tables.now.links }
    requires rank { (l : LinkRow) → slice_get tables.now.links link ≡ Some l →
        rank < length l.to }
    ensures known { result.0 < length tables.now.systems }
    ensures is { (l : LinkRow) → slice_get tables.now.links link ≡ Some l →
        result.0 ≡ get_or l.to rank result.0 }
{
    tables.link(link).to[rank]
}

/// The system or neighbour at an output port, if the link goes to it. It tries each to which the
/// link goes.
pub(crate) fn receiver_at(tables: &Tables, link: usize, port: u8) -> Option<SystemId>
    requires { link < length tables.now.links }
    ensures known { IfSome result (λ system. system.0 < length tables.now.systems) }
    ensures to { (l : LinkRow) → slice_get tables.now.links link ≡ Some l → IfSome result (λ system.
        (link_to tables.now link port ≡ Some l) × (port_of tables.now system.0 ≡ port)
        × (is_to system.0 l ≡ true)) }
    ensures none { IfNone result (link_to tables.now link port ≡ None) }
{
    for rank in 0..tables.link(link).to.len() {
        let system = receiver(tables, link, rank);
        if tables.system(system).port == port {
            return Some(system);
        }
    }
    None
}

/// The rule of the link at this place.
pub(crate) fn rule_at(tables: &Tables, place: usize) -> LinkRule
    requires { place < length tables.now.links }
    ensures { (l : LinkRow) → slice_get tables.now.links place ≡ Some l →
        rule_of result ≡ rule_in tables.now l }
{
    let link = tables.link(place);
    let sender = tables.system(link.from);
    let Some(rule) = LinkRule::after_cable(
        link.vl,
        sender.port,
        link.bag_ms,
        link.lmin,
        link.lmax,
        link.jitter_us,
        link.policing,
    ) else {
        // Never: the reading of the tables kept each value in its range.
        unreachable!();
    };
    rule
}

/// A stream of which nothing came, at this outlet.
#[cold]
#[inline(never)]
pub(crate) fn new_stream(alloc: Global, rules: &StreamRules<'_>, outlet: Outlet) -> Stream
    requires link { outlet.link < length rules.now.tables.now.links }
    requires system { outlet.system.0 < length rules.now.tables.now.systems }
    ensures stands { let t = rules.now.tables.now in
        (c : Choices) (until time port : ℕ) (l : LinkRow) →
        slice_get t.links outlet.link ≡ Some l → port_of t outlet.system.0 ≡ port →
        IsRuled rules.now c →
        StandsFor (terms_at t c until l port) [] [] nothing_judged time result }
    ensures due { due_of result ≡ None }
{
    let tables = rules.tables;
    let rule = rule_at(tables, outlet.link);
    let latency_ns = 1000 * tables.link(outlet.link).latency_us;
    let byte_ns = tables.byte_ns(outlet.system);
    Stream::new(alloc, &rule, latency_ns, byte_ns, rules.leeway)
}

/// The place of the link that is named, and the system or neighbour at an output port, if the link
/// goes to it.
pub(crate) fn outlet_at(
    tables: &Tables,
    named: Option<usize>,
    port: u8,
) -> Option<(usize, SystemId)>
    requires { IfSome named (λ link. link < length tables.now.links) }
    ensures link { IfSome result (λ to. (named ≡ Some to.0) × (to.0 < length tables.now.links)) }
    ensures system { IfSome result (λ to. to.1.0 < length tables.now.systems) }
    ensures to { (l : LinkRow) → IfSome result (λ to. slice_get tables.now.links to.0 ≡ Some l →
        (link_to tables.now to.0 port ≡ Some l) × (port_of tables.now to.1.0 ≡ port)
        × (is_to to.1.0 l ≡ true)) }
    ensures none { IfNone result
        (option_and_then (λ place. link_to tables.now place port) named ≡ None) }
{
    let Some(link) = named else {
        return None;
    };
    match receiver_at(tables, link, port) {
        Some(system) => Some((link, system)),
        None => None,
    }
}
