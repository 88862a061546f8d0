//! The reading of links.

ghost use Rattle.std.specs.Prelude.{◌≡◌, ◌≤◌, ◌<◌, ◌∷◌, [], length, None, IfOk, codes, true};
ghost use Rattle.std.specs.Prelude.{nat_eq, IsTrue};
ghost use Rattle.std.specs.List.{list_any, AllByRecursion};
ghost use Rattle.toml.specs.View.{table_view};
ghost use Rattle.afdx_frame.specs.declared.link.Priority.TheVariants.{High, Low};
ghost use Rattle.afdx_frame.specs.declared.link.Policing.TheVariants.{Byte, Frame};
ghost use Rattle.afdx_frame.specs.Lengths.{least_frame, greatest_frame};
ghost use Rattle.afdx_frame.specs.Regulation.{is_bag, longest_gap};
ghost use Rattle.afdx_frame.specs.Regulation.{jitter_from_system, jitter_from_any};
ghost use Rattle.afdx_frame.specs.Ports.{last_port};
ghost use Rattle.afdx_config.specs.Lawful.{IsLinkAmong, AreLinksUpTo, HaveSystemJitter};
ghost use Rattle.afdx_config.specs.Lawful.{IsWithin};
ghost use Rattle.afdx_config.specs.Rows.{AreKnown, link_row, system_places};
ghost use Rattle.afdx_frame.specs.Checks.{or_else};
ghost use Rattle.afdx_config.specs.Fault.{Gives};
ghost use Rattle.afdx_config.specs.Trees.{trees, lent_texts};
ghost use Rattle.afdx_config.specs.Keys as keys;
ghost use Rattle.afdx_config.specs.Reading as spec;

use crate::choices::choice;
use crate::fault::{ConfigFault, Place};
use crate::keys::{At, link_at, one_of, text, texts, whole};
use crate::known_keys::only_link_keys;
use crate::links::LinkTable;
use crate::read_systems::named;
use crate::rows::{KeptKeys, Link, SystemId};
use crate::systems::SystemTable;
use afdx_frame::{GAPS_MS, GREATEST_DELAY_US, Policing, Priority, VlId};
use std::alloc::Global;
use toml::Table;

#[tactic(auto, using(crate::proofs::GatheredLemmas::all_push))]
fn all_named(
    alloc: Global,
    at: Place,
    names: &[&str],
    systems: &SystemTable,
) -> Result<Vec<SystemId>, ConfigFault>
    ensures known { IfOk result (λ v. AreKnown systems.now v.items) }
    ensures count { IfOk result (λ v. length v.items ≡ length names.now) }
    ensures value { Gives (λ v. system_places v.items) result
        (or_else (spec.all_of (spec.system_named systems.now) (lent_texts names.now))
        (ConfigFault.NoSuchSystem at)) }
{
    let mut ids = Vec::new(alloc);
    for name in names {
        match systems.named(name) {
            Some(id) => ids.push(id)?,
            None => return Err(ConfigFault::NoSuchSystem(at)),
        }
    }
    Ok(ids)
}

#[tactic(auto, using(crate::proofs::GatheredLemmas::any_places))]
fn is_among(id: SystemId, ids: &[SystemId]) -> bool
    ensures { result ≡ list_any (λ j. nat_eq j id.0) (system_places ids.now) }
{
    ids.contains(&id)
}

fn has_repeat(ids: &[SystemId]) -> bool
    ensures { result ≡ spec.has_repeat (system_places ids.now) }
{
    match ids {
        [] => false,
        [first, rest @ ..] => is_among(*first, rest) || has_repeat(rest),
    }
}

#[tactic(auto, unfolding(crate::specs::Reading::are_apart))]
fn are_apart(from: SystemId, ids: &[SystemId]) -> bool
    ensures { result ≡ spec.are_apart from.0 (system_places ids.now) }
{
    !is_among(from, ids) && !has_repeat(ids)
}

/// The systems that an array of texts names, all different, and other than `from`.
#[tactic(auto, unfolding(crate::specs::Reading::destinations, crate::specs::Keys::spot_of))]
fn destinations(
    alloc: Global,
    table: &Table,
    at: At,
    systems: &SystemTable,
    from: SystemId,
) -> Result<Vec<SystemId>, ConfigFault>
    ensures known { IfOk result (λ v. AreKnown systems.now v.items) }
    ensures count { IfOk result
        (λ v. IsWithin (keys.spot_of at).least (keys.spot_of at).greatest (length v.items)) }
    ensures apart { IfOk result (λ v. spec.are_apart from.0 (system_places v.items) ≡ true) }
    ensures value { Gives (λ v. system_places v.items) result
        (spec.destinations (keys.spot_of at) systems.now from.0 (table_view table.now)) }
{
    let names = texts(alloc, table, at)?;
    let ids = all_named(alloc, at.place, &names, systems)?;
    if are_apart(from, &ids) {
        Ok(ids)
    } else {
        Err(ConfigFault::Twice(at.place))
    }
}

#[tactic(auto, unfolding(crate::specs::Keys::word, crate::specs::Keys::spot_of))]
fn priority_at(table: &Table, at: At) -> Result<Priority, ConfigFault>
    ensures { Gives (λ p. p) result
        (keys.word (keys.spot_of at) ((codes "high", High) ∷ (codes "low", Low) ∷ [])
        (table_view table.now)) }
{
    match text(table, at)? {
        "high" => Ok(Priority::High),
        "low" => Ok(Priority::Low),
        _ => Err(ConfigFault::OutOfRange(at.place)),
    }
}

#[tactic(auto, unfolding(crate::specs::Keys::word, crate::specs::Keys::spot_of))]
fn policing_at(table: &Table, at: At) -> Result<Policing, ConfigFault>
    ensures { Gives (λ p. p) result
        (keys.word (keys.spot_of at) ((codes "byte", Byte) ∷ (codes "frame", Frame) ∷ [])
        (table_view table.now)) }
{
    match text(table, at)? {
        "byte" => Ok(Policing::Byte),
        "frame" => Ok(Policing::Frame),
        _ => Err(ConfigFault::OutOfRange(at.place)),
    }
}

/// How much a link may send.
#[derive(Clone, Copy)]
struct Traffic {
    bag_ms: u64,
    lmin: u64,
    lmax: u64,
    jitter_us: u64,
}

/// How a link's frames are treated.
#[derive(Clone, Copy)]
struct Treatment {
    priority: Priority,
    policing: Policing,
    latency_us: u64,
    skew_us: u64,
    subs: u64,
}

/// The greatest jitter of a link, in us, by its end and its gap: of the ends the first `own` are
/// systems, and what comes from another switch may be later.
#[tactic(auto, unfolding(crate::specs::Reading::greatest_jitter))]
fn greatest_jitter(own: usize, from: SystemId, bag_ms: u64) -> u64
    requires { bag_ms ≤ longest_gap }
    ensures value { result ≡ spec.greatest_jitter own from.0 bag_ms }
    ensures any { result ≤ jitter_from_any bag_ms }
    ensures sent { from.0 < own → result ≤ jitter_from_system bag_ms }
{
    let from_system = 1000 * bag_ms;
    if (from.0 as usize) < own {
        from_system
    } else {
        from_system + GREATEST_DELAY_US
    }
}

/// How much the link of this number may send, which comes from this end.
#[tactic(auto, unfolding(crate::specs::Reading::traffic_at, crate::specs::Keys::link_keys))]
fn traffic_of(
    table: &Table,
    index: usize,
    own: usize,
    from: SystemId,
    kept: KeptKeys,
) -> Result<Traffic, ConfigFault>
    ensures gap { IfOk result (λ x. IsTrue (is_bag x.bag_ms)) }
    ensures least { IfOk result (λ x. IsWithin least_frame greatest_frame x.lmin) }
    ensures greatest { IfOk result (λ x. IsWithin x.lmin greatest_frame x.lmax) }
    ensures jitter { IfOk result (λ x. IsWithin 0 (jitter_from_any x.bag_ms) x.jitter_us) }
    ensures sent { IfOk result (λ x. from.0 < own → x.jitter_us ≤ jitter_from_system x.bag_ms) }
    ensures value { Gives (λ x. x) result
        (spec.traffic_at kept (spec.greatest_jitter own from.0) index (table_view table.now)) }
{
    let bag_ms = one_of(table, link_at(index, 4), &GAPS_MS)?;
    let lmin = whole(table, link_at(index, 5))?;
    let lmax = whole(table, link_at(index, 6).at_least(lmin))?;
    let greatest = greatest_jitter(own, from, bag_ms);
    let jitter_us = choice(table, link_at(index, 7).at_most(greatest), kept.jitter)?;
    Ok(Traffic {
        bag_ms,
        lmin,
        lmax,
        jitter_us,
    })
}

#[tactic(auto, unfolding(crate::specs::Reading::treatment_at, crate::specs::Keys::link_keys))]
fn treatment_of(table: &Table, index: usize, kept: KeptKeys) -> Result<Treatment, ConfigFault>
    ensures latency { IfOk result (λ x. IsWithin 1 spec.greatest_delay x.latency_us) }
    ensures skew { IfOk result (λ x. IsWithin 1 spec.greatest_delay x.skew_us) }
    ensures subs { IfOk result (λ x. IsWithin 1 4 x.subs) }
    ensures value { Gives (λ x. x) result
        (spec.treatment_at kept index (table_view table.now)) }
{
    let priority = priority_at(table, link_at(index, 8))?;
    let policing = policing_at(table, link_at(index, 9))?;
    let latency_us = choice(table, link_at(index, 10), kept.latency)?;
    let skew_us = choice(table, link_at(index, 11), kept.skew)?;
    let subs = whole(table, link_at(index, 12))?;
    Ok(Treatment {
        priority,
        policing,
        latency_us,
        skew_us,
        subs,
    })
}

/// The identifier.
#[tactic(auto, unfolding(crate::specs::Keys::link_keys))]
fn vl_of(table: &Table, index: usize) -> Result<VlId, ConfigFault>
    ensures value { Gives (λ vl. vl.0) result
        (keys.whole (keys.link_at index 1) (table_view table.now)) }
    ensures within { IfOk result (λ vl. IsWithin 0 65535 vl.0) }
{
    let vl = whole(table, link_at(index, 1))?;
    Ok(VlId(vl as u16))
}

/// The receivers.
#[tactic(auto, unfolding(crate::specs::Keys::link_keys))]
fn to_of(
    alloc: Global,
    table: &Table,
    index: usize,
    systems: &SystemTable,
    from: SystemId,
) -> Result<Vec<SystemId>, ConfigFault>
    ensures known { IfOk result (λ v. AreKnown systems.now v.items) }
    ensures count { IfOk result (λ v. IsWithin 1 last_port (length v.items)) }
    ensures apart { IfOk result (λ v. spec.are_apart from.0 (system_places v.items) ≡ true) }
    ensures value { Gives (λ v. system_places v.items) result
        (spec.destinations (keys.link_at index 3) systems.now from.0 (table_view table.now)) }
{
    destinations(alloc, table, link_at(index, 3), systems, from)
}

/// The link that a table states, after those before it. Of the ends the first `own` are systems.
#[tactic(auto, unfolding(crate::specs::Reading::link_at))]
fn link_of(
    alloc: Global,
    table: &Table,
    own: usize,
    ends: &SystemTable,
    before: &LinkTable,
    kept: KeptKeys,
) -> Result<Link, ConfigFault>
    ensures value { Gives link_row result
        (spec.link_at kept own ends.now before.now (table_view table.now)) }
    ensures fresh { IfOk result (λ l. spec.link_of before.now l.vl.0 ≡ None) }
    ensures lawful { IfOk result (λ l. IsLinkAmong own (length ends.now) (link_row l)) }
{
    let index = before.len() + 1;
    let vl = vl_of(table, index)?;
    if before.of(vl).is_some() {
        return Err(ConfigFault::Twice(link_at(index, 1).place));
    }
    let from = named(table, link_at(index, 2), ends)?;
    let to = to_of(alloc, table, index, ends, from)?;
    let traffic = traffic_of(table, index, own, from, kept)?;
    let treatment = treatment_of(table, index, kept)?;
    only_link_keys(table, index)?;
    Ok(Link {
        vl,
        from,
        to,
        bag_ms: traffic.bag_ms,
        lmin: traffic.lmin,
        lmax: traffic.lmax,
        jitter_us: traffic.jitter_us,
        priority: treatment.priority,
        policing: treatment.policing,
        latency_us: treatment.latency_us,
        skew_us: treatment.skew_us,
        subs: treatment.subs,
    })
}

/// The links that the tables state, in their order. Of the ends the first `own` are systems.
pub(crate) fn links_of(
    alloc: Global,
    tables: &[&Table],
    own: usize,
    ends: &SystemTable,
    kept: KeptKeys,
) -> Result<LinkTable, ConfigFault>
    requires { length tables.now ≤ spec.most_links }
    ensures lawful { IfOk result (AreLinksUpTo jitter_from_any (length ends.now)) }
    ensures sent { IfOk result (HaveSystemJitter own) }
    ensures value { Gives (λ l. l) result
        (spec.each (spec.link_at kept own ends.now) [] (trees tables.now)) }
{
    let mut links = LinkTable::new(alloc);
    for table in tables {
        let link = link_of(alloc, table, own, ends, &links, kept)?;
        links.push(link)?;
    }
    Ok(links)
}
