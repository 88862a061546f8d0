//! What the keys of a row need where several switches stand on a side.

ghost use Rattle.std.specs.Prelude.{◌≡◌, ◌<◌, ◌+◌, length, slice_index, min, max, Some};
ghost use Rattle.std.specs.Prelude.{if◌then◌else◌};
ghost use Rattle.std.specs.Option.{unwrap_or};
ghost use Rattle.std.specs.List.{AllByRecursion};
ghost use Rattle.afdx_frame.specs.Ports.{last_port};
ghost use Rattle.afdx_frame.specs.Regulation.{greatest_delay};
ghost use Rattle.afdx_config.specs.Rows.{Rows, link_row};
ghost use Rattle.afdx_admit.specs.AtSwitch.{IsRowAt, tables_at};
ghost use Rattle.afdx_admit.specs.Cascade.{row_at, way_latency, goes_to_system};
ghost use Rattle.afdx_admit.specs.Sums.{AreJitters, CanSend};
ghost use Rattle.afdx_solve.specs.Delays.{of_class};
ghost use Rattle.afdx_solve.specs.Solved as solved;
ghost use Rattle.afdx_solve.specs.Solved.{apart_us};
ghost use Rattle.afdx_solve.specs.SolvedCascade as spec;

use crate::delays::{Delays, latency_over};
use crate::jitters::least_jitter;
use crate::options::SolveOptions;
use afdx_admit::{goes_to_system, late_behind, latency_of, row_before};
use afdx_config::{Link, SwitchId, Switches, Tables, Times};
use afdx_frame::GREATEST_DELAY_US;

/// How late a frame may be behind the row before this one of a switch, in us; 0 where the way is
/// broken, whose latency is given.
#[tactic(auto, unfolding(crate::specs::SolvedCascade::late_before))]
fn late_before(switches: &Switches, switch: SwitchId, link: &Link, way: Option<u64>) -> u64
    requires row { IsRowAt switches.now (row_at switch.0 (link_row link.now)) }
    requires way { way ≡ way_latency switches.now (row_at switch.0 (link_row link.now)) }
    ensures { result ≡ spec.late_before switches.now (row_at switch.0 (link_row link.now)) }
{
    if way.is_none() {
        return 0;
    }
    match row_before(switches, switch, link) {
        Some((_, before)) => late_behind(before),
        None => 0,
    }
}

/// The jitter that a row of a switch needs, in us; those of all that stands at the ports there, in
/// ns, are given.
#[tactic(auto, unfolding(crate::specs::SolvedCascade::jitter_needed))]
fn jitter_needed(
    switches: &Switches,
    switch: SwitchId,
    link: &Link,
    jitters: &[u64],
    way: Option<u64>,
) -> u64
    requires row { IsRowAt switches.now (row_at switch.0 (link_row link.now)) }
    requires way { way ≡ way_latency switches.now (row_at switch.0 (link_row link.now)) }
    requires jitters { (t : Rows) → tables_at switches.now switch.0 ≡ Some t →
        AreJitters t jitters.now }
    ensures { (t : Rows) → tables_at switches.now switch.0 ≡ Some t →
        result ≡ spec.jitter_needed switches.now t (row_at switch.0 (link_row link.now)) }
{
    if switches.tables(switch).is_own(link.from) {
        return least_jitter(jitters[link.from.0 as usize], link);
    }
    let greatest = 1000 * link.bag_ms + GREATEST_DELAY_US;
    greatest.min(late_before(switches, switch, link, way))
}

/// The latency that a row needs, in us, by what its class needs at the output ports.
fn latency_needed(link: &Link, delays: &Delays) -> u64
    requires high { length delays.now.high ≡ last_port }
    requires low { length delays.now.low ≡ last_port }
    requires within { AllByRecursion (λ i. i < last_port) (link_row link.now).to }
    ensures { result ≡ min greatest_delay (solved.latency_over
        (slice_index (of_class link.now.priority delays.now)) (link_row link.now).to) }
{
    GREATEST_DELAY_US.min(latency_over(delays.of_class(link.priority), link.to.as_slice()))
}

/// The skew that a row of a switch needs, in us.
#[tactic(auto, unfolding(crate::specs::SolvedCascade::skew_needed))]
fn skew_needed(tables: &Tables, link: &Link, way: Option<u64>, options: SolveOptions) -> u64
    ensures { result ≡ min greatest_delay (max link.now.latency_us
        (if goes_to_system tables.now (link_row link.now)
        then unwrap_or way 0 + apart_us options else 0)) }
{
    let whole = if goes_to_system(tables, link) {
        way.unwrap_or(0).saturating_add(options.apart_us())
    } else {
        0
    };
    GREATEST_DELAY_US.min(link.latency_us.max(whole))
}

/// The times that a row of a switch needs.
pub(crate) fn needed_times(
    switches: &Switches,
    switch: SwitchId,
    link: &Link,
    jitters: &[u64],
    delays: &Delays,
    options: SolveOptions,
) -> Times
    requires row { IsRowAt switches.now (row_at switch.0 (link_row link.now)) }
    requires jitters { (t : Rows) → tables_at switches.now switch.0 ≡ Some t →
        AreJitters t jitters.now }
    requires high { length delays.now.high ≡ last_port }
    requires low { length delays.now.low ≡ last_port }
    ensures jitter { (t : Rows) → tables_at switches.now switch.0 ≡ Some t →
        result.jitter_us ≡ spec.jitter_needed switches.now t (row_at switch.0 (link_row link.now)) }
    ensures latency { result.latency_us ≡ min greatest_delay (solved.latency_over
        (slice_index (of_class link.now.priority delays.now)) (link_row link.now).to) }
    ensures skew { (t : Rows) → tables_at switches.now switch.0 ≡ Some t →
        result.skew_us ≡ spec.skew_needed (apart_us options) switches.now t
        (row_at switch.0 (link_row link.now)) }
{
    let tables = switches.tables(switch);
    let way = latency_of(switches, switch, link);
    Times {
        jitter_us: jitter_needed(switches, switch, link, jitters, way),
        latency_us: latency_needed(link, delays),
        skew_us: skew_needed(tables, link, way, options),
    }
}
