//! The latencies and skews of the links, from the bounds at their ports.

ghost use Rattle.std.specs.Prelude.{◌≡◌, ◌<◌, length, slice_get, slice_index, Some};
ghost use Rattle.std.specs.List.{AllByRecursion};
ghost use Rattle.afdx_frame.specs.Ports.{last_port};
ghost use Rattle.afdx_config.specs.Rows.{LinkRow, link_row, system_places};
ghost use Rattle.afdx_config.specs.Changed.{with_times};
ghost use Rattle.afdx_config.specs.Lawful.{IsLinkAmong};
ghost use Rattle.afdx_solve.specs.Delays.{AreDelays};
ghost use Rattle.afdx_solve.specs.Delays as spec_delays;
ghost use Rattle.afdx_solve.specs.Solved as spec;

use crate::options::{SolveOptions, chosen};
use afdx_admit::bounds_to;
use afdx_config::{Link, SystemId, Tables, Times};
use afdx_frame::{GREATEST_DELAY_US, PORT_COUNT, Priority};

/// A bound in us, rounded up; where there is none, the most that a latency may be.
fn in_us(bound: Option<u64>) -> u64
    ensures { result ≡ spec.in_us bound }
{
    match bound {
        Some(bound) => bound.div_ceil(1000),
        None => GREATEST_DELAY_US,
    }
}

/// The latency that a link of a class needs at the output port to a system, in us.
fn delay_to(tables: &Tables, class: Priority, system: SystemId) -> u64
    requires { system.0 < length tables.now.systems }
    ensures { result ≡ spec.delay_to tables.now class system.0 }
{
    let bounds = bounds_to(tables, system);
    match class {
        Priority::High => in_us(Some(bounds.high)),
        Priority::Low => in_us(bounds.low),
    }
}

/// The latencies that links of a class need at the output ports to all systems, by their places, in
/// us.
pub(crate) fn delays_of(tables: &Tables, class: Priority) -> [u64; PORT_COUNT]
    ensures { AreDelays tables.now class result }
{
    let mut delays = [0; PORT_COUNT];
    let count = tables.system_count();
    for i in 0..count {
        delays[i] = delay_to(tables, class, SystemId(i as u8));
    }
    delays
}

/// The greatest latency that is needed at the output ports to some systems, in us, at least 1.
#[tactic(auto, unfolding(crate::specs::Solved::latency_over))]
pub(crate) fn latency_over(delays: &[u64], to: &[SystemId]) -> u64
    requires count { length delays.now ≡ last_port }
    requires within { AllByRecursion (λ i. i < last_port) (system_places to.now) }
    ensures { result ≡ spec.latency_over (slice_index delays.now) (system_places to.now) }
{
    match to {
        [] => 1,
        [first, rest @ ..] => delays[first.0 as usize].max(latency_over(delays, rest)),
    }
}

/// The least skew of a link with such a latency, in us.
fn least_skew(latency: u64, options: SolveOptions) -> u64
    ensures { result ≡ spec.least_skew options latency }
{
    GREATEST_DELAY_US.min(latency.saturating_add(options.apart_us()))
}

/// The times of a link with the latency and the skew that it takes.
fn times_of(link: &Link, delays: &[u64], options: SolveOptions) -> Times
    requires count { length delays.now ≡ last_port }
    requires within { AllByRecursion (λ i. i < last_port) (link_row link.now).to }
    ensures { with_times result (link_row link.now) ≡ spec.with_delays_for options
        (spec.latency_over (slice_index delays.now) (link_row link.now).to) (link_row link.now) }
{
    let least = GREATEST_DELAY_US.min(latency_over(delays, link.to.as_slice()));
    let latency = chosen(
        options.kept.latency,
        options.raise_only,
        link.latency_us,
        least,
    );
    let skew = least_skew(latency, options);
    Times {
        jitter_us: link.jitter_us,
        latency_us: latency,
        skew_us: chosen(options.kept.skew, options.raise_only, link.skew_us, skew),
    }
}

/// What the links of each class need.
#[derive(Clone, Copy)]
pub(crate) struct Delays {
    pub(crate) high: [u64; PORT_COUNT],
    pub(crate) low: [u64; PORT_COUNT],
}

impl Delays {
    ghost use Rattle.std.specs.Prelude.{◌≡◌};
    ghost use Rattle.afdx_solve.specs.Delays.{of_class};

    pub(crate) fn of_class(&self, class: Priority) -> &[u64]
        ensures { result.now ≡ of_class class self.now }
    {
        match class {
            Priority::High => &self.high,
            Priority::Low => &self.low,
        }
    }
}

/// The times of the link at a place with the latency and the skew that it takes.
fn times_at(tables: &Tables, delays: &Delays, options: SolveOptions, index: usize) -> Times
    requires within { index < length tables.now.links }
    requires high { length delays.now.high ≡ last_port }
    requires low { length delays.now.low ≡ last_port }
    ensures changed { (l : LinkRow) → slice_get tables.now.links index ≡ Some l →
        with_times result l ≡ spec.with_delays_for options
        (spec.latency_over (slice_index (spec_delays.of_class l.priority delays.now)) l.to) l }
    ensures lawful { (l : LinkRow) → slice_get tables.now.links index ≡ Some l →
        IsLinkAmong tables.now.own (length tables.now.systems) (with_times result l) }
{
    let link = tables.link(index);
    times_of(link, delays.of_class(link.priority), options)
}

/// Gives each link the latency and the skew that it takes.
pub(crate) fn set_delays(tables: &mut Tables, options: SolveOptions)
    ensures { tables.new ≡ spec.with_delays options tables.old }
{
    let delays = Delays {
        high: delays_of(tables, Priority::High),
        low: delays_of(tables, Priority::Low),
    };
    let count = tables.link_count();
    for i in 0..count {
        let times = times_at(tables, &delays, options, i);
        tables.set_times(i, times);
    }
}
