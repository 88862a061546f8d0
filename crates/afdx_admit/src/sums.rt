//! What is summed over the links that go to one output port.

ghost use Rattle.std.specs.Prelude.{◌≡◌, ◌*◌, ◌≤◌, ◌<◌, ◌∷◌, [], length, slice_get, Some};
ghost use Rattle.afdx_frame.specs.Regulation.{cap, fill_rate, wire_of};
ghost use Rattle.afdx_config.specs.Rows.{SystemRow, link_row};
ghost use Rattle.afdx_frame.specs.Lengths.{greatest_frame};
ghost use Rattle.afdx_config.specs.Flows.{flow_of_link, regulation_of_link};
ghost use Rattle.afdx_config.specs.Reading.{most_links};
ghost use Rattle.afdx_config.specs.Admission.{byte_ns};
ghost use Rattle.afdx_admit.specs.Sums.{CanSend, IsByteTime, IsSums, IsSmall, AreSumsTo};
ghost use Rattle.afdx_admit.specs.Sums.{greatest_burst, greatest_rate};

use afdx_config::{Link, SystemId, Tables};
use afdx_frame::{BYTE_UNITS, LONGEST_GAP_MS, Priority, WIRE_EXTRA};

/// Bursts in units of a byte over `BYTE_UNITS`, rates in such units for a nanosecond. `line` is the
/// rate of the line.
#[derive(Clone, Copy)]
pub(crate) struct Sums {
    pub(crate) line: u64,
    pub(crate) burst: u64,
    pub(crate) rate: u64,
    pub(crate) high_burst: u64,
    pub(crate) high_rate: u64,
    pub(crate) longest_low: u64,
}

impl Sums {
    ghost use Rattle.std.specs.Prelude.{◌*◌};
    ghost use Rattle.afdx_frame.specs.Flows.{high_wait, low_wait};
    ghost use Rattle.afdx_admit.specs.Lines.{LoadedOutput, high_bound_of, low_bound_of};
    ghost use Rattle.afdx_admit.specs.Lines.{buffer_need_of, told_low_bound_of};
    ghost use Rattle.afdx_admit.specs.Sums.{Adds};

    /// Of no links, on a line with so many ns to a byte.
    fn empty(byte_ns: u64) -> Sums
        requires { IsByteTime byte_ns }
        ensures small { IsSmall 0 result }
        ensures sums { IsSums (record { byte_ns = byte_ns; flows = [] }) result }
    {
        Sums {
            line: BYTE_UNITS / byte_ns,
            burst: 0,
            rate: 0,
            high_burst: 0,
            high_rate: 0,
            longest_low: 0,
        }
    }

    /// With one link more.
    fn with(self, link: &Link) -> Sums
        requires small { IsSmall 4095 self }
        requires lawful { CanSend (link_row link.now) }
        ensures { Adds (flow_of_link (link_row link.now)) self result }
    {
        let burst = burst_of(link);
        let rate = rate_of(link);
        let all = Sums {
            burst: self.burst + burst,
            rate: self.rate + rate,
            ..self
        };
        match link.priority {
            Priority::High => Sums {
                high_burst: self.high_burst + burst,
                high_rate: self.high_rate + rate,
                ..all
            },
            Priority::Low => Sums {
                longest_low: self.longest_low.max(wire_size(link)),
                ..all
            },
        }
    }

    /// What a high frame waits for at most, in ns times the rate of the line.
    pub(crate) fn high_wait(&self) -> u64
        requires { IsSmall most_links self.now }
        ensures { (o : LoadedOutput) → IsSums o self.now →
            result * o.byte_ns ≡ high_wait o.byte_ns o.flows }
    {
        self.high_burst + BYTE_UNITS * self.longest_low
    }

    /// What a low frame waits for at most, in ns times what the high ones leave of that rate.
    pub(crate) fn low_wait(&self) -> u64
        ensures { (o : LoadedOutput) → IsSums o self.now →
            result * o.byte_ns ≡ low_wait o.byte_ns o.flows }
    {
        self.burst
    }

    /// The bytes that wait at most, rounded up.
    #[tactic(auto, unfolding(crate::specs::Lines::buffer_need_of))]
    pub(crate) fn buffer_need(&self) -> u64
        ensures { (o : LoadedOutput) → IsSums o self.now → result ≡ buffer_need_of o }
    {
        self.burst.div_ceil(BYTE_UNITS)
    }

    /// What a high frame waits for at most, in ns, rounded up.
    #[tactic(auto, unfolding(crate::specs::Lines::high_bound_of))]
    pub(crate) fn high_bound(&self) -> u64
        requires { IsSmall most_links self.now }
        ensures { (o : LoadedOutput) → IsSums o self.now → result ≡ high_bound_of o }
    {
        self.high_wait().div_ceil(self.line)
    }

    /// What a low frame waits for at most, in ns, rounded up, if the high ones leave something.
    #[tactic(auto, unfolding(crate::specs::Lines::low_bound_of))]
    pub(crate) fn low_bound(&self) -> Option<u64>
        ensures { (o : LoadedOutput) → IsSums o self.now → result ≡ low_bound_of o }
    {
        if self.high_rate < self.line {
            Some(self.low_wait().div_ceil(self.line - self.high_rate))
        } else {
            None
        }
    }

    /// The same as a fault tells it: 0 where they leave nothing.
    pub(crate) fn told_low_bound(&self) -> u64
        ensures { (o : LoadedOutput) → IsSums o self.now → result ≡ told_low_bound_of o }
    {
        self.low_bound().unwrap_or(0)
    }
}

/// The greatest wire size of a link's frames, in bytes.
pub(crate) fn wire_size(link: &Link) -> u64
    requires { CanSend (link_row link.now) }
    ensures size { result ≡ (regulation_of_link (link_row link.now)).smax }
    ensures small { result ≤ wire_of greatest_frame }
{
    link.lmax + WIRE_EXTRA
}

/// What a link may send at once.
fn burst_of(link: &Link) -> u64
    requires { CanSend (link_row link.now) }
    ensures burst { result ≡ cap (regulation_of_link (link_row link.now)) }
    ensures small { result ≤ greatest_burst }
{
    wire_size(link)
        * (LONGEST_GAP_MS / link.bag_ms)
        * (1_000_000 * link.bag_ms + 1000 * link.jitter_us)
}

/// What a link may send in a nanosecond.
fn rate_of(link: &Link) -> u64
    requires { CanSend (link_row link.now) }
    ensures rate { result ≡ fill_rate (regulation_of_link (link_row link.now)) }
    ensures small { result ≤ greatest_rate }
{
    wire_size(link) * (LONGEST_GAP_MS / link.bag_ms)
}

/// The link at a place.
pub(crate) fn link_at(tables: &Tables, index: usize) -> &Link
    requires { index < length tables.now.links }
    ensures row { slice_get tables.now.links index ≡ Some (link_row result.now) }
    ensures lawful { CanSend (link_row result.now) }
{
    tables.link(index)
}

/// The sums of the output port to a system.
pub(crate) fn sums_to(tables: &Tables, system: SystemId) -> Sums
    requires { system.0 < length tables.now.systems }
    ensures small { IsSmall most_links result }
    ensures sums { AreSumsTo tables.now system.0 result }
{
    let count = tables.link_count();
    let byte_ns = tables.byte_ns(system);
    let mut sums = Sums::empty(byte_ns);
    for i in 0..count {
        let link = link_at(tables, i);
        if link.goes_to(system) {
            sums = sums.with(link);
        }
    }
    sums
}
