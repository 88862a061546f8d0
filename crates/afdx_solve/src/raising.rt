//! The keys of several switches, raised to what they need.

ghost use Rattle.std.specs.Prelude.{◌≡◌, ◌<◌, ◌≤◌, length, slice_get, Some, IsSome, true};
ghost use Rattle.std.specs.Prelude.{ℕ, false};
ghost use Rattle.afdx_config.specs.Rows.{Rows, LinkRow, link_row};
ghost use Rattle.afdx_config.specs.Changed.{with_times};
ghost use Rattle.afdx_config.specs.AtSwitch.{tables_at, link_at};
ghost use Rattle.afdx_config.specs.Switches.{AreSwitches};
ghost use Rattle.afdx_admit.specs.Sums.{AreJitters};
ghost use Rattle.afdx_solve.specs.Raising as spec;
ghost use Rattle.afdx_solve.specs.SolvedCascade.{AreTimesAtMost};
ghost use Rattle.afdx_solve.specs.Raising.{IsMoreIn, Raises, IsSettledAt, AreTimesSettled, AreDelaysBy};
ghost use Rattle.afdx_solve.specs.Raising.{IsBufferSettled};

use crate::cascade_needs::needed_times;
use crate::delays::{Delays, delays_of};
use crate::options::{SolveOptions, chosen};
use crate::solving::least_buffer;
use afdx_admit::sender_jitters;
use afdx_config::{Link, SwitchId, Switches, Times};
use afdx_frame::Priority;

/// The times of a row with what they need: those that aren't kept are raised to it.
fn raised_times(link: &Link, needed: Times, options: SolveOptions) -> Times
    ensures { result ≡ spec.raised_times options needed (link_row link.now) }
{
    let kept = options.kept;
    Times {
        jitter_us: chosen(kept.jitter, true, link.jitter_us, needed.jitter_us),
        latency_us: chosen(kept.latency, true, link.latency_us, needed.latency_us),
        skew_us: chosen(kept.skew, true, link.skew_us, needed.skew_us),
    }
}

/// Whether one of these times is more than the row's.
fn is_more(link: &Link, times: Times) -> bool
    ensures more { result ≡ true → IsMoreIn (link_row link.now) times }
    ensures none { result ≡ false →
        AreTimesAtMost (with_times times (link_row link.now)) (link_row link.now) }
{
    times.jitter_us > link.jitter_us
        || times.latency_us > link.latency_us
        || times.skew_us > link.skew_us
}

/// Raises the times of the row at a place of a switch to what they need, and answers whether it
/// did. What is needed of the row's sender and at its output ports is given.
fn raise_row(
    switches: &mut Switches,
    options: SolveOptions,
    switch: SwitchId,
    index: usize,
    jitters: &[u64],
    delays: &Delays,
) -> bool
    requires within { IsSome (link_at switches.old switch.0 index) }
    requires jitters { (t : Rows) → tables_at switches.old switch.0 ≡ Some t →
        AreJitters t jitters.now }
    requires delays { (t : Rows) → tables_at switches.old switch.0 ≡ Some t →
        AreDelaysBy (λ kept needed. kept ≤ needed) t delays.now }
    ensures raises { Raises options switches.old switches.new result }
    ensures settled { result ≡ false → (t : Rows) (l : LinkRow) →
        tables_at switches.new switch.0 ≡ Some t →
        AreDelaysBy (λ kept needed. kept ≡ needed) t delays.now →
        slice_get t.links index ≡ Some l →
        AreTimesSettled options switches.new t switch.0 l }
{
    let link = switches.tables(switch).link(index);
    let needed = needed_times(switches, switch, link, jitters, delays, options);
    let times = raised_times(link, needed, options);
    let raised = is_more(link, times);
    if raised {
        switches.set_times(switch, index, times);
    }
    raised
}

/// Raises the times of all rows of a switch, and answers whether it raised one.
fn raise_rows(
    switches: &mut Switches,
    options: SolveOptions,
    switch: SwitchId,
    jitters: &[u64],
    delays: &Delays,
) -> bool
    requires switch { switch.0 < length switches.old }
    requires jitters { (t : Rows) → tables_at switches.old switch.0 ≡ Some t →
        AreJitters t jitters.now }
    requires delays { (t : Rows) → tables_at switches.old switch.0 ≡ Some t →
        AreDelaysBy (λ kept needed. kept ≡ needed) t delays.now }
    ensures raises { Raises options switches.old switches.new result }
    ensures settled { result ≡ false → (i : ℕ) (t : Rows) (l : LinkRow) →
        tables_at switches.new switch.0 ≡ Some t →
        slice_get t.links i ≡ Some l →
        AreTimesSettled options switches.new t switch.0 l }
{
    let count = switches.tables(switch).link_count();
    let mut raised = false;
    for i in 0..count {
        let one = raise_row(switches, options, switch, i, jitters, delays);
        raised = raised || one;
    }
    raised
}

/// Raises the buffer of a switch to what it needs, and answers whether it did.
fn raise_buffer(switches: &mut Switches, options: SolveOptions, switch: SwitchId) -> bool
    requires switch { switch.0 < length switches.old }
    ensures raises { Raises options switches.old switches.new result }
    ensures settled { result ≡ false → (t : Rows) →
        tables_at switches.new switch.0 ≡ Some t →
        IsBufferSettled options t }
{
    let tables = switches.tables(switch);
    let old = tables.buffer();
    let buffer = chosen(options.kept.buffer, true, old, least_buffer(tables));
    let raised = buffer != old;
    if raised {
        switches.set_buffer(switch, buffer);
    }
    raised
}

/// Raises the keys of a switch, and answers whether it raised one.
fn raise_at(switches: &mut Switches, options: SolveOptions, switch: SwitchId) -> bool
    requires switch { switch.0 < length switches.old }
    ensures raises { Raises options switches.old switches.new result }
    ensures settled { result ≡ false → IsSettledAt options switches.new switch.0 }
{
    let tables = switches.tables(switch);
    let jitters = sender_jitters(tables);
    let delays = Delays {
        high: delays_of(tables, Priority::High),
        low: delays_of(tables, Priority::Low),
    };
    let rows = raise_rows(switches, options, switch, &jitters, &delays);
    let buffer = raise_buffer(switches, options, switch);
    rows || buffer
}

/// Raises the keys of all switches, and answers whether it raised one.
pub(crate) fn raise_all(switches: &mut Switches, options: SolveOptions) -> bool
    ensures raises { Raises options switches.old switches.new result }
    ensures settled { result ≡ false → (k : ℕ) → k < length switches.new →
        IsSettledAt options switches.new k }
    ensures switches { AreSwitches switches.old }
{
    let count = switches.id_count();
    let mut raised = false;
    for k in 0..count {
        let one = raise_at(switches, options, SwitchId(k));
        raised = raised || one;
    }
    raised
}
