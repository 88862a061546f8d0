//! The jitters of the links, from those of their senders.

ghost use Rattle.std.specs.Prelude.{◌≡◌, ◌<◌, length, slice_get, slice_index, Some};
ghost use Rattle.afdx_frame.specs.Ports.{last_port};
ghost use Rattle.afdx_config.specs.Rows.{LinkRow, link_row};
ghost use Rattle.afdx_config.specs.Changed.{with_times};
ghost use Rattle.afdx_config.specs.Lawful.{IsLinkAmong};
ghost use Rattle.afdx_admit.specs.Sums.{CanSend};
ghost use Rattle.afdx_solve.specs.Solved as spec;

use crate::options::{SolveOptions, chosen};
use afdx_admit::sender_jitters;
use afdx_config::{Link, Tables, Times};

/// The least jitter of a link, in us, whose sender's is so many ns, or the greatest that it may
/// have.
pub(crate) fn least_jitter(needed: u64, link: &Link) -> u64
    requires { CanSend (link_row link.now) }
    ensures { result ≡ spec.least_jitter needed (link_row link.now) }
{
    let greatest = 1000 * link.bag_ms;
    greatest.min(needed.div_ceil(1000))
}

/// The times of a link with the jitter that it takes.
fn times_of(link: &Link, needed: u64, keep: bool, raise_only: bool) -> Times
    requires { CanSend (link_row link.now) }
    ensures { with_times result (link_row link.now)
        ≡ spec.with_jitter_for keep raise_only needed (link_row link.now) }
{
    let least = least_jitter(needed, link);
    Times {
        jitter_us: chosen(keep, raise_only, link.jitter_us, least),
        latency_us: link.latency_us,
        skew_us: link.skew_us,
    }
}

/// The times of the link at a place with the jitter that it takes. One that comes from a neighbour
/// keeps it.
fn times_at(tables: &Tables, jitters: &[u64], options: SolveOptions, index: usize) -> Times
    requires within { index < length tables.now.links }
    requires count { length jitters.now ≡ last_port }
    ensures changed { (l : LinkRow) → slice_get tables.now.links index ≡ Some l →
        with_times result l
        ≡ spec.with_jitter_for (spec.keeps_jitter options tables.now l) options.raise_only
        (slice_index jitters.now l.from) l }
    ensures lawful { (l : LinkRow) → slice_get tables.now.links index ≡ Some l →
        IsLinkAmong tables.now.own (length tables.now.systems) (with_times result l) }
{
    let link = tables.link(index);
    let needed = jitters[link.from.0 as usize];
    let keep = options.kept.jitter || !tables.is_own(link.from);
    times_of(link, needed, keep, options.raise_only)
}

/// Gives each link the jitter that it takes.
pub(crate) fn set_jitters(tables: &mut Tables, options: SolveOptions)
    ensures { tables.new ≡ spec.with_jitters options tables.old }
{
    let jitters = sender_jitters(tables);
    let count = tables.link_count();
    for i in 0..count {
        let times = times_at(tables, &jitters, options, i);
        tables.set_times(i, times);
    }
}
