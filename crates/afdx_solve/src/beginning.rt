//! The least values, from which the keys of several switches are raised.

ghost use Rattle.std.specs.Prelude.{◌≡◌, ◌<◌, length, map};
ghost use Rattle.afdx_config.specs.Rows.{link_row};
ghost use Rattle.afdx_config.specs.Switches.{AreSwitches};
ghost use Rattle.afdx_config.specs.ChangedSwitches.{changed_switch};
ghost use Rattle.afdx_solve.specs.Raising as spec;

use crate::options::{SolveOptions, chosen};
use crate::solving::LEAST_BUFFER;
use afdx_config::{Link, SwitchId, Switches, Times};

/// The least times that a row may have, or those that it keeps.
fn begun_times(link: &Link, options: SolveOptions) -> Times
    ensures { result ≡ spec.begun_times options (link_row link.now) }
{
    let SolveOptions {
        kept,
        raise_only,
        ..
    } = options;
    Times {
        jitter_us: chosen(kept.jitter, raise_only, link.jitter_us, 0),
        latency_us: chosen(kept.latency, raise_only, link.latency_us, 1),
        skew_us: chosen(kept.skew, raise_only, link.skew_us, 1),
    }
}

/// Gives the rows of a switch their least times.
fn begin_rows(switches: &mut Switches, options: SolveOptions, switch: SwitchId)
    requires { switch.0 < length switches.old }
    ensures { switches.new ≡ changed_switch switch.0 (spec.begun_links options) switches.old }
{
    let count = switches.tables(switch).link_count();
    for i in 0..count {
        let times = begun_times(switches.tables(switch).link(i), options);
        switches.set_times(switch, i, times);
    }
}

/// Gives a switch its least buffer.
fn begin_buffer(switches: &mut Switches, options: SolveOptions, switch: SwitchId)
    requires { switch.0 < length switches.old }
    ensures { switches.new
        ≡ changed_switch switch.0 (spec.with_begun_buffer options) switches.old }
{
    let buffer = switches.tables(switch).buffer();
    let least = chosen(
        options.kept.buffer,
        options.raise_only,
        buffer,
        LEAST_BUFFER,
    );
    switches.set_buffer(switch, least);
}

/// Gives all switches the least values of the keys that aren't kept.
pub(crate) fn begin(switches: &mut Switches, options: SolveOptions)
    ensures begun { switches.new ≡ map (spec.begun_switch options) switches.old }
    ensures switches { AreSwitches switches.old }
{
    let count = switches.id_count();
    for k in 0..count {
        begin_rows(switches, options, SwitchId(k));
        begin_buffer(switches, options, SwitchId(k));
    }
}
