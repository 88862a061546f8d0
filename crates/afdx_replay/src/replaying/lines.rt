//! The lines of the events of a replay.

ghost use Rattle.std.specs.Prelude.{◌≡◌, List, ◌++◌, ◌≤◌, ◌∷◌, OnOk, OnErr, IfOk, length, false};
ghost use Rattle.afdx_frame.specs.Ports.{last_port};
ghost use Rattle.std.specs.Io.KnownBytes.{Appends};
ghost use Rattle.afdx_input_lines.specs.Calls.{AppendsFront};
ghost use Rattle.afdx_text.specs.Sinks.{SinkKept};
ghost use Rattle.afdx_config.specs.Rows.{Rows};
ghost use Rattle.afdx_end_systems.specs.Handovers.{HandedOver, handed_over};
ghost use Rattle.afdx_end_systems.specs.Receptions.{reception_line, is_delivered};
ghost use Rattle.afdx_end_systems.specs.StandsFor.{StandsFor};
ghost use Rattle.afdx_network.specs.Network.{reason_in, ports_in, lost_in};
ghost use Rattle.afdx_switch.specs.Departures.{as_given, giving_port, giving_side};
ghost use Rattle.afdx_replay.specs.policing.Text.{verdict_line};
ghost use Rattle.afdx_replay.specs.replaying.Text.{loss_lines, departure_line, has_message};
ghost use Rattle.afdx_text.specs.OutLines.{place_text, site_text};

use afdx_end_systems::{Handover, Systems};
use afdx_frame::LAST_PORT;
use afdx_input_lines::RunFault;
use afdx_police::Reason;
use afdx_receive::Reception;
use afdx_switch::{Departure, PortSet, Verdict};
use afdx_text::{OutLine, Sink, Site};

/// Why the frame was dropped, if it was.
pub(crate) fn reason_of(verdict: &Verdict) -> Option<Reason>
    ensures { result ≡ reason_in verdict.now }
{
    match verdict {
        Verdict::Dropped(reason) => Some(*reason),
        Verdict::Accepted { .. } => None,
    }
}

/// Puts the lines of the copies that were lost, port by port, and counts them.
#[inline(always)]
fn put_losses<O: Sink>(
    output: &mut O,
    n: u64,
    site: Site<'_>,
    lost: &PortSet,
) -> Result<u64, RunFault>
    requires sound { O.failed output.old ≡ false }
    ensures sink { SinkKept O.failed O.settings output.old output.new result }
    ensures lines { OnOk result (Appends (O.written output.old) (O.written output.new)
        (loss_lines n (site_text site.entry) (ports_in lost.now))) }
    ensures front { OnErr result (AppendsFront (O.written output.old) (O.written output.new)
        (loss_lines n (site_text site.entry) (ports_in lost.now))) }
    ensures count { IfOk result (λ count. count ≡ length (ports_in lost.now)) }
    ensures few { IfOk result (λ count. count ≤ last_port) }
{
    let mut count = 0u64;
    // (mostly none was)
    if lost.is_empty() {
        return Ok(count);
    }
    for place in 0..LAST_PORT {
        let port = place + 1;
        if lost.holds(port) {
            output.put(&OutLine::Lost { n, site, port })?;
            count += 1;
        }
    }
    Ok(count)
}

/// Puts the V line and the L lines of an arrival, and counts the copies that were lost.
#[inline(always)]
pub(crate) fn put_admission<O: Sink>(
    output: &mut O,
    n: u64,
    site: Site<'_>,
    verdict: &Verdict,
) -> Result<u64, RunFault>
    requires sound { O.failed output.old ≡ false }
    ensures sink { SinkKept O.failed O.settings output.old output.new result }
    ensures lines { OnOk result (Appends (O.written output.old) (O.written output.new)
        (verdict_line n (site_text site.entry) (reason_in verdict.now)
        ++ loss_lines n (site_text site.entry) (lost_in verdict.now))) }
    ensures front { OnErr result (AppendsFront (O.written output.old) (O.written output.new)
        (verdict_line n (site_text site.entry) (reason_in verdict.now)
        ++ loss_lines n (site_text site.entry) (lost_in verdict.now))) }
    ensures count { IfOk result (λ count. count ≡ length (lost_in verdict.now)) }
    ensures few { IfOk result (λ count. count ≤ last_port) }
{
    let reason = reason_of(verdict);
    output.put(&OutLine::Verdict { n, site, reason })?;
    match verdict {
        Verdict::Accepted { lost } => put_losses(output, n, site, lost),
        Verdict::Dropped(_) => Ok(0),
    }
}

/// Puts the D or T line of a departure at the switch of this name.
#[inline(always)]
pub(crate) fn put_departure<O: Sink>(
    output: &mut O,
    switch: &str,
    departure: &Departure,
) -> Result<(), RunFault>
    requires sound { O.failed output.old ≡ false }
    ensures sink { SinkKept O.failed O.settings output.old output.new result }
    ensures line { let left = as_given departure.now in
        OnOk result (Appends (O.written output.old) (O.written output.new)
        (departure_line left.too_old left.item.tag left.end
        (place_text (giving_side departure.now) switch.now) (giving_port departure.now))) }
    ensures front { let left = as_given departure.now in
        OnErr result (AppendsFront (O.written output.old) (O.written output.new)
        (departure_line left.too_old left.item.tag left.end
        (place_text (giving_side departure.now) switch.now) (giving_port departure.now))) }
{
    let line = OutLine::Left {
        n: departure.tag(),
        time: departure.time(),
        site: Site {
            side: departure.side(),
            switch,
        },
        port: departure.port(),
        too_old: departure.too_old(),
    };
    output.put(&line)
}

/// What a system heard in a frame.
#[derive(Clone, Copy)]
pub(crate) enum Heard {
    /// A message to one of its ports.
    Message,
    /// None: it dropped the frame, or there is no system.
    Nothing,
}

/// Hands a frame over to the system of its port, and puts the line of what that made of it.
#[inline(always)]
pub(crate) fn hear<O: Sink>(
    systems: &mut Systems,
    handover: Handover<'_>,
    output: &mut O,
) -> Result<Heard, RunFault>
    requires sound { O.failed output.old ≡ false }
    ensures sink { SinkKept O.failed O.settings output.old output.new result }
    ensures stands { (t : Rows) (before : List HandedOver) → StandsFor t systems.old before →
        StandsFor t systems.new (handed_over handover.entry ∷ before) }
    ensures delivered { (t : Rows) (before : List HandedOver) → StandsFor t systems.old before →
        IfOk result (λ heard.
        has_message heard ≡ is_delivered t before (handed_over handover.entry)) }
    ensures line { (t : Rows) (before : List HandedOver) → StandsFor t systems.old before →
        OnOk result (Appends (O.written output.old) (O.written output.new)
        (reception_line t before (handed_over handover.entry))) }
    ensures front { (t : Rows) (before : List HandedOver) → StandsFor t systems.old before →
        OnErr result (AppendsFront (O.written output.old) (O.written output.new)
        (reception_line t before (handed_over handover.entry))) }
{
    let (time, n, port) = (handover.time, handover.line, handover.port);
    match systems.receive(handover) {
        Some(Reception::Message { vl, bytes, .. }) => {
            let line = OutLine::Message {
                time,
                system: systems.name_at(port),
                vl,
                bytes,
            };
            output.put(&line)?;
            Ok(Heard::Message)
        }
        Some(Reception::Dropped(why)) => {
            let line = OutLine::Unread {
                time,
                system: systems.name_at(port),
                n,
                why,
            };
            output.put(&line)?;
            Ok(Heard::Nothing)
        }
        None => Ok(Heard::Nothing),
    }
}
