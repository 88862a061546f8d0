//! What is told of an event at a switch: its lines are put, and it is counted.

ghost use Rattle.std.specs.Prelude.{◌≡◌, ℕ, ◌+◌, ◌++◌, ◌≤◌, List, OnOk, OnErr, IfOk, length, false};
ghost use Rattle.std.specs.Io.KnownBytes.{Appends};
ghost use Rattle.afdx_frame.specs.Ports.{last_port};
ghost use Rattle.afdx_config.specs.Rows.{Rows};
ghost use Rattle.afdx_input_lines.specs.Calls.{AppendsFront};
ghost use Rattle.afdx_end_systems.specs.StandsFor as hearing;
ghost use Rattle.afdx_network.specs.Events.{Event, Departure as Turned, Left};
ghost use Rattle.afdx_network.specs.Network as network;
ghost use Rattle.afdx_network.specs.Network.{reason_in, lost_in};
ghost use Rattle.afdx_text.specs.OutLines.{site_text, verdict_line};
ghost use Rattle.afdx_text.specs.Sinks.{SinkKept};
ghost use Rattle.afdx_replay.specs.replaying.Replayed.{AreLow, HasRoom, TellsDeparture};
ghost use Rattle.afdx_replay.specs.replaying.Text.{frames_left, lines_at, loss_lines};
ghost use Rattle.afdx_replay.specs.replaying.Text.{with_admission};

use crate::replaying::lines::{Heard, hear, put_admission, put_departure, reason_of};
use afdx_command_tables::Summary;
use afdx_end_systems::{Handover, Systems};
use afdx_input_lines::RunFault;
use afdx_police::Reason;
use afdx_switch::{Departure, Verdict};
use afdx_text::{Sink, Site};

/// Counts an arrival, and the copies that it lost.
fn count_admission(counts: &mut Summary, reason: Option<Reason>, lost: u64)
    requires low { AreLow counts.old }
    requires few { lost ≤ last_port }
    ensures { counts.new ≡ with_admission counts.old reason lost }
{
    match reason {
        None => {
            counts.accepted += 1;
            counts.lost += lost;
        }
        Some(_) => counts.dropped += 1,
    }
}

/// Tells what became of an arrival at a switch, and why it was dropped, if it was.
#[inline(always)]
pub(crate) fn tell_verdict<O: Sink>(
    counts: &mut Summary,
    n: u64,
    site: Site<'_>,
    verdict: &Verdict,
    output: &mut O,
) -> Result<Option<Reason>, RunFault>
    requires low { AreLow counts.old }
    requires sound { O.failed output.old ≡ false }
    ensures sink { SinkKept O.failed O.settings output.old output.new result }
    ensures lines { OnOk result (Appends (O.written output.old) (O.written output.new)
        (verdict_line n (site_text site.entry) (reason_in verdict.now)
        ++ loss_lines n (site_text site.entry) (lost_in verdict.now))) }
    ensures front { OnErr result (AppendsFront (O.written output.old) (O.written output.new)
        (verdict_line n (site_text site.entry) (reason_in verdict.now)
        ++ loss_lines n (site_text site.entry) (lost_in verdict.now))) }
    ensures reason { IfOk result (λ reason. reason ≡ reason_in verdict.now) }
    ensures counted { OnOk result
        (counts.new ≡ with_admission counts.old (reason_in verdict.now)
        (length (lost_in verdict.now))) }
    ensures few { OnOk result (length (lost_in verdict.now) ≤ last_port) }
{
    let lost = put_admission(output, n, site, verdict)?;
    let reason = reason_of(verdict);
    count_admission(counts, reason, lost);
    Ok(reason)
}

/// Tells a departure at the switch of this name: hands its frame over to the port's system if it
/// left, and counts it. Each machine `M` that tells by it has a copy of its own, which the compiler
/// puts in its place there: so the lines of one switch ask nothing of a name.
pub(crate) fn tell_departure<M, O: Sink>(
    systems: &mut Systems,
    counts: &mut Summary,
    switch: &str,
    departure: &Departure,
    output: &mut O,
) -> Result<(), RunFault>
    requires low { AreLow counts.old }
    requires sound { O.failed output.old ≡ false }
    ensures sink { SinkKept O.failed O.settings output.old output.new result }
    ensures room { (n held : ℕ) →
        HasRoom counts.old (held + 1) n → OnOk result (HasRoom counts.new held n) }
    ensures accepted { OnOk result (counts.new.accepted ≡ counts.old.accepted) }
    ensures lost { OnOk result (counts.new.lost ≡ counts.old.lost) }
    ensures told { (t : Rows) (before : List Event) (d : Turned) →
        hearing.StandsFor t systems.old (frames_left before) → network.Hands departure.now d →
        OnOk result (TellsDeparture switch.now t systems.new counts.old counts.new before d
        (O.written output.old) (O.written output.new)) }
    ensures begun { (t : Rows) (before : List Event) (d : Turned) →
        hearing.StandsFor t systems.old (frames_left before) → network.Hands departure.now d →
        OnErr result (AppendsFront (O.written output.old) (O.written output.new)
        (lines_at switch.now t before (Left d))) }
{
    put_departure(output, switch, departure)?;
    if departure.too_old() {
        counts.too_old += 1;
        return Ok(());
    }
    let handover = Handover {
        side: departure.side(),
        port: departure.port(),
        time: departure.time(),
        line: departure.tag(),
        row: departure.row(),
        frame: departure.frame(),
    };
    counts.departed += 1;
    match hear(systems, handover, output)? {
        Heard::Message => counts.delivered += 1,
        Heard::Nothing => {}
    }
    Ok(())
}
