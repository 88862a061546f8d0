//! A run that replays a list through the switches of both sides and the systems behind them, and
//! tells by how much frames came too early.

ghost use Rattle.std.specs.Prelude.{◌≡◌, ℕ, ◌+◌, ◌-◌, ◌≤◌, [], List, Option, OnOk, OnErr, IfOk, IfSome, true, false};
ghost use Rattle.afdx_port.specs.Times.{drain_end};
ghost use Rattle.afdx_frame.specs.Ports.{last_port};
ghost use Rattle.afdx_input_lines.specs.Lines.{most_reads};
ghost use Rattle.afdx_input_sources.specs.Items.{most_frames};
ghost use Rattle.afdx_config.specs.Lawful.{IsLawfulSwitch};
ghost use Rattle.afdx_config.specs.Rows.{Rows};
ghost use Rattle.afdx_input_lines.specs.declared.watched.Watched.{Watched as Device};
ghost use Rattle.afdx_input_lines.specs.Calls.{AppendsFront, is_failed_read, is_failed_write};
ghost use Rattle.afdx_end_systems.specs.StandsFor as systems;
ghost use Rattle.afdx_network.specs.Events.{Event, Departure, Left, arrivals_in};
ghost use Rattle.afdx_network.specs.Network as network;
ghost use Rattle.afdx_input_lines.specs.Watching.{calls_of, device_of, has_ended, has_failed};
ghost use Rattle.afdx_replay.specs.replaying.DefinedRun.{DefinedAnswers};
ghost use Rattle.afdx_replay.specs.replaying.Replayed.{WritesSome, Answers, ToldAll, TellsDeparture, HasRoom};
ghost use Rattle.afdx_text.specs.Sinks.{SinkKept};
ghost use Rattle.afdx_replay.specs.replaying.Text.{replay_counts, frames_left, lines_after, with_admission};

use crate::replaying::explained::explain;
use crate::replaying::telling::{tell_departure, tell_verdict};
use afdx_command_tables::{NO_COUNTS, Summary};
use afdx_config::Tables;
use afdx_end_systems::Systems;
use afdx_input_lines::{Heading, RunFault, Watched};
use afdx_input_sources::{FrameLines, Machine, run_list};
use afdx_network::Network;
use afdx_police::Reason;
use afdx_text::{AtOnce, Sink, Site, Text};
use std::alloc::{AllocError, Global};
use std::io::{Read, Stderr, Write};

/// What a replay works with, and the device that is told by how much frames came too early, if
/// there is one.
pub(crate) struct Replay<D> {
    network: Network,
    systems: Systems,
    pub(crate) counts: Summary,
    pub(crate) early: Option<Watched<D>>,
}

impl<D: Drop> Drop for Replay<D> {
    // (written out, it is one call wherever a value is let go)
    fn drop(self) {
        let Self {
            network,
            systems,
            counts,
            early,
        } = self;
    }
}

impl<D: Write> Replay<D> {
    ghost use Rattle.afdx_replay.specs.replaying.Replayed.{Tells, TellsArrivals, TellsMore, HasRoomFor};
    ghost use Rattle.std.specs.Prelude.{◌∷◌, ◌<◌, ◌⊎◌};
    ghost use Rattle.afdx_frame.specs.Times.{latest_listed};
    ghost use Rattle.afdx_frame.specs.Seals.{IsSealedAs};
    ghost use Rattle.afdx_input_lines.specs.FrameLines.{listed_frame};
    ghost use Rattle.afdx_input_sources.specs.Listed.{arrival_at};
    ghost use Rattle.afdx_police.specs.Arrival.{Arrival};
    ghost use Rattle.afdx_switch.specs.Verdicts.{reason_of as reason_after};
    ghost use Rattle.afdx_replay.specs.replaying.Told.{TellsItems};

    /// It has told nothing yet, and tells nobody of frames that came too early.
    pub(crate) fn new(alloc: Global, tables: &Tables) -> Result<Replay<D>, AllocError>
        ensures { (output : Option (List ℕ)) → IfOk result (λ replay.
            TellsItems D.contents (tables.now, replay.early) replay output output []) }
    {
        let network = Network::new(alloc, tables)?;
        let systems = Systems::new(alloc, tables)?;
        Ok(Replay {
            network,
            systems,
            counts: NO_COUNTS,
            early: None,
        })
    }

    /// Tells what leaves by `until`.
    pub(crate) fn tell_departures<O: Sink>(
        &mut self,
        until: u64,
        output: &mut O,
    ) -> Result<(), RunFault>
        requires clock { network.IsUntil self.old.network until }
        requires room { (n : ℕ) × (n ≤ most_frames) × HasRoomFor self.old n }
        requires sound { O.failed output.old ≡ false }
        ensures sink { SinkKept O.failed O.settings output.old output.new result }
        ensures early { self.new.early ≡ self.old.early }
        ensures clock { network.IsUntil self.new.network until }
        ensures quiet { OnOk result (network.IsQuiet self.new.network until) }
        ensures room { (n : ℕ) → HasRoomFor self.old n → OnOk result (HasRoomFor self.new n) }
        ensures told { (t : Rows) (events : List Event) (start : Option (List ℕ)) →
            Tells t self.old start (O.written output.old) events →
            OnOk result (TellsMore t self.new start (O.written output.new) events) }
        ensures some { (t : Rows) (events : List Event) (start : Option (List ℕ)) →
            Tells t self.old start (O.written output.old) events →
            OnErr result (WritesSome t start (O.written output.new)
            (arrivals_in events)) }
        ensures all_done { (t : Rows) (events : List Event) (start : Option (List ℕ)) →
            Tells t self.old start (O.written output.old) events →
            drain_end ≤ until →
            OnOk result (ToldAll t self.new.counts start
            (O.written output.new) (arrivals_in events)) }
    {
        while let Some(departed) = self.network.take(until) {
            let (systems, counts) = (&mut self.systems, &mut self.counts);
            tell_departure::<Replay<D>, O>(systems, counts, "", &departed, output)?;
        }
        Ok(())
    }

    /// Tells what leaves before an arrival, and then what became of it. Answers why it was dropped,
    /// if it was.
    pub(crate) fn tell_arrival<O: Sink>(
        &mut self,
        n: u64,
        heading: &Heading,
        message: &[u8],
        output: &mut O,
    ) -> Result<Option<Reason>, RunFault>
        requires limit { heading.now.time ≤ latest_listed }
        requires known { IsSealedAs heading.now.seal message.now }
        requires clock { network.IsUntil self.old.network heading.now.time }
        requires room { (m : ℕ) × (m < most_frames) × HasRoomFor self.old m }
        requires sound { O.failed output.old ≡ false }
        ensures sink { SinkKept O.failed O.settings output.old output.new result }
        ensures early { self.new.early ≡ self.old.early }
        ensures clock { OnOk result (network.IsUntil self.new.network heading.now.time) }
        ensures room { (m : ℕ) → HasRoomFor self.old m → OnOk result (HasRoomFor self.new (m + 1)) }
        ensures told { (t : Rows) (start : Option (List ℕ)) (past : List Arrival) →
            TellsArrivals t self.old start (O.written output.old) past →
            OnOk result (TellsArrivals t self.new start (O.written output.new)
            (arrival_at n (listed_frame heading.now message.now) ∷ past)) }
        ensures some { (t : Rows) (start : Option (List ℕ)) (past : List Arrival) →
            TellsArrivals t self.old start (O.written output.old) past →
            OnErr result (WritesSome t start (O.written output.new) past
            ⊎ WritesSome t start (O.written output.new)
            (arrival_at n (listed_frame heading.now message.now) ∷ past)) }
        ensures reason { (t : Rows) (start : Option (List ℕ)) (past : List Arrival) →
            TellsArrivals t self.old start (O.written output.old) past →
            IfOk result (λ reason. reason ≡ reason_after t past
            (arrival_at n (listed_frame heading.now message.now))) }
    {
        self.tell_departures(heading.time, output)?;
        let (side, time, port) = (heading.side, heading.time, heading.port);
        let frame = heading.frame(message);
        let verdict = self.network.arrive(side, time, port, n, frame)?;
        let reason = tell_verdict(&mut self.counts, n, Site::on(side), &verdict, output)?;
        Ok(reason)
    }
}

impl<D: Write> Machine<Heading> for Replay<D> {
    ghost use Rattle.afdx_replay.specs.replaying.Told.{TellsItems, BeginsItems, TellsAll};

    ghost Rules = { Rows × Option (Device D) };

    ghost Can = { λ rules item. Unit {0} };

    ghost Told = { TellsItems D.contents };

    ghost Begins = { BeginsItems D.contents };

    ghost Done = { TellsAll D.contents };

    fn tell<O: Sink>(
        &mut self,
        n: u64,
        heading: &Heading,
        message: &[u8],
        output: &mut O,
    ) -> Result<(), RunFault> {
        let reason = self.tell_arrival(n, heading, message, output)?;
        explain(&mut self.early, &self.network, n, heading, message, reason);
        Ok(())
    }

    fn end<O: Sink>(&mut self, output: &mut O) -> Result<(), RunFault> {
        self.tell_departures(u64::MAX, output)?;
        Ok(())
    }
}

/// Replays a list of frames through the switches of both sides and the systems behind them.
///
/// Each line's events are handed to `output` before the next line is read: the frames that leave
/// before its frame arrives, and then what became of that; at the end, all that is still to leave.
/// A list that can't be read ends the run with its first fault; the text of the events up to the
/// line before stands written. The clause `defined`, of lawful tables (as all are; each reader of
/// `Tables` says so), joins this to the definition: whether the tables are admitted or not, a copy
/// is lost exactly where the one schedule of its port leaves no room, and the turns of each port
/// are that schedule. `RunFault::Read` and `RunFault::Write` come exactly where the
/// input's or the output's device failed; neither is tried again.
pub fn run_unadmitted<R: Read, W: Write>(
    alloc: Global,
    tables: &Tables,
    input: &mut Watched<R>,
    output: &mut Watched<W>,
) -> Result<Summary, RunFault>
    requires sound_input { has_failed input.old ≡ false }
    requires unended { has_ended input.old ≡ false }
    requires sound_output { has_failed output.old ≡ false }
    ensures ended { OnOk result (has_ended input.new ≡ true) }
    ensures read { has_failed input.new ≡ is_failed_read result }
    ensures write { has_failed output.new ≡ is_failed_write result }
    ensures calls { calls_of input.new ≤ calls_of input.old + most_reads }

    // Where the input's bytes are known: what is answered and written for the list that they are.
    ensures answer { IfSome (R.remaining (device_of input.old)) (λ bytes.
        Answers tables.now bytes (R.remaining (device_of input.new))
        (W.contents (device_of output.old)) (W.contents (device_of output.new)) result) }

    // And what is written is the text of events that are those of the definition of an output port.
    ensures defined { IsLawfulSwitch tables.now →
        IfSome (R.remaining (device_of input.old)) (λ bytes.
        DefinedAnswers tables.now bytes (R.remaining (device_of input.new))
        (W.contents (device_of output.old)) (W.contents (device_of output.new)) result) }
{
    let mut text = Text::new(alloc);
    let mut output = AtOnce::new(output, &mut text);
    // (there is no device that is told of frames that came too early: any kind serves)
    let mut replay: Replay<Stderr> = Replay::new(alloc, tables)?;
    let lines = run_list(alloc, FrameLines, &mut replay, input, &mut output)?;
    let mut summary = replay.counts;
    summary.lines = lines;
    Ok(summary)
}
