//! A run that replays a list through several switches on each side and the systems behind them.

ghost use Rattle.std.specs.Prelude.{◌≡◌, ◌<◌, ◌≤◌, ◌*◌, ◌⊎◌, ◌∷◌, [], ℕ, List, Option, Some, None, IfOk, OnOk, OnErr, length, false};
ghost use Rattle.afdx_cascade.specs.Cascade as cascade;
ghost use Rattle.afdx_cascade.specs.Plans.{plan_of};
ghost use Rattle.afdx_cascade.specs.Runs.{Line};
ghost use Rattle.afdx_cascade.specs.SwitchEvents.{SwitchEvent};
ghost use Rattle.afdx_config.specs.Switches.{NamedRows};
ghost use Rattle.afdx_input_sources.specs.Items.{arrival_on, most_frames};
ghost use Rattle.afdx_frame.specs.Seals.{IsSealedAs};
ghost use Rattle.afdx_frame.specs.Times.{latest_listed};
ghost use Rattle.afdx_input_lines.specs.declared.watched.Watched.{Watched as Device};
ghost use Rattle.afdx_port.specs.Times.{drain_end};
ghost use Rattle.afdx_text.specs.Sinks.{SinkKept};
ghost use Rattle.afdx_replay.specs.cascading.Ran.{TellerToldAll, TellerToldSome};
ghost use Rattle.afdx_replay.specs.cascading.Told.{AreFirst, AreInTime, AreSteady, BringsLine, HasTold, ToldUntil};

use crate::cascading::teller::Teller;
use crate::early::is_over_rate;
use crate::replaying::lines::reason_of;
use afdx_cascade::{Cascade, SitedPort};
use afdx_config::{SwitchId, Switches};
use afdx_input_lines::{Heading, RunFault};
use afdx_input_sources::Machine;
use afdx_switch::Verdict;
use afdx_text::Sink;
use std::alloc::{AllocError, Global};
use std::io::Write;

/// What a replay of several switches works with.
#[derive(Drop)]
pub(crate) struct Cascading<'a, D> {
    pub(crate) cascade: Cascade,
    pub(crate) teller: Teller<'a, D>,
}

impl<'a, D: Write> Cascading<'a, D> {
    /// It has told nothing yet, and tells nobody of frames that came too early.
    pub(crate) fn new(alloc: Global, switches: &'a Switches) -> Result<Cascading<'a, D>, AllocError>
        ensures told { (output : Option (List ℕ)) → IfOk result (λ w.
            HasTold D.contents switches.entry.now w.cascade w.teller None output output []) }
        ensures clock { IfOk result (λ w. cascade.IsUntil w.cascade 0) }
        ensures steady { IfOk result (λ w. AreSteady w.teller.counts) }
    {
        let cascade = Cascade::new(alloc, switches)?;
        let teller = Teller::new(alloc, switches)?;
        Ok(Cascading { cascade, teller })
    }

    /// Tells what happens before a frame of the list that comes at `until`, in ns.
    fn tell_events<O: Sink>(&mut self, until: u64, output: &mut O) -> Result<(), RunFault>
        requires clock { cascade.IsUntil self.old.cascade until }
        requires steady { AreSteady self.old.teller.counts }
        requires room { (s : List NamedRows) × (start : Option (Device D))
            × (first : Option (List ℕ)) × (past : List Line) × (events : List SwitchEvent)
            × HasTold D.contents s self.old.cascade self.old.teller start first
            (O.written output.old) events
            × AreFirst s past until events × (length past ≤ most_frames) }
        requires sound { O.failed output.old ≡ false }
        ensures sink { SinkKept O.failed O.settings output.old output.new result }
        ensures clock { OnOk result (cascade.IsUntil self.new.cascade until) }
        ensures quiet { OnOk result (cascade.IsQuiet self.new.cascade until) }
        ensures steady { OnOk result (AreSteady self.new.teller.counts) }
        ensures told { (s : List NamedRows) (start : Option (Device D))
            (first : Option (List ℕ)) (past : List Line) (events : List SwitchEvent) →
            HasTold D.contents s self.old.cascade self.old.teller start first
            (O.written output.old) events → AreFirst s past until events →
            OnOk result (ToldUntil D.contents s self.new.cascade self.new.teller start first
            (O.written output.new) past until) }
        ensures begun { (s : List NamedRows) (start : Option (Device D))
            (first : Option (List ℕ)) (past : List Line) (events : List SwitchEvent) →
            HasTold D.contents s self.old.cascade self.old.teller start first
            (O.written output.old) events → AreFirst s past until events →
            OnErr result (TellerToldSome D.contents s past start self.new.teller first
            (O.written output.new)) }
        ensures all_done { (s : List NamedRows) (start : Option (Device D))
            (first : Option (List ℕ)) (past : List Line) (events : List SwitchEvent) →
            HasTold D.contents s self.old.cascade self.old.teller start first
            (O.written output.old) events → AreFirst s past until events → AreInTime past →
            drain_end ≤ until → OnOk result (TellerToldAll D.contents s past start
            self.new.teller first (O.written output.new)) }
    {
        while let Some(happened) = self.cascade.take(until)? {
            self.teller.tell_event(happened, output)?;
        }
        Ok(())
    }

    /// A frame of the list arrives, before which all that happens is told. What became of it, and
    /// by how many ns it came too early, if it was dropped for its link's rate, else 0.
    fn arrive(
        &mut self,
        n: u64,
        heading: &Heading,
        message: &[u8],
    ) -> Result<(Verdict, u64), AllocError>
        requires within { heading.now.switch < cascade.switch_count self.old.cascade }
        requires limit { heading.now.time ≤ latest_listed }
        requires known { IsSealedAs heading.now.seal message.now }
        requires clock { cascade.IsUntil self.old.cascade heading.now.time }
        requires quiet { cascade.IsQuiet self.old.cascade heading.now.time }
        requires stands { (s : List NamedRows) × (so_far : List SwitchEvent)
            × cascade.StandsFor (plan_of s) self.old.cascade so_far
            × ((plan_of s).far_end heading.now.switch heading.now.port ≡ None) }
        ensures teller { self.new.teller ≡ self.old.teller }
        ensures next { (s : List NamedRows) (so_far : List SwitchEvent) →
            cascade.StandsFor (plan_of s) self.old.cascade so_far →
            (plan_of s).far_end heading.now.switch heading.now.port ≡ None →
            IfOk result (BringsLine s self.new.cascade so_far
            (cascade.line_at heading.now.switch (arrival_on n heading.now message.now))) }
        ensures clock { OnOk result (cascade.IsUntil self.new.cascade heading.now.time) }
    {
        let switch = SwitchId(heading.switch);
        let (side, time, port) = (heading.side, heading.time, heading.port);
        let frame = heading.frame(message);
        let verdict = self.cascade.arrive(switch, side, time, port, n, frame)?;
        let early = if is_over_rate(reason_of(&verdict)) {
            self.cascade.early(switch, side, time, port, frame)
        } else {
            0
        };
        Ok((verdict, early))
    }
}

impl<D: Write> Machine<Heading> for Cascading<'_, D> {
    ghost use Rattle.afdx_replay.specs.cascading.Items.{TellsItems, BeginsItems, TellsAll};
    ghost use Rattle.afdx_replay.specs.cascading.Sited.{IsAtPlace};

    ghost Rules = { List NamedRows × Option (Device D) };

    ghost Can = { λ rules item. IsAtPlace rules.0 item };

    ghost Told = { TellsItems D.contents };

    ghost Begins = { BeginsItems D.contents };

    ghost Done = { TellsAll D.contents };

    fn tell<O: Sink>(
        &mut self,
        n: u64,
        heading: &Heading,
        message: &[u8],
        output: &mut O,
    ) -> Result<(), RunFault> {
        self.tell_events(heading.time, output)?;
        let arrived = self.arrive(n, heading, message)?;
        let (verdict, early) = arrived;
        let at = SitedPort {
            switch: SwitchId(heading.switch),
            side: heading.side,
            port: heading.port,
        };
        self.teller.tell_arrival(at, n, verdict, early, output)
    }

    fn end<O: Sink>(&mut self, output: &mut O) -> Result<(), RunFault> {
        self.tell_events(u64::MAX, output)
    }
}
