//! What is told of an event of several switches: its lines are put, it is counted, and by how much
//! a frame came too early is told to whom asks.

ghost use Rattle.std.specs.Prelude.{◌≡◌, ℕ, ◌<◌, ◌≤◌, ◌∷◌, [], List, Option, IfOk, OnOk, OnErr, length, None, false};
ghost use Rattle.afdx_cascade.specs.Cascade.{TellsArrival, TellsEvent};
ghost use Rattle.afdx_cascade.specs.Plans.{plan_of};
ghost use Rattle.afdx_cascade.specs.Runs.{event_at};
ghost use Rattle.afdx_cascade.specs.SwitchEvents.{SwitchEvent};
ghost use Rattle.afdx_cascade.specs.Turning.{IsCarried, switch_of};
ghost use Rattle.afdx_command_tables.specs.Counts.{no_counts};
ghost use Rattle.afdx_config.specs.Switches.{AreSwitches};
ghost use Rattle.afdx_input_lines.specs.Calls.{AppendsFront};
ghost use Rattle.afdx_input_lines.specs.declared.watched.Watched.{Watched as Device};
ghost use Rattle.afdx_network.specs.Events.{Departure as Turned, Left};
ghost use Rattle.afdx_network.specs.Network as network;
ghost use Rattle.std.specs.Io.KnownBytes.{Appends};
ghost use Rattle.afdx_text.specs.Sinks.{SinkKept};
ghost use Rattle.afdx_replay.specs.replaying.Replayed.{AreLow};
ghost use Rattle.afdx_replay.specs.cascading.Early.{HearsEarly};
ghost use Rattle.afdx_replay.specs.cascading.Text.{event_lines};
ghost use Rattle.afdx_input_runs.specs.ListText.{switch_name};
ghost use Rattle.afdx_replay.specs.cascading.Told as spec;
ghost use Rattle.afdx_replay.specs.cascading.Told.{AreSteady, SystemsAre, TellsOne};

use crate::early::{is_over_rate, tell_early};
use crate::replaying::telling::{tell_departure, tell_verdict};
use afdx_cascade::{Happened, SitedPort};
use afdx_command_tables::{NO_COUNTS, Summary};
use afdx_config::{SwitchId, Switches};
use afdx_end_systems::Systems;
use afdx_input_lines::{RunFault, Watched};
use afdx_switch::{Departure, Verdict};
use afdx_text::{OutLine, Sink, Site};
use std::alloc::{AllocError, Global};
use std::io::Write;

/// The systems of each switch, in the order of the file, at which nothing arrived.
fn new_systems(alloc: Global, switches: &Switches) -> Result<Vec<Systems>, AllocError>
    ensures switches { AreSwitches switches.now }
    ensures count { IfOk result (λ all. length all.items ≡ length switches.now) }
    ensures stands { IfOk result (λ all. SystemsAre switches.now all.items []) }
{
    let mut all = Vec::new(alloc);
    for place in 0..switches.id_count() {
        let tables = switches.tables(SwitchId(place));
        all.push(Systems::new(alloc, tables)?)?;
    }
    Ok(all)
}

/// What tells of the events at several switches: their names, the systems behind them, what was
/// counted, and a device that is told by how much frames came too early, if there is one.
#[derive(Drop)]
pub(crate) struct Teller<'a, D> {
    switches: &'a Switches,
    systems: Vec<Systems>,
    pub(crate) counts: Summary,
    pub(crate) early: Option<Watched<D>>,
}

impl<'a, D: Write> Teller<'a, D> {
    ghost use Rattle.afdx_replay.specs.cascading.Told.{IsFor};

    /// It has told nothing yet, and tells nobody of frames that came too early.
    pub(crate) fn new(alloc: Global, switches: &'a Switches) -> Result<Teller<'a, D>, AllocError>
        ensures fits { IfOk result (IsFor switches.entry.now) }
        ensures stands { IfOk result (λ t. SystemsAre switches.entry.now t.systems.items []) }
        ensures counts { IfOk result (λ t. t.counts ≡ no_counts) }
        ensures early { IfOk result (λ t. t.early ≡ None) }
    {
        let systems = new_systems(alloc, switches)?;
        Ok(Teller {
            switches,
            systems,
            counts: NO_COUNTS,
            early: None,
        })
    }

    /// Tells a frame that left a switch and that a cable carries now: nothing hears it there.
    fn tell_carried<O: Sink>(
        &mut self,
        at: SitedPort,
        time: u64,
        tag: u64,
        output: &mut O,
    ) -> Result<(), RunFault>
        requires within { at.switch.0 < length self.old.systems.items }
        requires fits { IsFor self.old.switches.now self.old }
        requires low { AreLow self.old.counts }
        requires sound { O.failed output.old ≡ false }
        ensures sink { SinkKept O.failed O.settings output.old output.new result }
        ensures fits { OnOk result (IsFor self.old.switches.now self.new) }
        ensures steady { AreSteady self.old.counts → OnOk result (AreSteady self.new.counts) }
        ensures early { self.new.early ≡ self.old.early }
        ensures told { (before : List SwitchEvent) (d : Turned) →
            SystemsAre self.old.switches.now self.old.systems.items before →
            IsCarried (plan_of self.old.switches.now) at time tag d →
            OnOk result (TellsOne self.old.switches.now self.new.systems.items
            self.old.counts self.new.counts (O.written output.old) (O.written output.new)
            before (event_at at.switch.0 (Left d))) }
        ensures begun { (before : List SwitchEvent) (d : Turned) →
            IsCarried (plan_of self.old.switches.now) at time tag d →
            OnErr result (AppendsFront (O.written output.old) (O.written output.new)
            (event_lines self.old.switches.now before (event_at at.switch.0 (Left d)))) }
    {
        let name = self.switches.name(at.switch);
        let line = OutLine::Left {
            n: tag,
            time,
            site: Site {
                side: at.side,
                switch: name,
            },
            port: at.port,
            too_old: false,
        };
        output.put(&line)?;
        self.counts.departed += 1;
        Ok(())
    }

    /// Tells a frame that left a switch, and the switches, or was dropped there.
    fn tell_ended<O: Sink>(
        &mut self,
        switch: SwitchId,
        departure: Departure,
        output: &mut O,
    ) -> Result<(), RunFault>
        requires within { switch.0 < length self.old.systems.items }
        requires fits { IsFor self.old.switches.now self.old }
        requires low { AreLow self.old.counts }
        requires sound { O.failed output.old ≡ false }
        ensures sink { SinkKept O.failed O.settings output.old output.new result }
        ensures fits { OnOk result (IsFor self.old.switches.now self.new) }
        ensures steady { AreSteady self.old.counts → OnOk result (AreSteady self.new.counts) }
        ensures early { self.new.early ≡ self.old.early }
        ensures told { (before : List SwitchEvent) (d : Turned) →
            SystemsAre self.old.switches.now self.old.systems.items before →
            network.Hands departure d →
            OnOk result (TellsOne self.old.switches.now self.new.systems.items
            self.old.counts self.new.counts (O.written output.old) (O.written output.new)
            before (event_at switch.0 (Left d))) }
        ensures begun { (before : List SwitchEvent) (d : Turned) →
            SystemsAre self.old.switches.now self.old.systems.items before →
            network.Hands departure d →
            OnErr result (AppendsFront (O.written output.old) (O.written output.new)
            (event_lines self.old.switches.now before (event_at switch.0 (Left d)))) }
    {
        let name = self.switches.name(switch);
        let place = switch.index();
        let systems = &mut self.systems[place];
        let counts = &mut self.counts;
        tell_departure::<Teller<'a, D>, O>(systems, counts, name, &departure, output)
    }

    /// Tells a frame that came to this port of a switch, of the list or over a cable, what became
    /// of it, and by how much it came too early, if it was dropped for its link's rate.
    #[inline(always)]
    pub(crate) fn tell_arrival<O: Sink>(
        &mut self,
        at: SitedPort,
        tag: u64,
        verdict: Verdict,
        early: u64,
        output: &mut O,
    ) -> Result<(), RunFault>
        requires within { at.switch.0 < length self.old.systems.items }
        requires fits { IsFor self.old.switches.now self.old }
        requires low { AreLow self.old.counts }
        requires sound { O.failed output.old ≡ false }
        ensures sink { SinkKept O.failed O.settings output.old output.new result }
        ensures fits { OnOk result (IsFor self.old.switches.now self.new) }
        ensures steady { AreSteady self.old.counts → OnOk result (AreSteady self.new.counts) }
        ensures told { (before : List SwitchEvent) (h : SwitchEvent) →
            SystemsAre self.old.switches.now self.old.systems.items before →
            TellsArrival (plan_of self.old.switches.now) before at tag verdict early h →
            OnOk result (TellsOne self.old.switches.now self.new.systems.items
            self.old.counts self.new.counts (O.written output.old) (O.written output.new)
            before h) }
        ensures heard { (before : List SwitchEvent) (h : SwitchEvent) (start : Option (Device D)) →
            TellsArrival (plan_of self.old.switches.now) before at tag verdict early h →
            HearsEarly D.contents self.old.switches.now start self.old.early before →
            OnOk result
            (HearsEarly D.contents self.old.switches.now start self.new.early (h ∷ before)) }
        ensures kept { OnErr result (self.new.early ≡ self.old.early) }
        ensures begun { (before : List SwitchEvent) (h : SwitchEvent) →
            TellsArrival (plan_of self.old.switches.now) before at tag verdict early h →
            OnErr result (AppendsFront (O.written output.old) (O.written output.new)
            (event_lines self.old.switches.now before h)) }
    {
        let site = Site {
            side: at.side,
            switch: self.switches.name(at.switch),
        };
        let reason = tell_verdict(&mut self.counts, tag, site, &verdict, output)?;
        if let Some(drops) = &mut self.early {
            if is_over_rate(reason) {
                tell_early(drops, tag, Some(site), early);
            }
        }
        Ok(())
    }

    /// Tells what happened.
    pub(crate) fn tell_event<O: Sink>(
        &mut self,
        happened: Happened,
        output: &mut O,
    ) -> Result<(), RunFault>
        requires within { switch_of happened < length self.old.systems.items }
        requires fits { IsFor self.old.switches.now self.old }
        requires low { AreLow self.old.counts }
        requires sound { O.failed output.old ≡ false }
        ensures sink { SinkKept O.failed O.settings output.old output.new result }
        ensures fits { OnOk result (IsFor self.old.switches.now self.new) }
        ensures steady { AreSteady self.old.counts → OnOk result (AreSteady self.new.counts) }
        ensures told { (before : List SwitchEvent) (h : SwitchEvent) →
            SystemsAre self.old.switches.now self.old.systems.items before →
            TellsEvent (plan_of self.old.switches.now) before happened h →
            OnOk result (TellsOne self.old.switches.now self.new.systems.items
            self.old.counts self.new.counts (O.written output.old) (O.written output.new)
            before h) }
        ensures heard { (before : List SwitchEvent) (h : SwitchEvent) (start : Option (Device D)) →
            TellsEvent (plan_of self.old.switches.now) before happened h →
            HearsEarly D.contents self.old.switches.now start self.old.early before →
            OnOk result
            (HearsEarly D.contents self.old.switches.now start self.new.early (h ∷ before)) }
        ensures kept { OnErr result (self.new.early ≡ self.old.early) }
        ensures begun { (before : List SwitchEvent) (h : SwitchEvent) →
            SystemsAre self.old.switches.now self.old.systems.items before →
            TellsEvent (plan_of self.old.switches.now) before happened h →
            OnErr result (AppendsFront (O.written output.old) (O.written output.new)
            (event_lines self.old.switches.now before h)) }
    {
        match happened {
            Happened::Ended { switch, departure } => self.tell_ended(switch, departure, output),
            Happened::Carried { at, time, tag } => self.tell_carried(at, time, tag, output),
            Happened::Came {
                at,
                tag,
                verdict,
                early,
                ..
            } => self.tell_arrival(at, tag, verdict, early, output),
        }
    }
}

impl<'a, D: Write + Drop> Teller<'a, D> {
    /// The same, which tells this device, if there is one, of frames that came too early.
    pub(crate) fn with_early(self, early: Option<Watched<D>>) -> Teller<'a, D>
        ensures switches { result.switches.now ≡ self.entry.switches.now }
        ensures systems { result.systems ≡ self.entry.systems }
        ensures counts { result.counts ≡ self.entry.counts }
        ensures early { result.early ≡ early }
    {
        let Teller {
            switches,
            systems,
            counts,
            ..
        } = self;
        Teller {
            switches,
            systems,
            counts,
            early,
        }
    }
}
