//! Several switches on each side, joined by cables, as one.

ghost use Rattle.std.specs.Prelude.{◌≡◌, ℕ, ◌<◌, ◌≤◌, List, [], IfOk, IfSome, IfNone, OnErr, None};
ghost use Rattle.afdx_frame.specs.Parts.{bytes_of};
ghost use Rattle.afdx_port.specs.Times.{latest_put};

use crate::arriving::{arrive_at, early_at};
use crate::build::{new_ends, new_keys, new_networks};
use crate::cable::InTransit;
use crate::scan::{first_of, least_of, renew};
use crate::taking::{bring_next, turn_next};
use crate::told::{Happened, SitedPort};
use afdx_config::{FarEnd, SwitchId, Switches};
use afdx_frame::{Checked, Side};
use afdx_network::Network;
use afdx_switch::Verdict;
use std::alloc::{AllocError, Global};
use std::collections::VecDeque;

/// The switches of both sides, and what cables carry now. A contract speaks of them as what they
/// stand for: a list of all events so far, the newest first.
#[derive(Drop)]
pub struct Cascade {
    networks: Vec<Network>,
    /// Of each switch the key by which its first turn is found among those of all.
    keys: Vec<u64>,
    /// The least key.
    least: u64,
    ends: Vec<Option<FarEnd>>,
    transit: VecDeque<InTransit>,
}

impl Cascade {
    ghost use Rattle.afdx_police.specs.Arrival.{arrival_with};
    ghost use Rattle.afdx_switch.specs.Early.{IsEarlyBy};
    ghost use Rattle.afdx_switch.specs.Verdicts.{shape_fault};
    ghost use Rattle.afdx_cascade.specs.Plans.{plan_of};
    ghost use Rattle.afdx_cascade.specs.SwitchEvents.{Plan, SwitchEvent, came_to};
    ghost use Rattle.afdx_cascade.specs.Cascade.{StandsFor, IsSound, IsUntil, IsQuiet, IsUnchanged};
    ghost use Rattle.afdx_cascade.specs.Cascade.{GivesNext, GivesNone, ArrivesNext, IsToCome};
    ghost use Rattle.afdx_cascade.specs.Cascade.{line_at, switch_count};

    /// The switches of a configuration at time 0, with empty cables. It looks up the ends of all
    /// cables once. The error says that memory was refused.
    pub fn new(alloc: Global, switches: &Switches) -> Result<Cascade, AllocError>
        ensures stands { IfOk result (λ w. StandsFor (plan_of switches.now) w []) }
        ensures clock { IfOk result (λ w. IsUntil w 0) }
    {
        let networks = new_networks(alloc, switches)?;
        let keys = new_keys(alloc, &networks)?;
        let least = least_of(&keys);
        let ends = new_ends(alloc, switches)?;
        Ok(Cascade {
            networks,
            keys,
            least,
            ends,
            transit: VecDeque::new(alloc),
        })
    }

    /// A frame of the list arrives at `time`, in ns, at a port of a switch of a side, where no
    /// cable is. That switch filters and polices it and offers it to the output ports of
    /// its link.
    ///
    /// `time` isn't before the last time used and is at most 1,000,032,768,000,000;
    /// `take(time)` would give nothing. `tag` is handed back with the frame's events. The error
    /// says that memory was refused: then nothing has changed. A frame that is dropped for its
    /// shape needs none.
    pub fn arrive(
        &mut self,
        switch: SwitchId,
        side: Side,
        time: u64,
        port: u8,
        tag: u64,
        frame: Checked<'_>,
    ) -> Result<Verdict, AllocError>
        requires within { switch.0 < switch_count self.old }
        requires limit { time ≤ latest_put }
        requires clock { IsUntil self.old time }
        requires quiet { IsQuiet self.old time }
        ensures next { (c : Plan) (so_far : List SwitchEvent) → StandsFor c self.old so_far →
            c.far_end switch.0 port ≡ None →
            let line = line_at switch.0 (arrival_with tag time side port (bytes_of frame.entry)) in
            IfOk result (ArrivesNext c self.new so_far line) }
        ensures judged { (c : Plan) (so_far : List SwitchEvent) → StandsFor c self.old so_far →
            let x = arrival_with tag time side port (bytes_of frame.entry) in
            OnErr result (shape_fault (c.tables switch.0) x ≡ None) }
        ensures refused { OnErr result (IsUnchanged self.old self.new) }
    {
        let to = SitedPort { switch, side, port };
        let verdict = arrive_at(&mut self.networks, to, time, tag, frame)?;
        self.least = renew(&mut self.keys, self.least, &self.networks, switch);
        Ok(verdict)
    }

    /// By how many nanoseconds a frame comes too early that arrives at a switch of a side at
    /// `time`, if none comes before it: the least wait after which its link's account
    /// there covers it, 0 for one that would be accepted. Of one with something wrong in its shape
    /// it says nothing.
    pub fn early(
        &self,
        switch: SwitchId,
        side: Side,
        time: u64,
        port: u8,
        frame: Checked<'_>,
    ) -> u64
        requires within { switch.0 < switch_count self.now }
        requires clock { IsUntil self.now time }
        ensures { (c : Plan) (so_far : List SwitchEvent) (tag : ℕ) → StandsFor c self.now so_far →
            let arrival = arrival_with tag time side port (bytes_of frame.entry) in
            shape_fault (c.tables switch.0) arrival ≡ None →
            IsEarlyBy (c.tables switch.0) (came_to switch.0 so_far) arrival result }
    {
        early_at(
            &self.networks,
            SitedPort { switch, side, port },
            time,
            frame,
        )
    }

    /// The next event of all that happen before a frame of the list that arrives at `until`, in ns:
    /// a turn that is over, or the arrival of a frame that a cable brings. If `until` is 1.2e15 or
    /// later, None says that these were all events.
    ///
    /// `until` isn't before the last time used. The error says that memory was refused: then
    /// nothing has changed, and the event is still to come. It is no frame that is dropped for its
    /// shape.
    pub fn take(&mut self, until: u64) -> Result<Option<Happened>, AllocError>
        requires sound { IsSound self.old }
        requires clock { IsUntil self.old until }
        ensures given { (c : Plan) (so_far : List SwitchEvent) → StandsFor c self.old so_far →
            IfOk result (λ o. IfSome o (GivesNext c self.new until so_far)) }
        ensures none { (c : Plan) (so_far : List SwitchEvent) → StandsFor c self.old so_far →
            IfOk result (λ o. IfNone o (GivesNone c self.new until so_far)) }
        ensures judged { (c : Plan) (so_far : List SwitchEvent) → StandsFor c self.old so_far →
            OnErr result (IsToCome c until so_far) }
        ensures refused { OnErr result (IsUnchanged self.old self.new) }
    {
        let first = first_of(self.least);
        if let Some(brought) = bring_next(&mut self.networks, &mut self.transit, first)? {
            let switch = brought.switch();
            self.least = renew(&mut self.keys, self.least, &self.networks, switch);
            return Ok(Some(brought));
        }
        let (ends, transit) = (&self.ends, &mut self.transit);
        match turn_next(&mut self.networks, ends, transit, first, until)? {
            Some(turned) => {
                let switch = first.switch;
                self.least = renew(&mut self.keys, self.least, &self.networks, switch);
                Ok(Some(turned))
            }
            None => Ok(None),
        }
    }
}
