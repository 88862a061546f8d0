//! A frame arrives at one of several switches, or a turn of one of them is over. Of networks, the
//! one of a switch stands at its place.

ghost use Rattle.std.specs.Prelude.{◌≡◌, ℕ, ◌<◌, ◌≤◌, ◌∷◌, List, OnOk, IfOk, OnErr, None, Some, length, slice_get};
ghost use Rattle.afdx_frame.specs.Parts.{bytes_of};
ghost use Rattle.afdx_port.specs.Times.{latest_put};
ghost use Rattle.afdx_police.specs.Arrival.{arrival_with};
ghost use Rattle.afdx_police.specs.Verdicts.{is_over_rate as over_rate};
ghost use Rattle.afdx_network.specs.declared.network.Network.{Network as At};
ghost use Rattle.afdx_network.specs.Network as network;
ghost use Rattle.afdx_network.specs.Events.{admission_after};
ghost use Rattle.afdx_cascade.specs.Due.{OnCable};
ghost use Rattle.afdx_port.specs.History.{left_of};
ghost use Rattle.afdx_switch.specs.Departures.{as_given, giving_side};
ghost use Rattle.afdx_cascade.specs.Cables.{brought};
ghost use Rattle.afdx_cascade.specs.SwitchEvents.{Plan, IsPlan, SwitchEvent, came_to, end_at};
ghost use Rattle.afdx_cascade.specs.Runs.{arriving};
ghost use Rattle.afdx_cascade.specs.Found.{AllStand};
ghost use Rattle.afdx_cascade.specs.Keys.{AreOthersSame};
ghost use Rattle.afdx_cascade.specs.Standing.{Stands};
ghost use Rattle.afdx_switch.specs.Early.{IsEarlyBy};
ghost use Rattle.afdx_switch.specs.Verdicts.{shape_fault};
ghost use Rattle.afdx_cascade.specs.Turning.{GivesAt, WasEarlyBy};

use crate::scan::FirstTurn;
use crate::told::SitedPort;
use afdx_config::SwitchId;
use afdx_frame::Checked;
use afdx_network::Network;
use afdx_police::Reason;
use afdx_switch::{Departure, Verdict};
use std::alloc::AllocError;

/// A frame of the list arrives at a switch, at a port where no cable is. The error says that memory
/// was refused: then nothing has changed. A frame that is dropped for its shape needs none.
pub(crate) fn arrive_at(
    networks: &mut [Network],
    to: SitedPort,
    time: u64,
    tag: u64,
    frame: Checked<'_>,
) -> Result<Verdict, AllocError>
    requires within { to.switch.0 < length networks.old }
    requires limit { time ≤ latest_put }
    requires clock { (k : ℕ) (n : At) → slice_get networks.old k ≡ Some n →
        network.IsUntil n time }
    requires quiet { (n : At) → slice_get networks.old to.switch.0 ≡ Some n →
        network.IsQuiet n time }
    ensures clock { (k : ℕ) (n : At) → slice_get networks.new k ≡ Some n →
        network.IsUntil n time }
    ensures still { (n : At) → slice_get networks.new to.switch.0 ≡ Some n →
        network.IsQuiet n time }
    ensures length { length networks.new ≡ length networks.old }
    ensures others { AreOthersSame to.switch.0 networks.old networks.new }
    ensures stands { (c : Plan) (at : ℕ) (ring : List OnCable) (so_far : List SwitchEvent) →
        Stands c networks.old at ring so_far → c.far_end to.switch.0 to.port ≡ None →
        let x = arrival_with tag time to.side to.port (bytes_of frame.entry) in
        OnOk result (Stands c networks.new at ring (arriving c so_far to.switch.0 x ∷ so_far)) }
    ensures verdict { (c : Plan) (at : ℕ) (ring : List OnCable) (so_far : List SwitchEvent) →
        Stands c networks.old at ring so_far →
        let x = arrival_with tag time to.side to.port (bytes_of frame.entry) in
        IfOk result (λ verdict. network.Tells verdict
        (admission_after (c.tables to.switch.0) (came_to to.switch.0 so_far) x)) }
    ensures judged { (c : Plan) (at : ℕ) (ring : List OnCable) (so_far : List SwitchEvent) →
        Stands c networks.old at ring so_far →
        let x = arrival_with tag time to.side to.port (bytes_of frame.entry) in
        OnErr result (shape_fault (c.tables to.switch.0) x ≡ None) }
    ensures refused { OnErr result (networks.new ≡ networks.old) }
{
    let place = to.switch.index();
    networks[place].arrive(to.side, time, to.port, tag, frame)
}

/// By how many nanoseconds a frame comes too early that arrives at a switch at `time`, if none
/// comes before it.
pub(crate) fn early_at(networks: &[Network], to: SitedPort, time: u64, frame: Checked<'_>) -> u64
    requires within { to.switch.0 < length networks.now }
    requires clock { (n : At) → slice_get networks.now to.switch.0 ≡ Some n →
        network.IsUntil n time }
    ensures { (c : Plan) (so_far : List SwitchEvent) (tag : ℕ) → AllStand c networks.now so_far →
        let x = arrival_with tag time to.side to.port (bytes_of frame.entry) in
        shape_fault (c.tables to.switch.0) x ≡ None →
        IsEarlyBy (c.tables to.switch.0) (came_to to.switch.0 so_far) x result }
{
    let place = to.switch.index();
    networks[place].early(to.side, time, to.port, frame)
}

/// The first turn of all switches, which is given by `until`.
pub(crate) fn take_at(networks: &mut [Network], first: FirstTurn, until: u64) -> Departure
    requires within { first.switch.0 < length networks.old }
    requires clock { (k : ℕ) (n : At) → slice_get networks.old k ≡ Some n →
        network.IsUntil n until }
    requires first { (n : At) → slice_get networks.old first.switch.0 ≡ Some n →
        network.IsFirstBy n until first.side }
    ensures clock { (k : ℕ) (n : At) → slice_get networks.new k ≡ Some n →
        network.IsUntil n until }
    ensures length { length networks.new ≡ length networks.old }
    ensures others { AreOthersSame first.switch.0 networks.old networks.new }
    ensures gives { (c : Plan) (at : ℕ) (ring : List OnCable) (so_far : List SwitchEvent) →
        IsPlan c → Stands c networks.old at ring so_far →
        GivesAt c networks.new at ring so_far first.switch.0 until result }
{
    let place = first.switch.index();
    networks[place].take_first(first.side, until)
}

/// A frame that left another switch arrives at the end of its cable, at a port of this one, when it
/// left. The error says that memory was refused: then nothing has changed. A frame that is dropped
/// for its shape needs none.
pub(crate) fn bring_at(
    networks: &mut [Network],
    switch: SwitchId,
    port: u8,
    departure: &Departure,
) -> Result<Verdict, AllocError>
    requires within { switch.0 < length networks.old }
    requires limit { (as_given departure.now).end ≤ latest_put }
    requires clock { (k : ℕ) (n : At) → slice_get networks.old k ≡ Some n →
        network.IsUntil n (as_given departure.now).end }
    requires quiet { (n : At) → slice_get networks.old switch.0 ≡ Some n →
        network.IsQuiet n (as_given departure.now).end }
    ensures clock { (k : ℕ) (n : At) → slice_get networks.new k ≡ Some n →
        network.IsUntil n (as_given departure.now).end }
    ensures still { (n : At) → slice_get networks.new switch.0 ≡ Some n →
        network.IsQuiet n (as_given departure.now).end }
    ensures length { length networks.new ≡ length networks.old }
    ensures others { AreOthersSame switch.0 networks.old networks.new }
    ensures stands { (c : Plan) (at : ℕ) (r : OnCable) (rest : List OnCable)
        (so_far : List SwitchEvent) → IsPlan c →
        Stands c networks.old at (r ∷ rest) so_far →
        c.far_end r.from.switch r.from.port ≡ Some (end_at switch.0 port) →
        giving_side departure.now ≡ r.side → as_given departure.now ≡ left_of r.turn →
        OnOk result (Stands c networks.new at rest
        (arriving c so_far switch.0 (brought r.side port r.turn) ∷ so_far)) }
    ensures verdict { (c : Plan) (at : ℕ) (r : OnCable) (rest : List OnCable)
        (so_far : List SwitchEvent) → Stands c networks.old at (r ∷ rest) so_far →
        giving_side departure.now ≡ r.side → as_given departure.now ≡ left_of r.turn →
        IfOk result (λ verdict. network.Tells verdict
        (admission_after (c.tables switch.0) (came_to switch.0 so_far)
        (brought r.side port r.turn))) }
    ensures judged { (c : Plan) (at : ℕ) (r : OnCable) (rest : List OnCable)
        (so_far : List SwitchEvent) → Stands c networks.old at (r ∷ rest) so_far →
        giving_side departure.now ≡ r.side → as_given departure.now ≡ left_of r.turn →
        OnErr result (shape_fault (c.tables switch.0) (brought r.side port r.turn) ≡ None) }
    ensures refused { OnErr result (networks.new ≡ networks.old) }
{
    let place = switch.index();
    networks[place].arrive(
        departure.side(),
        departure.time(),
        port,
        departure.tag(),
        departure.frame(),
    )
}

/// Gives a departure back to the switch that it was from, if it is one of these.
pub(crate) fn give_back_at(networks: &mut [Network], switch: SwitchId, departure: Departure)
    ensures { networks.new ≡ networks.old }
{
    let place = switch.index();
    if place < networks.len() {
        networks[place].give_back(departure);
    }
}

/// Whether a frame with this verdict was dropped for its link's rate.
fn is_over_rate(verdict: Verdict) -> bool
    ensures { result ≡ over_rate (network.reason_in verdict) }
{
    match verdict {
        Verdict::Dropped(Reason::OverRate) => true,
        _ => false,
    }
}

/// By how many nanoseconds a frame came too early that left another switch and arrived at a port of
/// this one, with this verdict, if it was dropped for its link's rate; else 0.
pub(crate) fn early_by(
    networks: &[Network],
    switch: SwitchId,
    port: u8,
    departure: &Departure,
    verdict: Verdict,
) -> u64
    requires within { switch.0 < length networks.now }
    requires clock { (n : At) → slice_get networks.now switch.0 ≡ Some n →
        network.IsUntil n (as_given departure.now).end }
    ensures { (c : Plan) (so_far : List SwitchEvent) (r : OnCable) →
        let x = brought r.side port r.turn in
        AllStand c networks.now (arriving c so_far switch.0 x ∷ so_far) →
        giving_side departure.now ≡ r.side → as_given departure.now ≡ left_of r.turn →
        network.Tells verdict (admission_after (c.tables switch.0) (came_to switch.0 so_far) x) →
        WasEarlyBy (c.tables switch.0) (came_to switch.0 so_far) x result }
{
    if !is_over_rate(verdict) {
        return 0;
    }
    let time = departure.time();
    let frame = departure.frame();
    let to = SitedPort {
        switch,
        side: departure.side(),
        port,
    };
    early_at(networks, to, time, frame)
}
