//! A turn of one of several switches is over, or the frame at the front of the ring arrives. The
//! ring holds the frames that cables carry now, in the order in which they arrive.

ghost use Rattle.std.specs.Prelude.{◌≡◌, ℕ, ◌+◌, ◌*◌, ◌<◌, ◌≤◌, ◌∷◌, List, IfOk, OnErr, Some, None, length, slice_get};
ghost use Rattle.std.specs.VecDeque.{deque_len, deque_capacity};
ghost use Rattle.afdx_switch.specs.Departures.{as_given};
ghost use Rattle.afdx_switch.specs.Verdicts.{shape_fault};
ghost use Rattle.afdx_network.specs.declared.network.Network.{Network as At};
ghost use Rattle.afdx_network.specs.Network as network;
ghost use Rattle.afdx_cascade.specs.Due.{OnCable};
ghost use Rattle.afdx_cascade.specs.SwitchEvents.{Plan, IsPlan, SwitchEvent};
ghost use Rattle.afdx_cascade.specs.Keys.{AreOthersSame};
ghost use Rattle.afdx_cascade.specs.Scan.{switches_most};
ghost use Rattle.afdx_cascade.specs.Standing.{Stands};
ghost use Rattle.afdx_cascade.specs.Cables.{brought};
ghost use Rattle.afdx_cascade.specs.Turning.{AreEnds, AreInTransit, IsInTransit, TurnsAt, ArrivesAt};
ghost use Rattle.afdx_cascade.specs.Turning.{CanArrive, switch_of};

use crate::arriving::{bring_at, early_by, give_back_at, take_at};
use crate::cable::{InTransit, far_end};
use crate::scan::FirstTurn;
use crate::told::{Happened, SitedPort};
use afdx_config::{FarEnd, SwitchId};
use afdx_network::Network;
use std::alloc::AllocError;
use std::collections::VecDeque;

/// The latest time at which a frame may arrive, in ns: what leaves later arrives nowhere.
const LATEST_ARRIVAL: u64 = 1_000_032_768_000_000;

/// The first turn of all switches, which is given by `until`. A frame that a cable then carries
/// joins the ring, which has room for it.
pub(crate) fn turn_at(
    networks: &mut [Network],
    ends: &[Option<FarEnd>],
    transit: &mut VecDeque<InTransit>,
    first: FirstTurn,
    until: u64,
) -> Happened
    requires within { first.switch.0 < length networks.old }
    requires few { length networks.old ≤ switches_most }
    requires clock { (k : ℕ) (n : At) → slice_get networks.old k ≡ Some n →
        network.IsUntil n until }
    requires first { (n : At) → slice_get networks.old first.switch.0 ≡ Some n →
        network.IsFirstBy n until first.side }
    requires room { deque_len transit.old < deque_capacity transit.old }
    ensures clock { (k : ℕ) (n : At) → slice_get networks.new k ≡ Some n →
        network.IsUntil n until }
    ensures length { length networks.new ≡ length networks.old }
    ensures others { AreOthersSame first.switch.0 networks.old networks.new }
    ensures gives { (c : Plan) (at : ℕ) (ring : List OnCable) (so_far : List SwitchEvent) →
        IsPlan c → AreEnds c ends.now → Stands c networks.old at ring so_far →
        AreInTransit c transit.old.items ring →
        TurnsAt c networks.new transit.new.items at ring so_far first.switch.0 until result }
{
    let departure = take_at(networks, first, until);
    let switch = first.switch;
    if departure.too_old() {
        return Happened::Ended { switch, departure };
    }
    let time = departure.time();
    if time > LATEST_ARRIVAL {
        return Happened::Ended { switch, departure };
    }
    let port = departure.port();
    match far_end(ends, switch, port) {
        None => Happened::Ended { switch, departure },
        Some(to) => {
            let side = departure.side();
            let tag = departure.tag();
            transit.push_back_reserved(InTransit {
                departure,
                switch: to.switch,
                port: to.port,
                from: switch,
            });
            let at = SitedPort { switch, side, port };
            Happened::Carried { at, time, tag }
        }
    }
}

/// The frame at the front of the ring arrives at the other end of its cable. The error says that
/// memory was refused: then nothing has changed. A frame that is dropped for its shape needs none.
pub(crate) fn front_at(
    networks: &mut [Network],
    transit: &mut VecDeque<InTransit>,
) -> Result<Happened, AllocError>
    requires front { (v : InTransit) × (behind : List InTransit) × (transit.old.items ≡ v ∷ behind)
        × CanArrive networks.old v
        × ((k : ℕ) (n : At) → slice_get networks.old k ≡ Some n →
        network.IsUntil n (as_given v.departure).end) }
    ensures clock { (v : InTransit) → slice_get transit.old.items 0 ≡ Some v →
        (k : ℕ) (n : At) → slice_get networks.new k ≡ Some n →
        network.IsUntil n (as_given v.departure).end }
    ensures still { (v : InTransit) → slice_get transit.old.items 0 ≡ Some v →
        (n : At) → slice_get networks.new v.switch.0 ≡ Some n →
        network.IsQuiet n (as_given v.departure).end }
    ensures length { length networks.new ≡ length networks.old }
    ensures within { IfOk result (λ b. switch_of b < length networks.old) }
    ensures others { IfOk result (λ b. AreOthersSame (switch_of b) networks.old networks.new) }
    ensures arrives { (c : Plan) (at : ℕ) (r : OnCable) (rest : List OnCable)
        (so_far : List SwitchEvent) → IsPlan c →
        Stands c networks.old at (r ∷ rest) so_far →
        AreInTransit c transit.old.items (r ∷ rest) →
        IfOk result (ArrivesAt c networks.new transit.new.items at r rest so_far) }
    ensures judged { (c : Plan) (at : ℕ) (r : OnCable) (rest : List OnCable)
        (so_far : List SwitchEvent) (v : InTransit) →
        Stands c networks.old at (r ∷ rest) so_far →
        slice_get transit.old.items 0 ≡ Some v → IsInTransit c v r →
        OnErr result (shape_fault (c.tables v.switch.0) (brought r.side v.port r.turn) ≡ None) }
    ensures refused { OnErr result ((networks.new ≡ networks.old)
        × (transit.new.items ≡ transit.old.items)) }
{
    let Some(front) = transit.front() else {
        unreachable!()
    };
    let switch = front.switch;
    let port = front.port;
    let side = front.departure.side();
    let time = front.departure.time();
    let tag = front.departure.tag();
    let verdict = bring_at(networks, switch, port, &front.departure)?;
    let early = early_by(networks, switch, port, &front.departure, verdict);
    let Some(arrived) = transit.pop_front() else {
        unreachable!()
    };
    let InTransit {
        departure,
        from,
        ..
    } = arrived;
    give_back_at(networks, from, departure);
    let at = SitedPort { switch, side, port };
    Ok(Happened::Came {
        at,
        time,
        tag,
        verdict,
        early,
    })
}
