//! The next event of several switches: a frame arrives over a cable, or a turn is over.

ghost use Rattle.std.specs.Prelude.{◌≡◌, ℕ, ◌+◌, ◌*◌, ◌<◌, ◌≤◌, ◌⊎◌, ◌∷◌, [], List, IfSome, IfNone, IfOk, IsTrue, ◌↔◌, slice_get, OnErr, Some, length};
ghost use Rattle.afdx_port.specs.Times.{drain_end, latest_put};
ghost use Rattle.afdx_switch.specs.Departures.{as_given};
ghost use Rattle.afdx_network.specs.declared.network.Network.{Network as At};
ghost use Rattle.afdx_network.specs.Network as network;
ghost use Rattle.afdx_cascade.specs.Due.{OnCable};
ghost use Rattle.afdx_cascade.specs.SwitchEvents.{Plan, SwitchEvent};
ghost use Rattle.afdx_cascade.specs.Keeping.{Keeps, TurnsNext, BringsNext, IsFrontNext, IsEarly, IsNothingDue};
ghost use Rattle.afdx_cascade.specs.Keeping.{LacksForFront, LacksForTurn};
ghost use Rattle.afdx_cascade.specs.Keys.{AreOthersSame};
ghost use Rattle.afdx_cascade.specs.Scan.{IsFirstFrom, switches_most};
ghost use Rattle.afdx_cascade.specs.Turning.{AreEnds, AreInTransit, switch_of};

use crate::cable::InTransit;
use crate::scan::FirstTurn;
use crate::told::Happened;
use crate::turning::{front_at, turn_at};
use afdx_config::FarEnd;
use afdx_network::Network;
use std::alloc::AllocError;
use std::collections::VecDeque;

/// Where a switch that has no turn to come stands in the order of turns.
const ORDER_WITHOUT_TURN: u64 = 1 << 52;

/// The time at which just the turn that stands here in the order of turns is given: when its slot
/// ends, or 1 ns after the moment of its drop.
fn given_at(order: u64) -> u64
    ensures low { order ≤ 2 * result }
    ensures high { 2 * result ≤ order + 1 }
{
    order / 2 + order % 2
}

/// Whether the frame at the front of the ring arrives before the first turn, which stands here in
/// the order of turns.
fn is_front_next(transit: &VecDeque<InTransit>, order: u64) -> bool
    requires { (v : InTransit) → slice_get transit.now.items 0 ≡ Some v →
        (as_given v.departure).end ≤ latest_put }
    ensures { IsTrue result ↔ IsFrontNext transit.now.items order }
{
    match transit.front() {
        None => false,
        Some(front) => 2 * front.departure.time() < order,
    }
}

/// The frame at the front of the ring arrives, if no slot is still to end at its time. The error
/// says that memory was refused: then nothing has changed, and the frame is still to arrive. One
/// that is dropped for its shape needs none.
pub(crate) fn bring_next(
    networks: &mut [Network],
    transit: &mut VecDeque<InTransit>,
    first: FirstTurn,
) -> Result<Option<Happened>, AllocError>
    requires first { IsFirstFrom 0 networks.old (Some first) }
    requires sound { (c : Plan) × (time : ℕ) × (ring : List OnCable) × (so_far : List SwitchEvent)
        × Keeps c networks.old time ring so_far × AreInTransit c transit.old.items ring }
    ensures brings { (c : Plan) (time : ℕ) (ring : List OnCable) (so_far : List SwitchEvent) →
        Keeps c networks.old time ring so_far → AreInTransit c transit.old.items ring →
        IfOk result (λ o. IfSome o
        (BringsNext c networks.new transit.new.items time ring so_far)) }
    ensures early { (c : Plan) (time : ℕ) (ring : List OnCable) (so_far : List SwitchEvent) →
        Keeps c networks.old time ring so_far → AreInTransit c transit.old.items ring →
        IfOk result (λ o. IfNone o (IsEarly first.order time ring)) }
    ensures same { IfOk result (λ o. IfNone o ((networks.new ≡ networks.old)
        × (transit.new.items ≡ transit.old.items))) }
    ensures length { length networks.new ≡ length networks.old }
    ensures within { IfOk result (λ o. IfSome o (λ b. switch_of b < length networks.old)) }
    ensures others { IfOk result (λ o. IfSome o (λ b.
        AreOthersSame (switch_of b) networks.old networks.new)) }
    ensures judged { (c : Plan) (time : ℕ) (ring : List OnCable) (so_far : List SwitchEvent) →
        Keeps c networks.old time ring so_far → AreInTransit c transit.old.items ring →
        OnErr result (LacksForFront c ring so_far) }
    ensures refused { OnErr result ((networks.new ≡ networks.old)
        × (transit.new.items ≡ transit.old.items)) }
{
    if !is_front_next(transit, first.order) {
        return Ok(None);
    }
    let brought = front_at(networks, transit)?;
    Ok(Some(brought))
}

/// The first turn of all switches, if it is given by `until`, where no cable has a frame of an
/// earlier time. The error says that memory was refused: then nothing has changed, and the turn is
/// still to come.
pub(crate) fn turn_next(
    networks: &mut [Network],
    ends: &[Option<FarEnd>],
    transit: &mut VecDeque<InTransit>,
    first: FirstTurn,
    until: u64,
) -> Result<Option<Happened>, AllocError>
    requires first { IsFirstFrom 0 networks.old (Some first) }
    requires few { length networks.old ≤ switches_most }
    requires sound { (c : Plan) × (time : ℕ) × (ring : List OnCable) × (so_far : List SwitchEvent)
        × Keeps c networks.old time ring so_far × IsEarly first.order time ring }
    ensures turns { (c : Plan) (time : ℕ) (ring : List OnCable) (so_far : List SwitchEvent) →
        Keeps c networks.old time ring so_far → IsEarly first.order time ring →
        AreEnds c ends.now → AreInTransit c transit.old.items ring →
        IfOk result (λ o. IfSome o
        (TurnsNext c networks.new transit.new.items until so_far first.switch.0)) }
    ensures quiet { IfOk result (λ o. IfNone o ((k : ℕ) (n : At) →
        slice_get networks.new k ≡ Some n → network.IsQuiet n until)) }
    ensures empty { (c : Plan) (time : ℕ) (ring : List OnCable) (so_far : List SwitchEvent) →
        Keeps c networks.old time ring so_far → IsEarly first.order time ring → time ≤ until →
        IfOk result (λ o. IfNone o (ring ≡ [])) }
    ensures all_done { (c : Plan) (time : ℕ) (ring : List OnCable) (so_far : List SwitchEvent) →
        Keeps c networks.old time ring so_far → IsEarly first.order time ring →
        drain_end ≤ until → IfOk result (λ o. IfNone o (IsNothingDue c so_far)) }
    ensures same { IfOk result (λ o. IfNone o ((networks.new ≡ networks.old)
        × (transit.new.items ≡ transit.old.items))) }
    ensures length { length networks.new ≡ length networks.old }
    ensures others { AreOthersSame first.switch.0 networks.old networks.new }
    ensures judged { (c : Plan) (time : ℕ) (ring : List OnCable) (so_far : List SwitchEvent) →
        Keeps c networks.old time ring so_far → IsEarly first.order time ring →
        OnErr result (LacksForTurn c until so_far first.switch.0) }
    ensures refused { OnErr result ((networks.new ≡ networks.old)
        × (transit.new.items ≡ transit.old.items)) }
{
    if first.order >= ORDER_WITHOUT_TURN {
        return Ok(None);
    }
    let at = given_at(first.order);
    if at > until {
        return Ok(None);
    }
    transit.try_reserve(1)?;
    Ok(Some(turn_at(networks, ends, transit, first, at)))
}
