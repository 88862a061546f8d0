//! What a sender does with its links and its output port.

ghost use Rattle.std.specs.Prelude.{◌≡◌, ℕ, ◌+◌, ◌^◌, ◌<◌, ◌≤◌, ◌↔◌, Option, Some, None, IfSome};
ghost use Rattle.std.specs.Prelude.{IfNone, IfOk, IfErr, OnOk, OnErr, length};
ghost use Rattle.std.specs.Prelude.{slice_get, sum_by, vec_len};
ghost use Rattle.afdx_frame.specs.Times.{latest_listed};
ghost use Rattle.afdx_port.specs.Times.{drain_end};

use crate::agenda::ReleaseAgenda;
use crate::fault::SendFault;
use crate::laws::emissions_are_lawful;
use crate::line::SystemLink;
use crate::regulator::Queued;
use crate::released::Released;
use crate::rooms::Rooms;
use crate::sender::Emission;
use afdx_frame::{Priority, VlId};
use afdx_law_bounds::laws::sender_is_bounded;
use afdx_port::laws::{due_is_next, one_schedule, taken_are_on_schedule};
use afdx_port::{Left, Port};
use std::alloc::AllocError;

/// By then each message of a list has been emitted: the end of the drain, in ns.
const DRAIN_END: u64 = 1_200_000_000_000_000;

/// What a sender works with.
pub(crate) struct SenderState {
    pub(crate) system_id: u16,
    pub(crate) partition: u8,
    /// The last time used.
    pub(crate) clock: u64,
    /// Nothing leaves by the last time used that isn't emitted, and no release before it is left;
    /// and that is before the end of the drain. Where it is `false`, that needn't be so.
    pub(crate) is_idle: bool,
    /// The system's links, in the order of the tables.
    pub(crate) lines: Vec<SystemLink>,
    /// By identifier, the place of its link.
    pub(crate) places: Vec<Option<u16>>,
    /// When each link's next release is.
    pub(crate) agenda: ReleaseAgenda,
    pub(crate) output: Port<Released>,
    /// What left the port and isn't emitted yet.
    pub(crate) ready: Option<Left<Released>>,
    /// Of the payloads that were emitted.
    pub(crate) rooms: Rooms,
    /// Of the frames that were given back.
    pub(crate) frame_rooms: Rooms,
}

impl Drop for SenderState {
    // (written out, it is one call wherever a value is let go)
    fn drop(self) {
        let Self {
            system_id,
            partition,
            clock,
            is_idle,
            lines,
            places,
            agenda,
            output,
            ready,
            rooms,
            frame_rooms,
        } = self;
    }
}

impl SenderState {
    ghost use Rattle.afdx_frame.specs.declared.link.Side.TheVariants.{A, B};
    ghost use Rattle.afdx_frame.specs.Grammar.{built_frame};
    ghost use Rattle.afdx_port.specs.Held as held;
    ghost use Rattle.afdx_send.specs.declared.line.SystemLink.{SystemLink};
    ghost use Rattle.afdx_send.specs.Calls.{Submits, Emits};
    ghost use Rattle.afdx_send.specs.Agenda.{NoneBefore, IsPlayed, IsSoonest, nexts};
    ghost use Rattle.afdx_send.specs.Emissions.{IsSending};
    ghost use Rattle.afdx_send.specs.Frames.{IsReadAs, facts, address_with};
    ghost use Rattle.afdx_send.specs.Lines.{CanTake};
    ghost use Rattle.afdx_send.specs.Regulator.{sub_count, submission_of, next_time_of};
    ghost use Rattle.afdx_send.specs.Sender.{SenderHistory, at, with_submission, submission, sending_of};
    ghost use Rattle.afdx_send.specs.Sender.{IsPlaceOf, IsTaken, IsRefused, IsSenderSound};
    ghost use Rattle.afdx_send.specs.Sender.{IsQuiet, IsIdle, KnowsIdle, StandsFor, AreAllEmitted};
    ghost use Rattle.afdx_send.specs.Sender.{nexts_of, messages_held, frames_held, ready_count};
    ghost use Rattle.afdx_send.specs.Sender.{HoldsMore, HoldsSame, last_time};

    /// The next release before this time, and its link's place.
    fn next_release(&self, until: u64) -> Option<(u64, usize)>
        requires played { IsPlayed self.now.agenda }
        ensures some { IfSome result (λ x. (x.0 < until)
            × IsSoonest (nexts self.now.agenda) x.0 x.1) }
        ensures none { IfNone result (NoneBefore (nexts self.now.agenda) until) }
    {
        let Some(next) = self.agenda.first() else {
            return None;
        };
        if next.time < until {
            Some((next.time, next.place))
        } else {
            None
        }
    }

    /// Takes what leaves the port next, if it leaves by this time.
    fn take(&mut self, until: u64)
        requires port_clock { held.last_time self.old.output ≤ until }
        requires clock { until ≤ self.old.clock }
        requires idle { self.old.ready ≡ None }
        requires timely { NoneBefore (nexts_of self.old) until }
        ensures stands { (h : SenderHistory) → StandsFor self.old h → StandsFor self.new h }
        ensures quiet { self.new.ready ≡ None → held.IsQuiet facts self.new.output until }
        ensures port_clock { held.last_time self.new.output ≡ until }
        ensures held { held.frames_held self.new.output + ready_count self.new.ready
            ≡ held.frames_held self.old.output }
        ensures done { (h : SenderHistory) → StandsFor self.old h → drain_end ≤ until →
            self.new.ready ≡ None → AreAllEmitted h }
        ensures rest { self.new ≡ record self.old {
          output = self.new.output;
          ready = self.new.ready;
        } }
    {
        if let Some(left) = self.output.take(until) {
            self.ready = Some(left);
        }
    }

    /// Puts the next release of all into the port.
    fn release(&mut self, place: usize, time: u64)
        requires sound { IsSenderSound self.old }
        requires soonest { IsSoonest (nexts_of self.old) time place }
        requires early { time < self.old.clock }
        requires port_clock { held.last_time self.old.output ≡ time }
        requires quiet { held.IsQuiet facts self.old.output time }
        requires idle { self.old.ready ≡ None }
        ensures stands { (h : SenderHistory) → StandsFor self.old h → StandsFor self.new h }
        ensures idle { self.new.ready ≡ None }
        ensures held { messages_held self.new + 1 ≡ messages_held self.old }
        ensures port_held { held.frames_held self.new.output
            ≡ held.frames_held self.old.output + 1 }
        ensures clock { self.new.clock ≡ self.old.clock }
    {
        // Two laws, for the proof: what an admitted sender has waiting never fills its port, and a
        // port has one schedule.
        sender_is_bounded::<Released>();
        one_schedule::<Released>();
        let released = self.lines[place].release(time);
        let next = self.lines[place].regulator.next_time();
        self.agenda.set(place, next);
        let Ok(()) = self.output.put(time, Priority::Low, released) else {
            // Never, by the first law.
            unreachable!();
        };
    }

    /// Puts all that is released before the last time used into the port, until a frame has left
    /// it.
    fn advance(&mut self)
        requires sound { IsSenderSound self.old }
        requires idle { self.old.ready ≡ None }
        ensures stands { (h : SenderHistory) → StandsFor self.old h → StandsFor self.new h }
        ensures idle { self.new.ready ≡ None → IsIdle self.new }
        ensures done { (h : SenderHistory) → StandsFor self.old h → drain_end ≤ self.old.clock →
            self.new.ready ≡ None → AreAllEmitted h }
        ensures clock { self.new.clock ≡ self.old.clock }
        ensures held { frames_held self.new ≡ frames_held self.old }
    {
        let until = self.clock;
        while let Some((time, place)) = self.next_release(until) {
            self.take(time);
            if self.ready.is_some() {
                return;
            }
            self.release(place, time);
        }
        self.take(until);
    }

    /// The last time used is this one, and what leaves the port next is ready, if it leaves by
    /// then.
    fn move_to(&mut self, until: u64)
        requires sound { IsSenderSound self.old }
        requires clock { self.old.clock ≤ until }
        ensures stands { (h : SenderHistory) →
            StandsFor self.old h → StandsFor self.new (at h until) }
        ensures idle { self.new.ready ≡ None → IsIdle self.new }
        ensures done { (h : SenderHistory) → StandsFor self.old h → drain_end ≤ until →
            self.new.ready ≡ None → AreAllEmitted h }
        ensures clock { self.new.clock ≡ until }
        ensures held { frames_held self.new ≡ frames_held self.old }
    {
        self.clock = until;
        if self.ready.is_none() {
            self.advance();
        }
    }

    /// Makes ready what leaves the port next, if it leaves by this time. Where nothing is left to
    /// be done until then, it is quick.
    fn prepare(&mut self, until: u64)
        requires sound { IsSenderSound self.old }
        requires knows { KnowsIdle self.old }
        requires clock { self.old.clock ≤ until }
        ensures stands { (h : SenderHistory) →
            StandsFor self.old h → StandsFor self.new (at h until) }
        ensures knows { KnowsIdle self.new }
        ensures idle { self.new.ready ≡ None → IsIdle self.new }
        ensures done { (h : SenderHistory) → StandsFor self.old h → drain_end ≤ until →
            self.new.ready ≡ None → AreAllEmitted h }
        ensures clock { self.new.clock ≡ until }
        ensures held { frames_held self.new ≡ frames_held self.old }
    {
        if self.is_idle && self.clock == until {
            return;
        }
        self.move_to(until);
        self.is_idle = self.ready.is_none() && until < DRAIN_END;
    }

    /// The two frames of a message that has left the port, in the place of what two vectors hold.
    fn emission(
        &self,
        left: &Left<Released>,
        rooms: (Vec<u8>, Vec<u8>),
    ) -> Result<Emission, AllocError>
        ensures time { IfOk result (λ e. e.time ≡ left.now.end) }
        ensures vl { IfOk result (λ e. e.vl.0 ≡ left.now.item.vl) }
        ensures sending { IfOk result
            (λ e. IsSending self.now.system_id self.now.partition left.now.end left.now.item
            (sending_of e)) }
        ensures a_read { IfOk result (λ e. IsReadAs e.a.items left.now.item) }
        ensures b_read { IfOk result (λ e. IsReadAs e.b.items left.now.item) }
        ensures a { IfOk result (λ e. e.a.items ≡ built_frame
            (address_with self.now.system_id self.now.partition left.now.item)
            left.now.item.number A left.now.item.message.payload) }
        ensures b { IfOk result (λ e. e.b.items ≡ built_frame
            (address_with self.now.system_id self.now.partition left.now.item)
            left.now.item.number B left.now.item.message.payload) }
    {
        let (a, b) = left.item.frames(rooms, self.system_id, self.partition)?;
        Ok(Emission {
            time: left.end,
            vl: left.item.vl(),
            a,
            b,
        })
    }

    /// The memory of its frames is used for later ones.
    pub(crate) fn give_back(&mut self, emission: Emission)
        ensures { self.new ≡ self.old }
    {
        let Emission { a, b, .. } = emission;
        self.frame_rooms.give_back(a);
        self.frame_rooms.give_back(b);
    }

    pub(crate) fn emit(&mut self, until: u64) -> Result<Option<Emission>, AllocError>
        requires sound { IsSenderSound self.old }
        requires knows { KnowsIdle self.old }
        requires clock { self.old.clock ≤ until }
        ensures sound { IsSenderSound self.new }
        ensures knows { KnowsIdle self.new }
        ensures emits { Emits self.old self.new until result }
    {
        // Three laws, for the proof: what a port gives is on its schedule, and what is due is next
        // on it; what a sender emits keeps the gap and the jitter of each link.
        taken_are_on_schedule::<Released>();
        due_is_next::<Released>();
        emissions_are_lawful();
        self.prepare(until);
        let Some(left) = self.ready.take() else {
            return Ok(None);
        };
        let rooms = (self.frame_rooms.take(), self.frame_rooms.take());
        match self.emission(&left, rooms) {
            Ok(emission) => {
                self.rooms.give_back(left.item.into_payload());
                Ok(Some(emission))
            }
            Err(refused) => {
                self.ready = Some(left);
                Err(refused)
            }
        }
    }

    /// The place of the link with this identifier.
    fn place_of(&self, vl: VlId) -> Option<usize>
        requires sound { IsSenderSound self.now }
        ensures { (h : SenderHistory) → StandsFor self.now h → IsPlaceOf h.links vl.0 result }
    {
        match self.places[usize::from(vl.0)] {
            Some(place) => Some(usize::from(place)),
            None => None,
        }
    }

    /// Adds a message to a queue of the link at this place.
    fn add(&mut self, place: usize, index: usize, message: Queued) -> Result<(), AllocError>
        requires sound { IsSenderSound self.old }
        requires place { place < length self.old.lines.items }
        requires queue { (line : SystemLink) → slice_get self.old.lines.items place ≡ Some line →
            CanTake line index message }
        requires limit { message.time ≤ latest_listed }
        requires clock { self.old.clock ≡ message.time }
        requires idle { IsIdle self.old }
        ensures ok { (h : SenderHistory) → StandsFor self.old h →
            OnOk result (StandsFor self.new (with_submission h place (submission_of (index
            + 1) message))) }
        ensures err { (h : SenderHistory) →
            StandsFor self.old h → OnErr result (StandsFor self.new h) }
        ensures idle { IsIdle self.new }
        ensures clock { self.new.clock ≡ self.old.clock }
        ensures held { OnOk result (HoldsMore self.old self.new) }
        ensures kept { OnErr result (HoldsSame self.old self.new) }
    {
        self.lines[place].regulator.push(index, message)?;
        let next = self.lines[place].regulator.next_time();
        self.agenda.set(place, next);
        Ok(())
    }

    /// Takes a message at the last time used.
    fn accept(&mut self, vl: VlId, sub: u8, udp: u16, payload: &[u8]) -> Result<(), SendFault>
        requires sound { IsSenderSound self.old }
        requires limit { self.old.clock ≤ latest_listed }
        requires idle { IsIdle self.old }
        ensures ok { (h : SenderHistory) → StandsFor self.old h →
            OnOk result ((place : ℕ) × IsTaken h place vl.0
            (submission self.old.clock sub udp payload.now) × StandsFor self.new
            (with_submission h place (submission self.old.clock sub udp payload.now))) }
        ensures refused { (h : SenderHistory) → StandsFor self.old h →
            IfErr result (λ fault. IsRefused h self.old.clock vl.0 sub (length payload.now) fault) }
        ensures unchanged { (h : SenderHistory) → StandsFor self.old h →
            OnErr result (StandsFor self.new h) }
        ensures idle { IsIdle self.new }
        ensures clock { self.new.clock ≡ self.old.clock }
        ensures held { OnOk result (HoldsMore self.old self.new) }
        ensures kept { OnErr result (HoldsSame self.old self.new) }
    {
        let Some(place) = self.place_of(vl) else {
            return Err(SendFault::NotMyLink);
        };
        if let Err(fault) = self.lines[place].check(sub, payload.len()) {
            return Err(fault);
        }
        let Ok(payload) = self.rooms.copy(payload) else {
            return Err(SendFault::Memory);
        };
        let message = Queued::new(self.clock, udp, payload);
        match self.add(place, usize::from(sub) - 1, message) {
            Ok(()) => Ok(()),
            Err(_) => Err(SendFault::Memory),
        }
    }

    pub(crate) fn submit(
        &mut self,
        time: u64,
        vl: VlId,
        sub: u8,
        udp: u16,
        payload: &[u8],
    ) -> Result<(), SendFault>
        requires sound { IsSenderSound self.old }
        requires knows { KnowsIdle self.old }
        requires clock { self.old.clock ≤ time }
        requires limit { time ≤ latest_listed }
        requires quiet { IsQuiet self.old time }
        ensures sound { IsSenderSound self.new }
        ensures knows { KnowsIdle self.new }
        ensures submits { Submits self.old self.new time vl.0 sub udp payload.now result }
    {
        // Two laws, for the proof: what a port gives is on its schedule, and what is due is next on
        // it.
        taken_are_on_schedule::<Released>();
        due_is_next::<Released>();
        self.prepare(time);
        self.accept(vl, sub, udp, payload)
    }
}
