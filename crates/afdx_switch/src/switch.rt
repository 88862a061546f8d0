//! One switch, as its callers see it.

ghost use Rattle.std.specs.Prelude.{◌≡◌, ℕ, ◌+◌, ◌≤◌, ◌++◌, length, IfOk, OnOk, Some, None, true};
ghost use Rattle.afdx_frame.specs.Lengths.{greatest_frame};
ghost use Rattle.afdx_port.specs.Times.{latest_put};

use crate::build::build;
use crate::frame::Frame;
use crate::store::Store;
use crate::switch_state::SwitchState;
use crate::verdict::Verdict;
use afdx_config::Tables;
use afdx_frame::{Checked, GREATEST_FRAME, PORT_COUNT, Seal, Side, fcs};
use afdx_port::{Due, Left, TurnOrder};
use arrayvec::ArrayVec;
use std::alloc::{AllocError, Global};
use std::marker::Model;

/// Puts more bytes of a frame behind those that are there.
fn append(bytes: &mut ArrayVec<u8, GREATEST_FRAME>, more: &[u8])
    requires { length bytes.old.items + length more.now ≤ greatest_frame }
    ensures { bytes.new.items ≡ bytes.old.items ++ more.now }
{
    let Ok(()) = bytes.try_extend_from_slice(more) else {
        // Never: there is room for the longest frame.
        unreachable!()
    };
}

/// A frame whose turn at an output port is over.
#[derive(Drop)]
pub struct Departure {
    pub(crate) left: Left<Frame>,
    pub(crate) side: Side,
    pub(crate) port: u8,
}

impl Departure {
    ghost use Rattle.afdx_frame.specs.Parts.{bytes_of, IsLinkFrame};
    ghost use Rattle.afdx_frame.specs.Sealing.{is_sealed};
    ghost use Rattle.afdx_switch.specs.Departures.{as_given, giving_port, giving_side, on_side};

    /// The same departure, of the switch of this side.
    #[inline(always)]
    pub fn on(self, side: Side) -> Departure
        ensures { result ≡ on_side side self }
    {
        let Departure { port, left, .. } = self;
        Departure { left, side, port }
    }

    /// The side of its switch. A switch by itself is on side A; those of a network say theirs.
    pub fn side(&self) -> Side
        ensures { result ≡ giving_side self.now }
    {
        self.side
    }

    /// When its slot ended, in ns. For a frame that was dropped as too old, the moment of its turn.
    pub fn time(&self) -> u64
        ensures { result ≡ (as_given self.now).end }
    {
        self.left.end
    }

    /// The output port, 1 to 24.
    pub fn port(&self) -> u8
        ensures { result ≡ giving_port self.now }
    {
        self.port
    }

    /// The tag of its arrival.
    pub fn tag(&self) -> u64
        ensures { result ≡ (as_given self.now).item.tag }
    {
        self.left.item.tag()
    }

    /// Where its link stands in the tables of the switch, for who looks for it there first. No
    /// contract says so: look whether it is the frame's link.
    pub fn row(&self) -> u16 {
        self.left.item.row()
    }

    /// All bytes of the frame, the check sequence with them, which is found here.
    pub fn bytes(&self) -> ArrayVec<u8, GREATEST_FRAME>
        ensures bytes { result.items ≡ (as_given self.now).item.bytes }
        ensures sealed { is_sealed result.items ≡ true }
    {
        let message = self.left.item.message();
        let mut bytes = ArrayVec::new();
        append(&mut bytes, message);
        append(&mut bytes, &fcs(message).to_le_bytes());
        bytes
    }

    /// The same by its message and its seal, which is right. No check sequence is found.
    pub fn frame(&self) -> Checked<'_>
        ensures bytes { bytes_of result ≡ (as_given self.now).item.bytes }
        ensures framed { IsLinkFrame (bytes_of result) }
    {
        let message = self.left.item.message();
        Checked {
            message,
            seal: Seal::Right,
        }
    }

    /// The frame was dropped: its turn came when it had waited too long.
    pub fn too_old(&self) -> bool
        ensures { result ≡ (as_given self.now).too_old }
    {
        self.left.too_old
    }
}

/// One switch. It keeps an account for each link, and the frames that still have a turn to come.
pub struct Switch {
    state: SwitchState,
    store: Store,
    /// Room for the shares of a frame. Between calls it is empty.
    shares: Vec<Frame>,
}

impl Drop for Switch {
    // (written out, it is one call wherever a value is let go)
    fn drop(self) {
        let Self {
            state,
            store,
            shares,
        } = self;
    }
}

impl Model for Switch {
    ghost use Rattle.afdx_switch.specs.declared.switch_state.SwitchState.{SwitchState};
    ghost use Rattle.std.specs.Prelude.{◌≡◌, []};
    ghost use Rattle.afdx_switch.specs.Sound.{IsSwitchSound};

    ghost Value = { SwitchState };

    ghost view = { λ s. s.state };

    ghost invariant = { λ s. IsSwitchSound s.state × (s.shares.items ≡ []) };
}

impl Switch {
    ghost use Rattle.afdx_config.specs.Lawful.{IsLawfulSwitch};
    ghost use Rattle.afdx_frame.specs.Parts.{bytes_of};
    ghost use Rattle.afdx_config.specs.Rows.{Rows};
    ghost use Rattle.afdx_frame.specs.declared.link.Side.{Side};
    ghost use Rattle.afdx_switch.specs.Calls.{Arrives, TellsDue, TellsEarly, TellsOrder, Takes};
    ghost use Rattle.afdx_police.specs.Arrival.{arrival_with};
    ghost use Rattle.afdx_switch.specs.Early.{IsEarlyBy};
    ghost use Rattle.afdx_switch.specs.Switching.{StandsFor, IsQuiet, no_calls, frames_held};
    ghost use Rattle.afdx_switch.specs.Switching.{SwitchHistory, last_time};
    ghost use Rattle.afdx_switch.specs.Verdicts.{shape_fault};

    /// A switch of these tables at time 0, with full accounts and idle ports.
    /// The error says that memory was refused.
    pub fn new(alloc: Global, tables: &Tables) -> Result<Switch, AllocError>
        ensures lawful { OnOk result (IsLawfulSwitch tables.now) }
        ensures stands { (side : Side) → IfOk result (λ w. StandsFor tables.now side w no_calls) }
        ensures quiet { (t : ℕ) → IfOk result (λ w. IsQuiet w t) }
        ensures clock { IfOk result (λ w. last_time w ≡ 0) }
        ensures held { IfOk result (λ w. frames_held w ≡ 0) }
    {
        Ok(Switch {
            state: build(alloc, tables)?,
            store: Store::new(alloc)?,
            shares: Vec::with_capacity(alloc, PORT_COUNT)?,
        })
    }

    /// Filters and polices a frame that arrives at `time`, in ns, at an input port, and offers it
    /// to the output ports of its link. It reads the check sequence of the bytes.
    ///
    /// `time` isn't before the last time used and is at most 1,000,032,768,000,000; `take(time)`
    /// would give nothing. `tag` is handed back with the frame's departures. The error says that
    /// memory was refused: then nothing has changed. A frame that is dropped for its shape needs
    /// none.
    pub fn arrive(
        &mut self,
        time: u64,
        port: u8,
        tag: u64,
        bytes: &[u8],
    ) -> Result<Verdict, AllocError>
        requires limit { time ≤ latest_put }
        requires clock { last_time self.old ≤ time }
        requires quiet { IsQuiet self.old time }
        ensures { Arrives self.old self.new tag time port bytes.now result }
    {
        self.arrive_checked(time, port, tag, Checked::new(bytes))
    }

    /// A frame arrives whose check sequence has been looked at: as `arrive`, which reads it.
    #[inline(always)]
    pub fn arrive_checked(
        &mut self,
        time: u64,
        port: u8,
        tag: u64,
        frame: Checked<'_>,
    ) -> Result<Verdict, AllocError>
        requires limit { time ≤ latest_put }
        requires clock { last_time self.old ≤ time }
        requires quiet { IsQuiet self.old time }
        ensures { Arrives self.old self.new tag time port (bytes_of frame.entry) result }
    {
        let (store, shares) = (&mut self.store, &mut self.shares);
        let arrived = self.state.arrive(time, port, tag, frame, store, shares);
        self.shares.clear();
        arrived
    }

    /// By how many nanoseconds a frame comes too early that arrives at `time`, if none comes before
    /// it: the least wait after which its link's account covers it, 0 for one that would be
    /// accepted. Of a frame with something wrong in its shape it says nothing.
    pub fn early(&self, time: u64, port: u8, frame: Checked<'_>) -> u64
        requires clock { last_time self.now ≤ time }
        ensures { TellsEarly self.now time port (bytes_of frame.entry) result }
    {
        self.state.early(time, port, frame)
    }

    /// When the next turn of all ports will be over if no frame arrives before, and whether it is a
    /// drop. None if each frame that was accepted and not lost has had its turn at each port.
    pub fn due(&self) -> Option<Due>
        ensures { TellsDue self.now result }
    {
        self.state.due()
    }

    /// Where the turn that `due` tells stands in the order of turns: by time, at one time slots
    /// before drops; after each turn, if there is none.
    pub fn order(&self) -> TurnOrder
        ensures { TellsOrder self.now result.0 }
    {
        self.state.order()
    }

    /// The next frame that leaves, or is dropped as too old, by `until`, in ns: a slot that ends at
    /// or before `until`, or a drop whose moment is before `until`. They go by time, at one time
    /// those that leave before those too old, then by port. If `until` is 1.2e15 or later, None
    /// says that each frame that was accepted and not lost has had its turn at each port.
    ///
    /// What a port gave of a link's frames, those that left it and those too old, is a beginning of
    /// the link's own arrivals that were accepted, less those that were lost there, in order, byte
    /// for byte and with their tags; at a port that the link doesn't go to there is none
    /// (`laws::frames_are_own`).
    #[inline(always)]
    pub fn take(&mut self, until: u64) -> Option<Departure>
        requires clock { last_time self.old ≤ until }
        ensures { Takes self.old self.new until result }
    {
        let taken = self.state.take(until);
        if let Some(departure) = &taken {
            self.store.keep(&departure.left.item);
        }
        taken
    }

    /// The next frame that leaves, or is dropped as too old, where it does by `until`: then
    /// `take(until)` would give it.
    #[inline(always)]
    pub fn take_due(&mut self, until: u64) -> Departure
        requires clock { last_time self.old ≤ until }
        requires given { IsQuiet self.old until → ⊥ }
        ensures { Takes self.old self.new until (Some result) }
    {
        let departure = self.state.take_due(until);
        self.store.keep(&departure.left.item);
        departure
    }

    /// Gives a departure back, of this switch or of another, once its frame was read: a frame that
    /// comes later takes its memory. What the switch holds, and what it will do, stays the same.
    pub fn give_back(&mut self, given: Departure)
        ensures { self.new ≡ self.old }
    {
        self.store.keep(&given.left.item);
    }
}
