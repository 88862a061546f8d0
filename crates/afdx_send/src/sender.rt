//! A sending end system, as its callers see it.

ghost use Rattle.std.specs.Prelude.{◌≡◌, ℕ, ◌<◌, ◌≤◌, IfOk, Some, length, slice_get};
ghost use Rattle.afdx_frame.specs.Times.{latest_listed};

use crate::build::build;
use crate::fault::SendFault;
use crate::sender_state::SenderState;
use afdx_admit::Admitted;
use afdx_config::SystemId;
use afdx_frame::VlId;
use std::alloc::{AllocError, Global};
use std::marker::Model;

/// The two frames of a message, one for each network, and when their slot ends, in ns.
#[derive(Drop)]
pub struct Emission {
    pub time: u64,
    pub vl: VlId,
    pub a: Vec<u8>,
    pub b: Vec<u8>,
}

/// A sending end system (ARINC 664 Part 7). Each of its links releases one message in each gap,
/// round robin over its sub-VLs; what is released goes through one output port. It keeps only the
/// messages that still have to be emitted.
#[derive(Drop)]
pub struct Sender {
    state: SenderState,
}

impl Model for Sender {
    ghost use Rattle.afdx_send.specs.declared.sender_state.SenderState.{SenderState};
    ghost use Rattle.afdx_send.specs.Sender.{IsSenderSound, KnowsIdle};

    ghost Value = { SenderState };

    ghost view = { λ s. s.state };

    ghost invariant = { λ s. IsSenderSound s.state × KnowsIdle s.state };
}

impl Sender {
    ghost use Rattle.afdx_config.specs.Rows.{SystemRow};
    ghost use Rattle.afdx_send.specs.Calls.{Submits, Emits};
    ghost use Rattle.afdx_send.specs.Sender.{IsQuiet, StandsFor, no_calls, frames_held, last_time};

    /// The sender of a system of these tables, with nothing submitted, at time 0.
    /// The error says that memory was refused.
    pub fn new(alloc: Global, tables: &Admitted, system: SystemId) -> Result<Sender, AllocError>
        requires system { system.0 < tables.now.own }
        ensures stands { (s : SystemRow) → slice_get tables.now.systems system.0 ≡ Some s →
            IfOk result (λ w. StandsFor w (no_calls tables.now system.0 s)) }
        ensures quiet { (t : ℕ) → IfOk result (λ w. IsQuiet w t) }
        ensures clock { IfOk result (λ w. last_time w ≡ 0) }
        ensures held { IfOk result (λ w. frames_held w ≡ 0) }
    {
        Ok(Sender {
            state: build(alloc, tables, system)?,
        })
    }

    /// Takes a message for a sub-VL, from 1 on, of a link. Both UDP ports of its frames are `udp`.
    ///
    /// `time`, in ns, isn't before the last time used and is at most 10^15, and no emission that
    /// ends at or before it is left to be taken. A refused message changes nothing but the last
    /// time used. Memory is wanted only for a message that its link takes.
    pub fn submit(
        &mut self,
        time: u64,
        vl: VlId,
        sub: u8,
        udp: u16,
        payload: &[u8],
    ) -> Result<(), SendFault>
        requires clock { last_time self.old ≤ time }
        requires limit { time ≤ latest_listed }
        requires quiet { IsQuiet self.old time }
        ensures { Submits self.old self.new time vl.0 sub udp payload.now result }
    {
        self.state.submit(time, vl, sub, udp, payload)
    }

    /// The next emission, if it ends at or before `until`, in ns, which isn't before the last time
    /// used. If `until` is 1.2e15 or later, None says that each message that was taken has been
    /// emitted.
    ///
    /// What each link has emitted is a lawful stream of the beginning of its sent list, and goes on
    /// so with this emission; both frames are read as the message that they were built of. Each
    /// emission ends at most its system's jitter, as admission sums it, less 40 us after its
    /// release.
    /// The error says that memory was refused for an emission that ends by then, and is left to be
    /// taken again.
    pub fn emit(&mut self, until: u64) -> Result<Option<Emission>, AllocError>
        requires clock { last_time self.old ≤ until }
        ensures { Emits self.old self.new until result }
    {
        self.state.emit(until)
    }

    /// Takes an emission back whose frames aren't wanted any more: later ones are built in their
    /// memory. Nothing else changes.
    pub fn give_back(&mut self, emission: Emission)
        ensures { self.new ≡ self.old }
    {
        self.state.give_back(emission);
    }
}
