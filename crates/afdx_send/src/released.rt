//! A released message, as the output port holds it.

ghost use Rattle.std.specs.Prelude.{◌≡◌, ◌≤◌, length, IfOk};
ghost use Rattle.afdx_frame.specs.Lengths.{least_frame, greatest_frame, greatest_payload};

use afdx_frame::{Address, FRAME_OVERHEAD, LEAST_FRAME, VlId, build_both_in};
use afdx_port::HasLength;
use std::alloc::AllocError;
use std::marker::Model;

/// A released message on its way through the output port: what its frames are built from.
#[derive(Drop)]
pub struct Released {
    vl: VlId,
    /// The least length of the link's frames.
    least: u16,
    number: u8,
    udp: u16,
    payload: Vec<u8>,
}

impl Model for Released {
    ghost use Rattle.std.specs.Prelude.{◌≤◌, length};
    ghost use Rattle.afdx_frame.specs.Lengths.{least_frame, greatest_frame, greatest_payload};
    ghost use Rattle.afdx_send.specs.Frames.{Frame};

    ghost Value = { Frame };

    ghost view = { λ r. record {
      vl = r.vl.0;
      least = r.least;
      number = r.number;
      message = record { udp = r.udp; payload = r.payload.items };
    } };

    ghost invariant = { λ r. (least_frame ≤ r.least) × (r.least ≤ greatest_frame)
        × (1 ≤ length r.payload.items) × (length r.payload.items ≤ greatest_payload) };
}

impl Released {
    ghost use Rattle.std.specs.Prelude.{◌≡◌, ℕ};
    ghost use Rattle.afdx_frame.specs.declared.link.Side.TheVariants.{A, B};
    ghost use Rattle.afdx_frame.specs.Grammar.{Built, built_length, built_frame};
    ghost use Rattle.afdx_send.specs.Frames.{Frame, IsReadAs, numbered_frame, address_with};

    pub(crate) fn new(vl: VlId, least: u16, number: u8, udp: u16, payload: Vec<u8>) -> Released
        requires least { (least_frame ≤ least) × (least ≤ greatest_frame) }
        requires payload { (1 ≤ length payload.items) × (length payload.items ≤ greatest_payload) }
        ensures { result ≡ numbered_frame vl.0 least number udp payload.items }
    {
        Released {
            vl,
            least,
            number,
            udp,
            payload,
        }
    }

    pub(crate) fn vl(&self) -> VlId
        ensures { result.0 ≡ self.now.vl }
    {
        self.vl
    }

    pub(crate) fn into_payload(self) -> Vec<u8> {
        let Released { payload, .. } = self;
        payload
    }

    /// The frames for network A and network B, in the place of what two vectors hold.
    pub(crate) fn frames(
        &self,
        rooms: (Vec<u8>, Vec<u8>),
        system_id: u16,
        partition: u8,
    ) -> Result<(Vec<u8>, Vec<u8>), AllocError>
        ensures built { let address = address_with system_id partition self.now in
            let Frame = Built address self.now.number in
            let payload = self.now.message.payload in
            IfOk result (λ both. Frame A payload both.0.items × Frame B payload both.1.items) }
        ensures read { IfOk result
            (λ both. IsReadAs both.0.items self.now × IsReadAs both.1.items self.now) }
        ensures long { let address = address_with system_id partition self.now in
            let long = built_length address (length self.now.message.payload) in
            IfOk result (λ both. (length both.0.items ≡ long) × (length both.1.items ≡ long)) }
        ensures computed { let address = address_with system_id partition self.now in
            let frame = built_frame address self.now.number in
            let payload = self.now.message.payload in
            IfOk result
            (λ both. (both.0.items ≡ frame A payload) × (both.1.items ≡ frame B payload)) }
    {
        let address = Address {
            vl: self.vl,
            system_id,
            partition,
            from_udp: self.udp,
            to_udp: self.udp,
            least: self.least,
        };
        build_both_in(rooms, &address, self.number, self.payload.as_slice())
    }
}

impl HasLength for Released {
    ghost use Rattle.afdx_send.specs.Frames.{facts};
    ghost use Rattle.afdx_send.specs.FramesLaw.{facts-lawful};

    ghost facts = { facts };

    fn length(&self) -> u64 {
        (self.payload.len() + FRAME_OVERHEAD)
            .max(LEAST_FRAME)
            .max(usize::from(self.least)) as u64
    }

    fn longest_wait(&self) -> Option<u64> {
        None
    }

    ghost lawful = { facts-lawful };
}
