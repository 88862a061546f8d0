//! What a sender keeps of a link: its lengths, the next number, its regulator.

ghost use Rattle.std.specs.Prelude.{◌≡◌, ℕ, ◌+◌, ◌^◌, ◌<◌, ◌≤◌, List, Some, OnOk, IfErr, sum_by, length};
ghost use Rattle.afdx_frame.specs.Lengths.{least_frame, greatest_frame};
ghost use Rattle.afdx_config.specs.Numbers.{next_number};

use crate::fault::SendFault;
use crate::regulator::Regulator;
use crate::released::Released;
use afdx_frame::{FRAME_OVERHEAD, VlId};

/// A link of the system.
#[derive(Drop)]
pub(crate) struct SystemLink {
    pub(crate) vl: VlId,
    /// The least and the greatest length of its frames.
    pub(crate) least: u16,
    pub(crate) longest: u64,
    /// The number of the next frame.
    pub(crate) number: u8,
    pub(crate) regulator: Regulator,
    ghost range: { (least_frame ≤ least) × (least ≤ greatest_frame) × (longest ≤ greatest_frame) },
}

/// The sequence number after this one: 0 comes first, and never again.
fn next_number(number: u8) -> u8
    ensures { result ≡ next_number number }
{
    if number == 255 { 1 } else { number + 1 }
}

impl SystemLink {
    ghost use Rattle.afdx_config.specs.Rows.{LinkRow};
    ghost use Rattle.afdx_send.specs.Regulator.{next_time_of, waiting_of};
    ghost use Rattle.afdx_send.specs.Releases.{Submission, Release};
    ghost use Rattle.afdx_send.specs.Lines.{LineStands, LineReleases, LineAdmits, LineRefuses};

    /// Whether a message of so many bytes is taken for a sub-VL.
    pub(crate) fn check(&self, sub: u8, len: usize) -> Result<(), SendFault>
        requires { len < 2 ^ 63 }
        ensures ok { OnOk result (LineAdmits self.now sub len) }
        ensures err { IfErr result (λ fault. LineRefuses self.now sub len fault) }
    {
        let sub = usize::from(sub);
        if sub < 1 || sub > self.regulator.sub_count() {
            return Err(SendFault::NoSuchSub);
        }
        if len == 0 {
            return Err(SendFault::Empty);
        }
        if (len + FRAME_OVERHEAD) as u64 > self.longest {
            return Err(SendFault::TooLarge);
        }
        if self.regulator.is_full(sub - 1) {
            return Err(SendFault::QueueFull);
        }
        Ok(())
    }

    /// Releases the next message at this time.
    pub(crate) fn release(&mut self, time: u64) -> Released
        requires due { next_time_of self.old.regulator ≡ Some time }
        requires limit { time + self.old.regulator.bag < 2 ^ 64 }
        ensures vl { result.vl ≡ self.old.vl.0 }
        ensures least { result.least ≡ self.old.least }
        ensures number { result.number ≡ self.old.number }
        ensures released { (l : LinkRow) (ss : List Submission) (rs : List Release) →
            LineStands self.old l ss rs → LineReleases self.old l ss rs time result self.new }
        ensures later { (t : ℕ) → next_time_of self.new.regulator ≡ Some t → time ≤ t }
        ensures held { sum_by length (waiting_of self.new.regulator) + 1
            ≡ sum_by length (waiting_of self.old.regulator) }
    {
        let (_, message) = self.regulator.release(time);
        let udp = message.udp();
        let payload = message.into_payload();
        let number = self.number;
        self.number = next_number(number);
        Released::new(self.vl, self.least, number, udp, payload)
    }
}
