//! A frame of a pcap.

ghost use Rattle.std.specs.Prelude.{◌≡◌, ◌≤◌, length};
ghost use Rattle.afdx_input_files.specs.Pcap.{packet_head, pcap_frame};

use crate::form::PcapForm;
use crate::order::Order;
use crate::recorded::RecordedFrame;
use crate::stamp::stamp_of;

/// A frame, by its header.
#[tactic(auto, unfolding(crate::specs::Pcap::pcap_frame))]
pub fn frame_of(form: PcapForm, order: Order, header: &[u8]) -> RecordedFrame
    requires { packet_head ≤ length header.now }
    ensures { result ≡ pcap_frame form order header.now }
{
    RecordedFrame {
        interface: 0,
        link_type: form.link_type,
        stamp: stamp_of(
            form.nanoseconds,
            order.word(header, 0),
            order.word(header, 4),
        ),
        original: order.word(header, 12),
        check_sequence: form.check_sequence,
        found_wrong: false,
    }
}
