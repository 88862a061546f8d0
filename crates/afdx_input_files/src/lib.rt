//! Recordings of Ethernet frames, pcap and pcapng, are read frame by frame.
//!
//! Its tests are in `afdx_test_parts`.
#![tactic(auto)]

mod beginning;
mod block;
mod block_packet;
mod form;
mod frame_reader;
mod held;
mod interface;
mod known;
mod options;
mod order;
mod packet;
mod recorded;
mod stamp;

pub use beginning::{is_packed_file, is_recording};
pub use frame_reader::FrameReader;
pub use known::MOST_INTERFACES;
pub use recorded::{CheckSequence, Recorded, RecordedFrame, Stamp};
