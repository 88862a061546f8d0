//! What an end system receives on its virtual links (ARINC 664 Part 7): integrity checking,
//! redundancy management, and the datagram of each frame that wins.
//!
//! Its tests are in `afdx_test_runs`.
#![tactic(auto)]

pub mod laws;
mod link_receiver;
mod links;
mod memory;
mod places;
mod receiver;
mod reception;
mod sequence;

pub use link_receiver::LinkReceiver;
pub use receiver::Receiver;
pub use reception::{DROP_REASONS, DropReason, Reception};
