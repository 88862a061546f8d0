//! The sending end system: for each link one message in each gap, round robin over its sub-VLs, and
//! one output port.
//!
//! Its tests are in `afdx_test_runs`.
#![tactic(auto)]

mod agenda;
mod build;
mod fault;
pub mod laws;
mod line;
mod regulator;
mod released;
mod rooms;
mod sender;
mod sender_state;

pub use fault::{SEND_FAULTS, SendFault};
pub use sender::{Emission, Sender};
