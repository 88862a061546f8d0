//! The switches of both sides of a network, and the one order of all that happens at them.
//!
//! Its tests are in `afdx_test_runs`, by the runs of `afdx_replay`.
#![tactic(auto)]

pub mod laws;
mod network;

pub use network::Network;
