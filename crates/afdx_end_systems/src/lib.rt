//! The end systems of a network: what each makes of the frames that the switches hand over to it.
//!
//! Its tests are in `afdx_test_runs`.
#![tactic(auto)]

mod end_system;
mod handover;
pub mod laws;
mod systems;

pub use handover::Handover;
pub use systems::Systems;
