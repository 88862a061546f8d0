//! Why an output port's buffer suffices and its frames are in time: laws over schedules and the
//! window rule.
//!
//! Its tests are in `afdx_test_parts`.
#![tactic(auto)]

pub mod laws;
