//! Policing of a virtual link: what its frames have to look like, and how much it may send.
//!
//! Its tests are in `afdx_test_parts`.
#![tactic(auto)]

mod account;
mod charge;
pub mod laws;
mod policer;
mod rule;
mod shape;

pub use account::LinkAccount;
pub use charge::{ByteCharge, Charge, FrameCharge};
pub use policer::Policer;
pub use rule::LinkRule;
pub use shape::{REASONS, Reason, judge, judge_checked};
