//! One switch: filter and police what arrives, and send it on through the output ports.
//!
//! Its tests are in `afdx_test_runs`.
#![tactic(auto)]

mod build;
mod frame;
pub mod laws;
mod line;
mod ports;
mod store;
mod switch;
mod switch_state;
mod verdict;

pub use ports::PortSet;
pub use switch::{Departure, Switch};
pub use verdict::Verdict;
