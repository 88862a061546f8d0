//! Communication ports of an end system (ARINC 664 Part 7): a sampling port keeps the newest
//! message, a queuing port gives its messages first in, first out.
//!
//! Its tests are in `afdx_test_runs`.
#![tactic(auto)]

mod com_ports;
mod fault;
mod held;
pub mod laws;

pub use com_ports::ComPorts;
pub use fault::PutFault;
