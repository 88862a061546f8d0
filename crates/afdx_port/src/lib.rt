//! An output port: two queues of frames, high before low, that share a buffer and a line.
//!
//! Its tests are in `afdx_test_parts`.
#![tactic(auto)]

mod has_length;
pub mod laws;
mod left;
mod order;
mod port;
mod port_state;
mod serving;

pub use has_length::HasLength;
pub use left::{Due, Left};
pub use order::TurnOrder;
pub use port::Port;
pub use serving::Serving;
