//! The least jitter, buffer, latency and skew with which a network is admitted, and leaves what is
//! asked for between the copies of a frame.
//!
//! Its tests are in `afdx_test_parts`.
#![tactic(auto)]

mod beginning;
mod cascade_needs;
mod cascade_writing;
mod delays;
mod jitters;
pub mod laws;
mod options;
mod raising;
mod short;
mod solving;
mod solving_cascade;
mod writing;

pub use cascade_writing::cascade_text;
pub use options::SolveOptions;
pub use short::{Short, ShortAt, first_short, first_short_at};
pub use solving::solve;
pub use solving_cascade::solve_cascade;
pub use writing::config_text;
