//! Several switches on each side, joined by cables: laws over definitions, and all events of a
//! cascade, one after the other.
#![tactic(auto)]

mod arriving;
mod build;
mod cable;
mod cascade;
pub mod laws;
mod scan;
mod taking;
mod told;
mod turning;

pub use cascade::Cascade;
pub use told::{Happened, SitedPort};
