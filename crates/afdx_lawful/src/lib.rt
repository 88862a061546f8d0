//! Whether a recorded system sent as it may: laws over definitions, and a source that is judged
//! while its frames come.
//!
//! A source is one link, and the system that sends it, on both networks. Its tests are in
//! `afdx_test_parts`.
#![tactic(auto)]

mod copies;
mod finding;
mod flaws;
mod heard;
mod last;
mod late;
pub mod laws;
mod limits;
mod one_side;
mod pace;
mod partners;
mod sender;
mod sides;
mod tally;
mod track;
mod unpaired;
mod waiting_frames;
mod waits;
mod ways;
mod whole;

pub use finding::{Flaw, SenderFinding};
pub use heard::HeardFrame;
pub use sender::JudgedSource;
pub use tally::SourceCounts;
pub use unpaired::UnpairedFrame;
pub use ways::{Apart, SystemWay};
