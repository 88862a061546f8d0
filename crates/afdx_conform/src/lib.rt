//! Whether a recorded switch did what the rules say: laws over definitions, and the steps by which
//! the explanations of what was recorded follow it.
//!
//! A stream is one link, on one side, at one output port. Its tests are in `afdx_test_parts`.
#![tactic(auto)]

mod arrived;
mod arriving;
mod bounds;
mod by_bytes;
mod cases;
mod checked_bytes;
mod closing;
mod coming;
mod counts;
mod deciding;
mod deviate;
mod deviating;
mod ending;
mod finding;
mod first;
mod forgetting;
mod fronts;
mod gaps;
mod growth;
mod in_time;
mod judging;
mod known_bytes;
pub mod laws;
mod leading;
mod leeway;
mod levels;
mod limits;
mod naming;
mod places;
mod recorded;
mod spare;
mod states;
mod strangeness;
mod streaming;
mod testing;
mod upcoming;

pub use arrived::Arrived;
pub use checked_bytes::CheckedBytes;
pub use counts::Counts;
pub use finding::Finding;
pub use leeway::Leeway;
pub use limits::LeftFrame;
pub use spare::Spare;
pub use strangeness::{STRANGE_REASONS, Strangeness};
pub use streaming::Stream;
