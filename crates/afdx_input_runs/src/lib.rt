//! Runs over an input, whatever it is: a list, a recording, or two recordings at once.
//!
//! Its tests are in `afdx_test_parts`.
#![tactic(auto)]

mod arrivals;
mod input_run;
mod inputs;
pub mod laws;
mod listing;
mod numbers;
mod over;
mod read_pair;
mod reading;
mod recording_run;
mod seeing;
mod seen;
mod seen_frames;
mod seen_run;
mod tapping;
mod two_lists;
mod two_lists_run;

pub use input_run::InputCount;
pub use inputs::{RunHead, RunInput};
pub use listing::list_numbers;
pub use over::Input;
pub use reading::Reading;
pub use recording_run::run_recording;
pub use seen::Seen;
pub use seen_frames::SeenCount;
pub use tapping::{AsLists, Tapping};
pub use two_lists_run::run_two_lists;
