//! One run: a source gives items, one after another, and a machine tells each before the next is
//! asked for. The sources: a list that is read line by line, one recording, or two, whose frames
//! become arrivals at a switch, in the order in which they came, or are skipped and counted.
//!
//! Its tests are in `afdx_test_parts`, and in `afdx_test_runs` by the runs of `afdx_replay`.
#![tactic(auto)]

mod ahead;
mod arriving;
mod becoming;
mod clock;
mod counts;
mod engine;
mod entering;
mod held;
pub mod laws;
mod line_form;
mod list_run;
mod listed;
mod merged;
mod number;
mod number_line;
mod ordered;
mod ordered_recording;
mod pair_options;
mod places;
mod placing;
mod read_list;
mod read_recording;
mod senders;
mod skipped;
mod taps;
mod timed_numbers;
mod timed_pair;
mod two;

pub use ahead::{Ahead, AtHead, InOrder};
pub use arriving::{Arriving, has_own, seal_by, without_own};
pub use becoming::{FoundFrame, NoArrival, RecordingOptions, becomes};
pub use counts::{SkipCounts, Tally};
pub use engine::{Head, Machine, Source, drive};
pub use line_form::{LineForm, Listed};
pub use list_run::run_list;
pub use listed::{FrameLines, MessageLines};
pub use merged::{Merged, Nth, give_next};
pub use number::{AsRead, Number};
pub use number_line::NumberLine;
pub use ordered::Ordered;
pub use ordered_recording::read_in_order;
pub use pair_options::PairOptions;
pub use places::{Interfaces, TapPoint, TapPort};
pub use placing::Placing;
pub use read_list::ReadList;
pub use read_recording::ReadRecording;
pub use senders::{SystemPorts, UnsaidPort};
pub use skipped::{SKIPPED, Skipped};
pub use taps::Taps;
pub use timed_numbers::TimedNumbers;
pub use timed_pair::TimedPair;
pub use two::Two;
