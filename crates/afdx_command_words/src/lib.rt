//! The words of the program's command line, and what those of recordings say.
#![tactic(auto)]

mod asked;
mod conform_words;
pub mod laws;
mod list_words;
mod misplaced;
mod place_words;
mod recording_words;
mod said;
mod seen_words;
mod solve_words;
mod words;

pub use asked::{
    ConformInputs, Inputs, PoliceOptions, ReplayOptions, SendWords, check_options, conform_inputs,
    inputs_in, police_options, replay_options, send_words, solve_options, switch_in, wants_lists,
    wants_summary,
};
pub use conform_words::{ConformOptions, conform_options, copies_apart, names_left, wants_senders};
pub use misplaced::{BadPlace, Misplaced};
pub use recording_words::{Refused, STANDARD_INPUT, pair_options, recording_options};
pub use seen_words::{came_options, seen_options, seen_pair_options};
pub use words::afdx_command;
