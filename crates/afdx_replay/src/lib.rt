//! Runs over lists of frames and recordings, what they write, and the commands of the program.
//!
//! Its tests are in `afdx_test_runs`.
#![tactic(auto)]

mod cascading;
mod early;
mod input_ending;
pub mod laws;
mod listing;
mod placed;
mod policing;
mod replaying;

pub use afdx_command_tables::{
    CheckOptions, Ended, KeptKeys, NO_COUNTS, SolveOptions, Summary, check, check_lines, finish,
    run_send, send, send_and_count, solve_config,
};
pub use afdx_frame::{BySide, Policing};
pub use afdx_input_lines::{ListFault, OneOfTwo, Peeked, RecordingFault, RunFault, Watched};
pub use afdx_input_runs::RunInput;
pub use afdx_input_sources::{
    Interfaces, NumberLine, PairOptions, Placing, RecordingOptions, Tally, TapPoint,
};
pub use afdx_text::{Output, Sink};
pub use cascading::admitted::run_cascade;
pub use cascading::unadmitted::run_cascade_unadmitted;
pub use input_ending::{InputEnded, InputSummary};
pub use listing::{ListEnded, list_and_count};
pub use policing::command::{CommandedRule, police};
pub use policing::input_command::police_input;
pub use policing::run::run_police;
pub use replaying::admitted::run;
pub use replaying::command::replay;
pub use replaying::input_command::{ReplaySettings, replay_input};
pub use replaying::run::run_unadmitted;
