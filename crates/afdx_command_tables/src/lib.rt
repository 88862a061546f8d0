//! What the commands share: exit statuses, what a run counts, what a command takes of a
//! configuration, how it ends and refuses; the commands that read a configuration alone,
//! `check` and `solve`; and `send`.
//!
//! Its tests are in `afdx_test_runs`.
#![tactic(auto)]

mod check_apart;
mod check_cascade;
mod check_command;
mod check_tables;
mod ending;
pub mod refusing;
mod sender;
mod sending;
mod solve_command;
mod solve_needs;
pub mod status;
mod summary;
mod taking;

pub use afdx_config::KeptKeys;
pub use afdx_solve::SolveOptions;
pub use check_command::{check, check_lines};
pub use check_tables::CheckOptions;
pub use ending::{Ended, end, finish};
pub use sender::{SenderTaken, take_sender};
pub use sending::command::{send, send_and_count};
pub use sending::run::run_send;
pub use solve_command::solve_config;
pub use summary::{NO_COUNTS, Summary};
pub use taking::{Taken, read_described, take_described, take_file};
