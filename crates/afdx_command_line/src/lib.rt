//! The commands of the program: their files and streams.
#![tactic(auto)]

mod beginnings;
mod commands;
mod configs;
mod conforming;
mod console;
mod judging;
mod locating;
mod running;
mod senders;

pub use commands::run_command_line;
