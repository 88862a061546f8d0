//! Replaying a list by a configuration: the command, and its runs over admitted and other tables.

pub mod admitted;
pub mod command;
pub(crate) mod explained;
pub mod input_command;
pub(crate) mod lines;
mod over;
pub mod run;
pub(crate) mod telling;
