//! Policing one link: the command, and the run that it makes.

pub mod command;
pub mod input_command;
pub mod over;
pub mod run;
