//! Sending submissions from a system: the run over a list of messages, and the command.

pub(crate) mod command;
pub(crate) mod run;
