//! Laws alone, of the texts of runs: from the messages that a sender takes to those that a replay
//! of its text tells, and that what a replay tells conforms.
#![tactic(auto)]

pub mod laws;
