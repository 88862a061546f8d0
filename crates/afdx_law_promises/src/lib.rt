//! What a network whose tables are admitted promises, whatever arrives at its switches: laws over
//! definitions.
#![tactic(auto)]

pub mod laws;
