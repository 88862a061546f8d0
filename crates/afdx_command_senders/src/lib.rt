//! Whether the systems at a recorded switch sent as their tables say, alone or beside the switch:
//! the run over what came and what left, and the command `conform --senders`.
//!
//! Its tests are in `afdx_test_runs`.
#![tactic(auto)]

mod asked;
mod both;
mod command;
mod following;
mod judging;
pub mod laws;
mod merging;
mod outlook;
mod recorded;
mod run;
mod texts;
mod ways;

pub use asked::{Beside, SenderChoices};
pub use command::{SenderQuestion, judge_senders};
