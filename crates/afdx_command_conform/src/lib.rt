//! Whether a recorded switch did what its tables say: the run over what came and what left, its
//! text, and the command `conform`.
//!
//! Its tests are in `afdx_test_runs`.
#![tactic(auto)]

mod agenda;
mod asked;
mod choices;
mod command;
mod counting;
mod due;
mod hints;
mod joining;
mod judge;
mod judging;
mod kept;
mod key;
pub mod laws;
mod outlets;
mod run;
mod slot;
mod strangers;
mod streams;
mod tapped;
mod telling;
mod totals;
mod whole;

pub use afdx_conform::Leeway;
pub use afdx_input_lines::{ByRole, Watched};
pub use afdx_input_runs::{AsLists, RunInput, Seen, SeenCount, Tapping};
pub use asked::{is_in_time, is_left_out};
pub use choices::Choices;
pub use command::{Judged, Question, conform, end_judged, ended_with, refuse_switch, tables_named};
pub use due::{DueLine, put_due};
pub use judge::Judge;
pub use judging::JudgingRun;
pub use key::Key;
pub use run::{RunCounts, RunTerms, run_conform, run_judged};
pub use tapped::unseen_of;
pub use telling::{findings_in, put_lines};
pub use whole::vl_named;
