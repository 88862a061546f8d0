//! Whole runs, by the public functions. The commands are tried at the program (tests/program/).

mod cascades;
mod rows;
mod sends;
mod weak;

use afdx_replay::{RunFault, Summary};
use afdx_test_samples::ShortText;

/// What a run answers, and what it writes.
type Answer = (Result<Summary, RunFault>, ShortText);
