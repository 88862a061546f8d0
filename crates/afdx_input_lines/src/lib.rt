//! Lists are read, line by line, through devices that are watched.
//!
//! Its tests are in `afdx_test_parts`.
#![tactic(auto)]

mod fault;
mod fields;
mod frame_line;
pub mod laws;
mod line_reader;
mod list_fault;
mod next;
mod one_of_two;
mod peeked;
mod recording_fault;
mod role;
mod sited_line;
mod splitting;
mod submission_line;
mod watched;

pub use fault::{LineError, LineFault, RUN_FAULTS, RunFault};
pub use frame_line::{FrameKind, Heading, read_frame_line};
pub use line_reader::LineReader;
pub use list_fault::ListFault;
pub use next::{Next, Progress};
pub use one_of_two::{OneOfTwo, Which};
pub use peeked::Peeked;
pub use recording_fault::{RECORDING_FAULTS, RecordingFault};
pub use role::{ByRole, Role};
pub use sited_line::{ListedSwitch, read_sited_line};
pub use splitting::first_field;
pub use submission_line::{Handed, read_submission_line};
pub use watched::{Told, Watched};
