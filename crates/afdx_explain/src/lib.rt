//! What the lines of the program mean, in plain words.
//!
//! Its tests are in `afdx_test_parts`.
#![tactic(auto)]

mod conform_lines;
mod entry;
mod explaining;
mod faults;
mod forms;
mod keys;
mod kinds;
mod lines;
mod unlawful;

pub use conform_lines::CONFORM_LINES;
pub use entry::Entry;
pub use explaining::{kind_of, meaning_of};
pub use faults::FAULTS;
pub use lines::LINES;
