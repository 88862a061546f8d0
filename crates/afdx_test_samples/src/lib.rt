//! What the tests of several crates use: configurations, frames, and what a table of rows comes to.
//!
//! A long text is what a function answers, so that a proof doesn't carry its letters.
#![tactic(auto)]

mod cascades;
mod configurations;
mod frames;
mod rows;
mod weak;

pub use cascades::two_switches;
pub use configurations::{ShortText, admitted, base, base_tables, changed, read};
pub use frames::{HELLO, NUMBER, hello, sealed, spelled, world};
pub use rows::{all_right, equal};
pub use weak::{Break, WeakReader, WeakWriter};
