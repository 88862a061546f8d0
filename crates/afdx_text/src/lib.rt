//! The lines of the program's output, the text that they are put into, and where that goes.
//!
//! Its tests are in `afdx_test_parts`.
#![tactic(auto)]

mod check_lines;
mod conform_line;
mod digits;
mod fault_line;
mod found_piece;
mod kinds;
mod line;
mod numeral;
mod offered;
mod output;
mod piece;
mod place;
mod put_fault;
mod sender_lines;
mod sender_words;
mod sink;
mod site;
mod telling;
mod text;
mod whole_lines;
mod writing;

pub use check_lines::CheckLine;
pub use conform_line::{Answer, Conclusion, ConformLine};
pub use line::OutLine;
pub use offered::Offered;
pub use output::Output;
pub use sender_lines::SenderTotals;
pub use sender_words::{FLAW_REASONS, NO_SOURCE_REASONS, NoSource};
pub use sink::{AtOnce, Sink};
pub use site::Site;
pub use telling::{tell, tell_fault, tell_number};
pub use text::Text;
pub use whole_lines::WholeLines;
pub use writing::write_text;
