//! What the program tells a person: explanations, progress; and the devices that it watches.

mod devices;
mod explaining;
mod files;
mod inputs;
mod lists;
mod nearest;
mod places;
mod progress;
mod telling;
mod visible;

pub(crate) use devices::{InputDevice, Traced, WatchedWriter, name_of_input};
pub(crate) use explaining::{Cause, explain_if_asked, line_of, print_meaning};
pub(crate) use files::{no_file, read_config};
pub(crate) use lists::print_lists;
pub(crate) use places::{StandIns, take_places};
pub(crate) use progress::{Cleared, Count, Counted, Notice, is_told};
pub(crate) use telling::{complain, end_with, error_lines, memory, tell_text, tell_visible};
pub(crate) use visible::visible_text;
