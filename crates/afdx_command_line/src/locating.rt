//! Where in a configuration or a list what a fault is about stands, and what a file looks like.

mod lines;
mod locating;
mod looks;
mod searching;
mod switches;

pub(crate) use lines::{Listing, wrong_field};
pub(crate) use locating::place_in;
pub(crate) use looks::{Look, look_of};
pub(crate) use switches::FoundSwitches;
