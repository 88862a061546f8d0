//! Replaying a list by a configuration of several switches a side.

pub mod admitted;
pub mod over;
mod run;
mod sites;
mod teller;
pub mod unadmitted;
