//! Tests of what a run stands on: what no command of the program shows, what a call does that is
//! refused memory and made again, and of each crate one thing that it does.
#![tactic(auto)]

#[cfg(test)]
mod admit;
#[cfg(test)]
mod arrivals;
#[cfg(test)]
mod bounds;
#[cfg(test)]
mod building;
#[cfg(test)]
mod cascade;
#[cfg(test)]
mod config;
#[cfg(test)]
mod conform;
#[cfg(test)]
mod explain;
#[cfg(test)]
mod frame;
#[cfg(test)]
mod lawful;
#[cfg(test)]
mod lists;
#[cfg(test)]
mod police;
#[cfg(test)]
mod port;
#[cfg(test)]
mod recordings;
#[cfg(test)]
mod sender_text;
#[cfg(test)]
mod senders;
#[cfg(test)]
mod solve;
#[cfg(test)]
mod text;
#[cfg(test)]
mod two_lists;
