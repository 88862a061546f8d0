//! Tests of what takes part in a run, and of whole runs: what no command of the program shows, what
//! a call does that is refused memory and made again, and of each crate one thing that it does.
#![tactic(auto)]

#[cfg(test)]
mod comport;
#[cfg(test)]
mod conforming;
#[cfg(test)]
mod receive;
#[cfg(test)]
mod replay;
#[cfg(test)]
mod send;
#[cfg(test)]
mod sending;
#[cfg(test)]
mod surface;
#[cfg(test)]
mod switch;
#[cfg(test)]
mod systems;
#[cfg(test)]
mod taking;
#[cfg(test)]
mod texts;
