//! Each public item that other programs rest on, called once by its name, its arguments and what it
//! answers, with the types written out: what no longer has its form doesn't compile here. What the
//! calls do is tried at the program, else in `afdx_test_parts` and the rest of this crate.

mod admit;
mod cascade;
mod comport;
mod config;
mod conform;
mod frame;
mod police;
mod port;
mod receive;
mod replay;
mod send;
mod switch;
