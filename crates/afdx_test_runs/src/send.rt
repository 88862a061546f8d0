//! A sender that is refused memory. What it sends and refuses is tried at the program
//! (tests/program/send.sh, tests/run/streams.py).

mod refused;
mod steps;
