//! A switch that is refused memory. What it does with frames is tried at the program
//! (tests/program/replay.sh, tests/run/streams.py).

mod refused;
mod steps;
