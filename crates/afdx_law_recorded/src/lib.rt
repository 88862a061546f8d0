//! What recordings of senders and of a switch say together: laws alone.
//!
//! Where the systems sent lawfully and the switch conforms, each receiver got each message once and
//! in order.
#![tactic(auto)]

pub mod laws;
