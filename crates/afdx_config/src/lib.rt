//! The tables of a network, read from TOML text and checked in one order.
//!
//! Its tests are in `afdx_test_parts`.
#![tactic(auto)]

mod asked;
mod cascade_keys;
mod choices;
mod describing;
mod ends;
mod fault;
mod file_fault;
mod key_tables;
mod keys;
mod known_keys;
pub mod laws;
mod links;
mod named_tables;
mod over_all;
mod read;
mod read_links;
mod read_neighbours;
mod read_ports;
mod read_switch;
mod read_systems;
mod reading_to_solve;
mod rows;
mod switches;
mod systems;
mod tables;

pub use cascade_keys::{CASCADE_KEYS, NEIGHBOUR_KEYS, SWITCH_KEYS, WIDER_KEYS};
pub use describing::{Described, read_file};
pub use fault::{CONFIG_FAULTS, ConfigFault, Part, Place};
pub use file_fault::FileFault;
pub use key_tables::{Key, LINK_KEYS, PORT_KEYS, SYSTEM_KEYS, TOP_KEYS, UNKNOWN_KEYS};
pub use read::{read_tables, read_to_solve};
pub use reading_to_solve::{ToSolve, read_file_to_solve};
pub use rows::{ComRow, KeptKeys, Kind, Link, System, SystemId, Times};
pub use switches::{FarEnd, SwitchId, Switches};
pub use tables::Tables;
