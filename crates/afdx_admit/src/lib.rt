//! Admission: whether every frame of a network keeps its link's latency.
//!
//! Its tests are in `afdx_test_parts`.
#![tactic(auto)]

mod admitted;
mod all;
mod all_cascade;
mod apart;
mod bounds;
mod cascade;
mod cascade_fault;
mod cascade_found;
mod cascade_lines;
mod fault;
mod found;
pub mod laws;
mod lines;
mod sums;
mod way;

pub use admitted::{Admitted, admit};
pub use all::all_faults;
pub use all_cascade::all_cascade_faults;
pub use apart::{RowWay, cascade_apart, link_apart, row_apart_at, way_to};
pub use bounds::{PortBounds, bounds_of, bounds_to, buffer_need, high_bound, low_bound};
pub use cascade::{AdmittedSwitches, admit_all};
pub use cascade_fault::{CASCADE_ADMISSION, CascadeFault, CascadeText, SwitchFault};
pub use cascade_lines::{goes_to_system, late_behind};
pub use fault::{ADMISSION, AdmitFault, AdmitText};
pub use lines::sender_jitters;
pub use way::{latency_of, row_before, row_of, way_latency};
