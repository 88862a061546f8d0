//! Lines that are read, also from devices that move little at a time, and what they say.

mod reading;
mod said;
mod sited;
