//! An arrival whose event is next.

use crate::arrived::Arrived;

/// An arrival that comes so many ns after the one before it. `is_open` says whether what the switch
/// makes of it may leave unseen.
#[derive(Clone, Copy)]
pub(crate) struct Coming<'a> {
    pub arrived: &'a Arrived,
    pub ns: u64,
    pub is_open: bool,
}
