//! What of a stream was recorded.

use crate::arrived::Arrived;
use crate::limits::LeftFrame;

/// The arrivals of a stream that are held, and frames of it, both in their order.
#[derive(Clone, Copy)]
pub(crate) struct StreamRecord<'a> {
    pub arrivals: &'a [Arrived],
    pub frames: &'a [LeftFrame],
}
