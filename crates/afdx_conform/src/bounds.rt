//! What a stream is judged by.

use crate::levels::Rates;
use crate::limits::Limits;

/// How its link's account is filled and charged, and which frame may be of which arrival.
#[derive(Clone, Copy, Debug)]
pub(crate) struct Bounds {
    pub rates: Rates,
    pub limits: Limits,
}
