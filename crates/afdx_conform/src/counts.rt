//! What is told of a stream at the end.

/// How many frames of a stream are explained; how many left, or may have left, where the recordings
/// had ended; of how many arrivals both answers were right.
#[derive(Clone, Copy, Debug, PartialEq, Eq)]
pub struct Counts {
    pub explained: u64,
    pub waiting: u64,
    pub uncertain: u64,
}
