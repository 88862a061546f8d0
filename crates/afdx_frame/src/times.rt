//! The gaps of links, in ms, their greatest delays, in us, and the times of lists, in ns.

/// The bandwidth allocation gaps, in ms (ARINC 664 Part 7).
pub const GAPS_MS: [u64; 8] = [1, 2, 4, 8, 16, 32, 64, 128];

/// The longest of them.
pub const LONGEST_GAP_MS: u64 = 128;

/// The most that the latency or the skew of a link may be, in us.
pub const GREATEST_DELAY_US: u64 = 100_000;

/// The latest time that a line of a list may have.
pub const LATEST_LISTED: u64 = 1_000_000_000_000_000;
