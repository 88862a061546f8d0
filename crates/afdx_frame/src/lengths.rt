//! The lengths of frames in bytes, and what accounts count them in.

/// The least length of a frame, with its check sequence (IEEE 802.3).
pub const LEAST_FRAME: usize = 64;

/// The greatest length of a frame, with its check sequence (IEEE 802.3).
pub const GREATEST_FRAME: usize = 1518;

/// The length of a check sequence (IEEE 802.3).
pub const CHECK_SEQUENCE: usize = 4;

/// What a frame has beside its payload: the Ethernet, IPv4 and UDP headers (14, 20 and 8), the
/// sequence number and the check sequence.
pub const FRAME_OVERHEAD: usize = 47;

/// The greatest buffer of an output port: the bytes of the frames that wait there.
pub const GREATEST_BUFFER: u64 = 4_194_304;

/// The bytes that a frame takes on the wire besides its own (IEEE 802.3): 7 of preamble,
/// 1 start delimiter, 12 of gap.
pub const WIRE_EXTRA: u64 = 20;

/// The units of a byte in an account: as many as the longest gap, 128 ms, has nanoseconds.
pub const BYTE_UNITS: u64 = 128_000_000;
