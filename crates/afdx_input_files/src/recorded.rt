//! What a recording says of a frame.

/// When a frame was recorded.
#[derive(Clone, Copy, Debug, PartialEq, Eq)]
pub enum Stamp {
    /// Its block has none.
    Missing,
    /// It isn't 0 to 2^63 - 1 ns since 1970, with its interface's offset or without it, or its
    /// fraction is a second or more.
    Bad,
    /// So many ns since 1970, at most 2^63 - 1.
    At(u64),
}

/// Whether a frame ends with its check sequence, by what the recorder says.
#[derive(Clone, Copy, Debug, PartialEq, Eq)]
pub enum CheckSequence {
    /// It says nothing of it, or names a number of bytes that is neither 0 nor 4.
    Unsaid,
    /// It has none: 0 bytes.
    Without,
    /// It has its own: 4 bytes.
    With,
}

/// What a recording says of a frame, beside its bytes.
#[derive(Clone, Copy, Debug, PartialEq, Eq)]
pub struct RecordedFrame {
    /// The interface that it came through: from 0, anew in each section; 0 in a pcap.
    pub interface: u16,
    /// That interface's link type; 1 is Ethernet.
    pub link_type: u32,
    /// When it was recorded.
    pub stamp: Stamp,
    /// Its length on the wire, in bytes.
    pub original: u32,
    /// Whether it ends with its check sequence.
    pub check_sequence: CheckSequence,
    /// The recorder found its check sequence wrong.
    pub found_wrong: bool,
}

/// What takes a number of a recording.
#[derive(Clone, Copy, Debug, PartialEq, Eq)]
pub enum Recorded {
    /// A custom or a journal block, which is no frame.
    NoFrame,
    /// A frame.
    Frame(RecordedFrame),
}
