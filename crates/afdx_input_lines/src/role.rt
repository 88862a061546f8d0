//! What came in at switches and what left them: of which a frame is.

/// What a list, or an interface of a recording, says of switches: which frames came in at them, or
/// which ones left them.
#[derive(Clone, Copy, Debug, PartialEq, Eq)]
pub enum Role {
    /// The frames that came in.
    Came,
    /// The frames that left.
    Left,
}

/// One of something for what came in, and one for what left.
#[derive(Clone, Copy, Debug, Drop)]
pub struct ByRole<T> {
    pub came: T,
    pub left: T,
}
