//! Why one of two lists that are read at once ended a run.

use thiserror::Error;

/// What is wrong with one of two lists, at a line. Lines are counted from 1, those of each list for
/// themselves.
///
/// Its text is what stands behind the name of the list.
#[derive(Clone, Copy, Debug, PartialEq, Eq, Error)]
pub enum ListFault {
    /// The line of this number has another number of fields, an empty field, or a field of another
    /// form.
    #[error("BadLine {0}")]
    BadLine(u64),
    /// The bytes of the line of this number are not pairs of hexadecimal digits.
    #[error("BadHex {0}")]
    BadHex(u64),
    /// The time of the line of this number is before that of the last line that was read.
    #[error("TimeBack {0}")]
    TimeBack(u64),
    /// The time of the line of this number is over 10^15 ns.
    #[error("TimeTooLarge {0}")]
    TimeTooLarge(u64),
    /// The port of the line of this number is not one of 1 to 24.
    #[error("BadPort {0}")]
    BadPort(u64),
    /// The line of this number has more than 4,200 bytes before its line feed.
    #[error("LineTooLong {0}")]
    LineTooLong(u64),
    /// There is a byte after 1,000,000 lines.
    #[error("TooManyLines")]
    TooManyLines,
}
