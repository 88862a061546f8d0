//! The exit statuses of the commands. That of a fault of a list is `RunFault`'s own.

/// The command is done: an empty error output, but for what was asked for there.
pub const DONE: u8 = 0;

/// A configuration, or its tables, are refused.
pub const REFUSED: u8 = 1;

/// The words of the command are none that it takes.
pub const WRONG_WORDS: u8 = 2;

/// A device failed, or memory was refused.
pub const NO_DEVICE_OR_MEMORY: u8 = 4;
