//! How an input is read, beside its options: as the configuration of a run says.

use afdx_input_sources::UnsaidPort;

/// How an input is read, beside its options.
#[derive(Drop)]
pub struct Reading<'a, F> {
    /// At which port a frame of a recording came in, where no option says it.
    pub unsaid: UnsaidPort<'a>,
    /// The form of the lines of a list.
    pub form: F,
}
