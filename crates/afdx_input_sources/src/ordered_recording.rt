//! A recording whose numbers are given in order.

ghost use Rattle.std.specs.Prelude.{◌≡◌, IfOk};
ghost use Rattle.afdx_input_sources.specs.OrderedRecording.{IsSetInOrder, IsUnread, tally_of_source};

use crate::becoming::RecordingOptions;
use crate::counts::Tally;
use crate::ordered::Ordered;
use crate::read_recording::ReadRecording;
use crate::senders::SystemPorts;
use std::alloc::{AllocError, Global};

/// A recording of which nothing was read yet.
pub fn read_in_order(
    alloc: Global,
    options: RecordingOptions,
    ports: SystemPorts,
) -> Result<Ordered<ReadRecording>, AllocError>
    ensures options { IfOk result (λ ordered. ordered.source.options ≡ options) }
    ensures ports { IfOk result (λ ordered. ordered.source.ports ≡ ports) }
    ensures order { IfOk result IsSetInOrder }
    ensures unread { IfOk result IsUnread }
{
    let most = options.reorder;
    let recording = ReadRecording::new(alloc, options, ports)?;
    Ok(Ordered::new(alloc, recording, most))
}

impl Ordered<ReadRecording> {
    /// How many numbers were read, how many of them were skipped, and why, how many arrivals are
    /// claimed and contradicted, how many frames the recorder lost so far, by its own word, and how
    /// many interfaces the options name that weren't described so far.
    pub fn tally(&self) -> Tally
        ensures { result ≡ tally_of_source self.now }
    {
        self.source.tally()
    }
}
