//! The words of `list`.

use crate::recording_words::{
    fcs_option, origin_option, reorder_option, second_list, sited_interface_option, stamps_option,
};
use crate::words::{
    CONFIG_HELP, command, explain_option, line_buffered, progress_option, summary_option, word,
};
use clap::Command;
use std::alloc::{AllocError, Global};

const LIST_ABOUT: &str = "Writes a recording as the frame list that says the same";

const LIST_AFTER: &str = "\
Line n of the list is what has number n in the recording, as Wireshark counts, with
--reorder 0; else a remark may stand before arrivals that come before it:

  R time side port HEX    a frame that ends with its check sequence
  F time side port HEX    one that has none: 'replay' adds the right one
  B time side port HEX    one whose recorder found a wrong one: 'replay' adds a wrong one
  # WORD n                number n is no arrival; 'afdx explain --list' has each WORD

Times are in ns from the first arrival, or from --origin. A frame's port is that of the
system of CONFIG that its source address names, and its side the network that it names,
where no --interface says them. CONFIG need not be admitted. A frame of which over 2,000
bytes were recorded stands as its first 2,000. Up to 1,000,000 lines 'replay' and
'police' read the list as they do the recording. --summary prints how many are no
arrivals, in the line 'skipped ..'.

CONFIG may describe several switches a side. The name of one then stands behind each
side, and --interface '0=A fwd' takes the frames of fwd's own systems alone.

With a second LIST the first is the recording of network A, the second that of network
B, and both are read at once: arrivals come as 'replay' takes them, remarks where their
frames are read, each with the number in its own recording, and line n is no number.
--interface K=A.. is about interface K of the first, K=B.. of the second, K=- of both.

A closed pipe, as with '| head', is the fault 'device Write', status 4.

Example:
  afdx list --interface 0=A:1 network.toml bench.pcap";

const RECORDING_HELP: &str = "The path of a recording (pcap, pcapng), or - for standard input";

pub fn list_command<'a>(alloc: Global) -> Result<Command<'a>, AllocError> {
    let words = vec![in alloc;
        sited_interface_option(alloc),
        fcs_option(alloc),
        origin_option(alloc),
        reorder_option(alloc),
        stamps_option(alloc),
        explain_option(alloc),
        line_buffered(alloc),
        progress_option(alloc),
        summary_option(alloc),
        word(alloc, "CONFIG", CONFIG_HELP),
        word(alloc, "LIST", RECORDING_HELP),
        second_list(alloc),
    ]?;
    command(alloc, "list", LIST_ABOUT, LIST_AFTER).args(words)
}
