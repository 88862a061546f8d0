//! Why tables are not admitted.

use afdx_config::{SystemId, Tables};
use afdx_frame::VlId;
use std::fmt;

/// The first line of admission that is false, with its numbers: ports of the switch, bytes and ns.
#[derive(Clone, Copy, Debug, PartialEq, Eq)]
pub enum AdmitFault {
    /// At this output port the links send more than the line carries.
    Overload(u8),
    /// At this output port so many bytes of buffer are needed.
    Buffer(u8, u64),
    /// At this output port the high frames of this link may take so many ns.
    HighLatency(u8, VlId, u64),
    /// At this output port the low frames of this link may take so many ns; 0 where the high ones
    /// take the whole line, so that there is no bound.
    LowLatency(u8, VlId, u64),
    /// The jitter at this system's output is so many ns.
    SenderJitter(SystemId, u64),
    /// The link's jitter is less than that of its sender, which is so many ns.
    LinkJitter(VlId, u64),
    /// The link's latency is more than its skew.
    Skew(VlId),
}

/// Each line of admission at its own place, the order of `AdmitFault`: in a word, the forms of the
/// lines that tell it (`?` is the word, `n` a number, `*` a name), and what it means that it is
/// false, with what may help.
pub const ADMISSION: [(&str, &str, &str); 7] = [
    (
        "A1",
        "?\nno|admit ? n\nno|admit ? * n",
        "\
A1 port: the port is overloaded: the links to it send more than its line carries.
What may help: fewer or shorter frames to it, longer BAGs, a faster line (bag_ms, lmax of
the links to that system, its rate).",
    ),
    (
        "A2",
        "?\nno|admit ? n n\nno|admit ? * n n",
        "\
A2 port needed: its buffer is too small; needed bytes is what may wait there.
What may help: a larger buffer, less jitter (buffer at the top, 64 to 4194304; jitter_us and
lmax of the links to that system).",
    ),
    (
        "A3",
        "?\nno|admit ? n n n\nno|admit ? * n n n",
        "\
A3 port vl bound: the high link vl allows less than bound ns there.
What may help: a larger latency, less high traffic, shorter low frames (latency_us of the
link to bound / 1000 or more, 1 to 100000; lmax of low links to that system).",
    ),
    (
        "A4",
        "?\nno|admit ? n n n\nno ? n n -\nno|admit ? * n n n\nno ? * n n -",
        "\
A4 port vl bound: the low link vl allows less than bound ns there.
What may help: a larger latency, less traffic (latency_us of the link to bound / 1000 or
more, 1 to 100000).",
    ),
    (
        "A5",
        "?\nno|admit ? * n\nno|admit ? * * n",
        "\
A5 system ns: the system's jitter is ns, over 500,000 ns.
What may help: fewer links or shorter frames from it, a faster line (lmax of its links, its
rate).",
    ),
    (
        "A6",
        "?\nno|admit ? n n\nno|admit ? * n n",
        "\
A6 vl needed: the link's jitter is less than its sender's, needed ns.
What may help: a larger jitter_us, for all links of that sender: needed / 1000, rounded up;
0 to 1000 times bag_ms. It raises bursts, so check again.",
    ),
    (
        "A7",
        "?\nno|admit ? n\nno|admit ? * n",
        "\
A7 vl: the link's latency is greater than its skew.
What may help: a larger skew_us, latency_us or more, 1 to 100000.",
    ),
];

impl AdmitFault {
    ghost use Rattle.std.specs.Prelude.{◌≡◌};
    ghost use Rattle.afdx_admit.specs.FaultText.{line_word};
    ghost use Rattle.afdx_admit.specs.Known.{IsKnown, name_of};

    /// The row of its line, which stands at its place.
    #[tactic(auto, unfolding(crate::specs::FaultText::line_words))]
    fn row(self) -> &'static (&'static str, &'static str, &'static str)
        ensures word { result.now.0.now ≡ line_word self }
    {
        match self {
            AdmitFault::Overload(_) => &ADMISSION[0],
            AdmitFault::Buffer(_, _) => &ADMISSION[1],
            AdmitFault::HighLatency(_, _, _) => &ADMISSION[2],
            AdmitFault::LowLatency(_, _, _) => &ADMISSION[3],
            AdmitFault::SenderJitter(_, _) => &ADMISSION[4],
            AdmitFault::LinkJitter(_, _) => &ADMISSION[5],
            AdmitFault::Skew(_) => &ADMISSION[6],
        }
    }

    /// Its line in a word: `A1` to `A7`.
    pub fn word(self) -> &'static str
        ensures { result.now ≡ line_word self }
    {
        self.row().0
    }

    /// The fault with its text: `A1 3`, `A5 s1 532160` and the like. The tables are those that were
    /// refused.
    pub fn text<'a>(self, tables: &'a Tables) -> AdmitText<'a>
        requires { IsKnown tables.now self }
        ensures fault { result.fault ≡ self }
        ensures name { result.name.now ≡ name_of tables.now self }
    {
        let name = match self {
            AdmitFault::SenderJitter(system, _) => tables.system(system).name.as_str(),
            _ => "",
        };
        AdmitText { fault: self, name }
    }
}

/// A fault as it is written, with the name of the sender that it speaks of, or an empty one.
#[derive(Clone, Copy, Debug)]
pub struct AdmitText<'a> {
    pub fault: AdmitFault,
    pub name: &'a str,
}

impl fmt::Display for AdmitText<'_> {
    ghost use Rattle.std.specs.Prelude.{Some};
    ghost use Rattle.afdx_admit.specs.FaultText.{fault_text};

    ghost output = { λ text. Some (fault_text text.name.now text.fault) };

    fn fmt<W: fmt::Write>(&self, f: &mut fmt::Formatter<W>) -> fmt::Result {
        let word = self.fault.word();
        let subject = self.subject();
        write!(f, "{word} {subject}")
    }
}

impl std::error::Error for AdmitText<'_> {}

impl<'a> AdmitText<'a> {
    ghost use Rattle.std.specs.Prelude.{◌≡◌};

    /// What it speaks of: numbers, a link's identifier, or the name of a sender.
    pub(crate) fn subject(&self) -> Subject<'a>
        ensures { result.text ≡ self.now }
    {
        Subject { text: *self }
    }
}

/// What a fault speaks of, as it is written.
#[derive(Clone, Copy, Debug)]
pub(crate) struct Subject<'a> {
    pub(crate) text: AdmitText<'a>,
}

impl fmt::Display for Subject<'_> {
    ghost use Rattle.std.specs.Prelude.{Some};
    ghost use Rattle.afdx_admit.specs.FaultText.{subject};

    ghost output = { λ s. Some (subject s.text.name.now s.text.fault) };

    fn fmt<W: fmt::Write>(&self, f: &mut fmt::Formatter<W>) -> fmt::Result {
        match self.text.fault {
            AdmitFault::Overload(port) => write!(f, "{port}"),
            AdmitFault::Buffer(port, needed) => write!(f, "{port} {needed}"),
            AdmitFault::HighLatency(port, vl, bound) => write!(f, "{port} {} {bound}", vl.0),
            AdmitFault::LowLatency(port, vl, bound) if bound == 0 => write!(f, "{port} {} -", vl.0),
            AdmitFault::LowLatency(port, vl, bound) => write!(f, "{port} {} {bound}", vl.0),
            AdmitFault::SenderJitter(_, ns) => write!(f, "{} {ns}", self.text.name),
            AdmitFault::LinkJitter(vl, needed) => write!(f, "{} {needed}", vl.0),
            AdmitFault::Skew(vl) => write!(f, "{}", vl.0),
        }
    }
}
