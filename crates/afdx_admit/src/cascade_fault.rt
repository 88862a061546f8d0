//! Why a cascade is not admitted.

use crate::fault::{AdmitFault, AdmitText};
use afdx_config::{SwitchId, Switches, SystemId, Tables};
use afdx_frame::VlId;
use std::fmt;

/// What is false at a switch of a cascade: a line of its own tables, or one that joins a link's
/// rows at two switches. Its numbers are in us.
#[derive(Clone, Copy, Debug, PartialEq, Eq)]
pub enum SwitchFault {
    /// A line of the switch by its own tables.
    Own(AdmitFault),
    /// The link comes from a neighbour that doesn't send it here, or to which it has no whole way.
    Unfed(VlId),
    /// The link's gap, lengths or policing aren't those of the row before.
    Contract(VlId),
    /// The link's jitter is less than the jitter and the latency of the row before, which are so
    /// many us.
    HopJitter(VlId, u64),
    /// The link's skew is less than the latencies of its whole way, which are so many us.
    PathSkew(VlId, u64),
    /// The link goes to this neighbour, which has no row of it that comes from here.
    Unread(VlId, SystemId),
}

/// The first line of admission that is false, at the switch of this place.
#[derive(Clone, Copy, Debug, PartialEq, Eq)]
pub struct CascadeFault {
    pub switch: SwitchId,
    pub fault: SwitchFault,
}

/// Each line that joins a link's rows at its own place, the order of `SwitchFault` behind a
/// switch's own lines: in a word, the forms of the lines that tell it (`?` is the word, `n` a
/// number, `*` a name), and what it means that it is false, with what may help.
pub const CASCADE_ADMISSION: [(&str, &str, &str); 5] = [
    (
        "B1",
        "?\nno|admit ? * n",
        "\
B1 switch vl: at that switch the link comes from a neighbour that doesn't send it there, or
that doesn't get it itself.
What may help: a row of the link at each switch on its way, from the one of its system on, each
with the next switch in to.",
    ),
    (
        "B2",
        "?\nno|admit ? * n",
        "\
B2 switch vl: there the link's BAG, lengths or policing differ from those at the switch before.
What may help: the same bag_ms, lmin, lmax and policing in all rows of the link.",
    ),
    (
        "B3",
        "?\nno|admit ? * n n",
        "\
B3 switch vl needed: there the link's jitter is less than needed us, the jitter and the latency
at the switch before.
What may help: jitter_us of needed or more there, or less latency_us at the switches before.",
    ),
    (
        "B4",
        "?\nno|admit ? * n n",
        "\
B4 switch vl needed: there the link goes to a system, and its skew is less than needed us, the
sum of its latencies on the way.
What may help: skew_us of needed or more there, at most 100000, or less latency_us on the way.",
    ),
    (
        "B5",
        "?\nno|admit ? * n *",
        "\
B5 switch vl neighbour: the link goes to that neighbour, which has no row of it from here.
What may help: a row of the link at that neighbour, with from this switch; or take the
neighbour out of to.",
    ),
];

impl SwitchFault {
    ghost use Rattle.std.specs.Prelude.{◌≡◌};
    ghost use Rattle.afdx_admit.specs.FaultText.{switch_word};
    ghost use Rattle.afdx_admit.specs.AtSwitch.{IsKnownThere};
    ghost use Rattle.afdx_admit.specs.Known.{name_at};

    /// Its line in a word: `A1` to `A7`, `B1` to `B5`.
    #[tactic(auto, unfolding(crate::specs::FaultText::hop_words))]
    pub fn word(self) -> &'static str
        ensures { result.now ≡ switch_word self }
    {
        match self {
            SwitchFault::Own(fault) => fault.word(),
            SwitchFault::Unfed(_) => CASCADE_ADMISSION[0].0,
            SwitchFault::Contract(_) => CASCADE_ADMISSION[1].0,
            SwitchFault::HopJitter(_, _) => CASCADE_ADMISSION[2].0,
            SwitchFault::PathSkew(_, _) => CASCADE_ADMISSION[3].0,
            SwitchFault::Unread(_, _) => CASCADE_ADMISSION[4].0,
        }
    }

    /// The name of the sender or the neighbour that it speaks of, or an empty one. The tables are
    /// those of the switch that it stands at.
    fn name(self, tables: &Tables) -> &str
        requires { IsKnownThere tables.now self }
        ensures { result.now ≡ name_at tables.now self }
    {
        match self {
            SwitchFault::Own(fault) => fault.text(tables).name,
            SwitchFault::Unread(_, place) => tables.system(place).name.as_str(),
            _ => "",
        }
    }
}

impl CascadeFault {
    ghost use Rattle.std.specs.Prelude.{◌≡◌, slice_get, Some};
    ghost use Rattle.afdx_admit.specs.AtSwitch.{IsKnownAt};
    ghost use Rattle.afdx_admit.specs.Known.{name_at};
    ghost use Rattle.afdx_config.specs.Switches.{NamedRows};

    /// The fault with its text: `A1 aft 3`, `B3 aft 1 517` and the like. The switches are those
    /// that were refused.
    pub fn text<'a>(self, switches: &'a Switches) -> CascadeText<'a>
        requires { IsKnownAt switches.now self }
        ensures { (s : NamedRows) → slice_get switches.now self.switch.0 ≡ Some s →
            (result.fault ≡ self.fault) × (result.switch.now ≡ s.name)
            × (result.name.now ≡ name_at s.rows self.fault) }
    {
        let tables = switches.tables(self.switch);
        CascadeText {
            fault: self.fault,
            switch: switches.name(self.switch),
            name: self.fault.name(tables),
        }
    }
}

/// A fault as it is written, with the names of the switch and of what it speaks of.
#[derive(Clone, Copy, Debug)]
pub struct CascadeText<'a> {
    pub fault: SwitchFault,
    pub switch: &'a str,
    pub name: &'a str,
}

impl fmt::Display for CascadeText<'_> {
    ghost use Rattle.std.specs.Prelude.{Some};
    ghost use Rattle.afdx_admit.specs.FaultText.{switch_fault_text};

    ghost output = { λ text. Some (switch_fault_text text.switch.now text.name.now text.fault) };

    fn fmt<W: fmt::Write>(&self, f: &mut fmt::Formatter<W>) -> fmt::Result {
        let word = self.fault.word();
        let switch = self.switch;
        match self.fault {
            SwitchFault::Own(fault) => {
                let text = AdmitText {
                    fault,
                    name: self.name,
                };
                let subject = text.subject();
                write!(f, "{word} {switch} {subject}")
            }
            SwitchFault::Unfed(vl) => write!(f, "{word} {switch} {}", vl.0),
            SwitchFault::Contract(vl) => write!(f, "{word} {switch} {}", vl.0),
            SwitchFault::HopJitter(vl, needed) => write!(f, "{word} {switch} {} {needed}", vl.0),
            SwitchFault::PathSkew(vl, needed) => write!(f, "{word} {switch} {} {needed}", vl.0),
            SwitchFault::Unread(vl, _) => write!(f, "{word} {switch} {} {}", vl.0, self.name),
        }
    }
}

impl std::error::Error for CascadeText<'_> {}
