//! What is wrong with one arrival, by its shape.

ghost use Rattle.std.specs.Prelude.{◌≡◌, ◌≤◌, ◌==◌, IfNone, IfSome, length, option_map, true};
ghost use Rattle.std.specs.Option.{option_copied};
ghost use Rattle.afdx_frame.specs.Lengths.{least_frame};
ghost use Rattle.afdx_frame.specs.Parts.{bytes_of};
ghost use Rattle.afdx_frame.specs.Sealing.{is_sealed};
ghost use Rattle.afdx_police.specs.RuleOf.{rule_of};
ghost use Rattle.afdx_police.specs.Shape.{first_of};
ghost use Rattle.afdx_police.specs.Shape.{fault_of, rule_faults};

use crate::rule::LinkRule;
use afdx_frame::{
    BAD_ADDRESS, BAD_ADDRESS_MEANING, BAD_FCS, BAD_FCS_MEANING, Checked, MacFault, MacView,
    Policing, TOO_LONG, TOO_LONG_MEANING, TOO_SHORT, TOO_SHORT_MEANING, VlId,
};
use std::fmt;

/// Why an arrival is dropped.
#[derive(Clone, Copy, Debug, PartialEq, Eq)]
pub enum Reason {
    /// Under 64 bytes.
    TooShort,
    /// Over 1518 bytes.
    TooLong,
    /// The last four bytes are not the check sequence of the others.
    BadFcs,
    /// The destination address names no link.
    BadAddress,
    /// The named link has no rule, or it isn't the rule's.
    UnknownLink,
    /// It came at another input port than its link's.
    WrongPort,
    /// It is longer than its link's frames may be.
    OverLmax,
    /// It is shorter than its link's frames may be, and the link is policed by bytes.
    UnderLmin,
    /// Its link sends more than its account holds.
    OverRate,
}

/// Each reason at its own place, the order of `Reason`: in a word, and what it means, with what may
/// be done. Those of bytes that are no frame are in the words of their faults.
pub const REASONS: [(Reason, &str, &str); 9] = [
    (Reason::TooShort, TOO_SHORT, TOO_SHORT_MEANING),
    (Reason::TooLong, TOO_LONG, TOO_LONG_MEANING),
    (Reason::BadFcs, BAD_FCS, BAD_FCS_MEANING),
    (Reason::BadAddress, BAD_ADDRESS, BAD_ADDRESS_MEANING),
    (
        Reason::UnknownLink,
        "unknown-link",
        "\
unknown-link: the frame names a link that isn't there; with 'police', any but that of --vl.
The link is the last two bytes of the destination address.
If the frame is to pass, add a link with this vl to the configuration.",
    ),
    (
        Reason::WrongPort,
        "wrong-port",
        "\
wrong-port: the frame came at another input port than the link's, which is the key port of
its sender; with 'police', any but that of --port.
Another system sends under this link's name, or the list gives the wrong port.",
    ),
    (
        Reason::OverLmax,
        "over-lmax",
        "\
over-lmax: the frame is longer than Lmax: the key lmax of its link, lmin to 1518 bytes.",
    ),
    (
        Reason::UnderLmin,
        "under-lmin",
        "\
under-lmin: the frame is shorter than Lmin, with byte-based policing: the key lmin of its
link, 64 to 1518 bytes; with 'police' the option --lmin.",
    ),
    (
        Reason::OverRate,
        "over-rate",
        "\
over-rate: the frame isn't covered by the link's account: it came sooner than bag_ms and
jitter_us allow after the frames that were accepted on its side.
The sender sends too often, or with more jitter than jitter_us, 0 to 1000 times bag_ms.",
    ),
];

impl Reason {
    ghost use Rattle.std.specs.Prelude.{◌≡◌};
    ghost use Rattle.afdx_police.specs.Words.{reason_word, reason_meaning};

    /// Its row, which stands at its place.
    #[tactic(auto, unfolding(crate::specs::Words::words, crate::specs::Words::meanings))]
    fn row(self) -> &'static (Reason, &'static str, &'static str)
        ensures own { result.now.0 ≡ self }
        ensures word { result.now.1.now ≡ reason_word self }
        ensures meaning { result.now.2.now ≡ reason_meaning self }
    {
        &REASONS[self as usize]
    }

    /// It in a word.
    pub fn word(self) -> &'static str
        ensures { result.now ≡ reason_word self }
    {
        self.row().1
    }

    /// What it means, with what may be done.
    pub fn meaning(self) -> &'static str
        ensures { result.now ≡ reason_meaning self }
    {
        self.row().2
    }
}

impl fmt::Display for Reason {
    ghost use Rattle.std.specs.Prelude.{Some};
    ghost use Rattle.afdx_police.specs.Words.{reason_word};

    ghost output = { λ reason. Some (reason_word reason) };

    fn fmt<W: fmt::Write>(&self, f: &mut fmt::Formatter<W>) -> fmt::Result {
        f.write_str(self.word())
    }
}

impl std::error::Error for Reason {}

impl From<MacFault> for Reason {
    ghost use Rattle.std.specs.Prelude.{◌≡◌};
    ghost use Rattle.afdx_police.specs.Shape.{reason_for};

    ghost from_gives = { λ fault reason. reason ≡ reason_for fault };

    fn from(fault: MacFault) -> Reason {
        match fault {
            MacFault::TooShort => Reason::TooShort,
            MacFault::TooLong => Reason::TooLong,
            MacFault::BadFcs => Reason::BadFcs,
            MacFault::BadAddress => Reason::BadAddress,
        }
    }
}

/// The first fault of an arrival, in the order of `Reason`, but for its link's rate.
///
/// `rule` is that of the link that the frame names, if there is one; `port` is the input port at
/// which it came. It reads the check sequence of the bytes.
pub fn judge(rule: Option<&LinkRule>, port: u8, bytes: &[u8]) -> Option<Reason>
    ensures reason { result ≡
        fault_of (option_map rule_of (option_copied rule.entry)) port bytes.now }

    // What has no fault may be offered to a policer.
    ensures shortest { IfNone result (least_frame ≤ length bytes.now) }
    ensures sealed { IfNone result (is_sealed bytes.now ≡ true) }
    ensures longest { IfNone result (IfSome (option_copied rule.entry)
        (λ r. length bytes.now ≤ r.lmax)) }
{
    judge_checked(rule, port, Checked::new(bytes))
}

/// The first fault of an arrival whose check sequence has been looked at, as `judge` finds it. It
/// isn't read again.
pub fn judge_checked(rule: Option<&LinkRule>, port: u8, frame: Checked<'_>) -> Option<Reason>
    ensures reason { result ≡
        fault_of (option_map rule_of (option_copied rule.entry)) port (bytes_of frame.entry) }

    // What has no fault may be offered to a policer.
    ensures shortest { IfNone result (least_frame ≤ length (bytes_of frame.entry)) }
    ensures sealed { IfNone result (is_sealed (bytes_of frame.entry) ≡ true) }
    ensures longest { IfNone result (IfSome (option_copied rule.entry)
        (λ r. length (bytes_of frame.entry) ≤ r.lmax)) }
{
    let view = match MacView::of(frame) {
        Ok(view) => view,
        Err(fault) => return Some(fault.into()),
    };
    match rule {
        Some(rule) => fault_by(rule, port, view.vl(), frame),
        None => Some(Reason::UnknownLink),
    }
}

/// The first fault of a frame that names this link, by this rule, but for the link's rate.
pub(crate) fn fault_by(rule: &LinkRule, port: u8, vl: VlId, frame: Checked<'_>) -> Option<Reason>
    ensures reason { result ≡ first_of
        (rule_faults (rule_of rule.now) port (vl.0 == rule.now.vl.0) (bytes_of frame.entry)) }
    ensures longest { IfNone result (length (bytes_of frame.entry) ≤ rule.now.lmax) }
{
    let length = frame.length();
    if vl.0 != rule.vl.0 {
        return Some(Reason::UnknownLink);
    }
    if rule.port != port {
        return Some(Reason::WrongPort);
    }
    if length > rule.lmax {
        return Some(Reason::OverLmax);
    }
    match rule.policing {
        Policing::Byte if length < rule.lmin => Some(Reason::UnderLmin),
        _ => None,
    }
}
