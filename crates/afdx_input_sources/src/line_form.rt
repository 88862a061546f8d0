//! How the lines of a list are read: what each says, by its form.

ghost use Rattle.std.specs.Prelude.{◌≡◌, ◌≤◌, ◌<◌, ℕ, List, length, map, option_map, IfOk, IfSome, IfErr, Ok};
ghost use Rattle.afdx_frame.specs.Times.{latest_listed};
ghost use Rattle.afdx_input_lines.specs.Faults.{IsErrorOf};
ghost use Rattle.afdx_input_lines.specs.Lines.{most_lines};
ghost use Rattle.afdx_input_sources.specs.Engine.{Item, item_of};
ghost use Rattle.afdx_input_sources.specs.Items.{thing_of};
ghost use Rattle.afdx_input_sources.specs.Lists.{Kind, latest_in};

use crate::engine::Head;
use afdx_input_lines::LineError;

/// What a line of a list says beside its bytes, with its time.
pub trait Listed: Head {
    /// The time that it says, in ns.
    ghost time_of: { Self → ℕ };

    /// What stands before the first line, at time 0.
    fn none() -> Self
        ensures { time_of result ≡ 0 };

    /// The time that it says, in ns.
    fn time(&self) -> u64
        ensures { result ≡ time_of self.now };
}

/// A form of lines, by which each line of a list is read.
pub trait LineForm<H: Listed>: Drop {
    /// Lines can be read by it.
    ghost IsForm: { Self → Type 0 };

    /// What a line says.
    ghost Said: { Type 0 };

    /// That, as something of the run.
    ghost Thing: { Type 0 };

    /// The kind of list.
    ghost kind: { Self → Kind Said Thing };

    /// What a line says, by its head and its bytes.
    ghost says_of: { H → List ℕ → Said };

    /// What holds of each item that lines of this form say.
    ghost Gives: { Self → Item H → Type 0 };

    /// What a line says that comes after one of this time: its bytes are put in the place of
    /// `bytes`. None: it is to be skipped.
    fn read_line(
        &self,
        line: &[u8],
        latest: u64,
        bytes: &mut Vec<u8>,
    ) -> Result<Option<H>, LineError>
        requires form { IsForm self.now }
        requires early { latest ≤ latest_listed }
        ensures time { IfOk result (λ head. IfSome head (λ h. H.time_of h ≤ latest_listed)) }
        ensures follows { IfOk result (λ head. IfSome head (λ h.
            (past : List (Item H)) (n : ℕ) →
            latest_in (kind self.now) (map (thing_of (kind self.now) says_of) past) ≡ latest →
            length past < most_lines → H.can_follow past (item_of n h bytes.new.items))) }
        ensures ok { IfOk result (λ head. (kind self.now).says latest line.now
            ≡ Ok (option_map (λ h. says_of h bytes.new.items) head)) }
        ensures gives { IfOk result (λ head. IfSome head (λ h.
            (n : ℕ) → Gives self.now (item_of n h bytes.new.items))) }
        ensures err { IfErr result (IsErrorOf ((kind self.now).says latest line.now)) };

    ghost times: { (form : Self) (n : ℕ) (h : H) (bytes : List ℕ) →
        (kind form).time ((kind form).item n (says_of h bytes)) ≡ H.time_of h };
}
