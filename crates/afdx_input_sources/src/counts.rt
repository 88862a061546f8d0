//! How many numbers of a recording were skipped, and why.

ghost use Rattle.std.specs.Prelude.{◌≡◌, ◌<◌, ◌≤◌, ◌+◌};
ghost use Rattle.afdx_input_files.specs.Limits.{most_numbers};
ghost use Rattle.afdx_input_sources.specs.Counting as spec;
ghost use Rattle.afdx_input_sources.specs.Counting.{AreFew, IsFew};

use crate::skipped::Skipped;
use std::fmt;

/// How many numbers were skipped for each reason, and how many arrivals are claimed, and how many
/// contradicted.
#[derive(Clone, Copy, Debug, PartialEq, Eq)]
pub struct SkipCounts {
    pub no_frame: u64,
    pub left_out: u64,
    pub not_afdx: u64,
    pub unknown_sender: u64,
    pub no_network: u64,
    pub before_origin: u64,
    /// Arrivals whose side or port was taken from their bytes.
    pub claimed: u64,
    /// Arrivals whose source addresses name the other network.
    pub contradicted: u64,
}

impl SkipCounts {
    /// None yet.
    pub fn none() -> SkipCounts
        ensures { result ≡ spec.no_counts }
    {
        SkipCounts {
            no_frame: 0,
            left_out: 0,
            not_afdx: 0,
            unknown_sender: 0,
            no_network: 0,
            before_origin: 0,
            claimed: 0,
            contradicted: 0,
        }
    }

    /// Counts a number that was skipped for this reason.
    #[tactic(auto, unfolding(crate::specs::Counting::skip_one, crate::specs::Counting::skipped_in))]
    pub(crate) fn skip(&mut self, reason: Skipped)
        requires { spec.skipped_in self.old < most_numbers }
        ensures counts { self.new ≡ spec.skip_one reason self.old }
        ensures skipped { spec.skipped_in self.new ≡ spec.skipped_in self.old + 1 }
        ensures claimed { self.new.claimed ≡ self.old.claimed }
        ensures contradicted { self.new.contradicted ≡ self.old.contradicted }
    {
        match reason {
            Skipped::NoFrame => self.no_frame += 1,
            Skipped::LeftOut => self.left_out += 1,
            Skipped::NotAfdx => self.not_afdx += 1,
            Skipped::UnknownSender => self.unknown_sender += 1,
            Skipped::NoNetwork => self.no_network += 1,
            Skipped::BeforeOrigin => self.before_origin += 1,
        }
    }

    /// Those of two recordings.
    #[tactic(auto, unfolding(crate::specs::Counting::skipped_in))]
    fn plus(&self, other: &SkipCounts) -> SkipCounts
        requires few { AreFew self.now }
        requires others { AreFew other.now }
        ensures { result ≡ spec.plus_counts self.now other.now }
    {
        SkipCounts {
            no_frame: self.no_frame + other.no_frame,
            left_out: self.left_out + other.left_out,
            not_afdx: self.not_afdx + other.not_afdx,
            unknown_sender: self.unknown_sender + other.unknown_sender,
            no_network: self.no_network + other.no_network,
            before_origin: self.before_origin + other.before_origin,
            claimed: self.claimed + other.claimed,
            contradicted: self.contradicted + other.contradicted,
        }
    }

    /// Counts an arrival, which may be claimed, and contradicted.
    #[tactic(auto, unfolding(crate::specs::Counting::take_one, crate::specs::Counting::skipped_in))]
    pub(crate) fn arrive(&mut self, is_claimed: bool, is_contradicted: bool)
        requires claimed { self.old.claimed < most_numbers }
        requires contradicted { self.old.contradicted < most_numbers }
        ensures counts { self.new ≡ spec.take_one is_claimed is_contradicted self.old }
        ensures skipped { spec.skipped_in self.new ≡ spec.skipped_in self.old }
        ensures claimed { self.new.claimed ≤ self.old.claimed + 1 }
        ensures contradicted { self.new.contradicted ≤ self.old.contradicted + 1 }
    {
        if is_claimed {
            self.claimed += 1;
        }
        if is_contradicted {
            self.contradicted += 1;
        }
    }
}

/// How many were skipped for each reason: `no-frame 0 left-out 0 ..`.
impl fmt::Display for SkipCounts {
    ghost use Rattle.std.specs.Prelude.{Some};
    ghost use Rattle.afdx_input_sources.specs.Words.{reasons_text};

    ghost output = { λ counts. Some (reasons_text counts) };

    fn fmt<W: fmt::Write>(&self, f: &mut fmt::Formatter<W>) -> fmt::Result {
        write!(
            f,
            "no-frame {} left-out {} not-afdx {} unknown-sender {} no-network {} before-origin {}",
            self.no_frame,
            self.left_out,
            self.not_afdx,
            self.unknown_sender,
            self.no_network,
            self.before_origin
        )
    }
}

/// How many numbers a recording has, and how many of them were skipped.
#[derive(Clone, Copy, Debug, PartialEq, Eq)]
pub struct Tally {
    pub numbers: u64,
    pub counts: SkipCounts,
    /// Frames that the recorder lost by its own word, 2^64 - 1 if it is more.
    pub lost: u64,
    /// Interfaces that options name and the recording doesn't have.
    pub unused: u64,
    /// The least of them.
    pub absent: Option<u64>,
}

impl Tally {
    ghost use Rattle.afdx_input_sources.specs.Counting.{plus_tally};

    /// That of two recordings; of the interfaces the first one's least, if it has one.
    pub fn plus(&self, other: &Tally) -> Tally
        requires numbers { IsFew self.now }
        requires others { IsFew other.now }
        ensures { result ≡ plus_tally self.now other.now }
    {
        Tally {
            numbers: self.numbers + other.numbers,
            counts: self.counts.plus(&other.counts),
            lost: self.lost.saturating_add(other.lost),
            unused: self.unused + other.unused,
            absent: self.absent.or(other.absent),
        }
    }
}

/// The counts of a recording in one line: `skipped no-frame 0 left-out 0 ..`. The reasons stand in
/// their order, then the frames that the recorder lost, the arrivals that are claimed, those that
/// are contradicted, and the interfaces that are unused.
impl fmt::Display for Tally {
    ghost use Rattle.std.specs.Prelude.{Some};
    ghost use Rattle.afdx_input_sources.specs.Words.{skipped_line};

    ghost output = { λ tally. Some (skipped_line tally) };

    fn fmt<W: fmt::Write>(&self, f: &mut fmt::Formatter<W>) -> fmt::Result {
        write!(
            f,
            "skipped {} recorder-lost {} claimed {} contradicted {} unused {}",
            self.counts, self.lost, self.counts.claimed, self.counts.contradicted, self.unused
        )
    }
}
