//! What is counted in a run, and what that answers.

ghost use Rattle.std.specs.Prelude.{◌≡◌, ◌⊎◌, List, None};
ghost use Rattle.afdx_conform.specs.Streams.{Gone, Terms};
ghost use Rattle.afdx_police.specs.Arrival.{Arrival};
ghost use Rattle.afdx_command_conform.specs.Counting as counted;
ghost use Rattle.afdx_command_conform.specs.Counting.{Counted, HasCounted, both_counted};
ghost use Rattle.afdx_command_conform.specs.Counting.{none_counted, stream_counted};
ghost use Rattle.afdx_command_conform.specs.Lines.{Due};
ghost use Rattle.afdx_command_conform.specs.Totals as spec;
ghost use Rattle.afdx_command_conform.specs.declared.key.Key.{Key};

use crate::slot::Slot;
use afdx_text::{Answer, Conclusion};

/// What a run counted.
///
/// `findings` are the lines that say what the switch did wrong; of the frames so many are
/// `explained`; so many left, or may have left, where the recordings had ended (`waiting`); of so
/// many arrivals both answers were right (`uncertain`); so many lines were `left_out`, and so many
/// streams weren't judged (`unseen`). Of those that were so many are `idle`: no frame is explained,
/// and no line is told. `is_unsure` says whether a stream could be explained in too many ways,
/// `is_exercised` whether idle streams leave the answer open.
#[derive(Clone, Copy, Debug, PartialEq, Eq)]
pub struct Totals {
    pub findings: u64,
    pub explained: u64,
    pub waiting: u64,
    pub uncertain: u64,
    pub left_out: u64,
    pub unseen: u64,
    pub idle: u64,
    pub is_unsure: bool,
    pub is_exercised: bool,
}

/// 1 if a stream is idle: none of its frames is explained, and no line was told of it.
fn idle_if(explained: u64, is_told: bool) -> u64
    ensures { result ≡ counted.idle_if explained is_told }
{
    if explained == 0 && !is_told { 1 } else { 0 }
}

impl Totals {
    ghost use Rattle.afdx_command_conform.specs.Slots.{StreamEnds};
    ghost use Rattle.afdx_command_conform.specs.Waiting.{slot_due};

    /// So many findings, lines that were left out and streams that aren't judged; nothing of those
    /// that are. Idle ones matter, or don't.
    pub(crate) fn new(findings: u64, left_out: u64, unseen: u64, is_exercised: bool) -> Totals
        ensures findings { result.findings ≡ findings }
        ensures left_out { result.left_out ≡ left_out }
        ensures unseen { result.unseen ≡ unseen }
        ensures exercised { result.is_exercised ≡ is_exercised }
        ensures counted { HasCounted none_counted result }
    {
        Totals {
            findings,
            explained: 0,
            waiting: 0,
            uncertain: 0,
            left_out,
            unseen,
            idle: 0,
            is_unsure: false,
            is_exercised,
        }
    }

    /// What is counted of one more.
    #[tactic(auto, unfolding(crate::specs::Slots::StreamEnds, crate::specs::Waiting::slot_due))]
    pub(crate) fn add(&mut self, slot: &Slot)
        ensures findings { self.new.findings ≡ self.old.findings }
        ensures left_out { self.new.left_out ≡ self.old.left_out }
        ensures unseen { self.new.unseen ≡ self.old.unseen }
        ensures exercised { self.new.is_exercised ≡ self.old.is_exercised }
        ensures counted { (n : Counted) (z : Terms) (k : Key) (xs : List Arrival)
            (ys : List Gone) (lines : List Due) → slot_due slot.now ≡ None →
            StreamEnds z k xs ys lines slot.now → HasCounted n self.old →
            HasCounted (both_counted n (stream_counted z xs ys)) self.new }
    {
        if let Slot::Stream(stream, is_told) = slot {
            let counts = stream.counts();
            let idle = idle_if(counts.explained, *is_told);
            self.explained = self.explained.saturating_add(counts.explained);
            self.waiting = self.waiting.saturating_add(counts.waiting);
            self.uncertain = self.uncertain.saturating_add(counts.uncertain);
            self.idle = self.idle.saturating_add(idle);
            if stream.unsure_behind().is_some() {
                self.is_unsure = true;
            }
        } else {
            self.idle = self.idle.saturating_add(1);
        }
    }

    /// Whether a stream is idle, and that matters.
    fn is_unexercised(&self) -> bool
        ensures { result ≡ spec.is_unexercised self.now }
    {
        self.is_exercised && self.idle > 0
    }

    /// The answer: the switch deviates if there is a finding; else nothing was shown where a stream
    /// is unsure or no frame is explained, or where a stream is idle and that matters; else it
    /// conforms.
    pub fn answer(&self) -> Answer
        ensures { result ≡ spec.answer_of self.now }
    {
        if self.findings > 0 {
            Answer::Deviates(self.findings)
        } else if self.is_unsure || self.explained == 0 || self.is_unexercised() {
            Answer::Undecided
        } else {
            Answer::Conforms
        }
    }

    /// The answer, with what is counted.
    pub(crate) fn conclusion(&self) -> Conclusion
        ensures { result ≡ spec.concluded self.now }
    {
        Conclusion {
            answer: self.answer(),
            explained: self.explained,
            waiting: self.waiting,
            uncertain: self.uncertain,
            left_out: self.left_out,
            unseen: self.unseen,
            idle: self.idle,
            senders: None,
        }
    }
}

/// The exit status of an answer: 0 conforms, 5 deviates, 3 undecided.
pub(crate) fn status_of(answer: Answer) -> u8
    ensures { result ≡ spec.answer_status answer }
{
    match answer {
        Answer::Conforms => 0,
        Answer::Deviates(_) => 5,
        Answer::Undecided => 3,
    }
}
