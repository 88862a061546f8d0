//! The machine of a run: each frame goes to its streams, and what is found there is told at its
//! moment.

ghost use Rattle.std.specs.Prelude.{◌≡◌, ◌<◌, ◌≤◌, ◌+◌, ◌++◌, ◌∷◌, [], ℕ, Bool, List, IfOk, IfSome};
ghost use Rattle.std.specs.Prelude.{OnOk, None, false, is_some, length, map, min, true};
ghost use Rattle.afdx_command_conform.specs.Choices.{Choices as Chosen, latest_of, left_out_of};
ghost use Rattle.afdx_command_conform.specs.Choices as asked;
ghost use Rattle.afdx_command_conform.specs.ChoicesOf.{choices_of};
ghost use Rattle.afdx_command_conform.specs.Judging.{IsSameButFindings, IsSameButTaken};
ghost use Rattle.afdx_command_conform.specs.Sight.{sight_in};
ghost use Rattle.afdx_command_conform.specs.Tapped.{place_named};
ghost use Rattle.afdx_command_conform.specs.Telling as spec;
ghost use Rattle.afdx_command_conform.specs.Told.{choices_in, ClosesAt, Finishes, Follows, GoesOn, HasTold};
ghost use Rattle.afdx_command_conform.specs.Told.{IsEndFor, IsJudgedSoFar, IsJudgedToEnd, Reaches};
ghost use Rattle.afdx_command_conform.specs.Told.{TakesNext, told_by};
ghost use Rattle.afdx_command_conform.specs.Counting.{totals_and};
ghost use Rattle.afdx_command_conform.specs.Holding.{HoldsOneWindow};
ghost use Rattle.afdx_command_conform.specs.Keeping.{IsNothingDue};
ghost use Rattle.afdx_command_conform.specs.Lines.{Due, due_at};
ghost use Rattle.afdx_command_conform.specs.Totals.{concluded};
ghost use Rattle.afdx_config.specs.Rows.{Rows};
ghost use Rattle.afdx_input_sources.specs.Engine.{Item, item_of};
ghost use Rattle.afdx_frame.specs.Layout.{link_named_by};
ghost use Rattle.afdx_frame.specs.Parts.{bytes_of};
ghost use Rattle.afdx_frame.specs.Seals.{IsSealedAs};
ghost use Rattle.afdx_frame.specs.Times.{latest_listed};
ghost use Rattle.afdx_input_runs.specs.Joining.{Frame, frame_of, frames_of};
ghost use Rattle.afdx_input_runs.specs.declared.seen.Seen.{Seen as Passed};

use crate::asked::{is_in_time, is_left_out};
use crate::choices::Choices;
use crate::due::{DueLine, add_lines, put_due};
use crate::judge::Judge;
use crate::kept::Lines;
use crate::streams::Streams;
use crate::telling::findings_in;
use crate::totals::Totals;
use crate::whole::vl_named;
use afdx_config::Tables;
use afdx_frame::{Checked, VlId};
use afdx_input_lines::{Role, RunFault};
use afdx_input_runs::Seen;
use afdx_input_sources::{Machine, Taps};
use afdx_text::{Conclusion, ConformLine, Sink};
use std::alloc::{AllocError, Global};

/// The most bytes of a frame that counts: no list has longer ones.
const MOST_BYTES: u64 = 65_535;

/// What a run works with: what is asked for, the streams, the time of the last line in ns, and how
/// many findings were told and lines left out.
///
/// What is to be told is added to a list of what is due, the oldest first.
#[derive(Drop)]
pub struct JudgingRun<'a> {
    alloc: Global,
    choices: &'a Choices,
    streams: Streams<'a>,
    latest: u64,
    findings: u64,
    left_out: u64,
}

impl<'a> JudgingRun<'a> {
    /// By these tables and choices, of the ports that were recorded. Nothing came yet. Fails only
    /// out of memory.
    pub fn new(
        alloc: Global,
        tables: &'a Tables,
        choices: &'a Choices,
        taps: &'a Taps,
    ) -> Result<JudgingRun<'a>, AllocError>
        ensures { IfOk result (λ judging. IsJudgedSoFar (
          tables.entry.now,
          choices_of (sight_in tables.entry.now taps.entry.now) choices.entry.now,
        )
            judging [] []) }
    {
        let streams = Streams::new(alloc, tables, choices.leeway, taps)?;
        Ok(JudgingRun {
            alloc,
            choices,
            streams,
            latest: 0,
            findings: 0,
            left_out: 0,
        })
    }

    /// Some lines are due, and those that are findings are counted.
    fn add(&mut self, lines: &Lines, due: &mut Vec<DueLine>) -> Result<(), AllocError>
        ensures others { IsSameButFindings self.old self.new }
        ensures counted { OnOk result (self.new.findings
            ≡ min (self.old.findings + spec.findings_in lines.now.lines.items)
            spec.most_counted) }
        ensures added { OnOk result (due.new.items
            ≡ due.old.items ++ map (due_at lines.now.key lines.now.moment) lines.now.lines.items) }
    {
        let found = lines.lines.as_slice();
        add_lines(lines.moment, lines.key, found, due)?;
        self.findings = self.findings.saturating_add(findings_in(found));
        Ok(())
    }

    /// Adds what is to be told before this time, in ns; without a time all that is.
    fn collect(&mut self, before: Option<u64>, due: &mut Vec<DueLine>) -> Result<(), AllocError>
        ensures stands { (k : Rows × Chosen) (last : Bool) (time to : ℕ) (frames : List Frame)
            (dues : List Due) → GoesOn k last time to before self.old.streams.ended frames →
            HasTold k last time self.old frames (told_by due.old.items dues) →
            OnOk result (HasTold k last to self.new frames (told_by due.new.items dues)
            × IsNothingDue k.0 before self.new.streams.kept) }
        ensures ended { self.new.streams.ended ≡ self.old.streams.ended }
    {
        while let Some(lines) = self.streams.take_before(before)? {
            self.add(&lines, due)?;
        }
        Ok(())
    }

    /// The recordings end at this time, in ns, before which all is told.
    fn close(&mut self, until: u64, due: &mut Vec<DueLine>) -> Result<(), AllocError>
        ensures { ClosesAt (λ done. OnOk result done) until self.old self.new
            due.old.items due.new.items }
    {
        self.collect(Some(until), due)?;
        self.streams.end(until);
        Ok(())
    }

    /// The recordings end before a line of this time, in ns, if they do and didn't before.
    fn close_before(&mut self, time: u64, due: &mut Vec<DueLine>) -> Result<(), AllocError>
        ensures { (k : Rows × Chosen) (before : ℕ) (frames : List Frame)
            (dues : List Due) → before ≤ time → latest_of frames ≤ before →
            HasTold k false before self.old frames (told_by due.old.items dues) →
            OnOk result (HasTold k false time self.new frames (told_by due.new.items dues)) }
    {
        if self.streams.is_ended() {
            return Ok(());
        }
        let Some(until) = self.choices.until else {
            return Ok(());
        };
        if until < time {
            self.close(until, due)
        } else {
            Ok(())
        }
    }

    /// The recordings end after the last line, if they didn't before.
    fn close_at_end(&mut self, due: &mut Vec<DueLine>) -> Result<(), AllocError>
        ensures { (k : Rows × Chosen) (frames : List Frame) (dues : List Due) →
            HasTold k false (latest_of frames) self.old frames (told_by due.old.items dues) →
            OnOk result ((time : ℕ)
            × HasTold k true time self.new frames (told_by due.new.items dues)
            × (is_some self.new.streams.ended ≡ true)) }
    {
        if self.streams.is_ended() {
            return Ok(());
        }
        match self.choices.until {
            Some(until) => self.close(until, due),
            None => self.close(self.latest, due),
        }
    }

    /// Adds what is to be told before a line of this time, in ns, which isn't earlier than those
    /// before it. Then at most twice as much is held of each stream as came and left in the last
    /// window, while the recordings go on. Fails only out of memory.
    pub fn reach(&mut self, time: u64, due: &mut Vec<DueLine>) -> Result<(), AllocError>
        ensures stands { Reaches (λ done. OnOk result done) time self.old self.new
            due.old.items due.new.items }
        ensures held { (k : Rows × Chosen) (before until : ℕ) (frames : List Frame)
            (dues : List Due) → before ≤ time → latest_of frames ≤ before →
            self.new.streams.ended ≡ None → IsEndFor k.1.until frames until →
            HasTold k false before self.old frames (told_by due.old.items dues) →
            OnOk result (HoldsOneWindow k.0 k.1 until frames time self.new.streams.kept) }
    {
        self.close_before(time, due)?;
        self.collect(Some(time), due)
    }

    /// Adds all that is still to be told, no more lines coming. Fails only out of memory.
    pub fn finish(&mut self, due: &mut Vec<DueLine>) -> Result<(), AllocError>
        ensures { Finishes (λ done. OnOk result done) self.old self.new
            due.old.items due.new.items }
    {
        self.close_at_end(due)?;
        self.collect(None, due)
    }

    /// Whether a line that names this link, at that place of the tables, is passed over: the link
    /// is left out; or the line left where the link goes, undamaged, and its sender's port isn't
    /// recorded.
    fn is_passed(
        &self,
        seen: &Seen,
        vl: Option<VlId>,
        named: Option<usize>,
        frame: Checked<'_>,
    ) -> bool
        requires { IfSome named (λ link. link < length self.now.streams.tables.now.links) }
        ensures { (x : Frame) → x.role ≡ seen.now.role → x.arrival.side ≡ seen.now.heading.side →
            x.arrival.port ≡ seen.now.heading.port → bytes_of frame.entry ≡ x.arrival.bytes →
            vl ≡ link_named_by x.arrival.bytes →
            named ≡ place_named self.now.streams.tables.now x.arrival.bytes →
            result ≡ asked.is_passed self.now.streams.tables.now
            (choices_in self.now) x }
    {
        let (side, port) = (seen.heading.side, seen.heading.port);
        is_left_out(self.choices, vl)
            || self.streams.is_unheard(seen.role, side, port, named, frame)
    }

    /// A line is passed over, or goes to its streams.
    fn take(&mut self, n: u64, seen: &Seen, message: &[u8]) -> Result<(), AllocError>
        requires time { seen.now.heading.time ≤ latest_listed }
        requires known { IsSealedAs seen.now.heading.seal message.now }
        ensures others { IsSameButTaken self.old self.new }
        ensures counted { (frames : List Frame) →
            let t = self.old.streams.tables.now in
            let c = choices_in self.old in
            let x = frame_of (item_of n seen.now message.now) in
            self.old.left_out ≡ min (left_out_of t c frames) spec.most_counted →
            OnOk result
            (self.new.left_out ≡ min (left_out_of t c (x ∷ frames)) spec.most_counted) }
        ensures stands { TakesNext (λ done. OnOk result done) self.old self.new
            seen.now.heading.time (frame_of (item_of n seen.now message.now)) }
    {
        if !is_in_time(self.choices, seen) {
            return Ok(());
        }
        let frame = seen.heading.frame(message);
        let vl = vl_named(self.alloc, frame)?;
        let named = self.streams.place_named(vl);
        if self.is_passed(seen, vl, named, frame) {
            self.left_out = self.left_out.saturating_add(1);
            return Ok(());
        }
        if frame.length() > MOST_BYTES {
            return Ok(());
        }
        match seen.role {
            Role::Came => self.streams.came(named, n, &seen.heading, frame),
            Role::Left => self.streams.left(named, n, &seen.heading, frame),
        }
    }

    /// Takes a line, whose time was reached. Fails only out of memory.
    pub fn follow(&mut self, n: u64, seen: &Seen, message: &[u8]) -> Result<(), AllocError>
        requires time { seen.now.heading.time ≤ latest_listed }
        requires known { IsSealedAs seen.now.heading.seal message.now }
        ensures { Follows (λ done. OnOk result done) self.old self.new seen.now.heading.time
            (frame_of (item_of n seen.now message.now)) }
    {
        self.take(n, seen, message)?;
        self.latest = seen.heading.time;
        Ok(())
    }

    /// The answer with what was counted, all being told, where there are so many findings more.
    pub fn conclusion_with(&self, more: u64) -> Conclusion
        ensures { (k : Rows × Chosen) (frames : List Frame) (dues : List Due) →
            IsJudgedToEnd k self.now frames dues →
            result ≡ concluded (totals_and more k frames dues) }
    {
        let findings = self.findings.saturating_add(more);
        let unseen = self.streams.unseen();
        let exercised = self.choices.is_exercised;
        let mut totals = Totals::new(findings, self.left_out, unseen, exercised);
        self.streams.count(&mut totals);
        totals.conclusion()
    }
}

impl Machine<Seen> for JudgingRun<'_> {
    ghost use Rattle.afdx_command_conform.specs.Choices.{Choices as Chosen};
    ghost use Rattle.afdx_command_conform.specs.Told.{TellsItems, TellsToEnd};
    ghost use Rattle.afdx_command_conform.specs.AllLines.{AreSomeLines};
    ghost use Rattle.afdx_command_conform.specs.Written.{Begins as BeginsSome};
    ghost use Rattle.afdx_input_runs.specs.Joining.{frames_of};
    ghost use Rattle.afdx_config.specs.Rows.{Rows};

    ghost Rules = { Rows × Chosen };

    ghost Can = { λ rules item. Unit {0} };

    ghost Told = { TellsItems };

    ghost Begins = { λ rules judging old new past.
        BeginsSome old new (AreSomeLines rules (frames_of past)) };

    ghost Done = { TellsToEnd };

    fn tell<O: Sink>(
        &mut self,
        n: u64,
        seen: &Seen,
        message: &[u8],
        output: &mut O,
    ) -> Result<(), RunFault> {
        let mut due = Vec::new(self.alloc);
        self.reach(seen.heading.time, &mut due)?;
        put_due(due.as_slice(), output)?;
        self.follow(n, seen, message)?;
        Ok(())
    }

    fn end<O: Sink>(&mut self, output: &mut O) -> Result<(), RunFault> {
        let mut due = Vec::new(self.alloc);
        self.finish(&mut due)?;
        put_due(due.as_slice(), output)
    }
}

impl Judge for JudgingRun<'_> {
    ghost use Rattle.afdx_command_conform.specs.Told.{CountsAll};

    ghost HasCounted = { CountsAll };

    fn conclusion(&self) -> Conclusion {
        self.conclusion_with(0)
    }
}
