//! The machine of a run over what systems sent.

ghost use Rattle.std.specs.Prelude.{◌≡◌, ◌≤◌, ◌+◌, ◌∷◌, [], ℕ, IfOk, List, None, OnErr, OnOk, Option, Some};
ghost use Rattle.std.specs.Prelude.{false, length, min};
ghost use Rattle.std.specs.Io.KnownBytes.{Appends};
ghost use Rattle.afdx_frame.specs.Seals.{IsSealedAs};
ghost use Rattle.afdx_frame.specs.Times.{latest_listed};
ghost use Rattle.afdx_input_lines.specs.Calls.{AppendsFront};
ghost use Rattle.afdx_input_runs.specs.Joining.{Frame, frame_of, frames_of};
ghost use Rattle.afdx_input_sources.specs.Engine.{item_of};
ghost use Rattle.afdx_input_sources.specs.Tapping.{taps_in};
ghost use Rattle.afdx_police.specs.Arrival.{Arrival};
ghost use Rattle.afdx_senders.specs.History.{HaveTold, IsNoSooner};
ghost use Rattle.afdx_senders.specs.Lines.{Line, line_of};
ghost use Rattle.afdx_senders.specs.Settling.{IsEnd};
ghost use Rattle.afdx_senders.specs.Setups.{Setup, ending};
ghost use Rattle.afdx_senders.specs.Telling.{HaveBegun};
ghost use Rattle.afdx_text.specs.Sinks.{SinkKept};
ghost use Rattle.afdx_command_conform.specs.Choices.{latest_of};
ghost use Rattle.afdx_command_conform.specs.Telling.{findings_in, lines_text, most_counted};
ghost use Rattle.afdx_config.specs.Rows.{Rows};
ghost use Rattle.afdx_command_senders.specs.Asked.{Asked, asked_of, came_in, left_out_of};
ghost use Rattle.afdx_command_senders.specs.Outlook.{outlook_of};
ghost use Rattle.afdx_command_senders.specs.SenderLines as lines;
ghost use Rattle.afdx_command_senders.specs.SenderLines.{RunRules, end_by, sent_of, whole_setup};
ghost use Rattle.afdx_command_senders.specs.SenderRun.{HasBegunUpTo, HasToldUpTo, IsNewRun, MayTellUpTo};
ghost use Rattle.afdx_command_senders.specs.SenderRun.{TellsMore, TellsUpTo, WorksBy, told_in, told_text};
ghost use Rattle.afdx_command_senders.specs.SenderRun as spec;
ghost use Rattle.afdx_command_senders.specs.SenderTexts as texts;
ghost use Rattle.afdx_command_senders.specs.Setting.{IsSetting};

use crate::asked::SenderChoices;
use crate::following::senders_of;
use crate::outlook::SenderOutlook;
use crate::recorded::recorded_ports;
use crate::texts::lines_of;
use afdx_command_conform::{
    Judge, findings_in, is_in_time, is_left_out, put_lines, unseen_of, vl_named,
};
use afdx_config::Tables;
use afdx_input_lines::{Role, RunFault};
use afdx_input_runs::Seen;
use afdx_input_sources::{Machine, Taps};
use afdx_senders::{SenderLine, Senders, SiteFrame};
use afdx_text::{Answer, Conclusion, SenderTotals, Sink};
use std::alloc::{AllocError, Global};

/// What a run works with: what is asked for, the senders, the time of the last line in ns, and how
/// many findings were told and lines left out.
#[derive(Drop)]
pub(crate) struct SendersRun<'a> {
    pub(crate) alloc: Global,
    tables: &'a Tables,
    pub(crate) asked: SenderChoices<'a>,
    senders: Senders<'a>,
    pub(crate) latest: u64,
    pub(crate) findings: u64,
    left_out: u64,
}

/// The answer where there are so many findings, and so many frames without one.
fn answer_by(findings: u64, sent: u64) -> Answer
    ensures { result ≡ lines.answer_by findings sent }
{
    if findings > 0 {
        Answer::Deviates(findings)
    } else if sent == 0 {
        Answer::Undecided
    } else {
        Answer::Conforms
    }
}

impl<'a> SendersRun<'a> {
    /// It has told nothing yet. Fails only out of memory.
    pub(crate) fn new(
        alloc: Global,
        outlook: SenderOutlook<'a>,
        asked: SenderChoices<'a>,
        taps: &Taps,
    ) -> Result<SendersRun<'a>, AllocError>
        ensures { let a = asked_of outlook.entry.tables.now (taps_in taps.now) asked.entry in
            IfOk result (λ run. (z : Setup) × IsSetting (outlook_of outlook.entry) a z
            × IsNewRun (z, a) run) }
    {
        let senders = senders_of(alloc, outlook, &asked, recorded_ports(taps))?;
        Ok(SendersRun {
            alloc,
            tables: outlook.tables,
            asked,
            senders,
            latest: 0,
            findings: 0,
            left_out: 0,
        })
    }

    /// Tells what is found of a frame, and counts it.
    pub(crate) fn tell_line<O: Sink>(
        &mut self,
        line: &SenderLine,
        output: &mut O,
    ) -> Result<(), RunFault>
        requires sound { O.failed output.old ≡ false }
        ensures sink { SinkKept O.failed O.settings output.old output.new result }
        ensures others { spec.IsSameButFindings self.old self.new }
        ensures told { OnOk result (Appends (O.written output.old) (O.written output.new)
            (lines_text (texts.lines_of (line_of line.now)))) }
        ensures counted { OnOk result (self.new.findings ≡ min (self.old.findings
            + findings_in (texts.lines_of (line_of line.now))) most_counted) }
        ensures begun { OnErr result (AppendsFront (O.written output.old) (O.written output.new)
            (lines_text (texts.lines_of (line_of line.now)))) }
    {
        let lines = lines_of(self.alloc, line)?;
        put_lines(lines.as_slice(), output)?;
        self.findings = self.findings.saturating_add(findings_in(lines.as_slice()));
        Ok(())
    }
}

impl SendersRun<'_> {
    /// What is to be told before this time, in ns, the oldest first; without a time all that is.
    /// `end` is when the recordings end, if that is known. Fails only out of memory.
    pub(crate) fn collect(
        &mut self,
        before: Option<u64>,
        end: Option<u64>,
    ) -> Result<Vec<SenderLine>, AllocError>
        requires { MayTellUpTo before end self.old.senders }
        ensures others { spec.IsSameButSenders self.old self.new }
        ensures told { IfOk result (λ due.
            TellsUpTo before end self.old.senders self.new.senders (told_in due.items)) }
    {
        let mut due = Vec::new(self.alloc);
        while let Some(line) = self.senders.next(before, end)? {
            due.push(line)?;
        }
        Ok(due)
    }

    /// Tells what is found of some frames, the oldest first, and counts it.
    fn tell_lines<O: Sink>(&mut self, lines: &[SenderLine], output: &mut O) -> Result<(), RunFault>
        requires sound { O.failed output.old ≡ false }
        ensures sink { SinkKept O.failed O.settings output.old output.new result }
        ensures others { spec.IsSameButFindings self.old self.new }
        ensures told { OnOk result (TellsMore self.old self.new
            (O.written output.old) (O.written output.new) (told_in lines.now)) }
        ensures begun { OnErr result (AppendsFront (O.written output.old) (O.written output.new)
            (told_text (told_in lines.now))) }
    {
        for line in lines {
            self.tell_line(line, output)?;
        }
        Ok(())
    }

    /// Tells what is to be told before this time, in ns; without a time all that is. `end` is when
    /// the recordings end, if that is known.
    fn tell_due<O: Sink>(
        &mut self,
        before: Option<u64>,
        end: Option<u64>,
        output: &mut O,
    ) -> Result<(), RunFault>
        requires sound { O.failed output.old ≡ false }
        requires may { MayTellUpTo before end self.old.senders }
        ensures sink { SinkKept O.failed O.settings output.old output.new result }
        ensures others { spec.IsSameButTold self.old self.new }
        ensures told { OnOk result (HasToldUpTo before end self.old self.new
            (O.written output.old) (O.written output.new)) }
        ensures begun { OnErr result (HasBegunUpTo before end self.old
            (O.written output.old) (O.written output.new)) }
    {
        let due = self.collect(before, end)?;
        self.tell_lines(due.as_slice(), output)
    }

    /// Takes a line: it is passed over, or comes to its sender.
    pub(crate) fn take(&mut self, n: u64, seen: &Seen, message: &[u8]) -> Result<(), AllocError>
        requires time { seen.now.heading.time ≤ latest_listed }
        requires known { IsSealedAs seen.now.heading.seal message.now }
        ensures others { spec.IsSameButTaken self.old self.new }
        ensures counted { (t : Rows) (a : Asked) (frames : List Frame) →
            asked_of t a.taps self.old.asked ≡ a →
            self.old.left_out ≡ min (left_out_of a frames) most_counted →
            let x = frame_of (item_of n seen.now message.now) in
            OnOk result (self.new.left_out ≡ min (left_out_of a (x ∷ frames)) most_counted) }
        ensures came { (t : Rows) (a : Asked) (z : Setup) (frames : List Frame)
            (told : List Line) → asked_of t a.taps self.old.asked ≡ a →
            HaveTold z (Some seen.now.heading.time) (came_in a frames) told self.old.senders →
            let x = frame_of (item_of n seen.now message.now) in
            OnOk result (HaveTold z (Some seen.now.heading.time) (came_in a (x ∷ frames)) told
            self.new.senders) }
        ensures begun { (a : Asked) (z : Setup) (frames : List Frame) (told : List Line) →
            HaveTold z (Some seen.now.heading.time) (came_in a frames) told self.old.senders →
            OnErr result (HaveBegun z (Some seen.now.heading.time) (came_in a frames) told) }
    {
        if !is_in_time(self.asked.choices, seen) {
            return Ok(());
        }
        let frame = seen.heading.frame(message);
        let vl = vl_named(self.alloc, frame)?;
        if is_left_out(self.asked.choices, vl) {
            self.left_out = self.left_out.saturating_add(1);
            return Ok(());
        }
        match seen.role {
            Role::Left => Ok(()),
            Role::Came => {
                let x = SiteFrame {
                    line: n,
                    time: seen.heading.time,
                    side: seen.heading.side,
                    port: seen.heading.port,
                    vl,
                    frame,
                };
                self.senders.came(&x)
            }
        }
    }

    /// What is counted of the systems, once all is told.
    pub(crate) fn totals(&self) -> SenderTotals
        ensures { (k : RunRules) (frames : List Frame) (told : List Line) →
            WorksBy k frames self.now →
            HaveTold (whole_setup k frames) None (came_in k.1 frames) told self.now.senders →
            result ≡ sent_of k frames }
    {
        let counts = self.senders.counts();
        let alone = self.senders.alone();
        SenderTotals {
            sent: counts.sent,
            cut: counts.cut,
            alone: alone as u64,
        }
    }

    /// When the recordings end, if no more lines come.
    pub(crate) fn end_time(&self) -> u64
        ensures { result ≡ end_by self.now.asked.choices.now.until self.now.latest }
    {
        match self.asked.choices.until {
            Some(until) => until,
            None => self.latest,
        }
    }
}

impl Machine<Seen> for SendersRun<'_> {
    ghost use Rattle.afdx_input_runs.specs.Joining.{frames_of};
    ghost use Rattle.afdx_command_conform.specs.Written.{Begins as BeginsSome};
    ghost use Rattle.afdx_command_senders.specs.SenderLines.{AreFirstLines, RunRules};
    ghost use Rattle.afdx_command_senders.specs.SenderRun.{TellsItems, TellsItemsToEnd};

    ghost Rules = { RunRules };

    ghost Can = { λ rules item. Unit {0} };

    ghost Told = { TellsItems };

    ghost Begins = { λ rules run old new past.
        BeginsSome old new (AreFirstLines rules (frames_of past)) };

    ghost Done = { TellsItemsToEnd };

    fn tell<O: Sink>(
        &mut self,
        n: u64,
        seen: &Seen,
        message: &[u8],
        output: &mut O,
    ) -> Result<(), RunFault> {
        self.tell_due(Some(seen.heading.time), self.asked.choices.until, output)?;
        self.take(n, seen, message)?;
        self.latest = seen.heading.time;
        Ok(())
    }

    fn end<O: Sink>(&mut self, output: &mut O) -> Result<(), RunFault> {
        let end = self.end_time();
        self.tell_due(None, Some(end), output)
    }
}

impl Judge for SendersRun<'_> {
    ghost use Rattle.afdx_command_senders.specs.SenderRun.{CountsAll};

    ghost HasCounted = { CountsAll };

    fn conclusion(&self) -> Conclusion {
        let senders = self.totals();
        let unseen = unseen_of(self.tables, &Taps::none());
        let answer = answer_by(self.findings, senders.sent);
        Conclusion {
            answer,
            explained: 0,
            waiting: 0,
            uncertain: 0,
            left_out: self.left_out,
            unseen,
            idle: 0,
            senders: Some(senders),
        }
    }
}
