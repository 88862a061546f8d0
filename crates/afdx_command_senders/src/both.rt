//! The machine of a run over a switch and the systems that send to it.

ghost use Rattle.std.specs.Prelude.{◌≡◌, [], ℕ, IfOk, List, Option};
ghost use Rattle.afdx_input_sources.specs.Tapping.{taps_in};
ghost use Rattle.afdx_senders.specs.Setups.{Setup};
ghost use Rattle.afdx_command_senders.specs.Asked.{asked_of};
ghost use Rattle.afdx_command_senders.specs.BothRun.{BothTellItems};
ghost use Rattle.afdx_command_senders.specs.Outlook.{outlook_of};
ghost use Rattle.afdx_command_senders.specs.Setting.{IsSetting};

use crate::asked::SenderChoices;
use crate::judging::SendersRun;
use crate::merging::tell_merged;
use crate::outlook::SenderOutlook;
use afdx_command_conform::{Judge, JudgingRun};
use afdx_input_lines::RunFault;
use afdx_input_runs::Seen;
use afdx_input_sources::{Machine, Taps};
use afdx_text::{Conclusion, Sink};
use std::alloc::{AllocError, Global};

/// What a run works with: what judges the switch, and what judges the systems that send to it.
#[derive(Drop)]
pub(crate) struct BothRun<'a> {
    switch: JudgingRun<'a>,
    senders: SendersRun<'a>,
}

impl<'a> BothRun<'a> {
    /// It has told nothing yet. Fails only out of memory.
    pub(crate) fn new(
        alloc: Global,
        outlook: SenderOutlook<'a>,
        asked: SenderChoices<'a>,
        taps: &'a Taps,
    ) -> Result<BothRun<'a>, AllocError>
        ensures { let a = asked_of outlook.entry.tables.now (taps_in taps.entry.now) asked.entry in
            IfOk result (λ run. (z : Setup) × IsSetting (outlook_of outlook.entry) a z
            × ((output : Option (List ℕ)) → BothTellItems (z, a) run output output [])) }
    {
        let switch = JudgingRun::new(alloc, outlook.tables, asked.choices, taps)?;
        let senders = SendersRun::new(alloc, outlook, asked, taps)?;
        Ok(BothRun { switch, senders })
    }
}

impl Machine<Seen> for BothRun<'_> {
    ghost use Rattle.afdx_input_runs.specs.Joining.{frames_of};
    ghost use Rattle.afdx_command_conform.specs.Written.{Begins as BeginsSome};
    ghost use Rattle.afdx_command_senders.specs.BothLines.{AreBothSome};
    ghost use Rattle.afdx_command_senders.specs.BothRun.{BothTellItems, BothTellItemsToEnd};
    ghost use Rattle.afdx_command_senders.specs.SenderLines.{RunRules};

    ghost Rules = { RunRules };

    ghost Can = { λ rules item. Unit {0} };

    ghost Told = { BothTellItems };

    ghost Begins = { λ rules run old new past.
        BeginsSome old new (AreBothSome rules (frames_of past)) };

    ghost Done = { BothTellItemsToEnd };

    fn tell<O: Sink>(
        &mut self,
        n: u64,
        seen: &Seen,
        message: &[u8],
        output: &mut O,
    ) -> Result<(), RunFault> {
        let time = seen.heading.time;
        let mut due = Vec::new(self.senders.alloc);
        self.switch.reach(time, &mut due)?;
        let until = self.senders.asked.choices.until;
        let found = self.senders.collect(Some(time), until)?;
        let lines = found.as_slice();
        let dues = due.as_slice();
        tell_merged(&mut self.senders, lines, dues, output)?;
        self.switch.follow(n, seen, message)?;
        self.senders.take(n, seen, message)?;
        self.senders.latest = time;
        Ok(())
    }

    fn end<O: Sink>(&mut self, output: &mut O) -> Result<(), RunFault> {
        let mut due = Vec::new(self.senders.alloc);
        self.switch.finish(&mut due)?;
        let end = self.senders.end_time();
        let found = self.senders.collect(None, Some(end))?;
        let lines = found.as_slice();
        let dues = due.as_slice();
        tell_merged(&mut self.senders, lines, dues, output)
    }
}

impl Judge for BothRun<'_> {
    ghost use Rattle.afdx_command_senders.specs.BothRun.{BothCountsAll};

    ghost HasCounted = { BothCountsAll };

    fn conclusion(&self) -> Conclusion {
        let senders = self.senders.totals();
        let last = self.switch.conclusion_with(self.senders.findings);
        Conclusion {
            senders: Some(senders),
            ..last
        }
    }
}
