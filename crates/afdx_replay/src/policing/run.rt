//! A run that polices the frames of one link.

ghost use Rattle.std.specs.Prelude.{◌≡◌, ◌<◌, ◌≤◌, ◌+◌, ◌-◌, ◌^◌, if◌then◌else◌, ◌∷◌, [], ℕ, List, Option, IfSome, OnOk, true, false};
ghost use Rattle.afdx_frame.specs.Seals.{IsSealedAs};
ghost use Rattle.afdx_input_lines.specs.Lines.{most_reads};
ghost use Rattle.afdx_police.specs.Arrival.{Arrival};
ghost use Rattle.afdx_police.specs.Rule.{Rule};
ghost use Rattle.afdx_police.specs.RuleOf.{rule_of};
ghost use Rattle.afdx_police.specs.Verdicts.{verdict_in};
ghost use Rattle.afdx_input_lines.specs.Calls.{is_failed_read, is_failed_write};
ghost use Rattle.afdx_input_lines.specs.FrameLines.{listed_frame};
ghost use Rattle.afdx_input_lines.specs.Watching.{calls_of, device_of, has_ended, has_failed};
ghost use Rattle.afdx_input_sources.specs.Listed.{arrival_at};
ghost use Rattle.afdx_replay.specs.policing.Accounts.{AreUntil, HaveSeen};
ghost use Rattle.afdx_replay.specs.policing.Policed.{Answers};

use afdx_command_tables::{NO_COUNTS, Summary};
use afdx_frame::BySide;
use afdx_input_lines::{Heading, RunFault, Watched};
use afdx_input_sources::{FrameLines, Machine, run_list};
use afdx_police::{LinkAccount, LinkRule, Reason};
use afdx_text::{AtOnce, OutLine, Sink, Site, Text};
use std::alloc::Global;
use std::io::{Read, Write};

/// The accounts of one link, one at each switch.
fn new_accounts(rule: &LinkRule) -> BySide<LinkAccount>
    ensures seen { HaveSeen result (rule_of rule.now) [] }
    ensures until { AreUntil result 0 }
{
    BySide {
        a: LinkAccount::new(rule),
        b: LinkAccount::new(rule),
    }
}

/// Why an arrival is dropped, if it is.
fn verdict(accounts: &mut BySide<LinkAccount>, heading: &Heading, message: &[u8]) -> Option<Reason>
    requires until { AreUntil accounts.old heading.now.time }
    requires known { IsSealedAs heading.now.seal message.now }
    ensures until { AreUntil accounts.new heading.now.time }
    ensures answer { (rule : Rule) (past : List Arrival) (tag : ℕ) →
        HaveSeen accounts.old rule past →
        result ≡ verdict_in rule past
        (arrival_at tag (listed_frame heading.now message.now)) }
    ensures seen { (rule : Rule) (past : List Arrival) (tag : ℕ) →
        HaveSeen accounts.old rule past →
        HaveSeen accounts.new rule
        (arrival_at tag (listed_frame heading.now message.now) ∷ past) }
{
    accounts
        .get_mut(heading.side)
        .police(heading.time, heading.port, heading.frame(message))
}

/// One more than `count`, where the test is true.
fn count_if(count: u64, is_one_more: bool) -> u64
    requires { count < 2 ^ 64 - 1 }
    ensures { result ≡ (if is_one_more then count + 1 else count) }
{
    if is_one_more { count + 1 } else { count }
}

/// What a run that polices one link works with.
#[derive(Drop)]
pub(crate) struct Police {
    accounts: BySide<LinkAccount>,
    pub(crate) accepted: u64,
    pub(crate) dropped: u64,
}

impl Police {
    ghost use Rattle.afdx_replay.specs.policing.Told.{TellsItems};

    /// It has told nothing yet.
    pub(crate) fn new(rule: &LinkRule) -> Police
        ensures { (output : Option (List ℕ)) →
            TellsItems (rule_of rule.now) result output output [] }
    {
        let accounts = new_accounts(rule);
        Police {
            accounts,
            accepted: 0,
            dropped: 0,
        }
    }
}

impl Machine<Heading> for Police {
    ghost use Rattle.afdx_replay.specs.policing.Told.{TellsItems, BeginsItems};

    ghost Rules = { Rule };

    ghost Can = { λ rules item. Unit {0} };

    ghost Told = { TellsItems };

    ghost Begins = { λ rules police old new past. BeginsItems rules old new past };

    ghost Done = { TellsItems };

    #[inline(always)]
    fn tell<O: Sink>(
        &mut self,
        n: u64,
        heading: &Heading,
        message: &[u8],
        output: &mut O,
    ) -> Result<(), RunFault> {
        let reason = verdict(&mut self.accounts, heading, message);
        let is_accepted = reason.is_none();
        self.accepted = count_if(self.accepted, is_accepted);
        self.dropped = count_if(self.dropped, !is_accepted);
        let line = OutLine::Verdict {
            n,
            site: Site::on(heading.side),
            reason,
        };
        output.put(&line)?;
        Ok(())
    }

    fn end<O: Sink>(&mut self, _output: &mut O) -> Result<(), RunFault> {
        Ok(())
    }
}

/// Polices the frames of a list for one virtual link, and writes a line for each.
///
/// Each switch, A and B, has an account of its own. The whole text of a line is handed to `output`
/// before the next line is read. A list that can't be read ends the run with its first fault; the
/// text of the lines before it stands written. `RunFault::Read` and `RunFault::Write` come exactly
/// where the input's or the output's device failed; neither is tried again. Memory is taken for one
/// chunk of 64 KiB at the start, for one line and its frame.
pub fn run_police<R: Read, W: Write>(
    alloc: Global,
    rule: &LinkRule,
    input: &mut Watched<R>,
    output: &mut Watched<W>,
) -> Result<Summary, RunFault>
    requires sound_input { has_failed input.old ≡ false }
    requires unended { has_ended input.old ≡ false }
    requires sound_output { has_failed output.old ≡ false }
    ensures ended { OnOk result (has_ended input.new ≡ true) }
    ensures read { has_failed input.new ≡ is_failed_read result }
    ensures write { has_failed output.new ≡ is_failed_write result }
    ensures calls { calls_of input.new ≤ calls_of input.old + most_reads }

    // Where the input's bytes are known: what is answered and written for the list that they are.
    ensures answer { IfSome (R.remaining (device_of input.old)) (λ bytes.
        Answers (rule_of rule.now) bytes (R.remaining (device_of input.new))
        (W.contents (device_of output.old)) (W.contents (device_of output.new)) result) }
{
    let mut text = Text::new(alloc);
    let mut output = AtOnce::new(output, &mut text);
    let mut police = Police::new(rule);
    let lines = run_list(alloc, FrameLines, &mut police, input, &mut output)?;
    Ok(Summary {
        lines,
        accepted: police.accepted,
        dropped: police.dropped,
        ..NO_COUNTS
    })
}
