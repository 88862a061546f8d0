//! The blocks of a pcapng, one at a time.

ghost use Rattle.std.specs.Prelude.{◌≡◌, ◌≤◌, ◌<◌, ◌+◌, ◌++◌, List, ℕ, Ok, Err, Some, None, length, take, drop};
ghost use Rattle.std.specs.Prelude.{true, false, IfOk, OnOk, MatchResult};
ghost use Rattle.afdx_input_lines.specs.Calls.{is_failed_read};

use super::FrameReader;
use crate::block::{BlockHead, BlockKind, head_of};
use crate::known::MOST_NUMBERS;
use crate::order::Order;
use afdx_input_lines::{Next, Progress, RecordingFault, RunFault, Watched};
use std::io::Read;

/// The bytes that tell a block of a pcapng apart.
const BLOCK_HEAD: usize = 12;
/// The bytes of a block before its body.
const BODY_START: usize = 8;
/// The bytes of a block behind its body.
const BLOCK_END: usize = 4;

impl FrameReader {
    ghost use Rattle.afdx_input_lines.specs.Watching.{has_failed};
    ghost use Rattle.afdx_input_files.specs.Holding.{unread, standing, IsTrueToEnd};
    ghost use Rattle.afdx_input_files.specs.Recordings.{most_numbers};
    ghost use Rattle.afdx_input_files.specs.Blocks.{least_of, is_held, head_by};
    ghost use Rattle.afdx_input_files.specs.Pcapng.{block_head, block_rest, block_meaning};
    ghost use Rattle.afdx_input_files.specs.Reading.{state_of, latest, Tells, TellsBlock, Meant};
    ghost use Rattle.afdx_input_files.specs.Reading.{CountsBlock};
    ghost use Rattle.afdx_input_files.specs.declared.form.Form.TheVariants.{Pcapng};

    /// The next number of a pcapng.
    #[inline(never)]
    pub(crate) fn next_in_blocks<R: Read>(
        &mut self,
        input: &mut Watched<R>,
    ) -> Result<Next, RunFault>
        requires sound { has_failed input.old ≡ false }
        requires honest { IsTrueToEnd (standing R.remaining self.old.held input.old) }
        requires form { self.old.known.form ≡ Some Pcapng }
        ensures honest { IsTrueToEnd (standing R.remaining self.new.held input.new) }
        ensures failed { has_failed input.new ≡ is_failed_read result }
        ensures tells { Tells result (standing R.remaining self.old.held input.old)
            (standing R.remaining self.new.held input.new)
            (state_of self.old) (state_of self.new) (latest self.new) }
        ensures number { result ≡ Ok Next.Given →
            (state_of self.new).numbers ≡ (state_of self.old).numbers + 1 }
        ensures few { (state_of self.new).numbers ≤ most_numbers }
    {
        'reads: while let Next::Given = self.held.fill(input, BLOCK_HEAD)? {
            if let Progress::Given = self.take_block(input)? {
                return Ok(Next::Given);
            }
        }
        self.end()
    }

    /// Takes a block of which the head is held, and which may take a number.
    ///
    /// Most blocks are packets with the low byte first. So what is done with these is written out
    /// by itself.
    #[inline(always)]
    fn take_block<R: Read>(&mut self, input: &mut Watched<R>) -> Result<Progress, RunFault>
        requires sound { has_failed input.old ≡ false }
        requires honest { IsTrueToEnd (standing R.remaining self.old.held input.old) }
        requires form { self.old.known.form ≡ Some Pcapng }
        requires held { block_head ≤ length (unread self.old.held) }
        ensures honest { IsTrueToEnd (standing R.remaining self.new.held input.new) }
        ensures failed { has_failed input.new ≡ is_failed_read result }
        ensures tells { TellsBlock result (standing R.remaining self.old.held input.old)
            (standing R.remaining self.new.held input.new)
            (state_of self.old) (state_of self.new) (latest self.new) }
        ensures form { self.new.known.form ≡ self.old.known.form }
        ensures counts { CountsBlock result (state_of self.old) (state_of self.new) }
    {
        let head = self.head()?;
        if head.kind == BlockKind::Packet && head.order == Order::LowFirst {
            self.hold_block(head, input)
        } else if head.kind.is_held() {
            self.hold_another(head, input)
        } else {
            self.skip_block(head, input)
        }
    }

    /// What the first bytes of a block say.
    #[inline(always)]
    #[tactic(auto, unfolding(crate::specs::Pcapng::block_rest))]
    fn head(&self) -> Result<BlockHead, RunFault>
        requires { block_head ≤ length (unread self.now.held) }
        ensures few { OnOk result (self.now.known.blocks < most_numbers) }
        ensures least { IfOk result (λ head. least_of head.kind ≤ head.size) }
        ensures told { MatchResult result
            (λ head. head_by self.now.known.order (unread self.now.held) ≡ Some head)
            (λ fault. (fault ≡ RunFault.Recording (RecordingFault.Damaged self.now.known.numbers))
            × (block_rest (state_of self.now) (unread self.now.held) ≡ None)) }
    {
        if self.known.blocks >= MOST_NUMBERS {
            return Err(self.known.damaged());
        }
        match head_of(self.known.order, self.held.bytes()) {
            Some(head) => Ok(head),
            None => Err(self.known.damaged()),
        }
    }

    /// Takes a block that is held whole first.
    #[inline(always)]
    fn hold_block<R: Read>(
        &mut self,
        head: BlockHead,
        input: &mut Watched<R>,
    ) -> Result<Progress, RunFault>
        requires sound { has_failed input.old ≡ false }
        requires honest { IsTrueToEnd (standing R.remaining self.old.held input.old) }
        requires form { self.old.known.form ≡ Some Pcapng }
        requires held { block_head ≤ length (unread self.old.held) }
        requires few { self.old.known.blocks < most_numbers }
        requires least { least_of head.kind ≤ head.size }
        requires told { head_by self.old.known.order (unread self.old.held) ≡ Some head }
        ensures honest { IsTrueToEnd (standing R.remaining self.new.held input.new) }
        ensures failed { has_failed input.new ≡ is_failed_read result }
        ensures tells { TellsBlock result (standing R.remaining self.old.held input.old)
            (standing R.remaining self.new.held input.new)
            (state_of self.old) (state_of self.new) (latest self.new) }
        ensures form { self.new.known.form ≡ self.old.known.form }
        ensures counts { CountsBlock result (state_of self.old) (state_of self.new) }
    {
        if let Next::Ended = self.held.fill(input, head.size as usize)? {
            return Err(self.ended());
        }
        self.take_held(head)
    }

    /// The same, not written out where it is called.
    #[inline(never)]
    fn hold_another<R: Read>(
        &mut self,
        head: BlockHead,
        input: &mut Watched<R>,
    ) -> Result<Progress, RunFault>
        requires sound { has_failed input.old ≡ false }
        requires honest { IsTrueToEnd (standing R.remaining self.old.held input.old) }
        requires form { self.old.known.form ≡ Some Pcapng }
        requires held { block_head ≤ length (unread self.old.held) }
        requires few { self.old.known.blocks < most_numbers }
        requires least { least_of head.kind ≤ head.size }
        requires told { head_by self.old.known.order (unread self.old.held) ≡ Some head }
        ensures honest { IsTrueToEnd (standing R.remaining self.new.held input.new) }
        ensures failed { has_failed input.new ≡ is_failed_read result }
        ensures tells { TellsBlock result (standing R.remaining self.old.held input.old)
            (standing R.remaining self.new.held input.new)
            (state_of self.old) (state_of self.new) (latest self.new) }
        ensures form { self.new.known.form ≡ self.old.known.form }
        ensures counts { CountsBlock result (state_of self.old) (state_of self.new) }
    {
        self.hold_block(head, input)
    }

    /// Takes a block that is held whole.
    #[inline(always)]
    fn take_held(&mut self, head: BlockHead) -> Result<Progress, RunFault>
        requires few { self.old.known.blocks < most_numbers }
        requires least { least_of head.kind ≤ head.size }
        requires held { head.size ≤ length (unread self.old.held) }
        requires told { head_by self.old.known.order (unread self.old.held) ≡ Some head }
        ensures meant { Meant (block_meaning (state_of self.old)
            (take head.size (unread self.old.held))) result (state_of self.new) (latest self.new) }
        ensures rest { OnOk result (unread self.new.held
            ≡ drop head.size (unread self.old.held)) }
        ensures form { self.new.known.form ≡ self.old.known.form }
        ensures counts { CountsBlock result (state_of self.old) (state_of self.new) }
    {
        let size = head.size as usize;
        if head.order.word(self.held.bytes(), size - BLOCK_END) != head.size {
            return Err(self.known.damaged());
        }
        let body = &self.held.bytes()[BODY_START..size - BLOCK_END];
        match self.known.take_body(head.kind, head.order, body) {
            Ok(Some(placed)) => {
                let start = BODY_START + placed.start;
                self.held.pass(size, start, start + placed.count);
                self.recorded = placed.what;
                Ok(Progress::Given)
            }
            Ok(None) => {
                self.held.pass(size, 0, 0);
                Ok(Progress::NotYet)
            }
            Err(fault) => Err(fault),
        }
    }

    /// Takes a block of which only the ends are looked at.
    #[inline(never)]
    fn skip_block<R: Read>(
        &mut self,
        head: BlockHead,
        input: &mut Watched<R>,
    ) -> Result<Progress, RunFault>
        requires sound { has_failed input.old ≡ false }
        requires honest { IsTrueToEnd (standing R.remaining self.old.held input.old) }
        requires form { self.old.known.form ≡ Some Pcapng }
        requires held { block_head ≤ length (unread self.old.held) }
        requires few { self.old.known.blocks < most_numbers }
        requires least { least_of head.kind ≤ head.size }
        requires skipped { is_held head.kind ≡ false }
        requires told { head_by self.old.known.order (unread self.old.held) ≡ Some head }
        ensures honest { IsTrueToEnd (standing R.remaining self.new.held input.new) }
        ensures failed { has_failed input.new ≡ is_failed_read result }
        ensures tells { TellsBlock result (standing R.remaining self.old.held input.old)
            (standing R.remaining self.new.held input.new)
            (state_of self.old) (state_of self.new) (latest self.new) }
        ensures form { self.new.known.form ≡ self.old.known.form }
        ensures counts { CountsBlock result (state_of self.old) (state_of self.new) }
    {
        if let Next::Ended = self.held.skip(input, head.size as usize - BLOCK_END)? {
            return Err(self.ended());
        }
        if let Next::Ended = self.held.fill(input, BLOCK_END)? {
            return Err(self.ended());
        }
        self.take_skipped(head)
    }

    /// Takes a block of which the last bytes are held.
    #[inline(never)]
    fn take_skipped(&mut self, head: BlockHead) -> Result<Progress, RunFault>
        requires few { self.old.known.blocks < most_numbers }
        requires least { least_of head.kind ≤ head.size }
        requires skipped { is_held head.kind ≡ false }
        requires held { 4 ≤ length (unread self.old.held) }
        ensures meant { (passed : List ℕ) → length passed + 4 ≡ head.size
            → head_by self.old.known.order (passed ++ unread self.old.held) ≡ Some head
            → Meant (block_meaning (state_of self.old)
            (take head.size (passed ++ unread self.old.held)))
            result (state_of self.new) (latest self.new) }
        ensures rest { OnOk result (unread self.new.held ≡ drop 4 (unread self.old.held)) }
        ensures form { self.new.known.form ≡ self.old.known.form }
        ensures counts { CountsBlock result (state_of self.old) (state_of self.new) }
    {
        if head.order.word(self.held.bytes(), 0) != head.size {
            return Err(self.known.damaged());
        }
        self.held.pass(BLOCK_END, 0, 0);
        match self.known.take_body(head.kind, head.order, &[]) {
            Ok(Some(placed)) => {
                self.recorded = placed.what;
                Ok(Progress::Given)
            }
            Ok(None) => Ok(Progress::NotYet),
            Err(fault) => Err(fault),
        }
    }
}
