//! Bytes that were read and not yet used.

ghost use Rattle.std.specs.Prelude.{◌≡◌, ◌≤◌, ◌<◌, ◌+◌, ◌-◌, [], List, ℕ, Ok, length, take, drop};
ghost use Rattle.std.specs.Prelude.{vec_len, true, false, IfOk, IfErr, OnErr, OnOk};
ghost use Rattle.afdx_input_lines.specs.Calls.{is_failed_read};

use afdx_input_lines::{Next, RunFault, Watched};
use std::alloc::{AllocError, Global};
use std::io::Read;

/// The bytes that are held at first.
const CHUNK: usize = 65_536;

/// Holds what was read and not yet passed, and lends a part of what was passed last.
#[derive(Debug, Drop)]
pub struct Held {
    chunk: Vec<u8>,
    lent_start: usize,
    lent_end: usize,
    start: usize,
    end: usize,
    ghost lent_ordered: { lent_start ≤ lent_end },
    ghost lent_within: { lent_end ≤ vec_len chunk },
    ghost ordered: { start ≤ end },
    ghost within: { end ≤ vec_len chunk },
    ghost some: { 0 < vec_len chunk },
}

/// Room for what is held at first.
fn new_chunk(alloc: Global) -> Result<Vec<u8>, AllocError>
    ensures { IfOk result (λ chunk. vec_len chunk ≡ 65536) }
{
    vec![in alloc; 0u8; CHUNK]
}

impl Held {
    ghost use Rattle.afdx_input_lines.specs.Watching.{has_ended, has_failed};
    ghost use Rattle.afdx_input_files.specs.Holding.{unread, lent, standing, Passes, IsTrueToEnd};
    ghost use Rattle.afdx_input_files.specs.Holding.{IsOfReading};

    /// Holds nothing yet.
    pub fn new(alloc: Global) -> Result<Held, AllocError>
        ensures unread { IfOk result (λ held. unread held ≡ []) }
        ensures lent { IfOk result (λ held. lent held ≡ []) }
    {
        Ok(Held {
            chunk: new_chunk(alloc)?,
            lent_start: 0,
            lent_end: 0,
            start: 0,
            end: 0,
        })
    }

    /// What was read and not yet passed.
    pub fn bytes(&self) -> &[u8]
        ensures { result.now ≡ unread self.now }
    {
        &self.chunk[self.start..self.end]
    }

    /// How many bytes that are.
    pub fn count(&self) -> usize
        ensures { result ≡ length (unread self.now) }
    {
        self.end - self.start
    }

    /// The part that is lent of what was passed last. It stands until more is read.
    pub fn lent(&self) -> &[u8]
        ensures { result.now ≡ lent self.now }
    {
        &self.chunk[self.lent_start..self.lent_end]
    }

    /// Passes `n` bytes, and lends those of them that stand at `from..to`.
    pub fn pass(&mut self, n: usize, from: usize, to: usize)
        requires ordered { from ≤ to }
        requires within { to ≤ n }
        requires held { n ≤ length (unread self.old) }
        ensures unread { unread self.new ≡ drop n (unread self.old) }
        ensures lent { lent self.new ≡ take (to - from) (drop from (unread self.old)) }
    {
        self.lent_start = self.start + from;
        self.lent_end = self.start + to;
        self.start += n;
    }

    /// Reads until `n` bytes are held, or the input gave its end and fewer are.
    ///
    /// `Read` comes where the input failed and fewer are held, `Memory` where there is no room for
    /// so many. It reads only while fewer are held.
    #[inline(always)]
    pub fn fill<R: Read>(&mut self, input: &mut Watched<R>, n: usize) -> Result<Next, RunFault>
        requires sound { has_failed input.old ≡ false }
        requires honest { IsTrueToEnd (standing R.remaining self.old input.old) }
        ensures honest { IsTrueToEnd (standing R.remaining self.new input.new) }
        ensures failed { has_failed input.new ≡ is_failed_read result }
        ensures fault { IfErr result IsOfReading }
        ensures passes { Passes (standing R.remaining self.old input.old)
            (standing R.remaining self.new input.new) [] }
        ensures enough { result ≡ Ok Next.Given → n ≤ length (unread self.new) }
        ensures last { result ≡ Ok Next.Ended →
            (has_ended input.new ≡ true) × (length (unread self.new) < n) }
        ensures few { is_failed_read result ≡ true → length (unread self.new) < n }
    {
        if n <= self.count() {
            return Ok(Next::Given);
        }
        self.read_until(input, n)
    }

    /// Reads until `n` bytes are held, where there may be no room for them yet.
    fn read_until<R: Read>(&mut self, input: &mut Watched<R>, n: usize) -> Result<Next, RunFault>
        requires sound { has_failed input.old ≡ false }
        requires honest { IsTrueToEnd (standing R.remaining self.old input.old) }
        ensures honest { IsTrueToEnd (standing R.remaining self.new input.new) }
        ensures failed { has_failed input.new ≡ is_failed_read result }
        ensures fault { IfErr result IsOfReading }
        ensures passes { Passes (standing R.remaining self.old input.old)
            (standing R.remaining self.new input.new) [] }
        ensures enough { result ≡ Ok Next.Given → n ≤ length (unread self.new) }
        ensures last { result ≡ Ok Next.Ended →
            (has_ended input.new ≡ true) × (length (unread self.new) < n) }
        ensures few { is_failed_read result ≡ true → length (unread self.new) < n }
    {
        self.make_room(n)?;
        'reads: while self.end - self.start < n {
            if let Next::Ended = self.refill(input)? {
                return Ok(Next::Ended);
            }
        }
        Ok(Next::Given)
    }

    /// Passes `n` bytes, which needn't be held at once, or fewer where the input gave its end
    /// before.
    /// `Read` comes where the input failed and there were fewer so far.
    pub fn skip<R: Read>(&mut self, input: &mut Watched<R>, n: usize) -> Result<Next, RunFault>
        requires sound { has_failed input.old ≡ false }
        requires honest { IsTrueToEnd (standing R.remaining self.old input.old) }
        ensures honest { IsTrueToEnd (standing R.remaining self.new input.new) }
        ensures failed { has_failed input.new ≡ is_failed_read result }
        ensures fault { IfErr result (λ fault. fault ≡ RunFault.Read) }
        ensures all { result ≡ Ok Next.Given → (passed : List ℕ)
            × Passes (standing R.remaining self.old input.old)
            (standing R.remaining self.new input.new) passed
            × (length passed ≡ n) }
        ensures last { result ≡ Ok Next.Ended → (has_ended input.new ≡ true) × (passed : List ℕ)
            × Passes (standing R.remaining self.old input.old)
            (standing R.remaining self.new input.new) passed
            × (length passed + length (unread self.new) < n) }
        ensures few { is_failed_read result ≡ true → (passed : List ℕ)
            × Passes (standing R.remaining self.old input.old)
            (standing R.remaining self.new input.new) passed
            × (length passed + length (unread self.new) < n) }
    {
        let mut missing = n;
        'reads: while self.count() < missing {
            missing -= self.count();
            self.clear();
            if let Next::Ended = self.refill(input)? {
                return Ok(Next::Ended);
            }
        }
        self.pass(missing, 0, 0);
        Ok(Next::Given)
    }

    /// Passes all that is held.
    fn clear(&mut self)
        ensures unread { unread self.new ≡ [] }
        ensures start { self.new.start ≡ 0 }
        ensures end { self.new.end ≡ 0 }
    {
        self.start = 0;
        self.end = 0;
    }

    /// Makes room for `n` bytes from the first that is held.
    fn make_room(&mut self, n: usize) -> Result<(), AllocError>
        ensures unread { unread self.new ≡ unread self.old }
        ensures room { OnOk result (n ≤ vec_len self.new.chunk - self.new.start) }
    {
        if n <= self.chunk.len() - self.start {
            return Ok(());
        }
        self.move_to_front();
        if n <= self.chunk.len() {
            return Ok(());
        }
        self.chunk.resize(n, 0)?;
        Ok(())
    }

    /// Reads once, behind what is unread.
    fn refill<R: Read>(&mut self, input: &mut Watched<R>) -> Result<Next, RunFault>
        requires sound { has_failed input.old ≡ false }
        requires honest { IsTrueToEnd (standing R.remaining self.old input.old) }
        requires room { self.old.end < vec_len self.old.chunk }
        ensures honest { IsTrueToEnd (standing R.remaining self.new input.new) }
        ensures fault { IfErr result (λ fault. fault ≡ RunFault.Read) }
        ensures failed { has_failed input.new ≡ is_failed_read result }
        ensures passes { Passes (standing R.remaining self.old input.old)
            (standing R.remaining self.new input.new) [] }
        ensures start { self.new.start ≡ self.old.start }
        ensures room { vec_len self.new.chunk ≡ vec_len self.old.chunk }
        ensures more { result ≡ Ok Next.Given → self.old.end < self.new.end }
        ensures none { result ≡ Ok Next.Ended → self.new.end ≡ self.old.end }
        ensures same { OnErr result (self.new.end ≡ self.old.end) }
        ensures ended { result ≡ Ok Next.Ended → has_ended input.new ≡ true }
    {
        if input.ended() {
            return Ok(Next::Ended);
        }
        let held = self.end;
        match input.read(&mut self.chunk.as_mut_slice()[held..]) {
            Ok(count) => {
                self.end += count;
                Ok(Next::of_read(count))
            }
            Err(_) => Err(RunFault::Read),
        }
    }

    /// Moves what is unread to the front of the chunk.
    fn move_to_front(&mut self)
        ensures start { self.new.start ≡ 0 }
        ensures end { self.new.end ≡ self.old.end - self.old.start }
        ensures unread { unread self.new ≡ unread self.old }
    {
        self.chunk.copy_within(self.start..self.end, 0);
        self.end -= self.start;
        self.start = 0;
    }
}
