//! Lines of a reader, one at a time.

ghost use Rattle.std.specs.Prelude.{◌≤◌, ◌<◌, ◌≡◌, ◌≢◌, ◌+◌, ◌-◌, ◌++◌, ◌∷◌, [], Ok, Err, true};
ghost use Rattle.std.specs.Prelude.{false, vec_len, length, take, drop, IfOk, OnOk, OnErr, IfErr};
ghost use Rattle.std.specs.Prelude.{ℕ, IfSome, IfNone};
ghost use Rattle.std.specs.Io.KnownBytes.{IsAtEnd};
ghost use Rattle.afdx_input_lines.specs.Calls.{is_failed_read};

use crate::fault::RunFault;
use crate::next::Next;
use crate::splitting::find_expected;
use crate::watched::Watched;
use std::alloc::{AllocError, Global};
use std::io::Read;

/// The most lines of a list, blank ones and remarks counted.
const MOST_LINES: u64 = 1_000_000;
/// The most bytes of a line, without its line feed.
const LONGEST_LINE: usize = 4_200;
/// The bytes that are held at a time.
const CHUNK: usize = 65_536;

/// Takes the lines of a list one by one, in memory that doesn't grow.
///
/// It holds what was read and not yet taken, and the line that was taken last.
#[derive(Debug, Drop)]
pub struct LineReader {
    chunk: Vec<u8>,
    line_start: usize,
    line_end: usize,
    start: usize,
    end: usize,
    lines: u64,
    ghost line_ordered: { line_start ≤ line_end },
    ghost line_within: { line_end ≤ vec_len chunk },
    ghost ordered: { start ≤ end },
    ghost within: { end ≤ vec_len chunk },
    ghost room: { vec_len chunk ≡ 65536 },
}

/// Room for what is held.
fn new_chunk(alloc: Global) -> Result<Vec<u8>, AllocError>
    ensures { IfOk result (λ chunk. vec_len chunk ≡ 65536) }
{
    vec![in alloc; 0u8; CHUNK]
}

impl LineReader {
    ghost use Rattle.afdx_input_lines.specs.Lines.{unread, latest_line, lines_taken, left, IsHonest};
    ghost use Rattle.afdx_input_lines.specs.Lines.{HasNoFeed, IsFirstFeed, TakesLine, TakesBytes};
    ghost use Rattle.afdx_input_lines.specs.Lines.{CanStop, StopsBy, most_lines, longest_line, reads_of_line};
    ghost use Rattle.afdx_input_lines.specs.Watching.{calls_of, device_of, has_ended, has_failed};

    /// A reader that has taken nothing yet.
    pub fn new(alloc: Global) -> Result<LineReader, AllocError>
        ensures unread { IfOk result (λ reader. unread reader ≡ []) }
        ensures lines { IfOk result (λ reader. lines_taken reader ≡ 0) }
    {
        Ok(LineReader {
            chunk: new_chunk(alloc)?,
            line_start: 0,
            line_end: 0,
            start: 0,
            end: 0,
            lines: 0,
        })
    }

    /// The number of lines that were taken.
    pub fn lines(&self) -> u64
        ensures { result ≡ lines_taken self.now }
    {
        self.lines
    }

    /// The line that was taken last, without its line feed. It stands until the next one is asked
    /// for.
    pub fn line(&self) -> &[u8]
        ensures { result.now ≡ latest_line self.now }
    {
        &self.chunk[self.line_start..self.line_end]
    }

    /// Takes the next line.
    ///
    /// `LineTooLong` comes as soon as 4,201 bytes of a line are held, `TooManyLines` at the first
    /// byte after 1,000,000 lines, `Read` exactly where the input failed. The input isn't read
    /// again after its end, nor after a fault. A line of at most 4,200 bytes takes at most 4,201
    /// reads.
    #[inline(always)]
    pub fn next_line<R: Read>(&mut self, input: &mut Watched<R>) -> Result<Next, RunFault>
        requires sound { has_failed input.old ≡ false }
        requires honest { IsHonest R.remaining input.old }
        ensures honest { IsHonest R.remaining input.new }
        ensures failed { has_failed input.new ≡ is_failed_read result }

        // What is taken, of what is left of the list.
        ensures line { result ≡ Ok Next.Given → TakesLine (left R.remaining self.old input.old)
            (left R.remaining self.new input.new) (latest_line self.new) }
        ensures short { result ≡ Ok Next.Given → length (latest_line self.new) ≤ longest_line }
        ensures lines { result ≡ Ok Next.Given →
            (lines_taken self.new ≡ lines_taken self.old + 1)
            × (lines_taken self.new ≤ most_lines) }
        ensures same { result ≢ Ok Next.Given → lines_taken self.new ≡ lines_taken self.old }
        ensures last { result ≡ Ok Next.Ended →
            (has_ended input.new ≡ true) × IsAtEnd (left R.remaining self.old input.old) }
        ensures fault { IfErr result (λ fault.
            CanStop fault (lines_taken self.old) (left R.remaining self.old input.old)) }

        // What is taken, of what the input gave.
        ensures whole { result ≡ Ok Next.Given → has_ended input.new ≡ false →
            (has_ended input.old ≡ false) × HasNoFeed (latest_line self.new)
            × TakesBytes (R.remaining (device_of input.old)) (R.remaining (device_of input.new))
            (unread self.old) (unread self.new) (latest_line self.new ++ 10 ∷ []) }
        ensures read { result ≡ Err RunFault.Read →
            (has_ended input.old ≡ false) × HasNoFeed (unread self.new)
            × TakesBytes (R.remaining (device_of input.old)) (R.remaining (device_of input.new))
            (unread self.old) (unread self.new) [] }
        ensures part { IfErr result (λ fault. StopsBy fault
            (has_ended input.old) (has_ended input.new) (R.remaining (device_of input.old))
            (R.remaining (device_of input.new)) (unread self.old) (unread self.new)) }

        // How often the input is read: not at all while a whole line is held.
        ensures unasked { (n : ℕ) → IsFirstFeed (unread self.old) n → input.new ≡ input.old }
        ensures calls { calls_of input.new ≤ calls_of input.old + reads_of_line }
        ensures last_call { most_lines ≤ lines_taken self.old →
            calls_of input.new ≤ calls_of input.old + 1 }
    {
        let mut searched = 0usize;
        'reads: loop {
            if self.holds_too_many() {
                return Err(RunFault::TooManyLines);
            }
            if let Some(length) = self.find_feed(searched) {
                if length > LONGEST_LINE {
                    return Err(RunFault::LineTooLong(self.lines + 1));
                }
                self.take_line(length, 1);
                return Ok(Next::Given);
            }
            searched = self.end - self.start;
            if searched > LONGEST_LINE {
                return Err(RunFault::LineTooLong(self.lines + 1));
            }
            if let Next::Ended = self.refill(input)? {
                if searched == 0 {
                    return Ok(Next::Ended);
                }
                self.take_line(searched, 0);
                return Ok(Next::Given);
            }
        }
    }

    /// Whether a byte is held that belongs to no line that may be taken.
    fn holds_too_many(&self) -> bool
        ensures yes { result ≡ true →
            (most_lines ≤ self.now.lines) × (self.now.start < self.now.end) }
        ensures no { result ≡ false → most_lines ≤ self.now.lines → self.now.start ≡ self.now.end }
    {
        self.lines >= MOST_LINES && self.start < self.end
    }

    /// How many bytes stand before the first line feed, if one is held. The first `searched` hold
    /// none. Lines are often about as long as the one before.
    #[inline(always)]
    fn find_feed(&self, searched: usize) -> Option<usize>
        requires within { searched ≤ self.now.end - self.now.start }
        requires no_feed { HasNoFeed (take searched (unread self.now)) }
        ensures found { IfSome result (λ n. IsFirstFeed (unread self.now) n) }
        ensures within { IfSome result (λ n. n + 1 ≤ self.now.end - self.now.start) }
        ensures none { IfNone result (HasNoFeed (unread self.now)) }
    {
        let from = self.start + searched;
        let before = self.line_end - self.line_start;
        match find_expected(&self.chunk[from..self.end], b'\n', before) {
            Some(at) => Some(searched + at),
            None => None,
        }
    }

    /// Takes a line of so many bytes, and what ends it.
    fn take_line(&mut self, length: usize, ending: usize)
        requires within { length + ending ≤ self.old.end - self.old.start }
        requires few { self.old.lines < most_lines }
        ensures line { latest_line self.new ≡ take length (unread self.old) }
        ensures rest { unread self.new ≡ drop (length + ending) (unread self.old) }
        ensures lines { self.new.lines ≡ self.old.lines + 1 }
    {
        self.line_start = self.start;
        self.line_end = self.start + length;
        self.start += length + ending;
        self.lines += 1;
    }

    /// Reads once, behind what is unread, which is moved to the front.
    fn refill<R: Read>(&mut self, input: &mut Watched<R>) -> Result<Next, RunFault>
        requires sound { has_failed input.old ≡ false }
        requires honest { IsHonest R.remaining input.old }
        requires short { self.old.end - self.old.start ≤ longest_line }
        ensures honest { IsHonest R.remaining input.new }
        ensures fault { IfErr result (λ fault. fault ≡ RunFault.Read) }
        ensures failed { has_failed input.new ≡ is_failed_read result }
        ensures lines { self.new.lines ≡ self.old.lines }
        ensures bytes { TakesBytes (R.remaining (device_of input.old))
            (R.remaining (device_of input.new))
            (unread self.old) (unread self.new) [] }
        ensures more { result ≡ Ok Next.Given →
            (self.old.end - self.old.start < self.new.end - self.new.start)
            × (has_ended input.new ≡ has_ended input.old) }
        ensures last { result ≡ Ok Next.Ended →
            (has_ended input.new ≡ true) × (unread self.new ≡ unread self.old)
            × (self.new.end - self.new.start ≡ self.old.end - self.old.start) }
        ensures err { OnErr result (
            (has_ended input.old ≡ false) × (unread self.new ≡ unread self.old)) }
        ensures calls { calls_of input.new ≤ calls_of input.old + 1 }
    {
        if input.ended() {
            return Ok(Next::Ended);
        }
        self.move_to_front();
        let held = self.end;
        match input.read(&mut self.chunk.as_mut_slice()[held..]) {
            Ok(count) => {
                self.end += count;
                Ok(Next::of_read(count))
            }
            Err(_) => Err(RunFault::Read),
        }
    }

    /// Moves what is unread to the front of the chunk.
    fn move_to_front(&mut self)
        ensures start { self.new.start ≡ 0 }
        ensures end { self.new.end ≡ self.old.end - self.old.start }
        ensures unread { unread self.new ≡ unread self.old }
        ensures lines { self.new.lines ≡ self.old.lines }
    {
        self.chunk.copy_within(self.start..self.end, 0);
        self.end -= self.start;
        self.start = 0;
    }
}
