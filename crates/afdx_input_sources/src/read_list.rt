//! A list, as the source of a run: each line that says something is an item.

ghost use Rattle.std.specs.Prelude.{◌≡◌, ◌-◌, IfOk};
ghost use Rattle.afdx_input_lines.specs.Lines.{lines_taken, most_lines};

use crate::engine::Source;
use crate::line_form::{LineForm, Listed};
use afdx_input_lines::{LineReader, Next, RunFault, Watched};
use std::alloc::{AllocError, Global};
use std::io::Read;

/// A list of lines of one form, and what its last line says of those that were read.
#[derive(Drop)]
pub struct ReadList<F, H> {
    form: F,
    reader: LineReader,
    head: H,
    bytes: Vec<u8>,
}

impl<F: LineForm<H>, H: Listed> ReadList<F, H> {
    ghost use Rattle.afdx_input_sources.specs.ListSource.{IsUnread};

    /// A list of which nothing was read yet.
    pub fn new(alloc: Global, form: F) -> Result<ReadList<F, H>, AllocError>
        ensures form { IfOk result (λ list. list.form ≡ form) }
        ensures unread { IfOk result (λ list. IsUnread list.reader (H.time_of list.head)) }
    {
        Ok(ReadList {
            form,
            reader: LineReader::new(alloc)?,
            head: H::none(),
            bytes: Vec::new(alloc),
        })
    }

    /// The number of lines that were read.
    pub fn lines(&self) -> u64
        ensures { result ≡ lines_taken self.now.reader }
    {
        self.reader.lines()
    }
}

impl<F: LineForm<H>, H: Listed, R: Read> Source<H, Watched<R>> for ReadList<F, H> {
    ghost use Rattle.afdx_input_sources.specs.ListSource.{item_given, HasGiven, HasEnded, HasStopped};

    ghost current = { item_given };

    ghost left_of = { λ list. most_lines - lines_taken list.reader };

    ghost Settings = { F };

    ghost settings = { λ list. list.form };

    ghost Gives = { F.Gives };

    ghost Gave = { HasGiven F.IsForm F.kind F.says_of H.time_of R.remaining };

    ghost Ended = { HasEnded F.kind F.says_of H.time_of R.remaining };

    ghost Stopped = { HasStopped F.kind F.says_of R.remaining };

    fn next(&mut self, input: &mut Watched<R>) -> Result<Next, RunFault> {
        while let Next::Given = self.reader.next_line(input)? {
            let n = self.reader.lines();
            let latest = self.head.time();
            match self
                .form
                .read_line(self.reader.line(), latest, &mut self.bytes)
            {
                Ok(Some(head)) => {
                    self.head = head;
                    return Ok(Next::Given);
                }
                Ok(None) => {}
                Err(error) => return Err(RunFault::from((n, error))),
            }
        }
        Ok(Next::Ended)
    }

    fn number(&self) -> u64 {
        self.reader.lines()
    }

    fn head(&self) -> H {
        self.head
    }

    fn bytes(&self) -> &[u8] {
        self.bytes.as_slice()
    }
}
