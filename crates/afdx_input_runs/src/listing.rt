//! Recordings are written as the frame list that says the same.

ghost use Rattle.std.specs.Prelude.{◌≡◌, List, ℕ, OnOk, OnErr, IfSome, false, true};
ghost use Rattle.std.specs.Io.KnownBytes.{Appends};
ghost use Rattle.afdx_input_lines.specs.Calls.{AppendsFront, is_failed_read, is_failed_write};
ghost use Rattle.afdx_text.specs.Sinks.{SinkKept};
ghost use Rattle.afdx_input_sources.specs.Claims.{ports_in};
ghost use Rattle.afdx_input_runs.specs.Arrivals.{TakesFrames};
ghost use Rattle.afdx_input_runs.specs.ListText as text;
ghost use Rattle.afdx_input_runs.specs.ListText.{Lists};

use crate::inputs::RunInput;
use crate::reading::Reading;
use afdx_config::{Described, SwitchId};
use afdx_input_lines::RunFault;
use afdx_input_sources::{FrameLines, Machine, NumberLine, Tally, UnsaidPort};
use afdx_text::{OutLine, Sink, Site};
use std::alloc::Global;

/// The name of the switch at this place of a configuration; empty where there is one on a side.
#[tactic(auto, unfolding(crate::specs::ListText::switch_name))]
fn name_in(described: &Described, switch: u8) -> &str
    ensures { result.now ≡ text.name_in described.entry.now switch }
{
    match described {
        Described::Several(switches) if switch < switches.id_count() => {
            switches.name(SwitchId(switch))
        }
        Described::Several(_) | Described::One(_) => "",
    }
}

/// Puts the line of number n, with the name of a switch of this configuration.
fn put_number<O: Sink>(
    output: &mut O,
    described: &Described,
    n: u64,
    line: &NumberLine,
    bytes: &[u8],
) -> Result<(), RunFault>
    requires sound { O.failed output.old ≡ false }
    ensures sink { SinkKept O.failed O.settings output.old output.new result }
    ensures whole { OnOk result (Appends (O.written output.old) (O.written output.new)
        (text.number_text described.now n line.now bytes.now)) }
    ensures front { OnErr result (AppendsFront (O.written output.old) (O.written output.new)
        (text.number_text described.now n line.now bytes.now)) }
{
    match line {
        NumberLine::Arrival {
            kind,
            time,
            side,
            switch,
            port,
            ..
        } => {
            let site = Site {
                side: *side,
                switch: name_in(described, *switch),
            };
            let line = OutLine::Listed {
                kind: *kind,
                time: *time,
                site,
                port: *port,
                bytes,
            };
            output.put(&line)
        }
        NumberLine::Skipped(reason) => {
            let line = OutLine::Remark {
                word: reason.word(),
                n,
            };
            output.put(&line)
        }
    }
}

/// Writes the line of each number, with the names of switches of a configuration.
#[derive(Drop)]
pub(crate) struct Lister<'a> {
    described: &'a Described,
}

impl Machine<NumberLine> for Lister<'_> {
    ghost use Rattle.afdx_config.specs.declared.describing.Described.{Described as Configuration};
    ghost use Rattle.afdx_input_runs.specs.ListText.{WritesLines, WritesSomeLines};

    ghost Rules = { Configuration };

    ghost Can = { λ rules item. Unit {0} };

    ghost Told = { λ d lister old new past.
        (lister.described.now ≡ d) × WritesLines d old new past };

    ghost Begins = { λ d lister old new past. WritesSomeLines d old new past };

    ghost Done = { λ d lister old new past. WritesLines d old new past };

    fn tell<O: Sink>(
        &mut self,
        n: u64,
        head: &NumberLine,
        bytes: &[u8],
        output: &mut O,
    ) -> Result<(), RunFault> {
        put_number(output, self.described, n, head, bytes)?;
        Ok(())
    }

    fn end<O: Sink>(&mut self, output: &mut O) -> Result<(), RunFault> {
        Ok(())
    }
}

/// Writes the numbers of an input, a recording or two that are read at once, as the frame list that
/// says the same: a line for each, that of its arrival where it is taken, or a remark, `#` with the
/// word of the reason and the number, where it is skipped as soon as it is read. Of two recordings
/// the arrivals stand in the order in which `run_pair` takes them, and each number is that in its
/// own recording. Where no option says at which port a frame came in, it is that of the system of
/// the configuration that its source address names. Of a configuration of several switches each
/// line of an arrival has the name of its switch. Counts what is no arrival.
///
/// Each line is handed to `output` before the next frame is read. The first fault, as it is found,
/// ends it; the lines of the numbers before it stand written, but for arrivals that are held where
/// a device or memory fails. `RunFault::Read` and `RunFault::Write` come exactly where the device
/// of an input, or the output's, failed; none is tried again.
pub fn list_numbers<P: Drop, A: RunInput<P, NumberLine>, O: Sink>(
    alloc: Global,
    options: P,
    described: &Described,
    input: &mut A,
    output: &mut O,
) -> Result<Tally, RunFault>
    requires new { A.IsNew input.old }
    requires sound_output { O.failed output.old ≡ false }
    ensures ended { OnOk result (A.ended input.new) }
    ensures read { A.failed input.new ≡ is_failed_read result }
    ensures write { O.failed output.new ≡ is_failed_write result }
    ensures calls { A.IsAskedFew true input.old input.new }

    // Where its bytes are known: what is answered and written for the numbers that it takes.
    ensures lists { IfSome (A.known input.old) (λ bytes. Lists described.now
        (A.Takes TakesFrames options (ports_in described.now) bytes input.new)
        (O.written output.old) (O.written output.new) result) }
{
    let reading = Reading {
        unsaid: UnsaidPort::of_sender_in(described),
        form: FrameLines,
    };
    input.tell_all(alloc, options, reading, &mut Lister { described }, output)
}
