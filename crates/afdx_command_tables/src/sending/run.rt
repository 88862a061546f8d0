//! A run that sends the messages of a list.

ghost use Rattle.std.specs.Prelude.{◌≡◌, ◌<◌, ◌≤◌, ◌+◌, ◌⊎◌, ◌∷◌, [], ℕ, List, Option, Some, IfOk, IfSome, OnOk, OnErr, length, slice_get, true, false};
ghost use Rattle.afdx_frame.specs.Times.{latest_listed};
ghost use Rattle.afdx_input_lines.specs.Lines.{most_lines, most_reads};
ghost use Rattle.afdx_config.specs.Rows.{SystemRow};
ghost use Rattle.std.specs.Io.KnownBytes.{Appends};
ghost use Rattle.afdx_input_lines.specs.Calls.{AppendsFront, is_failed_read, is_failed_write};
ghost use Rattle.afdx_input_lines.specs.Watching.{calls_of, device_of, has_ended, has_failed};
ghost use Rattle.afdx_send.specs.Sender.{StandsFor, IsQuiet, frames_held, last_time, sending_of};
ghost use Rattle.afdx_input_sources.specs.Listed.{Handed as HandedSubmission};
ghost use Rattle.afdx_command_tables.specs.sending.Events.{Event, submissions_in, calls_in};
ghost use Rattle.afdx_command_tables.specs.sending.Text.{emission_lines, send_counts};
ghost use Rattle.afdx_text.specs.Sinks.{SinkKept};
ghost use Rattle.afdx_command_tables.specs.sending.Sent.{Source, source_at, source_of, WritesSome, Answers};
ghost use Rattle.afdx_command_tables.specs.sending.Progress.{handed_at, HasTold, AreTold, ToldUntil, TellsSubmission, HasRoom};

use crate::{NO_COUNTS, Summary};
use afdx_admit::Admitted;
use afdx_config::SystemId;
use afdx_frame::{Side, VlId};
use afdx_input_lines::{FrameKind, Handed, RunFault, Watched};
use afdx_input_sources::{Machine, MessageLines, run_list};
use afdx_send::{Emission, SendFault, Sender};
use afdx_text::{AtOnce, OutLine, Sink, Site, Text};
use std::alloc::{AllocError, Global};
use std::io::{Read, Write};

/// By then each message of a list has been emitted: the end of the drain, in ns.
const DRAIN_END: u64 = 1_200_000_000_000_000;

/// The port of a switch that a system sends to.
#[derive(Clone, Copy)]
struct SwitchPort<'a> {
    /// The switch's name; empty where each side has one switch.
    switch: &'a str,
    number: u8,
}

/// Puts the lines of an emission.
fn put_emission<O: Sink>(
    output: &mut O,
    port: SwitchPort<'_>,
    emission: &Emission,
) -> Result<(), RunFault>
    requires sound { O.failed output.old ≡ false }
    ensures sink { SinkKept O.failed O.settings output.old output.new result }
    ensures lines { OnOk result (Appends (O.written output.old) (O.written output.new)
        (emission_lines port.entry.switch.now port.entry.number (sending_of emission.now))) }
    ensures front { OnErr result (AppendsFront (O.written output.old) (O.written output.new)
        (emission_lines port.entry.switch.now port.entry.number (sending_of emission.now))) }
{
    let on_a = OutLine::Listed {
        kind: FrameKind::Raw,
        time: emission.time,
        site: Site {
            side: Side::A,
            switch: port.switch,
        },
        port: port.number,
        bytes: emission.a.as_slice(),
    };
    let on_b = OutLine::Listed {
        kind: FrameKind::Raw,
        time: emission.time,
        site: Site {
            side: Side::B,
            switch: port.switch,
        },
        port: port.number,
        bytes: emission.b.as_slice(),
    };
    output.put(&on_a)?;
    output.put(&on_b)
}

/// Why a message was refused, but where it is memory that was: that is handed on.
fn refusal_of(fault: SendFault) -> Result<SendFault, AllocError>
    ensures same { IfOk result (λ refusal. refusal ≡ fault) }
    ensures message { OnOk result (fault ≡ SendFault.Memory → ⊥) }
    ensures memory { OnErr result (fault ≡ SendFault.Memory) }
{
    match fault {
        SendFault::Memory => Err(AllocError),
        SendFault::NotMyLink
        | SendFault::NoSuchSub
        | SendFault::Empty
        | SendFault::TooLarge
        | SendFault::QueueFull => Ok(fault),
    }
}

/// What a run that sends works with.
#[derive(Drop)]
struct Sending<'a> {
    sender: Sender,
    /// The switch port of its system.
    port: SwitchPort<'a>,
    counts: Summary,
}

impl<'a> Sending<'a> {
    ghost use Rattle.afdx_command_tables.specs.sending.Told.{TellsItems};

    /// It has told nothing yet.
    fn new(
        alloc: Global,
        switch: &'a str,
        tables: &Admitted,
        system: SystemId,
    ) -> Result<Sending<'a>, AllocError>
        requires { system.0 < tables.now.own }
        ensures within { OnOk result (system.0 < length tables.now.systems) }
        ensures told { (row : SystemRow) → slice_get tables.now.systems system.0 ≡ Some row →
            (output : Option (List ℕ)) → IfOk result (λ sending.
            TellsItems (source_of switch.now tables.now system.0 row) sending output output []) }
    {
        let sender = Sender::new(alloc, tables, system)?;
        Ok(Sending {
            sender,
            port: SwitchPort {
                switch,
                number: tables.tables().system(system).port,
            },
            counts: NO_COUNTS,
        })
    }

    /// Tells what is emitted by `until`.
    fn tell_emissions<O: Sink>(&mut self, until: u64, output: &mut O) -> Result<(), RunFault>
        requires clock { last_time self.old.sender ≤ until }
        requires room { (n : ℕ) × (n ≤ most_lines) ×
            HasRoom self.old.counts (frames_held self.old.sender) n }
        requires sound { O.failed output.old ≡ false }
        ensures sink { SinkKept O.failed O.settings output.old output.new result }
        ensures clock { OnOk result (last_time self.new.sender ≡ until) }
        ensures quiet { OnOk result (IsQuiet self.new.sender until) }
        ensures room { (n : ℕ) → HasRoom self.old.counts (frames_held self.old.sender) n →
            OnOk result (HasRoom self.new.counts (frames_held self.new.sender) n) }
        ensures told { (s : Source) (events : List Event) (start : Option (List ℕ)) →
            HasTold s self.old.sender self.old.port self.old.counts start
            (O.written output.old) events →
            OnOk result (ToldUntil s until self.new.sender self.new.port self.new.counts start
            (O.written output.new) events) }
        ensures some { (s : Source) (events : List Event) (start : Option (List ℕ)) →
            HasTold s self.old.sender self.old.port self.old.counts start
            (O.written output.old) events →
            OnErr result
            (WritesSome s start (O.written output.new) (submissions_in events)) }
    {
        while let Some(emission) = self.sender.emit(until)? {
            put_emission(output, self.port, &emission)?;
            self.sender.give_back(emission);
            self.counts.departed += 1;
        }
        Ok(())
    }

    /// Hands a message to the sender, and counts it. It says why it was refused, if it was.
    fn submit(&mut self, handed: &Handed, payload: &[u8]) -> Result<Option<SendFault>, AllocError>
        requires limit { handed.now.time ≤ latest_listed }
        requires clock { last_time self.old.sender ≤ handed.now.time }
        requires quiet { IsQuiet self.old.sender handed.now.time }
        requires room { (n : ℕ) × (n < most_lines) ×
            HasRoom self.old.counts (frames_held self.old.sender) n }
        ensures port { self.new.port ≡ self.old.port }
        ensures clock { last_time self.new.sender ≡ handed.now.time }
        ensures room { (n : ℕ) → HasRoom self.old.counts (frames_held self.old.sender) n →
            OnOk result (HasRoom self.new.counts (frames_held self.new.sender) (n + 1)) }
        ensures told { (s : Source) (before : List Event) (n : ℕ) →
            StandsFor self.old.sender (calls_in s.row s.links before (last_time self.old.sender)) →
            self.old.counts ≡ send_counts before →
            IfOk result (λ fault. TellsSubmission s self.new.sender self.new.counts before
            (handed_at n handed.now payload.now) fault) }
    {
        match self.sender.submit(
            handed.time,
            VlId(handed.vl),
            handed.sub,
            handed.udp,
            payload,
        ) {
            Ok(()) => {
                self.counts.accepted += 1;
                Ok(None)
            }
            Err(fault) => {
                let refusal = refusal_of(fault)?;
                self.counts.dropped += 1;
                Ok(Some(refusal))
            }
        }
    }

    /// Tells what is emitted before a submission, and then why it was refused, if it was.
    fn tell_submission<O: Sink>(
        &mut self,
        n: u64,
        handed: &Handed,
        payload: &[u8],
        output: &mut O,
    ) -> Result<(), RunFault>
        requires limit { handed.now.time ≤ latest_listed }
        requires clock { last_time self.old.sender ≤ handed.now.time }
        requires room { (m : ℕ) × (m < most_lines) ×
            HasRoom self.old.counts (frames_held self.old.sender) m }
        requires sound { O.failed output.old ≡ false }
        ensures sink { SinkKept O.failed O.settings output.old output.new result }
        ensures clock { OnOk result (last_time self.new.sender ≡ handed.now.time) }
        ensures room { (m : ℕ) → HasRoom self.old.counts (frames_held self.old.sender) m →
            OnOk result (HasRoom self.new.counts (frames_held self.new.sender) (m + 1)) }
        ensures told { (s : Source) (start : Option (List ℕ)) (past : List HandedSubmission) →
            AreTold s self.old.sender self.old.port self.old.counts start
            (O.written output.old) past →
            OnOk result (AreTold s self.new.sender self.new.port self.new.counts start
            (O.written output.new) (handed_at n handed.now payload.now ∷ past)) }
        ensures some { (s : Source) (start : Option (List ℕ)) (past : List HandedSubmission) →
            AreTold s self.old.sender self.old.port self.old.counts start
            (O.written output.old) past →
            OnErr result (WritesSome s start (O.written output.new) past
            ⊎ WritesSome s start (O.written output.new)
            (handed_at n handed.now payload.now ∷ past)) }
    {
        self.tell_emissions(handed.time, output)?;
        if let Some(fault) = self.submit(handed, payload)? {
            let line = OutLine::Refused {
                n,
                word: fault.word(),
            };
            output.put(&line)?;
        }
        Ok(())
    }
}

impl Machine<Handed> for Sending<'_> {
    ghost use Rattle.afdx_command_tables.specs.sending.Told.{TellsItems, BeginsItems, TellsAll};

    ghost Rules = { Source };

    ghost Can = { λ rules item. Unit {0} };

    ghost Told = { TellsItems };

    ghost Begins = { λ rules sending old new past. BeginsItems rules old new past };

    ghost Done = { TellsAll };

    fn tell<O: Sink>(
        &mut self,
        n: u64,
        handed: &Handed,
        payload: &[u8],
        output: &mut O,
    ) -> Result<(), RunFault> {
        self.tell_submission(n, handed, payload, output)?;
        Ok(())
    }

    fn end<O: Sink>(&mut self, output: &mut O) -> Result<(), RunFault> {
        self.tell_emissions(DRAIN_END, output)?;
        Ok(())
    }
}

/// Sends the messages of a list from one system, as `run_send` does, and puts the lines to a sink.
/// The name of its switch is empty where each side has one switch.
pub(crate) fn send_into<R: Read, O: Sink>(
    alloc: Global,
    switch: &str,
    tables: &Admitted,
    system: SystemId,
    input: &mut Watched<R>,
    output: &mut O,
) -> Result<Summary, RunFault>
    requires system { system.0 < tables.now.own }
    requires sound_input { has_failed input.old ≡ false }
    requires unended { has_ended input.old ≡ false }
    requires sound_output { O.failed output.old ≡ false }
    ensures ended { OnOk result (has_ended input.new ≡ true) }
    ensures read { has_failed input.new ≡ is_failed_read result }
    ensures write { O.failed output.new ≡ is_failed_write result }
    ensures calls { calls_of input.new ≤ calls_of input.old + most_reads }
    ensures settings { O.settings output.new ≡ O.settings output.old }

    // Where the input's bytes are known: what is answered and written for the list that they are.
    ensures answer { (row : SystemRow) → slice_get tables.now.systems system.0 ≡ Some row →
        IfSome (R.remaining (device_of input.old)) (λ bytes.
        Answers (source_of switch.now tables.now system.0 row) bytes
        (R.remaining (device_of input.new)) (O.written output.old) (O.written output.new) result) }
{
    let mut sending = Sending::new(alloc, switch, tables, system)?;
    let lines = run_list(alloc, MessageLines, &mut sending, input, output)?;
    let mut summary = sending.counts;
    summary.lines = lines;
    Ok(summary)
}

/// Sends the messages of a list from one system, and writes its frames for both networks as the
/// list of a replay.
///
/// Before a message is handed over, the emissions that end by its time are written; a message that
/// isn't taken gets a line that says why. At the end the remaining emissions are written. All lines
/// of a message are handed to `output` before the next line of the list is read. A list that can't
/// be read ends the run with its first fault; the text of the submissions before it stands written.
/// `RunFault::Read` and `RunFault::Write` come exactly where the input's or the output's device
/// failed; neither is tried again.
pub fn run_send<R: Read, W: Write>(
    alloc: Global,
    tables: &Admitted,
    system: SystemId,
    input: &mut Watched<R>,
    output: &mut Watched<W>,
) -> Result<Summary, RunFault>
    requires system { system.0 < tables.now.own }
    requires sound_input { has_failed input.old ≡ false }
    requires unended { has_ended input.old ≡ false }
    requires sound_output { has_failed output.old ≡ false }
    ensures ended { OnOk result (has_ended input.new ≡ true) }
    ensures read { has_failed input.new ≡ is_failed_read result }
    ensures write { has_failed output.new ≡ is_failed_write result }
    ensures calls { calls_of input.new ≤ calls_of input.old + most_reads }

    // Where the input's bytes are known: what is answered and written for the list that they are.
    ensures answer { (row : SystemRow) → slice_get tables.now.systems system.0 ≡ Some row →
        IfSome (R.remaining (device_of input.old)) (λ bytes.
        Answers (source_at tables.now system.0 row) bytes (R.remaining (device_of input.new))
        (W.contents (device_of output.old)) (W.contents (device_of output.new)) result) }
{
    let mut text = Text::new(alloc);
    let mut output = AtOnce::new(output, &mut text);
    send_into(alloc, "", tables, system, input, &mut output)
}
