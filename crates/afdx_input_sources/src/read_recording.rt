//! A recording, as a source: each of its numbers as it is read, an arrival or skipped.

ghost use Rattle.std.specs.Prelude.{◌≡◌, ◌<◌, ◌+◌, ◌-◌, length, [], Ok};
ghost use Rattle.std.specs.Prelude.{IfOk, IfErr, OnOk, false};
ghost use Rattle.afdx_input_files.specs.Reading.{state_of};
ghost use Rattle.afdx_input_files.specs.Recordings.{at_start, totals_by, most_numbers};
ghost use Rattle.afdx_input_files.specs.Holding.{unread};
ghost use Rattle.afdx_input_sources.specs.Counting.{no_counts, skipped_in};
ghost use Rattle.afdx_input_sources.specs.RecordingSource as source;
ghost use Rattle.afdx_input_sources.specs.RecordingSource.{FailsBy, RemembersOne};
ghost use Rattle.afdx_input_sources.specs.Sequences.{Numbers};

use crate::becoming::{NoArrival, RecordingOptions, becomes, first_bytes};
use crate::counts::{SkipCounts, Tally};
use crate::engine::Source;
use crate::number::{AsRead, Number};
use crate::senders::SystemPorts;
use crate::skipped::Skipped;
use afdx_input_files::FrameReader;
use afdx_input_lines::{Next, RecordingFault, RunFault, Watched};
use std::alloc::{AllocError, Global};
use std::io::Read;

/// A recording, what its last number is, and what was skipped.
pub struct ReadRecording {
    reader: FrameReader,
    options: RecordingOptions,
    ports: SystemPorts,
    numbers: u64,
    counts: SkipCounts,
    has_arrival: bool,
    number: AsRead,
}

impl Drop for ReadRecording {
    // (written out, it is one call wherever a value is let go)
    fn drop(self) {
        let Self {
            reader,
            options,
            ports,
            numbers,
            counts,
            has_arrival,
            number,
        } = self;
    }
}

impl ReadRecording {
    /// A recording of which nothing was read yet.
    pub fn new(
        alloc: Global,
        options: RecordingOptions,
        ports: SystemPorts,
    ) -> Result<ReadRecording, AllocError>
        ensures options { IfOk result (λ source. source.options ≡ options) }
        ensures ports { IfOk result (λ source. source.ports ≡ ports) }
        ensures unread { IfOk result (λ source. unread source.reader.held ≡ []) }
        ensures state { IfOk result (λ source. state_of source.reader ≡ at_start) }
        ensures numbers { IfOk result (λ source. source.numbers ≡ 0) }
        ensures counts { IfOk result (λ source. source.counts ≡ no_counts) }
        ensures arrival { IfOk result (λ source. source.has_arrival ≡ false) }
    {
        Ok(ReadRecording {
            reader: FrameReader::new(alloc)?,
            options,
            ports,
            numbers: 0,
            counts: SkipCounts::none(),
            has_arrival: false,
            number: AsRead {
                becomes: Number::Skipped(Skipped::NoFrame),
            },
        })
    }

    /// How many numbers were read, how many of them were skipped, and why, how many arrivals are
    /// claimed and contradicted, how many frames the recorder lost so far, by its own word, and how
    /// many interfaces the options name that weren't described so far, and the least of these.
    pub fn tally(&self) -> Tally
        ensures numbers { result.numbers ≡ self.now.numbers }
        ensures counts { result.counts ≡ self.now.counts }
        ensures lost { result.lost ≡ (totals_by (state_of self.now.reader)).lost }
        ensures unused { result.unused ≡ source.unused_of self.now }
        ensures absent { result.absent ≡ source.first_unused_of self.now }
    {
        Tally {
            numbers: self.numbers,
            counts: self.counts,
            lost: self.reader.lost(),
            unused: self.options.interfaces.unused(self.reader.interfaces()),
            absent: self
                .options
                .interfaces
                .first_unused(self.reader.interfaces()),
        }
    }

    /// Sorts the number that was read last.
    #[inline(always)]
    #[tactic(auto, unfolding(crate::specs::Sequences::number_after))]
    fn sort(&mut self) -> Result<(), RunFault>
        requires skipped { skipped_in self.old.counts < most_numbers }
        requires claimed { self.old.counts.claimed < most_numbers }
        requires contradicted { self.old.counts.contradicted < most_numbers }
        ensures reader { self.new.reader ≡ self.old.reader }
        ensures options { self.new.options ≡ self.old.options }
        ensures ports { self.new.ports ≡ self.old.ports }
        ensures remembers { OnOk result (RemembersOne self.old self.new) }
        ensures number { OnOk result ((past : Numbers) →
            (state_of self.old.reader).numbers ≡ length past + 1 →
            source.next_number self.old past ≡ Ok self.new.number.becomes) }
        ensures fault { IfErr result (λ fault. (past : Numbers) →
            (state_of self.old.reader).numbers ≡ length past + 1 →
            FailsBy fault (source.next_number self.old past)) }
    {
        let n = self.reader.number();
        self.numbers = n;
        let recorded = self.reader.recorded();
        let bytes = self.reader.bytes();
        match becomes(&self.options, &self.ports, n, &recorded, bytes) {
            Ok(found) => {
                self.has_arrival = true;
                self.counts.arrive(found.is_claimed, found.is_contradicted);
                self.number.becomes = Number::Arrival(found);
                Ok(())
            }
            Err(NoArrival::Skipped(reason)) => {
                self.counts.skip(reason);
                self.number.becomes = Number::Skipped(reason);
                Ok(())
            }
            Err(NoArrival::Faulted(fault)) => Err(RunFault::Recording(fault)),
        }
    }

    /// What is answered behind the last number: a recording that has numbers has an arrival.
    fn end(&self) -> Result<Next, RunFault>
        ensures { result ≡ source.end_of self.now.has_arrival self.now.numbers }
    {
        if self.numbers > 0 && !self.has_arrival {
            return Err(RunFault::Recording(RecordingFault::NoArrival(self.numbers)));
        }
        Ok(Next::Ended)
    }
}

impl<R: Read> Source<AsRead, Watched<R>> for ReadRecording {
    ghost use Rattle.afdx_input_sources.specs.declared.becoming.RecordingOptions.{RecordingOptions};
    ghost use Rattle.afdx_input_sources.specs.declared.senders.SystemPorts.{SystemPorts};
    ghost use Rattle.afdx_input_sources.specs.RecordingSource.{given, HasRead, HasReadAll};
    ghost use Rattle.afdx_input_sources.specs.RecordingSource.{HasStoppedReading};

    ghost current = { given };

    ghost left_of = { λ source. most_numbers - (state_of source.reader).numbers };

    ghost Settings = { RecordingOptions × SystemPorts };

    ghost settings = { λ source. (source.options, source.ports) };

    ghost Gives = { λ settings item. Unit {0} };

    ghost Gave = { HasRead R.remaining };

    ghost Ended = { HasReadAll R.remaining };

    ghost Stopped = { HasStoppedReading R.remaining };

    #[inline(always)]
    fn next(&mut self, input: &mut Watched<R>) -> Result<Next, RunFault> {
        if let Next::Ended = self.reader.next(input)? {
            return self.end();
        }
        self.sort()?;
        Ok(Next::Given)
    }

    fn number(&self) -> u64 {
        self.numbers
    }

    fn head(&self) -> AsRead {
        self.number
    }

    fn bytes(&self) -> &[u8] {
        first_bytes(self.reader.bytes())
    }
}
