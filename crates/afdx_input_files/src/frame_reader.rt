//! The frames of a recording, one at a time.

mod blocks;

ghost use Rattle.std.specs.Prelude.{◌≡◌, ◌≤◌, ◌<◌, ◌+◌, ◌-◌, [], List, ℕ, Ok, Err, Some, None, length, take, drop};
ghost use Rattle.std.specs.Prelude.{vec_len, true, false, IfOk, IfErr, OnOk, MatchResult};
ghost use Rattle.afdx_input_lines.specs.Calls.{is_failed_read};

use crate::form::{Form, Magic, PcapForm, form_of, is_known_version, magic_named};
use crate::held::Held;
use crate::known::{Known, MOST_NUMBERS};
use crate::order::Order;
use crate::packet::frame_of;
use crate::recorded::Recorded;
use afdx_input_lines::{Next, RecordingFault, RunFault, Watched};
use std::alloc::{AllocError, Global};
use std::io::Read;

/// The most bytes that are captured of a frame.
const LONGEST_CAPTURE: u32 = 262_144;
/// The bytes that tell the form.
const MAGIC: usize = 4;
/// The bytes of a pcap's header.
const PCAP_HEAD: usize = 24;
/// The bytes of a frame's header in a pcap.
const PACKET_HEAD: usize = 16;

/// Takes the frames of a recording one by one, in memory that doesn't grow with it.
#[derive(Debug, Drop)]
pub struct FrameReader {
    held: Held,
    known: Known,
    recorded: Recorded,
}

impl FrameReader {
    ghost use Rattle.afdx_input_lines.specs.Watching.{has_ended, has_failed};
    ghost use Rattle.afdx_input_files.specs.Holding.{unread, standing, IsTrueToEnd};
    ghost use Rattle.afdx_input_files.specs.Recordings.{at_start, after_number, totals_by, most_numbers};
    ghost use Rattle.afdx_input_files.specs.Pcap.{captured_by, packet_head};
    ghost use Rattle.afdx_input_files.specs.Reading.{state_of, latest, magic_of, Tells, SaysSame};
    ghost use Rattle.afdx_input_files.specs.Orders.{number_in};
    ghost use Rattle.afdx_input_files.specs.declared.form.Form.TheVariants.{Pcap};

    /// A reader that has taken nothing yet.
    pub fn new(alloc: Global) -> Result<FrameReader, AllocError>
        ensures unread { IfOk result (λ reader. unread reader.held ≡ []) }
        ensures state { IfOk result (λ reader. state_of reader ≡ at_start) }
    {
        Ok(FrameReader {
            held: Held::new(alloc)?,
            known: Known::new(alloc),
            recorded: Recorded::NoFrame,
        })
    }

    /// The number that was taken last: 1, 2, 3 ..
    pub fn number(&self) -> u64
        ensures { result ≡ (state_of self.now).numbers }
    {
        self.known.numbers
    }

    /// What took it.
    pub fn recorded(&self) -> Recorded
        ensures { result ≡ (latest self.now).what }
    {
        self.recorded
    }

    /// The bytes that were captured of it: none where it is no frame. They stand until the next
    /// number is asked for.
    pub fn bytes(&self) -> &[u8]
        ensures { result.now ≡ (latest self.now).bytes }
    {
        self.held.lent()
    }

    /// Frames that the recorder lost so far, by its statistics; 2^64 - 1 if it is more. A pcap has
    /// none.
    pub fn lost(&self) -> u64
        ensures { result ≡ (totals_by (state_of self.now)).lost }
    {
        self.known.lost()
    }

    /// How many interfaces there are so far, of which the first is 0. A pcap has one, a pcapng the
    /// most that one of its sections describes.
    pub fn interfaces(&self) -> usize
        ensures { result ≡ (totals_by (state_of self.now)).interfaces }
    {
        self.known.interface_count()
    }

    /// Takes the next number.
    ///
    /// `Recording` comes for what is wrong with the recording, `Read` exactly where the input
    /// failed and the next byte was needed, `Memory` where there is no room for a frame. The input
    /// isn't read once a frame stands whole, nor after its end or a fault.
    #[inline(always)]
    pub fn next<R: Read>(&mut self, input: &mut Watched<R>) -> Result<Next, RunFault>
        requires sound { has_failed input.old ≡ false }
        requires honest { IsTrueToEnd (standing R.remaining self.old.held input.old) }
        ensures honest { IsTrueToEnd (standing R.remaining self.new.held input.new) }
        ensures failed { has_failed input.new ≡ is_failed_read result }
        ensures tells { Tells result (standing R.remaining self.old.held input.old)
            (standing R.remaining self.new.held input.new)
            (state_of self.old) (state_of self.new) (latest self.new) }
        ensures number { result ≡ Ok Next.Given →
            (state_of self.new).numbers ≡ (state_of self.old).numbers + 1 }
        ensures few { (state_of self.new).numbers ≤ most_numbers }
    {
        match self.known.form {
            Some(form) => self.next_of(form, input),
            None => {
                let form = self.open(input)?;
                self.next_of(form, input)
            }
        }
    }

    /// The next number of a recording of this form.
    #[inline(always)]
    fn next_of<R: Read>(&mut self, form: Form, input: &mut Watched<R>) -> Result<Next, RunFault>
        requires sound { has_failed input.old ≡ false }
        requires honest { IsTrueToEnd (standing R.remaining self.old.held input.old) }
        requires form { self.old.known.form ≡ Some form }
        ensures honest { IsTrueToEnd (standing R.remaining self.new.held input.new) }
        ensures failed { has_failed input.new ≡ is_failed_read result }
        ensures tells { Tells result (standing R.remaining self.old.held input.old)
            (standing R.remaining self.new.held input.new)
            (state_of self.old) (state_of self.new) (latest self.new) }
        ensures number { result ≡ Ok Next.Given →
            (state_of self.new).numbers ≡ (state_of self.old).numbers + 1 }
        ensures few { (state_of self.new).numbers ≤ most_numbers }
    {
        match form {
            Form::Pcap(pcap) => self.next_packet(pcap, input),
            Form::Pcapng => self.next_in_blocks(input),
        }
    }

    /// Reads how the recording begins.
    fn open<R: Read>(&mut self, input: &mut Watched<R>) -> Result<Form, RunFault>
        requires sound { has_failed input.old ≡ false }
        requires honest { IsTrueToEnd (standing R.remaining self.old.held input.old) }
        requires form { self.old.known.form ≡ None }
        ensures honest { IsTrueToEnd (standing R.remaining self.new.held input.new) }
        ensures failed { has_failed input.new ≡ is_failed_read result }
        ensures form { IfOk result (λ form. self.new.known.form ≡ Some form) }
        ensures number { (state_of self.new).numbers ≡ (state_of self.old).numbers }
        ensures opens { IfOk result (λ form. SaysSame
            (standing R.remaining self.old.held input.old)
            (standing R.remaining self.new.held input.new)
            (state_of self.old) (state_of self.new)) }
        ensures tells { IfErr result (λ fault. Tells (Err fault)
            (standing R.remaining self.old.held input.old)
            (standing R.remaining self.new.held input.new)
            (state_of self.old) (state_of self.new) (latest self.new)) }
    {
        if let Next::Ended = self.held.fill(input, MAGIC)? {
            return Err(RunFault::Recording(RecordingFault::NotRecording(0)));
        }
        let number = Order::HighFirst.word(self.held.bytes(), 0);
        match magic_named(number) {
            Some(Magic::Pcap(order, nanoseconds)) => self.open_pcap(order, nanoseconds, input),
            Some(Magic::Pcapng) => {
                self.known.order = Order::LowFirst;
                self.known.form = Some(Form::Pcapng);
                Ok(Form::Pcapng)
            }
            Some(Magic::Packed) => Err(RunFault::Recording(RecordingFault::Packed)),
            None => Err(RunFault::Recording(RecordingFault::NotRecording(0))),
        }
    }

    /// Reads the header of a pcap, of which the first bytes are held.
    fn open_pcap<R: Read>(
        &mut self,
        order: Order,
        nanoseconds: bool,
        input: &mut Watched<R>,
    ) -> Result<Form, RunFault>
        requires sound { has_failed input.old ≡ false }
        requires honest { IsTrueToEnd (standing R.remaining self.old.held input.old) }
        requires form { self.old.known.form ≡ None }
        requires held { 4 ≤ length (unread self.old.held) }
        requires magic { magic_of (number_in Order.HighFirst 4 (unread self.old.held))
            ≡ Some (Magic.Pcap order nanoseconds) }
        ensures honest { IsTrueToEnd (standing R.remaining self.new.held input.new) }
        ensures failed { has_failed input.new ≡ is_failed_read result }
        ensures form { IfOk result (λ form. self.new.known.form ≡ Some form) }
        ensures number { (state_of self.new).numbers ≡ (state_of self.old).numbers }
        ensures opens { IfOk result (λ form. SaysSame
            (standing R.remaining self.old.held input.old)
            (standing R.remaining self.new.held input.new)
            (state_of self.old) (state_of self.new)) }
        ensures tells { IfErr result (λ fault. Tells (Err fault)
            (standing R.remaining self.old.held input.old)
            (standing R.remaining self.new.held input.new)
            (state_of self.old) (state_of self.new) (latest self.new)) }
    {
        if let Next::Ended = self.held.fill(input, PCAP_HEAD)? {
            return Err(RunFault::Recording(RecordingFault::Ended(0)));
        }
        if !is_known_version(order, self.held.bytes()) {
            return Err(RunFault::Recording(RecordingFault::BadVersion(0)));
        }
        let pcap = form_of(order, nanoseconds, self.held.bytes());
        self.held.pass(PCAP_HEAD, 0, 0);
        self.known.order = order;
        self.known.form = Some(Form::Pcap(pcap));
        Ok(Form::Pcap(pcap))
    }

    /// The next frame of a pcap.
    #[inline(always)]
    fn next_packet<R: Read>(
        &mut self,
        form: PcapForm,
        input: &mut Watched<R>,
    ) -> Result<Next, RunFault>
        requires sound { has_failed input.old ≡ false }
        requires honest { IsTrueToEnd (standing R.remaining self.old.held input.old) }
        requires form { self.old.known.form ≡ Some (Pcap form) }
        ensures honest { IsTrueToEnd (standing R.remaining self.new.held input.new) }
        ensures failed { has_failed input.new ≡ is_failed_read result }
        ensures tells { Tells result (standing R.remaining self.old.held input.old)
            (standing R.remaining self.new.held input.new)
            (state_of self.old) (state_of self.new) (latest self.new) }
        ensures number { result ≡ Ok Next.Given →
            (state_of self.new).numbers ≡ (state_of self.old).numbers + 1 }
        ensures few { (state_of self.new).numbers ≤ most_numbers }
    {
        if let Next::Ended = self.held.fill(input, PACKET_HEAD)? {
            return self.end();
        }
        let length = PACKET_HEAD + self.captured()? as usize;
        if let Next::Ended = self.held.fill(input, length)? {
            return Err(self.ended());
        }
        let frame = frame_of(form, self.known.order, self.held.bytes());
        self.held.pass(length, PACKET_HEAD, length);
        self.known.count_number();
        self.recorded = Recorded::Frame(frame);
        Ok(Next::Given)
    }

    /// The bytes that follow the header of a frame in a pcap.
    #[tactic(auto, unfolding(crate::specs::Pcap::captured_by))]
    fn captured(&self) -> Result<u32, RunFault>
        requires { packet_head ≤ length (unread self.now.held) }
        ensures few { OnOk result (self.now.known.blocks < most_numbers) }
        ensures told { MatchResult result
            (λ n. captured_by (state_of self.now) (unread self.now.held) ≡ Some n)
            (λ fault. (fault ≡ RunFault.Recording (RecordingFault.Damaged self.now.known.numbers))
            × (captured_by (state_of self.now) (unread self.now.held) ≡ None)) }
    {
        let captured = self.known.order.word(self.held.bytes(), 8);
        if self.known.blocks < MOST_NUMBERS && captured <= LONGEST_CAPTURE {
            Ok(captured)
        } else {
            Err(RunFault::Recording(RecordingFault::Damaged(self.known.numbers)))
        }
    }

    /// What is answered where the input ended and less than a header is held.
    fn end(&self) -> Result<Next, RunFault>
        ensures over { length (unread self.now.held) ≡ 0 → result ≡ Ok Next.Ended }
        ensures ended { 0 < length (unread self.now.held) →
            result ≡ Err (RunFault.Recording (RecordingFault.Ended self.now.known.numbers)) }
    {
        if self.held.count() == 0 {
            return Ok(Next::Ended);
        }
        Err(self.ended())
    }

    /// The fault of a recording that ends here.
    fn ended(&self) -> RunFault
        ensures { result ≡ RunFault.Recording (RecordingFault.Ended self.now.known.numbers) }
    {
        RunFault::Recording(RecordingFault::Ended(self.known.numbers))
    }
}
