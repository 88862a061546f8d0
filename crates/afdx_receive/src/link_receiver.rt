//! The receiving side of an end system, as far as its links go.

ghost use Rattle.std.specs.Prelude.{◌≡◌, ℕ, false, List, [], Ok, IsTrue, IfOk, option_map};
ghost use Rattle.afdx_frame.specs.Parts.{bytes_of, frame_of, parts_of, IsFrameOf, IsLinkFrame};
ghost use Rattle.afdx_frame.specs.Carried.{carried_by};
ghost use Rattle.afdx_config.specs.Rows.{Rows};
ghost use Rattle.afdx_config.specs.Reading.{has_port};
ghost use Rattle.afdx_receive.specs.Arrivals.{Arrived, arrived};
ghost use Rattle.afdx_receive.specs.Answers.{subscription, answer_of, answer_to_carried};
ghost use Rattle.afdx_receive.specs.Answers.{at_ports, is_ignored};
ghost use Rattle.afdx_receive.specs.Reception.{IsReadAs};
ghost use Rattle.afdx_receive.specs.Kept.{memory_at};
ghost use Rattle.afdx_receive.specs.StandsFor.{HasReceived, Selects, memory_at_first};

use crate::links::Links;
use crate::memory::{LinkMemory, Standing};
use crate::reception::{DropReason, Reception};
use afdx_config::{SystemId, Tables};
use afdx_frame::{Checked, Datagram, MacView, Side};
use std::alloc::{AllocError, Global};

/// The receiving side of an end system but for its communication ports (ARINC 664 Part 7):
/// integrity checking, redundancy management, and the datagram of each frame that wins. It knows no
/// UDP ports: who has them looks the message's up. What it keeps is said at `Receiver`.
pub struct LinkReceiver {
    pub(crate) links: Links,
}

impl Drop for LinkReceiver {
    // (written out, it is one call wherever a value is let go)
    fn drop(self) {
        let Self { links } = self;
    }
}

/// The memory of each link that goes to the system.
fn links_of(alloc: Global, tables: &Tables, system: SystemId) -> Result<Links, AllocError>
    ensures { IfOk result (λ links. (vl : ℕ) →
        memory_at links vl ≡ option_map memory_at_first (subscription tables.now system.0 vl)) }
{
    let mut links = Links::new(alloc);
    let count = tables.link_count();
    for index in 0..count {
        let link = tables.link(index);
        if link.goes_to(system) {
            links.insert(index, LinkMemory::new(link.vl, 1000 * link.skew_us))?;
        }
    }
    Ok(links)
}

/// The message of a frame that won, whatever UDP port it goes to.
#[inline(always)]
fn read(frame: MacView<'_>) -> Reception<'_>
    ensures answer { (tables : Rows) (system : ℕ) (bytes : List ℕ) →
        IsFrameOf bytes (parts_of frame.entry) →
        let vl = (parts_of frame.entry).link.0 in
        at_ports tables system (answer_of result)
        ≡ answer_to_carried vl (has_port tables.ports system vl) (carried_by bytes) }
    ensures won { is_ignored (answer_of result) ≡ false }
    ensures right { (tables : Rows) (system : ℕ) (bytes : List ℕ) →
        IsFrameOf bytes (parts_of frame.entry) →
        IsReadAs tables system bytes (parts_of frame.entry)
        (at_ports tables system (answer_of result)) }
{
    match Datagram::parse(frame) {
        Ok(datagram) => Reception::Message {
            vl: frame.vl(),
            udp: datagram.to_port(),
            bytes: datagram.payload(),
        },
        Err(fault) => Reception::Dropped(DropReason::Ip(fault)),
    }
}

impl LinkReceiver {
    /// A receiver of the system's links, to which nothing arrived. It takes room for all that it
    /// will keep, and, to find links by their identifiers, a table of those near them. The error is
    /// want of memory alone.
    pub fn new(alloc: Global, tables: &Tables, system: SystemId) -> Result<LinkReceiver, AllocError>
        ensures stands { IfOk result (HasReceived tables.now system.0 []) }
    {
        let links = links_of(alloc, tables, system)?;
        Ok(LinkReceiver { links })
    }

    /// Takes in what arrives at `time`, in ns, by one of the two networks, as
    /// `Receiver::receive_checked` does, but for the look at the system's UDP ports: a message to
    /// any of them is given.
    ///
    /// If `row` is where the tables have the frame's link, its memory is found at once, else by a
    /// look-up of its identifier. The answer is the same whatever it is.
    #[inline(always)]
    pub fn receive<'a>(
        &mut self,
        time: u64,
        side: Side,
        frame: Checked<'a>,
        row: u16,
    ) -> Reception<'a>
        ensures selected { (tables : Rows) (system : ℕ) (past : List Arrived) →
            HasReceived tables system past self.old →
            let x = arrived time side (bytes_of frame.entry) in
            Selects tables system past x (answer_of result) self.new }
        ensures unchanged { IsTrue (is_ignored (answer_of result)) → self.new ≡ self.old }
    {
        match MacView::of(frame) {
            Ok(view) => self.take_in(time, side, view, row),
            Err(fault) => Reception::Dropped(DropReason::Mac(fault)),
        }
    }

    /// Takes in a frame of a link, of which that is known, as `receive` does. It isn't looked at
    /// again.
    #[inline(always)]
    pub fn receive_known<'a>(
        &mut self,
        time: u64,
        side: Side,
        frame: Checked<'a>,
        row: u16,
    ) -> Reception<'a>
        requires { IsLinkFrame (bytes_of frame) }
        ensures selected { (tables : Rows) (system : ℕ) (past : List Arrived) →
            HasReceived tables system past self.old →
            let x = arrived time side (bytes_of frame.entry) in
            Selects tables system past x (answer_of result) self.new }
        ensures unchanged { IsTrue (is_ignored (answer_of result)) → self.new ≡ self.old }
    {
        self.take_in(time, side, MacView::known(frame), row)
    }

    /// Takes in the frame that this view is of.
    #[inline(always)]
    fn take_in<'a>(&mut self, time: u64, side: Side, view: MacView<'a>, row: u16) -> Reception<'a>
        ensures selected { (tables : Rows) (system : ℕ) (past : List Arrived) (bytes : List ℕ) →
            HasReceived tables system past self.old →
            IsFrameOf bytes (parts_of view.entry) →
            frame_of bytes ≡ Ok (parts_of view.entry) →
            Selects tables system past (arrived time side bytes) (answer_of result) self.new }
        ensures unchanged { IsTrue (is_ignored (answer_of result)) → self.new ≡ self.old }
    {
        let number = view.sequence();
        let Some(standing) = self.links.consider(row, view.vl(), time, side, number) else {
            return Reception::Dropped(DropReason::NotSubscribed);
        };
        match standing {
            Standing::OutOfSequence => Reception::Dropped(DropReason::Sequence),
            Standing::Redundant => Reception::Dropped(DropReason::Redundant),
            Standing::Winner => read(view),
        }
    }
}
