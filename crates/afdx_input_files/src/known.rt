//! What is known of a recording before a block.

ghost use Rattle.std.specs.Prelude.{◌≡◌, ◌≤◌, ◌<◌, ◌+◌, length, slice_get, vec_len, IfSome, MatchResult};
ghost use Rattle.afdx_input_files.specs.Limits.{most_interfaces, most_numbers};

use crate::block::BlockKind;
use crate::block_packet::{Placed, packet_of, simple_packet_of};
use crate::form::Form;
use crate::interface::{Interface, interface_of, losses_of};
use crate::order::Order;
use crate::recorded::Recorded;
use afdx_input_lines::{RecordingFault, RunFault};
use std::alloc::{AllocError, Global};

/// The most numbers, and the most blocks.
pub const MOST_NUMBERS: u64 = 1_000_000_000_000_000;
/// The most interfaces of a section.
pub const MOST_INTERFACES: usize = 4_096;
/// What is no frame has no bytes.
const NO_FRAME: Placed = Placed {
    what: Recorded::NoFrame,
    start: 0,
    count: 0,
};

/// What is known before a block: the form, what its section said, and counts.
#[derive(Debug, Drop)]
pub struct Known {
    /// None before the first block.
    pub form: Option<Form>,
    /// Of its section.
    pub order: Order,
    /// Of its section.
    pub interfaces: Vec<Interface>,
    /// Frames that the recorder lost in the sections before.
    pub lost_before: u64,
    /// The most interfaces of a section before.
    pub most_before: usize,
    /// The numbers so far.
    pub numbers: u64,
    /// The blocks so far.
    pub blocks: u64,
    ghost few: { numbers ≤ blocks },
    ghost few_interfaces: { vec_len interfaces ≤ most_interfaces },
    ghost within: { blocks ≤ most_numbers },
}

impl Known {
    ghost use Rattle.afdx_input_files.specs.Recordings.{state_of_known, at_start, after_number};
    ghost use Rattle.afdx_input_files.specs.Recordings.{after_block, lost_by, most_by, totals_by};
    ghost use Rattle.afdx_input_files.specs.Blocks.{least_of};
    ghost use Rattle.afdx_input_files.specs.Orders.{half_at};
    ghost use Rattle.afdx_input_files.specs.Pcapng.{section_meaning, interface_meaning};
    ghost use Rattle.afdx_input_files.specs.Pcapng.{after_interface};
    ghost use Rattle.afdx_input_files.specs.Pcapng.{statistics_meaning, packet_meaning_at};
    ghost use Rattle.afdx_input_files.specs.Pcapng.{simple_meaning, kind_meaning};
    ghost use Rattle.afdx_input_files.specs.Pcapng.{Means, Counts, IsPlaced};

    /// Before the first byte.
    pub fn new(alloc: Global) -> Known
        ensures { state_of_known result ≡ at_start }
    {
        Known {
            form: None,
            order: Order::LowFirst,
            interfaces: Vec::new(alloc),
            lost_before: 0,
            most_before: 0,
            numbers: 0,
            blocks: 0,
        }
    }

    /// Frames that the recorder lost so far; 2^64 - 1 if it is more.
    pub fn lost(&self) -> u64
        ensures { result ≡ lost_by (state_of_known self.now) }
    {
        let mut lost = self.lost_before;
        for interface in &self.interfaces {
            lost = lost.saturating_add(interface.interface_lost);
            lost = lost.saturating_add(interface.system_lost);
        }
        lost
    }

    /// The most interfaces of a section so far.
    #[tactic(auto, unfolding(crate::specs::Recordings::most_by))]
    fn most_interfaces(&self) -> usize
        ensures { result ≡ most_by (state_of_known self.now) }
    {
        self.most_before.max(self.interfaces.len())
    }

    /// How many interfaces there are so far: of a pcap one, of a pcapng the most of a section.
    pub fn interface_count(&self) -> usize
        ensures { result ≡ (totals_by (state_of_known self.now)).interfaces }
    {
        match self.form {
            Some(Form::Pcap(_)) => 1,
            _ => self.most_interfaces(),
        }
    }

    /// A block more, which took a number.
    pub fn count_number(&mut self)
        requires { self.old.blocks < most_numbers }
        ensures { state_of_known self.new ≡ after_number (state_of_known self.old) }
    {
        self.numbers += 1;
        self.blocks += 1;
    }

    /// A block more, which took none.
    fn count_block(&mut self)
        requires { self.old.blocks < most_numbers }
        ensures { state_of_known self.new ≡ after_block (state_of_known self.old) }
    {
        self.blocks += 1;
    }

    /// The fault of a block that is damaged.
    pub fn damaged(&self) -> RunFault
        ensures { result ≡ RunFault.Recording (RecordingFault.Damaged self.now.numbers) }
    {
        RunFault::Recording(RecordingFault::Damaged(self.numbers))
    }

    /// The interface at a place.
    fn interface_at(&self, place: usize) -> Option<Interface>
        ensures found { result ≡ slice_get self.now.interfaces.items place }
        ensures few { IfSome result (λ _. place < most_interfaces) }
    {
        if place < self.interfaces.len() {
            Some(self.interfaces[place])
        } else {
            None
        }
    }

    /// A section begins.
    #[inline(never)]
    #[tactic(auto, unfolding(crate::specs::Pcapng::section_meaning, crate::specs::Recordings::most_by))]
    fn begin_section(&mut self, order: Order, body: &[u8]) -> Result<Option<Placed>, RunFault>
        requires few { self.old.blocks < most_numbers }
        requires long { 16 ≤ length body.now }
        ensures means { Means (section_meaning (state_of_known self.old) order body.now) result
            (state_of_known self.new) body.now }
        ensures form { self.new.form ≡ self.old.form }
        ensures counts { Counts result (state_of_known self.old) (state_of_known self.new) }
        ensures within { IsPlaced result body.now }
    {
        let minor = order.half(body, 6);
        if order.half(body, 4) == 1 && (minor == 0 || minor == 2) {
            self.lost_before = self.lost();
            self.most_before = self.most_interfaces();
            self.interfaces.clear();
            self.order = order;
            self.blocks += 1;
            Ok(None)
        } else {
            Err(RunFault::Recording(RecordingFault::BadVersion(self.numbers)))
        }
    }

    /// Keeps an interface more, if there is room.
    fn keep(&mut self, interface: Interface) -> Result<(), AllocError>
        requires few { self.old.blocks < most_numbers }
        requires few_interfaces { vec_len self.old.interfaces < most_interfaces }
        ensures { MatchResult result
            (λ _. state_of_known self.new ≡ after_interface (state_of_known self.old) interface)
            (λ _. state_of_known self.new ≡ state_of_known self.old) }
    {
        self.interfaces.push(interface)?;
        self.blocks += 1;
        Ok(())
    }

    /// An interface is described.
    #[inline(never)]
    #[tactic(auto, unfolding(crate::specs::Pcapng::interface_meaning))]
    fn add_interface(&mut self, order: Order, body: &[u8]) -> Result<Option<Placed>, RunFault>
        requires few { self.old.blocks < most_numbers }
        requires long { 8 ≤ length body.now }
        ensures means { Means (interface_meaning (state_of_known self.old) order body.now) result
            (state_of_known self.new) body.now }
        ensures form { self.new.form ≡ self.old.form }
        ensures counts { Counts result (state_of_known self.old) (state_of_known self.new) }
        ensures within { IsPlaced result body.now }
    {
        if self.interfaces.len() >= MOST_INTERFACES {
            return Err(self.damaged());
        }
        match interface_of(order, body) {
            Some(interface) => {
                self.keep(interface)?;
                Ok(None)
            }
            None => Err(self.damaged()),
        }
    }

    /// Statistics of an interface.
    #[inline(never)]
    #[tactic(auto, unfolding(crate::specs::Pcapng::statistics_meaning))]
    fn add_statistics(&mut self, order: Order, body: &[u8]) -> Result<Option<Placed>, RunFault>
        requires few { self.old.blocks < most_numbers }
        requires long { 12 ≤ length body.now }
        ensures means { Means (statistics_meaning (state_of_known self.old) order body.now) result
            (state_of_known self.new) body.now }
        ensures form { self.new.form ≡ self.old.form }
        ensures counts { Counts result (state_of_known self.old) (state_of_known self.new) }
        ensures within { IsPlaced result body.now }
    {
        let place = order.word(body, 0) as usize;
        let Some(interface) = self.interface_at(place) else {
            return Err(self.damaged());
        };
        let Some(losses) = losses_of(order, body) else {
            return Err(self.damaged());
        };
        self.interfaces[place] = interface.with(losses);
        self.blocks += 1;
        Ok(None)
    }

    /// A packet of an interface.
    #[inline(always)]
    #[tactic(auto, unfolding(crate::specs::Pcapng::packet_meaning_at))]
    fn take_packet(
        &mut self,
        order: Order,
        place: usize,
        body: &[u8],
    ) -> Result<Option<Placed>, RunFault>
        requires few { self.old.blocks < most_numbers }
        requires long { 20 ≤ length body.now }
        ensures means { Means (packet_meaning_at (state_of_known self.old) order place body.now)
            result (state_of_known self.new) body.now }
        ensures form { self.new.form ≡ self.old.form }
        ensures counts { Counts result (state_of_known self.old) (state_of_known self.new) }
        ensures within { IsPlaced result body.now }
    {
        let Some(interface) = self.interface_at(place) else {
            return Err(self.damaged());
        };
        let Some(placed) = packet_of(order, body, place as u16, interface) else {
            return Err(self.damaged());
        };
        self.count_number();
        Ok(Some(placed))
    }

    /// A packet of the old form.
    #[inline(never)]
    fn take_old_packet(&mut self, order: Order, body: &[u8]) -> Result<Option<Placed>, RunFault>
        requires few { self.old.blocks < most_numbers }
        requires long { 20 ≤ length body.now }
        ensures means { Means (packet_meaning_at (state_of_known self.old) order
            (half_at order 0 body.now) body.now) result (state_of_known self.new) body.now }
        ensures form { self.new.form ≡ self.old.form }
        ensures counts { Counts result (state_of_known self.old) (state_of_known self.new) }
        ensures within { IsPlaced result body.now }
    {
        self.take_packet(order, usize::from(order.half(body, 0)), body)
    }

    /// A simple packet.
    #[inline(never)]
    #[tactic(auto, unfolding(crate::specs::Pcapng::simple_meaning))]
    fn take_simple_packet(&mut self, order: Order, body: &[u8]) -> Result<Option<Placed>, RunFault>
        requires few { self.old.blocks < most_numbers }
        requires long { 4 ≤ length body.now }
        ensures means { Means (simple_meaning (state_of_known self.old) order body.now)
            result (state_of_known self.new) body.now }
        ensures form { self.new.form ≡ self.old.form }
        ensures counts { Counts result (state_of_known self.old) (state_of_known self.new) }
        ensures within { IsPlaced result body.now }
    {
        let Some(interface) = self.interface_at(0) else {
            return Err(self.damaged());
        };
        let Some(placed) = simple_packet_of(order, body, interface) else {
            return Err(self.damaged());
        };
        self.count_number();
        Ok(Some(placed))
    }

    /// Takes what a block says, by its kind, its order and its body. None: it takes no number.
    ///
    /// `Recording` comes for what is wrong with it, `Memory` where there is no room for an
    /// interface.
    #[inline(always)]
    pub fn take_body(
        &mut self,
        kind: BlockKind,
        order: Order,
        body: &[u8],
    ) -> Result<Option<Placed>, RunFault>
        requires few { self.old.blocks < most_numbers }
        requires long { least_of kind ≤ 12 + length body.now }
        ensures means { Means (kind_meaning kind (state_of_known self.old) order body.now)
            result (state_of_known self.new) body.now }
        ensures form { self.new.form ≡ self.old.form }
        ensures counts { Counts result (state_of_known self.old) (state_of_known self.new) }
        ensures within { IsPlaced result body.now }
    {
        match kind {
            BlockKind::Section => self.begin_section(order, body),
            BlockKind::Interface => self.add_interface(order, body),
            BlockKind::Statistics => self.add_statistics(order, body),
            BlockKind::Packet => self.take_packet(order, order.word(body, 0) as usize, body),
            BlockKind::OldPacket => self.take_old_packet(order, body),
            BlockKind::SimplePacket => self.take_simple_packet(order, body),
            BlockKind::NoFrame => {
                self.count_number();
                Ok(Some(NO_FRAME))
            }
            BlockKind::Other => {
                self.count_block();
                Ok(None)
            }
        }
    }
}
