//! Heads of the blocks of a pcapng.

ghost use Rattle.std.specs.Prelude.{◌≡◌, ◌≤◌, length, true, IfSome};
ghost use Rattle.afdx_input_files.specs.Blocks.{kind_of, least_of, is_held, is_size, order_by};
ghost use Rattle.afdx_input_files.specs.Blocks.{is_ordered, head_by, head_of_kind};
ghost use Rattle.afdx_input_files.specs.Pcapng.{block_head};

use crate::order::Order;

/// The number by which a section tells its order.
const ORDER_MAGIC: u32 = 0x1a2b_3c4d;
/// The type of a packet.
const PACKET: u32 = 6;
/// The most bytes of a block that is looked into.
const LONGEST_BLOCK: u32 = 16_777_216;

/// What a block is.
#[derive(Clone, Copy, Debug, PartialEq, Eq)]
pub enum BlockKind {
    /// The begin of a section.
    Section,
    /// The description of an interface.
    Interface,
    /// A packet of the old form.
    OldPacket,
    /// A packet without an interface and a stamp.
    SimplePacket,
    /// Statistics of an interface.
    Statistics,
    /// A packet.
    Packet,
    /// A custom or a journal block.
    NoFrame,
    /// Any other, which is passed over.
    Other,
}

/// What the first bytes of a block say.
#[derive(Clone, Copy, Debug, PartialEq, Eq)]
pub struct BlockHead {
    /// What it is.
    pub kind: BlockKind,
    /// The order of its bytes.
    pub order: Order,
    /// Its bytes in all.
    pub size: u32,
}

/// The kind of a block of this type.
#[inline(never)]
#[tactic(auto, unfolding(crate::specs::Blocks::kind_of))]
fn kind_named(number: u32) -> BlockKind
    ensures { result ≡ kind_of number }
{
    match number {
        0x0a0d_0d0a => BlockKind::Section,
        1 => BlockKind::Interface,
        2 => BlockKind::OldPacket,
        3 => BlockKind::SimplePacket,
        5 => BlockKind::Statistics,
        6 => BlockKind::Packet,
        9 => BlockKind::NoFrame,
        0x0bad => BlockKind::NoFrame,
        0x4000_0bad => BlockKind::NoFrame,
        _ => BlockKind::Other,
    }
}

impl BlockKind {
    /// The least bytes of a block of this kind.
    fn least(self) -> u32
        ensures { result ≡ least_of self }
    {
        match self {
            BlockKind::Section => 28,
            BlockKind::Interface => 20,
            BlockKind::OldPacket => 32,
            BlockKind::SimplePacket => 16,
            BlockKind::Statistics => 24,
            BlockKind::Packet => 32,
            BlockKind::NoFrame => 12,
            BlockKind::Other => 12,
        }
    }

    /// Whether what it holds is looked into.
    pub fn is_held(self) -> bool
        ensures { result ≡ is_held self }
    {
        match self {
            BlockKind::NoFrame => false,
            BlockKind::Other => false,
            _ => true,
        }
    }

    /// Whether a block of this kind may have so many bytes.
    #[tactic(auto, unfolding(crate::specs::Blocks::is_size))]
    fn may_have(self, size: u32) -> bool
        ensures answer { result ≡ is_size self size }
        ensures least { result ≡ true → least_of self ≤ size }
    {
        self.least() <= size && size % 4 == 0 && (!self.is_held() || size <= LONGEST_BLOCK)
    }

    /// The order of its bytes, in a section of this order.
    fn order(self, before: Order, head: &[u8]) -> Order
        requires { block_head ≤ length head.now }
        ensures { result ≡ order_by self before head.now }
    {
        match self {
            BlockKind::Section => {
                if Order::HighFirst.word(head, 8) == ORDER_MAGIC {
                    Order::HighFirst
                } else {
                    Order::LowFirst
                }
            }
            _ => before,
        }
    }

    /// Whether a section tells its order.
    fn tells_order(self, order: Order, head: &[u8]) -> bool
        requires { block_head ≤ length head.now }
        ensures { result ≡ is_ordered self order head.now }
    {
        match self {
            BlockKind::Section => order.word(head, 8) == ORDER_MAGIC,
            _ => true,
        }
    }
}

/// What the first bytes of a block say, in a section of this order. None: they can't be right.
///
/// Most blocks are packets. So what is asked of these is written out by itself.
#[inline(always)]
#[tactic(auto, unfolding(crate::specs::Blocks::head_by, crate::specs::Blocks::kind_of))]
pub fn head_of(before: Order, head: &[u8]) -> Option<BlockHead>
    requires { block_head ≤ length head.now }
    ensures told { result ≡ head_by before head.now }
    ensures least { IfSome result (λ head. least_of head.kind ≤ head.size) }
{
    let number = before.word(head, 0);
    if number == PACKET {
        head_of_kind(BlockKind::Packet, before, head)
    } else {
        head_of_kind(kind_named(number), before, head)
    }
}

/// The same of a block of this kind.
#[inline(always)]
fn head_of_kind(kind: BlockKind, before: Order, head: &[u8]) -> Option<BlockHead>
    requires { block_head ≤ length head.now }
    ensures told { result ≡ head_of_kind kind (order_by kind before head.now) head.now }
    ensures least { IfSome result (λ head. least_of head.kind ≤ head.size) }
{
    let order = kind.order(before, head);
    let size = order.word(head, 4);
    if kind.tells_order(order, head) && kind.may_have(size) {
        Some(BlockHead { kind, order, size })
    } else {
        None
    }
}
