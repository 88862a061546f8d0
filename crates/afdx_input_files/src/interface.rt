//! An interface that frames were recorded at.

ghost use Rattle.std.specs.Prelude.{◌≡◌, ◌≤◌, length};
ghost use Rattle.afdx_input_files.specs.Interfaces.{check_said, interface_by, losses_by, with_losses};

use crate::form::check_by;
use crate::options::said_in;
use crate::order::Order;
use crate::recorded::CheckSequence;

/// The option of an interface that says its unit.
const RESOLUTION: u16 = 9;
/// The option that says the bytes of check sequence.
const CHECK_SEQUENCE: u16 = 13;
/// The option that says what is added to its stamps.
const OFFSET: u16 = 14;
/// The option of statistics that says what the interface lost.
const INTERFACE_LOST: u16 = 5;
/// The option that says what the system lost.
const SYSTEM_LOST: u16 = 7;
/// The unit where none is said: us.
const MICROSECONDS: u64 = 6;

/// What a section says of an interface.
#[derive(Clone, Copy, Debug, PartialEq, Eq)]
pub struct Interface {
    /// 1 is Ethernet.
    pub link_type: u32,
    /// The most bytes that are captured of a frame, or 0.
    pub snap: u32,
    /// The unit of its stamps: 10^-n s, or 2^-(n - 128) s from 128 on.
    pub resolution: u8,
    /// In s, two's complement: what is added to its stamps.
    pub offset: u64,
    /// Whether frames end with their check sequence.
    pub check_sequence: CheckSequence,
    /// Frames that the interface lost, by its last statistics.
    pub interface_lost: u64,
    /// Frames that the system lost, by its last statistics.
    pub system_lost: u64,
}

/// What statistics say of an interface, as far as they do.
#[derive(Clone, Copy, Debug, PartialEq, Eq)]
pub struct Losses {
    /// Frames that it lost.
    pub interface: Option<u64>,
    /// Frames that the system lost there.
    pub system: Option<u64>,
}

/// Whether frames end with their check sequence, by an option.
fn check_by_option(bytes: Option<u64>) -> CheckSequence
    ensures { result ≡ check_said bytes }
{
    match bytes {
        Some(bytes) => check_by(bytes),
        None => CheckSequence::Unsaid,
    }
}

/// An interface, by the body of the block that describes it. None: its options are wrong.
#[tactic(auto, unfolding(crate::specs::Interfaces::interface_by))]
pub fn interface_of(order: Order, body: &[u8]) -> Option<Interface>
    requires { 8 ≤ length body.now }
    ensures { result ≡ interface_by order body.now }
{
    let options = &body[8..];
    let resolution = said_in(order, options, RESOLUTION, 1)?;
    let check = said_in(order, options, CHECK_SEQUENCE, 1)?;
    let offset = said_in(order, options, OFFSET, 8)?;
    Some(Interface {
        link_type: u32::from(order.half(body, 0)),
        snap: order.word(body, 4),
        resolution: resolution.unwrap_or(MICROSECONDS) as u8,
        offset: offset.unwrap_or(0),
        check_sequence: check_by_option(check),
        interface_lost: 0,
        system_lost: 0,
    })
}

/// What statistics say, by the body of their block. None: their options are wrong.
#[tactic(auto, unfolding(crate::specs::Interfaces::losses_by))]
pub fn losses_of(order: Order, body: &[u8]) -> Option<Losses>
    requires { 12 ≤ length body.now }
    ensures { result ≡ losses_by order body.now }
{
    let options = &body[12..];
    let interface = said_in(order, options, INTERFACE_LOST, 8)?;
    let system = said_in(order, options, SYSTEM_LOST, 8)?;
    Some(Losses { interface, system })
}

impl Interface {
    /// The interface with what statistics say.
    #[tactic(auto, unfolding(crate::specs::Interfaces::with_losses))]
    pub fn with(self, losses: Losses) -> Interface
        ensures { result ≡ with_losses self losses }
    {
        Interface {
            interface_lost: losses.interface.unwrap_or(self.interface_lost),
            system_lost: losses.system.unwrap_or(self.system_lost),
            ..self
        }
    }
}
