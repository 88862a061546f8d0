//! How a recording begins, which tells its form.

ghost use Rattle.std.specs.Prelude.{◌≡◌, ◌≤◌, length};
ghost use Rattle.afdx_input_files.specs.Pcap.{check_sequence_of, is_pcap_version, pcap_check};
ghost use Rattle.afdx_input_files.specs.Pcap.{pcap_form, pcap_head};
ghost use Rattle.afdx_input_files.specs.Reading.{is_packed, magic_of};

use crate::order::Order;
use crate::recorded::CheckSequence;

/// What a pcap says of all its frames.
#[derive(Clone, Copy, Debug, PartialEq, Eq)]
pub struct PcapForm {
    /// Fractions of a second are in ns, else in us.
    pub nanoseconds: bool,
    /// 1 is Ethernet.
    pub link_type: u32,
    /// Whether frames end with their check sequence.
    pub check_sequence: CheckSequence,
}

/// The form of a recording.
#[derive(Clone, Copy, Debug, PartialEq, Eq)]
pub enum Form {
    /// A pcap.
    Pcap(PcapForm),
    /// A pcapng.
    Pcapng,
}

/// What the first four bytes name.
#[derive(Clone, Copy, Debug, PartialEq, Eq)]
pub enum Magic {
    /// A pcap: its order of bytes, and whether fractions are in ns.
    Pcap(Order, bool),
    /// A pcapng.
    Pcapng,
    /// A packed file.
    Packed,
}

/// Whether this number, the first four bytes, the highest first, is that of a packed file: gzip,
/// bzip2, zstd, xz or zip.
#[tactic(auto, unfolding(crate::specs::Reading::is_packed))]
fn is_packed(number: u32) -> bool
    ensures { result ≡ is_packed number }
{
    number / 0x1_0000 == 0x1f8b
        || number / 0x100 == 0x0042_5a68
        || number == 0x28b5_2ffd
        || number == 0xfd37_7a58
        || number == 0x504b_0304
}

/// What this number names: the first four bytes, the highest first.
#[tactic(auto, unfolding(crate::specs::Reading::magic_of))]
pub fn magic_named(number: u32) -> Option<Magic>
    ensures { result ≡ magic_of number }
{
    match number {
        0xa1b2_c3d4 => Some(Magic::Pcap(Order::HighFirst, false)),
        0xd4c3_b2a1 => Some(Magic::Pcap(Order::LowFirst, false)),
        0xa1b2_3c4d => Some(Magic::Pcap(Order::HighFirst, true)),
        0x4d3c_b2a1 => Some(Magic::Pcap(Order::LowFirst, true)),
        0x0a0d_0d0a => Some(Magic::Pcapng),
        _ if is_packed(number) => Some(Magic::Packed),
        _ => None,
    }
}

/// Whether the header of a pcap says version 2.4.
#[tactic(auto, unfolding(crate::specs::Pcap::is_pcap_version))]
pub fn is_known_version(order: Order, header: &[u8]) -> bool
    requires { pcap_head ≤ length header.now }
    ensures { result ≡ is_pcap_version order header.now }
{
    order.half(header, 4) == 2 && order.half(header, 6) == 4
}

/// Whether frames end with their check sequence that have so many bytes of it.
#[tactic(auto, unfolding(crate::specs::Pcap::check_sequence_of))]
pub fn check_by(bytes: u64) -> CheckSequence
    ensures { result ≡ check_sequence_of bytes }
{
    match bytes {
        0 => CheckSequence::Without,
        4 => CheckSequence::With,
        _ => CheckSequence::Unsaid,
    }
}

/// The same by the last word of a pcap's header.
#[tactic(auto, unfolding(crate::specs::Pcap::pcap_check))]
fn check_by_word(word: u32) -> CheckSequence
    ensures { result ≡ pcap_check word }
{
    if word / 0x400_0000 % 2 == 1 {
        check_by(u64::from(2 * (word / 0x1000_0000)))
    } else {
        CheckSequence::Unsaid
    }
}

/// What the header of a pcap says of all its frames.
#[tactic(auto, unfolding(crate::specs::Pcap::pcap_form))]
pub fn form_of(order: Order, nanoseconds: bool, header: &[u8]) -> PcapForm
    requires { pcap_head ≤ length header.now }
    ensures { result ≡ pcap_form order nanoseconds header.now }
{
    let word = order.word(header, 20);
    PcapForm {
        nanoseconds,
        link_type: word % 0x400_0000,
        check_sequence: check_by_word(word),
    }
}
