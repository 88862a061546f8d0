//! The order of the bytes of a number.

ghost use Rattle.std.specs.Prelude.{◌≡◌, ◌≤◌, ◌<◌, ◌+◌, ◌^◌, length, drop};
ghost use Rattle.afdx_input_files.specs.Orders.{half_at, number_in, word_at};

use byteorder::{BigEndian, ByteOrder, LittleEndian};

/// Which byte of a number comes first.
#[derive(Clone, Copy, Debug, PartialEq, Eq)]
pub enum Order {
    /// Its lowest.
    LowFirst,
    /// Its highest.
    HighFirst,
}

impl Order {
    /// The 16 bits that stand behind so many bytes.
    pub fn half(self, bytes: &[u8], place: usize) -> u16
        requires { place + 2 ≤ length bytes.now }
        ensures { result ≡ half_at self place bytes.now }
    {
        let from = &bytes[place..];
        match self {
            Order::LowFirst => LittleEndian::read_u16(from),
            Order::HighFirst => BigEndian::read_u16(from),
        }
    }

    /// The 32 bits that stand there.
    pub fn word(self, bytes: &[u8], place: usize) -> u32
        requires { place + 4 ≤ length bytes.now }
        ensures { result ≡ word_at self place bytes.now }
    {
        let from = &bytes[place..];
        match self {
            Order::LowFirst => LittleEndian::read_u32(from),
            Order::HighFirst => BigEndian::read_u32(from),
        }
    }

    /// The number of so many bytes that stands there.
    pub fn number(self, bytes: &[u8], place: usize, size: usize) -> u64
        requires some { 1 ≤ size }
        requires few { size ≤ 8 }
        requires held { place + size ≤ length bytes.now }
        ensures value { result ≡ number_in self size (drop place bytes.now) }
        ensures within { result < 256 ^ size }
    {
        let from = &bytes[place..];
        match self {
            Order::LowFirst => LittleEndian::read_uint(from, size),
            Order::HighFirst => BigEndian::read_uint(from, size),
        }
    }
}
