//! A number whose digits are kept.

ghost use Rattle.std.specs.Prelude.{◌≡◌, ◌≤◌, ◌+◌, ◌-◌, ◌++◌, length, take, drop, decimal};

use crate::piece::put_front;

/// The most digits of a `u64`.
pub(crate) const MOST_DIGITS: usize = 20;

/// A number and its digits.
#[derive(Debug, Drop)]
pub(crate) struct Numeral {
    pub(crate) number: u64,
    /// The digits begin at `start` and end before place 20.
    digits: [u8; 52],
    start: usize,
    ghost ends: { start + length (decimal number) ≡ 20 },
    ghost room: { length digits ≡ 52 },
    ghost written: { take (20 - start) (drop start digits) ≡ decimal number },
}

impl Numeral {
    pub(crate) fn zero() -> Numeral {
        Numeral {
            number: 0,
            digits: [b'0'; 52],
            start: MOST_DIGITS - 1,
        }
    }

    /// Makes it another number.
    #[inline(never)]
    fn write(&mut self, number: u64)
        ensures { self.new.number ≡ number }
    {
        self.start = itoa::write_digits(number, &mut self.digits, MOST_DIGITS);
        self.number = number;
    }

    /// Makes it this number. It is quick where it is this number already.
    #[inline(always)]
    pub(crate) fn set(&mut self, number: u64)
        ensures { self.new.number ≡ number }
    {
        if self.number != number {
            self.write(number);
        }
    }

    /// Puts its digits at a place of the room, and tells where they end.
    #[inline(always)]
    pub(crate) fn put(&self, room: &mut [u8], at: usize) -> usize
        requires { at + 32 ≤ length room.old }
        ensures within { result ≤ at + 20 }
        ensures digits { take result room.new ≡ take at room.old ++ decimal self.now.number }
    {
        put_front(
            room,
            at,
            &self.digits[self.start..],
            MOST_DIGITS - self.start,
        )
    }
}
