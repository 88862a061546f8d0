//! How the place is put that a line says.

ghost use Rattle.std.specs.Prelude.{◌≡◌, ◌≤◌, ◌+◌, ◌++◌, ℕ, List, length, take};
ghost use Rattle.afdx_text.specs.OutLines.{side_text, site_text};

use crate::piece::{put, put_piece};
use crate::site::Site;
use afdx_frame::Side;

/// What a line says as its place: a side, or a side and the name of its switch. A function over
/// each of them is compiled twice, so that the lines of one switch ask nothing of a name.
pub(crate) trait LinePlace: Copy {
    ghost text: { Self → List ℕ };

    /// How long a name it has.
    ghost named: { Self → ℕ };

    /// Puts it, and tells where it ends.
    fn put(self, room: &mut [u8], at: usize) -> usize
        requires { at + 2 + named self ≤ length room.old }
        ensures within { result ≤ at + 2 + named self }
        ensures text { take result room.new ≡ take at room.old ++ text self };
}

impl LinePlace for Side {
    ghost text = { side_text };

    ghost named = { λ side. 0 };

    #[inline(always)]
    fn put(self, room: &mut [u8], at: usize) -> usize {
        match self {
            Side::A => put(room, at, b"A"),
            Side::B => put(room, at, b"B"),
        }
    }
}

impl LinePlace for Site<'_> {
    ghost text = { site_text };

    ghost named = { λ site. length site.switch.now };

    #[inline(always)]
    fn put(self, room: &mut [u8], at: usize) -> usize {
        let at = LinePlace::put(self.side, room, at);
        if self.switch.is_empty() {
            return at;
        }
        let at = put(room, at, b" ");
        put_piece(room, at, self.switch.as_bytes())
    }
}
