//! The lines of `check`, and how each is put at a place of a room that is long enough for it: each
//! function says where the line ends.

ghost use Rattle.std.specs.Prelude.{◌≡◌, ◌≤◌, ◌+◌, ◌++◌, length, take};
ghost use Rattle.afdx_text.specs.OutLines.{bound_text, bounds_line, margin_line, denied_line};
ghost use Rattle.afdx_text.specs.OutLines.{switch_line, end_to_end_line, apart_line};

use crate::line::MOST_FIXED;
use crate::piece::{put, put_number, put_piece, put_small};
use afdx_frame::VlId;

/// A line of `check`.
#[derive(Clone, Copy, Debug)]
pub enum CheckLine<'a> {
    /// The bounds of an output port: `P port high low buffer`, with `-` where there is no low one.
    Bounds {
        port: u8,
        high: u64,
        low: Option<u64>,
        buffer: u64,
    },
    /// A link that goes to an output port: `m port vl bound latency`, the bound of its class there,
    /// or `-`, and its latency, both in ns.
    Margin {
        port: u8,
        vl: VlId,
        bound: Option<u64>,
        latency: u64,
    },
    /// The tables are admitted: `ok`.
    Admitted,
    /// They are not, by this line of admission: `no LINE`.
    Denied {
        line: &'a str,
    },
    /// The lines of a switch's ports follow: `S SWITCH`.
    Switch {
        name: &'a str,
    },
    /// A link that goes to a system, over one or more switches: `E vl system ns`, the sum of its
    /// latencies on the way there, in ns, or `-` where the way is broken.
    EndToEnd {
        vl: VlId,
        system: &'a str,
        ns: Option<u64>,
    },
    /// How far apart the copies of a frame of a link may be sent on the two networks: `apart vl
    /// ns`, or `-` where no system gets it.
    Apart {
        vl: VlId,
        ns: Option<u64>,
    },
}

/// Puts a bound, or a dash where there is none.
#[inline(always)]
fn put_bound(room: &mut [u8], at: usize, bound: Option<u64>) -> usize
    requires { at + 32 ≤ length room.old }
    ensures within { result ≤ at + 20 }
    ensures text { take result room.new ≡ take at room.old ++ bound_text bound }
{
    match bound {
        Some(bound) => put_number(room, at, bound),
        None => put(room, at, b"-"),
    }
}

/// `P port high low buffer`.
#[inline(never)]
fn put_bounds(
    room: &mut [u8],
    at: usize,
    port: u8,
    high: u64,
    low: Option<u64>,
    buffer: u64,
) -> usize
    requires { at + 128 ≤ length room.old }
    ensures within { result ≤ at + 128 }
    ensures text { take result room.new ≡ take at room.old ++ bounds_line port high low buffer }
{
    let at = put(room, at, b"P ");
    let at = put_small(room, at, port);
    let at = put(room, at, b" ");
    let at = put_number(room, at, high);
    let at = put(room, at, b" ");
    let at = put_bound(room, at, low);
    let at = put(room, at, b" ");
    let at = put_number(room, at, buffer);
    put(room, at, b"\n")
}

/// `m port vl bound latency`.
#[inline(never)]
fn put_margin(
    room: &mut [u8],
    at: usize,
    port: u8,
    vl: u16,
    bound: Option<u64>,
    latency: u64,
) -> usize
    requires { at + 128 ≤ length room.old }
    ensures within { result ≤ at + 128 }
    ensures text { take result room.new ≡ take at room.old ++ margin_line port vl bound latency }
{
    let at = put(room, at, b"m ");
    let at = put_small(room, at, port);
    let at = put(room, at, b" ");
    let at = put_number(room, at, u64::from(vl));
    let at = put(room, at, b" ");
    let at = put_bound(room, at, bound);
    let at = put(room, at, b" ");
    let at = put_number(room, at, latency);
    put(room, at, b"\n")
}

/// `no LINE`.
#[inline(never)]
fn put_denial(room: &mut [u8], at: usize, line: &str) -> usize
    requires { at + 128 + length line.now ≤ length room.old }
    ensures within { result ≤ at + 128 + length line.now }
    ensures text { take result room.new ≡ take at room.old ++ denied_line line.now }
{
    let at = put(room, at, b"no ");
    let at = put_piece(room, at, line.as_bytes());
    put(room, at, b"\n")
}

/// `S SWITCH`.
#[inline(never)]
fn put_switch(room: &mut [u8], at: usize, name: &str) -> usize
    requires { at + 128 + length name.now ≤ length room.old }
    ensures within { result ≤ at + 128 + length name.now }
    ensures text { take result room.new ≡ take at room.old ++ switch_line name.now }
{
    let at = put(room, at, b"S ");
    let at = put_piece(room, at, name.as_bytes());
    put(room, at, b"\n")
}

/// `E vl system ns`.
#[inline(never)]
fn put_end_to_end(room: &mut [u8], at: usize, vl: u16, system: &str, ns: Option<u64>) -> usize
    requires { at + 128 + length system.now ≤ length room.old }
    ensures within { result ≤ at + 128 + length system.now }
    ensures text { take result room.new ≡ take at room.old ++ end_to_end_line vl system.now ns }
{
    let at = put(room, at, b"E ");
    let at = put_number(room, at, u64::from(vl));
    let at = put(room, at, b" ");
    let at = put_piece(room, at, system.as_bytes());
    let at = put(room, at, b" ");
    let at = put_bound(room, at, ns);
    put(room, at, b"\n")
}

/// `apart vl ns`.
#[inline(never)]
fn put_apart(room: &mut [u8], at: usize, vl: u16, ns: Option<u64>) -> usize
    requires { at + 128 ≤ length room.old }
    ensures within { result ≤ at + 128 }
    ensures text { take result room.new ≡ take at room.old ++ apart_line vl ns }
{
    let at = put(room, at, b"apart ");
    let at = put_number(room, at, u64::from(vl));
    let at = put(room, at, b" ");
    let at = put_bound(room, at, ns);
    put(room, at, b"\n")
}

impl CheckLine<'_> {
    ghost use Rattle.std.specs.Prelude.{IfSome, IfNone, ◌^◌};
    ghost use Rattle.afdx_text.specs.OutLines.{check_line, longest_check};

    /// At least as many bytes as the line has; `None` where that is no `usize`.
    pub(crate) fn longest(&self) -> Option<usize>
        ensures some { IfSome result (λ most. most ≡ longest_check self.now) }
        ensures none { IfNone result (2 ^ 64 ≤ longest_check self.now) }
    {
        match self {
            CheckLine::Denied { line } => MOST_FIXED.checked_add(line.len()),
            CheckLine::Switch { name } => MOST_FIXED.checked_add(name.len()),
            CheckLine::EndToEnd { system, .. } => MOST_FIXED.checked_add(system.len()),
            _ => Some(MOST_FIXED),
        }
    }

    /// Puts the line at a place of the room, and tells where it ends.
    pub(crate) fn put_at(&self, room: &mut [u8], at: usize) -> usize
        requires { at + longest_check self.now ≤ length room.old }
        ensures within { result ≤ at + longest_check self.now }
        ensures text { take result room.new ≡ take at room.old ++ check_line self.now }
    {
        match self {
            CheckLine::Bounds {
                port,
                high,
                low,
                buffer,
            } => put_bounds(room, at, *port, *high, *low, *buffer),
            CheckLine::Margin {
                port,
                vl,
                bound,
                latency,
            } => put_margin(room, at, *port, vl.0, *bound, *latency),
            CheckLine::Admitted => put(room, at, b"ok\n"),
            CheckLine::Denied { line } => put_denial(room, at, line),
            CheckLine::Switch { name } => put_switch(room, at, name),
            CheckLine::EndToEnd { vl, system, ns } => put_end_to_end(room, at, vl.0, system, *ns),
            CheckLine::Apart { vl, ns } => put_apart(room, at, vl.0, *ns),
        }
    }
}
