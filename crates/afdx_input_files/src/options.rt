//! Options of the blocks of a pcapng.

ghost use Rattle.std.specs.Prelude.{◌≡◌, ◌≤◌, ◌<◌, ◌^◌, length, IfSome, is_some, true};
ghost use Rattle.afdx_input_files.specs.Options.{filled, next_option, options_in, said};

use crate::order::Order;

/// The bytes of an option's code and length.
const OPTION_HEAD: usize = 4;

/// What stands next among options.
#[derive(Clone, Copy, Debug, PartialEq, Eq)]
pub enum NextOption {
    /// No option: the end, or code 0.
    Last,
    /// A piece of one, or one that runs over the end.
    Broken,
    /// One, by its code and the bytes of its value.
    Next(u16, u16),
}

/// So many bytes, filled up to a multiple of 4.
#[tactic(auto, unfolding(crate::specs::Options::filled))]
pub fn filled_up(n: usize) -> usize
    requires { n < 2 ^ 32 }
    ensures value { result ≡ filled n }
    ensures least { n ≤ result }
    ensures few { result < 2 ^ 33 }
{
    (n + 3) / 4 * 4
}

/// What stands first in these bytes.
#[tactic(auto, unfolding(crate::specs::Options::next_option))]
fn next_of(order: Order, options: &[u8]) -> NextOption
    ensures { result ≡ next_option order options.now }
{
    let left = options.len();
    if left == 0 {
        return NextOption::Last;
    }
    if left < OPTION_HEAD {
        return NextOption::Broken;
    }
    let code = order.half(options, 0);
    if code == 0 {
        return NextOption::Last;
    }
    let size = order.half(options, 2);
    if left < OPTION_HEAD + filled_up(usize::from(size)) {
        return NextOption::Broken;
    }
    NextOption::Next(code, size)
}

/// Whether no option in these bytes is broken.
fn are_whole(order: Order, options: &[u8]) -> bool
    ensures { result ≡ is_some (options_in order options.now) }
{
    let mut place = 0;
    'options: loop {
        match next_of(order, &options[place..]) {
            NextOption::Last => return true,
            NextOption::Broken => return false,
            NextOption::Next(_, size) => place += OPTION_HEAD + filled_up(usize::from(size)),
        }
    }
}

/// The number that the options say for a code whose value has so many bytes. None: an option is
/// broken, or the first of this code has another length.
#[inline(always)]
pub fn said_in(order: Order, options: &[u8], code: u16, size: usize) -> Option<Option<u64>>
    requires some { 1 ≤ size }
    requires few { size ≤ 8 }
    ensures said { result ≡ said order code size options.now }
    ensures within { IfSome result (λ number. IfSome number (λ n. n < 256 ^ size)) }
{
    if options.is_empty() {
        return Some(None);
    }
    said_among(order, options, code, size)
}

/// The same, where there may be some.
fn said_among(order: Order, options: &[u8], code: u16, size: usize) -> Option<Option<u64>>
    requires some { 1 ≤ size }
    requires few { size ≤ 8 }
    ensures said { result ≡ said order code size options.now }
    ensures within { IfSome result (λ number. IfSome number (λ n. n < 256 ^ size)) }
{
    if !are_whole(order, options) {
        return None;
    }
    first_said_in(order, options, code, size)
}

/// The same, where none is broken.
fn first_said_in(order: Order, options: &[u8], code: u16, size: usize) -> Option<Option<u64>>
    requires some { 1 ≤ size }
    requires few { size ≤ 8 }
    requires whole { is_some (options_in order options.now) ≡ true }
    ensures said { result ≡ said order code size options.now }
    ensures within { IfSome result (λ number. IfSome number (λ n. n < 256 ^ size)) }
{
    let mut place = 0;
    'options: loop {
        match next_of(order, &options[place..]) {
            NextOption::Last => return Some(None),
            NextOption::Broken => return None,
            NextOption::Next(found, length) => {
                if found == code {
                    if usize::from(length) != size {
                        return None;
                    }
                    return Some(Some(order.number(options, place + OPTION_HEAD, size)));
                }
                place += OPTION_HEAD + filled_up(usize::from(length));
            }
        }
    }
}
