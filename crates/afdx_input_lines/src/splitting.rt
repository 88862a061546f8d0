//! The first field of a text.

ghost use Rattle.std.specs.Prelude.{◌≡◌, ◌<◌, ◌∷◌, ◌==◌, length, IfSome};
ghost use Rattle.std.specs.List.{slice_split};
ghost use Rattle.memchr.specs.Find.{IsFirstByte, is_byte};
ghost use Rattle.afdx_input_lines.specs.Splitting.{parts_after};

/// The longest text through which the crate `memchr` takes its smaller steps.
const NEAR: usize = 191;

/// Where the first such byte stands. Most fields of a list's lines are one byte.
#[inline(always)]
fn find_byte(text: &[u8], byte: u8) -> Option<usize>
    ensures { IsFirstByte (is_byte byte) text.now result }
{
    match text {
        [first, second, ..] if *first != byte && *second == byte => Some(1),
        _ => memchr::memchr(byte, text),
    }
}

/// Where the first such byte stands, which isn't expected near.
#[inline(never)]
fn find_far(text: &[u8], byte: u8) -> Option<usize>
    ensures { IsFirstByte (is_byte byte) text.now result }
{
    memchr::memchr(byte, text)
}

/// Where the first such byte stands, which is expected among the first 191: through so few `memchr`
/// takes smaller steps, and looks at less behind the byte.
#[inline(always)]
fn find_near(text: &[u8], byte: u8) -> Option<usize>
    ensures { IsFirstByte (is_byte byte) text.now result }
{
    let near = text.len().min(NEAR);
    if let Some(at) = memchr::memchr(byte, &text[..near]) {
        return Some(at);
    }
    match find_far(&text[near..], byte) {
        Some(at) => Some(near + at),
        None => None,
    }
}

/// Where the first such byte stands, which is expected behind so many others.
#[inline(always)]
pub(crate) fn find_expected(text: &[u8], byte: u8, before: usize) -> Option<usize>
    ensures { IsFirstByte (is_byte byte) text.now result }
{
    if before < NEAR {
        find_near(text, byte)
    } else {
        find_far(text, byte)
    }
}

/// What stands before the first such byte, and the rest after it, where there is one.
#[inline(always)]
pub fn first_field(text: &[u8], byte: u8) -> (&[u8], Option<&[u8]>)
    ensures parts { slice_split (λ one. one == byte) text.now
        ≡ result.0.now ∷ parts_after byte result.1 }
    ensures shorter { IfSome result.1 (λ rest. length rest.now < length text.now) }
{
    match find_byte(text, byte) {
        Some(at) => (&text[..at], Some(&text[at + 1..])),
        None => (text, None),
    }
}
