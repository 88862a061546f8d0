//! What `bench/port.py` measures of the output port: `afdx_port_bench COUNT` puts and takes COUNT
//! frames in turn; `afdx_port_bench fill` fills a queue of 4 MiB with frames of 64 bytes and drains
//! it.
#![tactic(auto)]

ghost use Rattle.std.specs.Prelude.{◌≡◌, ◌≤◌, ◌*◌};
ghost use Rattle.afdx_port.specs.Held.{last_time};

use afdx_frame::{GREATEST_BUFFER, Priority};
use afdx_port::{HasLength, Port};
use std::alloc::AllocError;

/// The ns of a byte and of a frame's slot.
const BYTE_NS: u64 = 80;

const SLOT: u64 = 6_720;

/// A frame of 64 bytes that may wait for ever.
#[derive(Clone, Copy, Debug, PartialEq, Eq)]
struct ShortFrame;

impl HasLength for ShortFrame {
    ghost use Rattle.afdx_port_bench.specs.ShortLaw.{short_facts, short-lawful};

    ghost facts = { λ _. short_facts };

    fn length(&self) -> u64 {
        64
    }

    fn longest_wait(&self) -> Option<u64> {
        None
    }

    ghost lawful = { λ _. short-lawful };
}

/// How many of so many frames left, each put to an idle port and taken.
fn count_pairs(port: &mut Port<ShortFrame>, pairs: u32) -> u32
    requires { last_time port.old ≡ 0 }
{
    let mut left = 0_u32;
    for pair in 0..pairs {
        let time = u64::from(pair) * SLOT;
        if !port.is_quiet(time) {
            return left;
        }
        let is_put = port.put(time, Priority::High, ShortFrame).is_ok();
        if is_put && port.take(time + SLOT).is_some() {
            left += 1;
        }
    }
    left
}

/// How many frames left a port that was filled.
fn count_filled(port: &mut Port<ShortFrame>) -> u32
    requires { last_time port.old ≡ 0 }
{
    for _ in 0..70_000_u32 {
        if !port.is_quiet(0) || port.put(0, Priority::Low, ShortFrame).is_err() {
            break;
        }
    }
    let mut left = 0_u32;
    for _ in 0..70_000_u32 {
        if port.take(1_000_000_000_000).is_some() {
            left = left.saturating_add(1);
        }
    }
    left
}

fn main(rt: HostRuntime) -> Result<(), AllocError> {
    let Ok(words) = std::env::args(&rt) else {
        return Ok(());
    };
    let words: Vec<String> = words.collect(rt.alloc())?;
    let word = match words.as_slice() {
        [_, word, ..] => word.as_str(),
        _ => "",
    };
    let mut port: Port<ShortFrame> = Port::new(rt.alloc(), BYTE_NS, GREATEST_BUFFER)?;
    let left = match word.parse::<u32>() {
        Ok(pairs) => count_pairs(&mut port, pairs.min(10_000_000)),
        Err(_) => count_filled(&mut port),
    };
    let _ = println!(rt; "{left} frames left");
    Ok(())
}
