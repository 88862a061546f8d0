//! What the systems tell of frames, also of some that no switch hands over. More is tried at the
//! program (tests/program/replay.sh, tests/run/streams.py).

use crate::texts::short_text;
use afdx_config::Tables;
use afdx_end_systems::{Handover, Systems};
use afdx_frame::{Checked, MacView, Side};
use afdx_receive::Reception;
use afdx_test_samples::{HELLO, ShortText, all_right, base_tables, hello, sealed, world};
use afdx_text::{OutLine, Text};
use std::alloc::{AllocError, Global};
use std::test::Fail;

/// A frame of the list: its side, its time and its bytes. Its line is its place in the test, from
/// 1.
#[derive(Clone, Copy)]
struct Listed {
    side: Side,
    time: u64,
    bytes: [u8; 64],
}

fn on_a(time: u64, bytes: [u8; 64]) -> Listed {
    Listed {
        side: Side::A,
        time,
        bytes,
    }
}

fn on_b(time: u64, bytes: [u8; 64]) -> Listed {
    Listed {
        side: Side::B,
        time,
        bytes,
    }
}

/// Hands over a frame, adds the line of what its system made of it, and answers whether that is a
/// message.
fn receive(
    systems: &mut Systems,
    handover: Handover<'_>,
    text: &mut Text,
) -> Result<bool, AllocError> {
    let (time, n, port) = (handover.time, handover.line, handover.port);
    let Some(reception) = systems.receive(handover) else {
        return Ok(false);
    };
    let system = systems.name_at(port);
    match reception {
        Reception::Message { vl, bytes, .. } => {
            let line = OutLine::Message {
                time,
                system,
                vl,
                bytes,
            };
            line.put(text)?;
            Ok(true)
        }
        Reception::Dropped(why) => {
            let line = OutLine::Unread {
                time,
                system,
                n,
                why,
            };
            line.put(text)?;
            Ok(false)
        }
    }
}

/// Hands over the frames at a port, one after the other, but for what is no frame of a link: a
/// switch lets none pass. Adds what the systems tell of them, and answers how many messages they
/// delivered.
fn hand_over(
    systems: &mut Systems,
    port: u8,
    frames: &[Listed],
    text: &mut Text,
) -> Result<u64, AllocError> {
    let mut delivered = 0u64;
    let mut line = 0u64;
    for frame in frames {
        line = line.saturating_add(1);
        let checked = Checked::new(frame.bytes.as_slice());
        let Ok(_view) = MacView::of(checked) else {
            continue;
        };
        let handover = Handover {
            side: frame.side,
            port,
            time: frame.time,
            line,
            // (the right row of some, another link's or none of others: all are told the same)
            row: u16::try_from(line).unwrap_or(0),
            frame: checked,
        };
        let is_delivered = receive(systems, handover, text)?;
        delivered = delivered.saturating_add(u64::from(is_delivered));
    }
    Ok(delivered)
}

/// What new systems of the tables tell of frames at a port, and how many messages they delivered.
fn tell_once(
    alloc: Global,
    tables: &Tables,
    port: u8,
    frames: &[Listed],
) -> Result<(Text, u64), AllocError> {
    let mut systems = Systems::new(alloc, tables)?;
    let mut text = Text::new(alloc);
    let delivered = hand_over(&mut systems, port, frames, &mut text)?;
    Ok((text, delivered))
}

/// The same in the base tables. Where a growth is refused, it is begun again with new systems.
fn tell(alloc: Global, port: u8, frames: &[Listed]) -> Result<(ShortText, u64), Fail> {
    let tables = base_tables(alloc)?;
    let (text, delivered) = match tell_once(alloc, &tables, port, frames) {
        Err(_) => tell_once(alloc, &tables, port, frames)?,
        Ok(told) => told,
    };
    Ok((short_text(text.as_bytes())?, delivered))
}

/// Whether this is what new systems tell of frames at a port, and how many messages they deliver.
fn is_told(
    alloc: Global,
    port: u8,
    frames: &[Listed],
    wanted: &str,
    delivered: u64,
) -> Result<bool, Fail> {
    let (text, count) = tell(alloc, port, frames)?;
    Ok(text.as_str() == wanted && count == delivered)
}

#[test]
fn refused_telling_is_begun_again(rt: HostRuntime) -> Result<(), Fail> {
    let frames = [
        on_a(1, hello(0)),
        on_a(2, hello(1)),
        on_b(3, hello(0)),
        on_a(4, world(0)),
        on_a(5, world(1)),
    ];
    let told = "M 1 s3 1 68656c6c6f\nM 2 s3 1 68656c6c6f\nX 3 s3 3 redundant\n\
        M 4 s3 2 776f726c64\nM 5 s3 2 776f726c64\n";
    assert!(rt; is_told(rt.alloc(), 3, frames.as_slice(), told, 4)?);
    Ok(())
}

#[test]
fn frames_of_another_link_are_dropped(rt: HostRuntime) -> Result<(), Fail> {
    let mut damaged = hello(0);
    damaged[63] ^= 0xff;
    let frames = [
        on_a(1, damaged),
        on_a(2, sealed(&HELLO, &[(0, 2)])),
        on_a(3, sealed(&HELLO, &[(5, 9)])),
    ];
    let told = "X 3 s3 3 not-subscribed\n";
    assert!(rt; is_told(rt.alloc(), 3, frames.as_slice(), told, 0)?);
    Ok(())
}

/// A port, what is told of frames there, and how many messages are delivered.
type Told = (u8, &'static str, u64);

/// The first of the ports at which the frames aren't told as they should be.
fn wrongly_told_at(alloc: Global, frames: &[Listed], rows: &[Told]) -> Result<Option<u8>, Fail> {
    for (port, told, delivered) in rows {
        if !is_told(alloc, *port, frames, told, *delivered)? {
            return Ok(Some(*port));
        }
    }
    Ok(None)
}

#[test]
fn each_port_has_its_system(rt: HostRuntime) -> Result<(), Fail> {
    let rows = [
        (0, "", 0),
        (1, "X 0 s1 1 not-subscribed\n", 0),
        (3, "M 0 s3 1 68656c6c6f\n", 1),
        (255, "", 0),
    ];
    let frames = [on_a(0, hello(0))];
    let wrong = wrongly_told_at(rt.alloc(), frames.as_slice(), rows.as_slice())?;
    all_right(wrong)
}
