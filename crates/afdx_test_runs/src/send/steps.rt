//! Tables of steps: what is done with a sender at a time, and what must come of it.

ghost use Rattle.std.specs.Prelude.{◌≡◌, ◌<◌, ◌≤◌, IfOk, IfNone, IsTrue};
ghost use Rattle.afdx_frame.specs.Times.{latest_listed};
ghost use Rattle.afdx_send.specs.Sender.{IsQuiet, last_time};

use afdx_admit::Admitted;
use afdx_config::SystemId;
use afdx_frame::VlId;
use afdx_send::{Emission, SendFault, Sender};
use afdx_test_samples::{NUMBER, admitted, base, sealed};
use std::alloc::{AllocError, Global};
use std::test::Fail;

/// The latest time of a submission.
const LATEST: u64 = 1_000_000_000_000_000;

/// What is done with a sender, and what must come of it.
#[derive(Clone, Copy)]
pub enum Step {
    /// Nothing has to be emitted any more; then a message is submitted to a link and a sub-VL, with
    /// this answer.
    Submits(u16, u8, &'static str, Result<(), SendFault>),
    /// By then a message of link 1 is emitted: the end of its slot, its number, its one byte.
    Emits(u64, u8, u8),
}

/// A frame of a message of one byte of link 1, without its check sequence.
const FRAME: [u8; 60] = [
    0x03, 0x00, 0x00, 0x00, 0x00, 0x01, 0x02, 0x00, 0x00, 0x00, 0x01, 0x20, 0x08, 0x00, 0x45, 0x00,
    0x00, 0x1d, 0x00, 0x00, 0x00, 0x00, 0x01, 0x11, 0xcd, 0xee, 0x0a, 0x00, 0x01, 0x01, 0xe0, 0xe0,
    0x00, 0x01, 0x03, 0xe8, 0x03, 0xe8, 0x00, 0x09, 0x00, 0x00, 0x61, 0x00, 0x00, 0x00, 0x00, 0x00,
    0x00, 0x00, 0x00, 0x00, 0x00, 0x00, 0x00, 0x00, 0x00, 0x00, 0x00, 0x00,
];

/// The next emission by then. Where memory is refused, the call is made again: the emission is left
/// to be taken.
fn emit(sender: &mut Sender, until: u64) -> Result<Option<Emission>, AllocError>
    requires clock { last_time sender.old ≤ until }
    ensures clock { last_time sender.new ≡ until }
    ensures quiet { IfOk result (λ e. IfNone e (IsQuiet sender.new until)) }
{
    match sender.emit(until) {
        Ok(emission) => Ok(emission),
        Err(_) => sender.emit(until),
    }
}

/// Whether nothing is emitted by then.
fn rests(sender: &mut Sender, until: u64) -> Result<bool, AllocError>
    requires clock { last_time sender.old ≤ until }
    ensures clock { last_time sender.new ≡ until }
    ensures quiet { IfOk result (λ is_still. IsTrue is_still → IsQuiet sender.new until) }
{
    Ok(emit(sender, until)?.is_none())
}

/// A message is submitted. Where memory is refused, it is submitted again.
fn submit(sender: &mut Sender, time: u64, vl: u16, sub: u8, payload: &[u8]) -> Result<(), SendFault>
    requires clock { last_time sender.old ≤ time }
    requires limit { time ≤ latest_listed }
    requires quiet { IsQuiet sender.old time }
    ensures { last_time sender.new ≡ time }
{
    match sender.submit(time, VlId(vl), sub, 1000, payload) {
        Err(SendFault::Memory) => sender.submit(time, VlId(vl), sub, 1000, payload),
        answer => answer,
    }
}

/// Whether the sender rests, and a message that is submitted then has this answer. Fails where
/// memory is refused again.
fn answers(
    sender: &mut Sender,
    time: u64,
    vl: u16,
    sub: u8,
    payload: &[u8],
    answer: Result<(), SendFault>,
) -> Result<bool, AllocError>
    requires { last_time sender.old ≤ time }
    ensures { last_time sender.new ≤ time }
{
    if time > LATEST || !rests(sender, time)? {
        return Ok(false);
    }
    match submit(sender, time, vl, sub, payload) {
        Err(SendFault::Memory) => Err(AllocError),
        found => Ok(found == answer),
    }
}

/// Whether this is the frame of a message for a network.
fn is_frame(frame: &[u8], network: u8, number: u8, payload: u8) -> bool {
    let changes = [(11, network), (42, payload), (NUMBER, number)];
    frame == sealed(&FRAME, &changes).as_slice()
}

/// Whether this is the emission of a message of link 1.
fn is_emission(emission: &Emission, time: u64, number: u8, payload: u8) -> bool {
    (emission.time, emission.vl) == (time, VlId(1))
        && is_frame(&emission.a, 0x20, number, payload)
        && is_frame(&emission.b, 0x40, number, payload)
}

/// Whether the next emission by then is that of this message of link 1.
fn emits(
    sender: &mut Sender,
    until: u64,
    time: u64,
    number: u8,
    payload: u8,
) -> Result<bool, AllocError>
    requires { last_time sender.old ≤ until }
    ensures { last_time sender.new ≤ until }
{
    match emit(sender, until)? {
        Some(emission) => Ok(is_emission(&emission, time, number, payload)),
        None => Ok(false),
    }
}

/// Whether a step at this time comes out as it must.
fn comes_out(sender: &mut Sender, time: u64, step: Step) -> Result<bool, AllocError>
    requires { last_time sender.old ≤ time }
    ensures { last_time sender.new ≤ time }
{
    match step {
        Step::Submits(vl, sub, payload, answer) => {
            answers(sender, time, vl, sub, payload.as_bytes(), answer)
        }
        Step::Emits(end, number, payload) => emits(sender, time, end, number, payload),
    }
}

/// The place of the first step that doesn't come out as it must, or whose time is before that of
/// the one before it.
fn play(sender: &mut Sender, steps: &[(u64, Step)]) -> Result<Option<usize>, AllocError>
    requires { last_time sender.old ≡ 0 }
{
    let mut now = 0;
    for (place, (time, step)) in steps.iter().enumerate() {
        if *time < now || !comes_out(sender, *time, *step)? {
            return Ok(Some(place));
        }
        now = *time;
    }
    Ok(None)
}

/// The sender of the first system. Where memory is refused, it is made again.
fn new_sender(alloc: Global, tables: &Admitted) -> Result<Sender, AllocError>
    requires { 0 < tables.now.own }
    ensures { IfOk result (λ s. last_time s ≡ 0) }
{
    match Sender::new(alloc, tables, SystemId(0)) {
        Ok(sender) => Ok(sender),
        Err(AllocError) => Sender::new(alloc, tables, SystemId(0)),
    }
}

/// The steps, played on a new sender of the first system.
fn play_anew(
    alloc: Global,
    tables: &Admitted,
    steps: &[(u64, Step)],
) -> Result<Option<usize>, Fail> {
    if tables.tables().own_count() == 0 {
        return Err("a system".into());
    }
    let mut sender = new_sender(alloc, tables)?;
    Ok(play(&mut sender, steps)?)
}

/// The place of the first step that doesn't come out as it must on a new sender of the first system
/// of the base tables.
pub fn wrong_step(alloc: Global, steps: &[(u64, Step)]) -> Result<Option<usize>, Fail> {
    let tables = admitted(alloc, base())?;
    play_anew(alloc, &tables, steps)
}
