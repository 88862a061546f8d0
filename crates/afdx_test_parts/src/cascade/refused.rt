//! All events of two switches, with known answers. Each call that is refused memory is made again,
//! and gives its answer.

ghost use Rattle.std.specs.Prelude.{◌≡◌, ◌<◌, ◌≤◌, [], List, IfOk, OnErr, IfNone, None, length};
ghost use Rattle.afdx_port.specs.Times.{latest_put};
ghost use Rattle.afdx_config.specs.Switches.{far_end};
ghost use Rattle.afdx_cascade.specs.Cascade.{StandsFor, IsUntil, IsQuiet};
ghost use Rattle.afdx_cascade.specs.Plans.{plan_of};
ghost use Rattle.afdx_cascade.specs.SwitchEvents.{SwitchEvent};

use super::switches_of;
use afdx_cascade::{Cascade, Happened};
use afdx_config::{SwitchId, Switches};
use afdx_frame::{Checked, Side};
use afdx_switch::{Departure, Verdict};
use afdx_test_samples::{all_right, hello, two_switches};
use std::alloc::{AllocError, Global};
use std::test::Fail;

/// A frame that arrives on side A: its switch and port, and its tag.
#[derive(Clone, Copy)]
struct Line<'a> {
    switch: SwitchId,
    port: u8,
    tag: u64,
    frame: &'a [u8],
}

/// What is told of an event, all on side A.
#[derive(Clone, Copy, Debug, PartialEq)]
enum Told {
    /// At a switch a slot ended, at a port: of the frame of this tag, when.
    Left(usize, u8, u64, u64),
    /// A cable brought it to a port of a switch, and there it was accepted.
    Accepted(usize, u8, u64, u64),
    Other,
}

/// What is done with a cascade, and what must come of it.
#[derive(Clone, Copy)]
enum Step<'a> {
    /// Nothing happens before; then a frame arrives, and is accepted.
    Comes(Line<'a>),
    /// This happens by then.
    Tells(Told),
    /// Nothing happens by then.
    Rests,
}

fn new_cascade(alloc: Global, switches: &Switches) -> Result<Cascade, AllocError>
    ensures stands { IfOk result (λ w. StandsFor (plan_of switches.now) w []) }
    ensures clock { IfOk result (λ w. IsUntil w 0) }
{
    match Cascade::new(alloc, switches) {
        Ok(cascade) => Ok(cascade),
        Err(AllocError) => Cascade::new(alloc, switches),
    }
}

/// The next event by `until`.
fn take(
    cascade: &mut Cascade,
    switches: &Switches,
    until: u64,
) -> Result<Option<Happened>, AllocError>
    requires stands { (so_far : List SwitchEvent)
        × StandsFor (plan_of switches.now) cascade.old so_far }
    requires clock { IsUntil cascade.old until }
    ensures stands { (so_far : List SwitchEvent)
        × StandsFor (plan_of switches.now) cascade.new so_far }
    ensures clock { IsUntil cascade.new until }
    ensures quiet { IfOk result (λ o. IfNone o (IsQuiet cascade.new until)) }
{
    cascade.take(until)
}

/// The same. Where memory is refused, it is taken again: the event is still to come.
fn take_surely(
    cascade: &mut Cascade,
    switches: &Switches,
    until: u64,
) -> Result<Option<Happened>, AllocError>
    requires stands { (so_far : List SwitchEvent)
        × StandsFor (plan_of switches.now) cascade.old so_far }
    requires clock { IsUntil cascade.old until }
    ensures stands { (so_far : List SwitchEvent)
        × StandsFor (plan_of switches.now) cascade.new so_far }
    ensures clock { IsUntil cascade.new until }
    ensures quiet { IfOk result (λ o. IfNone o (IsQuiet cascade.new until)) }
{
    match take(cascade, switches, until) {
        Ok(happened) => Ok(happened),
        Err(AllocError) => take(cascade, switches, until),
    }
}

/// A frame arrives.
fn arrive(
    cascade: &mut Cascade,
    switches: &Switches,
    time: u64,
    line: Line<'_>,
) -> Result<Verdict, AllocError>
    requires within { line.switch.0 < length switches.now }
    requires free { far_end switches.now line.switch.0 line.port ≡ None }
    requires limit { time ≤ latest_put }
    requires stands { (so_far : List SwitchEvent)
        × StandsFor (plan_of switches.now) cascade.old so_far }
    requires clock { IsUntil cascade.old time }
    requires quiet { IsQuiet cascade.old time }
    ensures stands { (so_far : List SwitchEvent)
        × StandsFor (plan_of switches.now) cascade.new so_far }
    ensures clock { IsUntil cascade.new time }
    ensures quiet { OnErr result (IsQuiet cascade.new time) }
{
    let frame = Checked::new(line.frame);
    cascade.arrive(line.switch, Side::A, time, line.port, line.tag, frame)
}

/// The same. Where memory is refused, it arrives again: a refused arrival has changed nothing.
fn arrive_surely(
    cascade: &mut Cascade,
    switches: &Switches,
    time: u64,
    line: Line<'_>,
) -> Result<Verdict, AllocError>
    requires within { line.switch.0 < length switches.now }
    requires free { far_end switches.now line.switch.0 line.port ≡ None }
    requires limit { time ≤ latest_put }
    requires stands { (so_far : List SwitchEvent)
        × StandsFor (plan_of switches.now) cascade.old so_far }
    requires clock { IsUntil cascade.old time }
    requires quiet { IsQuiet cascade.old time }
    ensures stands { (so_far : List SwitchEvent)
        × StandsFor (plan_of switches.now) cascade.new so_far }
    ensures clock { IsUntil cascade.new time }
{
    match arrive(cascade, switches, time, line) {
        Ok(verdict) => Ok(verdict),
        Err(AllocError) => arrive(cascade, switches, time, line),
    }
}

/// Whether a frame was accepted, and no copy of it lost.
fn is_forwarded(verdict: Verdict) -> bool {
    match verdict {
        Verdict::Accepted { lost } => lost.is_empty(),
        Verdict::Dropped(_) => false,
    }
}

/// Whether nothing happens before a frame of the list, and it is accepted.
fn comes_in(
    cascade: &mut Cascade,
    switches: &Switches,
    time: u64,
    line: Line<'_>,
) -> Result<bool, AllocError>
    requires limit { time ≤ latest_put }
    requires stands { (so_far : List SwitchEvent)
        × StandsFor (plan_of switches.now) cascade.old so_far }
    requires clock { IsUntil cascade.old time }
    ensures stands { (so_far : List SwitchEvent)
        × StandsFor (plan_of switches.now) cascade.new so_far }
    ensures clock { IsUntil cascade.new time }
{
    if line.switch.0 as usize >= switches.count() {
        return Ok(false);
    }
    match switches.far_end(line.switch, line.port) {
        Some(_) => return Ok(false),
        None => {}
    }
    match take_surely(cascade, switches, time)? {
        Some(_) => return Ok(false),
        None => {}
    }
    let verdict = arrive_surely(cascade, switches, time, line)?;
    Ok(is_forwarded(verdict))
}

/// What is told of a frame that left a port of a switch in time, or was dropped there.
fn end_told(switch: usize, gone: &Departure) -> Told {
    if gone.too_old() || gone.side() == Side::B {
        return Told::Other;
    }
    Told::Left(switch, gone.port(), gone.tag(), gone.time())
}

/// What is told of an event.
fn event_told(happened: &Happened) -> Told {
    match happened {
        Happened::Ended { switch, departure } => end_told(switch.index(), departure),
        Happened::Carried { at, time, tag } => {
            if at.side == Side::B {
                return Told::Other;
            }
            Told::Left(at.switch.index(), at.port, *tag, *time)
        }
        Happened::Came {
            at,
            time,
            tag,
            verdict,
            early,
        } => {
            if is_forwarded(*verdict) && *early == 0 {
                return Told::Accepted(at.switch.index(), at.port, *tag, *time);
            }
            Told::Other
        }
    }
}

/// Whether a step at this time comes out as it must.
fn comes_out(
    cascade: &mut Cascade,
    switches: &Switches,
    time: u64,
    step: &Step<'_>,
) -> Result<bool, AllocError>
    requires limit { time ≤ latest_put }
    requires stands { (so_far : List SwitchEvent)
        × StandsFor (plan_of switches.now) cascade.old so_far }
    requires clock { IsUntil cascade.old time }
    ensures stands { (so_far : List SwitchEvent)
        × StandsFor (plan_of switches.now) cascade.new so_far }
    ensures clock { IsUntil cascade.new time }
{
    match *step {
        Step::Comes(line) => comes_in(cascade, switches, time, line),
        Step::Tells(wanted) => {
            let happened = take_surely(cascade, switches, time)?;
            Ok(happened.as_ref().map(event_told) == Some(wanted))
        }
        Step::Rests => Ok(take_surely(cascade, switches, time)?.is_none()),
    }
}

/// The place of the first step that doesn't come out as it must, or whose time is before that of
/// the one before it.
fn play(
    cascade: &mut Cascade,
    switches: &Switches,
    steps: &[(u32, Step<'_>)],
) -> Result<Option<usize>, AllocError>
    requires stands { (so_far : List SwitchEvent)
        × StandsFor (plan_of switches.now) cascade.old so_far }
    requires clock { IsUntil cascade.old 0 }
{
    let mut now = 0;
    for (place, (time, step)) in steps.iter().enumerate() {
        let time = *time as u64;
        if time < now || !comes_out(cascade, switches, time, step)? {
            return Ok(Some(place));
        }
        now = time;
    }
    Ok(None)
}

/// The place of the first step that doesn't come out as it must, at the switches of this text.
fn wrong_step(alloc: Global, text: &str, steps: &[(u32, Step<'_>)]) -> Result<Option<usize>, Fail> {
    let switches = switches_of(alloc, text)?;
    let mut cascade = new_cascade(alloc, &switches)?;
    Ok(play(&mut cascade, &switches, steps)?)
}

/// A frame of link 1 that arrives at its first switch.
fn first(tag: u64, frame: &[u8]) -> Step<'_> {
    Step::Comes(Line {
        switch: SwitchId(0),
        port: 1,
        tag,
        frame,
    })
}

#[test]
fn a_frame_passes_both_switches(rt: HostRuntime) -> Result<(), Fail> {
    let frame = hello(0);
    let steps = [
        (0, first(1, &frame)),
        (6719, Step::Rests),
        (6720, Step::Tells(Told::Left(0, 24, 1, 6720))),
        (6720, Step::Tells(Told::Accepted(1, 20, 1, 6720))),
        (1000000, Step::Tells(Told::Left(1, 3, 1, 13440))),
        (1000000, Step::Rests),
    ];
    all_right(wrong_step(rt.alloc(), two_switches(), &steps)?)
}
