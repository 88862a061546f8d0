//! Tables of steps: what is done with a switch at a time, and what must come of it.

ghost use Rattle.std.specs.Prelude.{◌≡◌, ◌≤◌, IfOk, IsTrue};
ghost use Rattle.afdx_port.specs.Times.{latest_put};
ghost use Rattle.afdx_switch.specs.Switching.{IsQuiet, last_time};

use afdx_config::Tables;
use afdx_police::Reason;
use afdx_switch::{Switch, Verdict};
use afdx_test_samples::read;
use std::alloc::{AllocError, Global};
use std::test::Fail;

/// What becomes of a frame that arrives.
#[derive(Clone, Copy)]
pub enum Fate {
    /// It is accepted, and no copy of it is lost.
    Forwarded,
    /// It is dropped for this.
    Dropped(Reason),
}

/// What is done with a switch, and what must come of it.
#[derive(Clone, Copy)]
pub enum Step<'a> {
    /// Nothing has to leave any more; then a frame arrives at a port, with a tag.
    Comes(u8, u64, &'a [u8], Fate),
    /// A frame leaves by then: its tag, its time and its port.
    Leaves(u64, u64, u8),
    /// Nothing leaves by then.
    Rests,
}

/// A frame arrives.
fn arrive(
    switch: &mut Switch,
    time: u64,
    port: u8,
    tag: u64,
    frame: &[u8],
) -> Result<Verdict, AllocError>
    requires limit { time ≤ latest_put }
    requires clock { last_time switch.old ≤ time }
    requires quiet { IsQuiet switch.old time }
    ensures clock { last_time switch.new ≤ time }
    ensures quiet { IsQuiet switch.new time }
{
    switch.arrive(time, port, tag, frame)
}

/// A frame arrives. Where memory is refused, it arrives again: a refused arrival has changed
/// nothing.
fn arrive_surely(
    switch: &mut Switch,
    time: u64,
    port: u8,
    tag: u64,
    frame: &[u8],
) -> Result<Verdict, AllocError>
    requires limit { time ≤ latest_put }
    requires clock { last_time switch.old ≤ time }
    requires quiet { IsQuiet switch.old time }
    ensures { last_time switch.new ≤ time }
{
    match arrive(switch, time, port, tag, frame) {
        Ok(verdict) => Ok(verdict),
        Err(AllocError) => arrive(switch, time, port, tag, frame),
    }
}

/// Whether a verdict means that fate.
fn means(verdict: Verdict, fate: Fate) -> bool {
    match (verdict, fate) {
        (Verdict::Accepted { lost }, Fate::Forwarded) => lost.is_empty(),
        (Verdict::Dropped(reason), Fate::Dropped(wanted)) => reason == wanted,
        _ => false,
    }
}

/// Whether nothing leaves by `until`.
fn rests(switch: &mut Switch, until: u64) -> bool
    requires { last_time switch.old ≤ until }
    ensures clock { last_time switch.new ≡ until }
    ensures quiet { IsTrue result → IsQuiet switch.new until }
{
    switch.take(until).is_none()
}

/// Whether the switch rests, and a frame that arrives then meets this fate.
fn meets(
    switch: &mut Switch,
    time: u64,
    port: u8,
    tag: u64,
    frame: &[u8],
    fate: Fate,
) -> Result<bool, AllocError>
    requires limit { time ≤ latest_put }
    requires clock { last_time switch.old ≤ time }
    ensures { last_time switch.new ≤ time }
{
    if !rests(switch, time) {
        return Ok(false);
    }
    let verdict = arrive_surely(switch, time, port, tag, frame)?;
    Ok(means(verdict, fate))
}

/// What leaves by `until`: its tag, its time, its port and whether it was too old.
fn left(switch: &mut Switch, until: u64) -> Option<(u64, u64, u8, bool)>
    requires { last_time switch.old ≤ until }
    ensures { last_time switch.new ≡ until }
{
    let gone = switch.take(until)?;
    Some((gone.tag(), gone.time(), gone.port(), gone.too_old()))
}

/// Whether a step at this time comes out as it must.
fn comes_out(switch: &mut Switch, time: u64, step: &Step<'_>) -> Result<bool, AllocError>
    requires limit { time ≤ latest_put }
    requires clock { last_time switch.old ≤ time }
    ensures { last_time switch.new ≤ time }
{
    match *step {
        Step::Comes(port, tag, frame, fate) => meets(switch, time, port, tag, frame, fate),
        Step::Leaves(tag, end, port) => Ok(left(switch, time) == Some((tag, end, port, false))),
        Step::Rests => Ok(rests(switch, time)),
    }
}

/// The place of the first step that doesn't come out as it must, or whose time is before that of
/// the one before it.
fn play(switch: &mut Switch, steps: &[(u32, Step<'_>)]) -> Result<Option<usize>, AllocError>
    requires { last_time switch.old ≡ 0 }
{
    let mut now = 0;
    for (place, (time, step)) in steps.iter().enumerate() {
        let time = *time as u64;
        if time < now || !comes_out(switch, time, step)? {
            return Ok(Some(place));
        }
        now = time;
    }
    Ok(None)
}

/// A switch of the tables. Where memory is refused, it is made again.
fn new_switch(alloc: Global, tables: &Tables) -> Result<Switch, AllocError>
    ensures { IfOk result (λ w. last_time w ≡ 0) }
{
    match Switch::new(alloc, tables) {
        Ok(switch) => Ok(switch),
        Err(AllocError) => Switch::new(alloc, tables),
    }
}

/// The steps, played on a new switch of these tables.
fn play_anew(
    alloc: Global,
    tables: &Tables,
    steps: &[(u32, Step<'_>)],
) -> Result<Option<usize>, AllocError> {
    let mut switch = new_switch(alloc, tables)?;
    play(&mut switch, steps)
}

/// The place of the first step that doesn't come out as it must on a new switch of the tables in
/// this text.
pub fn wrong_step(
    alloc: Global,
    text: &str,
    steps: &[(u32, Step<'_>)],
) -> Result<Option<usize>, Fail> {
    let tables = read(alloc, text)?;
    Ok(play_anew(alloc, &tables, steps)?)
}
