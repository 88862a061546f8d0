//! What is kept of a key: a stream, or frames of none; and the lines that are told of it.

ghost use Rattle.std.specs.Prelude.{◌≡◌, ◌<◌, ◌≤◌, ◌++◌, ◌∷◌, [], ℕ, List, None, Some, IfOk, OnOk, length, map, reverse};
ghost use Rattle.std.specs.Prelude.{IsTrue, ◌↔◌, ◌⊎◌};
ghost use Rattle.std.specs.List.{AllByRecursion};
ghost use Rattle.afdx_police.specs.Arrival.{Arrival};
ghost use Rattle.afdx_conform.specs.Growing.{IsNoSooner, IsSameOrLater, MayCome, MayLeave};
ghost use Rattle.afdx_conform.specs.Limits.{gone_of};
ghost use Rattle.afdx_conform.specs.Marks.{IsJudged, arrival_of};
ghost use Rattle.afdx_conform.specs.Streams.{Gone, Terms};
ghost use Rattle.afdx_conform.specs.Findings.{Judged};
ghost use Rattle.afdx_conform.specs.Standing.{IsEnding, StandsFor, due_of};
ghost use Rattle.afdx_command_conform.specs.Lines.{Due, found_line, judged_dues};
ghost use Rattle.afdx_command_conform.specs.Waiting.{first_time, slot_due, slot_left};
ghost use Rattle.afdx_conform.specs.Standing.{undecided_in};
ghost use Rattle.afdx_command_conform.specs.Slots.{AreFalling, Ends, IsNewlyDue, IsStrange, IsStream, StrangersStand, StreamEnds};
ghost use Rattle.afdx_command_conform.specs.Slots.{StreamStands, told_at, unsure_behind, waiting_due};

use crate::key::Key;
use crate::strangers::{Stranger, Strangers};
use afdx_conform::{Arrived, Finding, LeftFrame, Spare, Stream};
use afdx_text::ConformLine;
use std::alloc::{AllocError, Global};

/// What is kept of a key.
#[derive(Drop)]
pub(crate) enum Slot {
    /// Nothing of it came or left.
    Nothing,
    /// Frames of no stream.
    Strangers(Box<Strangers>),
    /// A stream, and whether a line of it was told.
    Stream(Box<Stream>, bool),
}

impl Slot {
    /// The moment of what is to be told next, in ns.
    #[tactic(auto, unfolding(crate::specs::Waiting::slot_due))]
    pub(crate) fn due(&self) -> Option<u64>
        ensures { result ≡ slot_due self.now }
    {
        match self {
            Slot::Nothing => None,
            Slot::Strangers(strangers) => strangers.due(),
            Slot::Stream(stream, _) => stream.due(),
        }
    }

    /// Whether it is of frames of no stream.
    pub(crate) fn is_strange(&self) -> bool
        ensures { IsTrue result ↔ IsStrange self.now }
    {
        match self {
            Slot::Strangers(_) => true,
            _ => false,
        }
    }

    /// Whether it is a stream.
    pub(crate) fn is_stream(&self) -> bool
        ensures { IsTrue result ↔ IsStream self.now }
    {
        match self {
            Slot::Stream(_, _) => true,
            _ => false,
        }
    }
}

/// The moment that is due now, if it wasn't before.
fn newly_due(before: Option<u64>, after: Option<u64>) -> Option<u64>
    ensures { IsNewlyDue before result after }
{
    if before == after { None } else { after }
}

/// An arrival comes to a stream. Gives the moment that is due then, if it wasn't before.
#[tactic(auto, unfolding(crate::specs::Waiting::slot_due, crate::specs::Slots::StreamStands))]
pub(crate) fn add_arrival(at: &mut Slot, arrived: Arrived) -> Result<Option<u64>, AllocError>
    ensures stands { (z : Terms) (k : Key) (xs : List Arrival) (ys : List Gone) (lines : List Due)
        (time : ℕ) → IsStream at.old → IsJudged z arrived →
        MayCome z xs time (arrival_of arrived) → StreamStands z k xs ys lines time at.old →
        OnOk result (StreamStands z k (xs ++ arrival_of arrived ∷ []) ys lines time at.new) }
    ensures due { IsStream at.old →
        IfOk result (λ due. IsNewlyDue (slot_due at.old) due (slot_due at.new)) }
    ensures later { IsStream at.old →
        OnOk result (IsSameOrLater (slot_due at.old) arrived.time (slot_due at.new)) }
{
    match at {
        Slot::Stream(stream, _) => {
            let before = stream.due();
            stream.came(arrived)?;
            Ok(newly_due(before, stream.due()))
        }
        _ => Ok(None),
    }
}

/// A frame of a stream left. Gives the moment that is due then, if it wasn't before.
#[tactic(auto, unfolding(crate::specs::Waiting::slot_due, crate::specs::Slots::StreamStands))]
pub(crate) fn add_frame(at: &mut Slot, frame: LeftFrame) -> Result<Option<u64>, AllocError>
    ensures stands { (z : Terms) (k : Key) (xs : List Arrival) (ys : List Gone) (lines : List Due)
        (time : ℕ) → IsStream at.old → MayLeave z ys time (gone_of frame) →
        StreamStands z k xs ys lines time at.old →
        OnOk result (StreamStands z k xs (ys ++ gone_of frame ∷ []) lines time at.new) }
    ensures due { IsStream at.old →
        IfOk result (λ due. IsNewlyDue (slot_due at.old) due (slot_due at.new)) }
    ensures later { IsStream at.old →
        OnOk result (IsSameOrLater (slot_due at.old) frame.time (slot_due at.new)) }
{
    match at {
        Slot::Stream(stream, _) => {
            let before = stream.due();
            stream.left(frame)?;
            Ok(newly_due(before, stream.due()))
        }
        _ => Ok(None),
    }
}

/// A frame of no stream left. Gives the moment that is due then, if it wasn't before.
#[tactic(auto, unfolding(crate::specs::Waiting::slot_due, crate::specs::Slots::StrangersStand))]
pub(crate) fn add_stranger(at: &mut Slot, stranger: Stranger) -> Result<Option<u64>, AllocError>
    ensures stands { (k : Key) (all lines : List Due) → IsStrange at.old →
        StrangersStand k all lines at.old →
        OnOk result (StrangersStand k (waiting_due k stranger ∷ all) lines at.new) }
    ensures due { IsStrange at.old →
        IfOk result (λ due. IsNewlyDue (slot_due at.old) due (slot_due at.new)) }
    ensures later { IsStrange at.old →
        OnOk result (IsSameOrLater (slot_due at.old) stranger.time (slot_due at.new)) }
{
    match at {
        Slot::Strangers(strangers) => {
            let before = strangers.due();
            strangers.push(stranger)?;
            Ok(newly_due(before, strangers.due()))
        }
        _ => Ok(None),
    }
}

/// The recordings end at this time, in ns.
#[tactic(auto, unfolding(crate::specs::Waiting::slot_due, crate::specs::Slots::StrangersStand, crate::specs::Slots::StreamStands, crate::specs::Slots::StreamEnds))]
pub(crate) fn end_at(at: &mut Slot, until: u64)
    ensures { Ends until at.old at.new }
{
    match at {
        Slot::Stream(stream, _) => stream.end(until),
        _ => {}
    }
}

/// The line of a finding.
fn line_of(key: Key, finding: Finding) -> ConformLine
    ensures { result ≡ found_line key finding }
{
    let (side, port) = (key.side, key.port);
    ConformLine::Found {
        side,
        port,
        finding,
    }
}

/// The lines of findings, in their order.
fn lines_of(alloc: Global, key: Key, found: &[Finding]) -> Result<Vec<ConformLine>, AllocError>
    ensures { IfOk result (λ lines. lines.items ≡ map (found_line key) found.now) }
{
    let mut lines = Vec::new(alloc);
    for finding in found {
        lines.push(line_of(key, *finding))?;
    }
    Ok(lines)
}

/// Behind these lines one that the stream is unsure behind an arrival, if it is.
fn with_unsure(
    mut lines: Vec<ConformLine>,
    key: Key,
    unsure: Option<u64>,
) -> Result<Vec<ConformLine>, AllocError>
    ensures { IfOk result (λ all. all.items ≡ unsure_behind key unsure lines.items) }
{
    if let Some(n) = unsure {
        let (side, port) = (key.side, key.port);
        lines.push(ConformLine::Unsure { n, side, port })?;
    }
    Ok(lines)
}

/// The lines of a stream's next event.
fn step_stream(
    stream: &mut Stream,
    alloc: Global,
    spare: &mut Spare,
    key: Key,
    ended: Option<u64>,
) -> Result<Vec<ConformLine>, AllocError>
    ensures stands { (z : Terms) (xs : List Arrival) (ys : List Gone) (j : Judged)
        (time moment : ℕ) → ended ≡ None → due_of stream.old ≡ Some moment → moment < time →
        StandsFor z xs ys j time stream.old → IfOk result (λ lines. (k : Judged)
        × StandsFor z xs ys k time stream.new
        × (judged_dues z key k ≡ told_at key moment lines.items (judged_dues z key j))
        × IsNoSooner moment (due_of stream.new)) }
    ensures ends { (z : Terms) (xs : List Arrival) (ys : List Gone) (j : Judged)
        (moment : ℕ) → ended ≡ Some z.until → due_of stream.old ≡ Some moment →
        IsEnding z xs ys j stream.old → IfOk result (λ lines. (k : Judged)
        × IsEnding z xs ys k stream.new
        × (judged_dues z key k ≡ told_at key moment lines.items (judged_dues z key j))
        × IsNoSooner moment (due_of stream.new)) }
    ensures less { (m : ℕ) → due_of stream.old ≡ Some m →
        OnOk result (undecided_in stream.new < undecided_in stream.old) }
{
    let found = stream.decide(spare, ended)?;
    let lines = lines_of(alloc, key, found.as_slice())?;
    with_unsure(lines, key, stream.unsure_behind())
}

/// The line of the next frame of no stream.
fn step_strangers(
    strangers: &mut Strangers,
    alloc: Global,
    key: Key,
) -> Result<Vec<ConformLine>, AllocError>
    ensures told { (all lines : List Due) (moment : ℕ) →
        all ≡ map (waiting_due key) (reverse strangers.old.waiting.items) ++ lines →
        first_time strangers.old.waiting.items ≡ Some moment → IfOk result (λ told.
        all ≡ map (waiting_due key) (reverse strangers.new.waiting.items)
        ++ told_at key moment told.items lines) }
    ensures later { (all lines : List Due) (moment : ℕ) → AreFalling all →
        all ≡ map (waiting_due key) (reverse strangers.old.waiting.items) ++ lines →
        first_time strangers.old.waiting.items ≡ Some moment →
        OnOk result (IsNoSooner moment (first_time strangers.new.waiting.items)) }
    ensures less { (m : ℕ) → first_time strangers.old.waiting.items ≡ Some m →
        OnOk result
        (length strangers.new.waiting.items < length strangers.old.waiting.items) }
{
    let mut lines = Vec::new(alloc);
    if let Some(stranger) = strangers.take_first() {
        let finding = Finding::Strange(stranger.number, stranger.why);
        let (side, port) = (key.side, key.port);
        lines.push(ConformLine::Found {
            side,
            port,
            finding,
        })?;
    }
    Ok(lines)
}

/// The lines of what is due, which is over then. `ended` is the time in ns at which the recordings
/// end, once it is known. What is forgotten then leaves its memory to `spare`.
#[tactic(auto, unfolding(crate::specs::Waiting::slot_due, crate::specs::Waiting::slot_left, crate::specs::Slots::StrangersStand, crate::specs::Slots::StreamStands, crate::specs::Slots::StreamEnds))]
pub(crate) fn step(
    at: &mut Slot,
    alloc: Global,
    spare: &mut Spare,
    key: Key,
    ended: Option<u64>,
) -> Result<Vec<ConformLine>, AllocError>
    ensures stands { (z : Terms) (xs : List Arrival) (ys : List Gone) (lines : List Due)
        (time moment : ℕ) → ended ≡ None → slot_due at.old ≡ Some moment → moment < time →
        StreamStands z key xs ys lines time at.old → IfOk result (λ told.
        StreamStands z key xs ys (told_at key moment told.items lines) time at.new
        × IsNoSooner moment (slot_due at.new)) }
    ensures ends { (z : Terms) (xs : List Arrival) (ys : List Gone) (lines : List Due)
        (moment : ℕ) → ended ≡ Some z.until → slot_due at.old ≡ Some moment →
        StreamEnds z key xs ys lines at.old → IfOk result (λ told.
        StreamEnds z key xs ys (told_at key moment told.items lines) at.new
        × IsNoSooner moment (slot_due at.new)) }
    ensures strangers { (all lines : List Due) (moment : ℕ) → slot_due at.old ≡ Some moment →
        StrangersStand key all lines at.old → IfOk result (λ told.
        StrangersStand key all (told_at key moment told.items lines) at.new) }
    ensures later { (all lines : List Due) (moment : ℕ) → AreFalling all →
        slot_due at.old ≡ Some moment → StrangersStand key all lines at.old →
        OnOk result (IsNoSooner moment (slot_due at.new)) }
    ensures less { (m : ℕ) → slot_due at.old ≡ Some m →
        OnOk result (slot_left at.new < slot_left at.old) }
{
    match at {
        Slot::Nothing => Ok(Vec::new(alloc)),
        Slot::Strangers(strangers) => step_strangers(strangers, alloc, key),
        Slot::Stream(stream, is_told) => {
            let lines = step_stream(stream, alloc, spare, key, ended)?;
            *is_told = *is_told || !lines.as_slice().is_empty();
            Ok(lines)
        }
    }
}
