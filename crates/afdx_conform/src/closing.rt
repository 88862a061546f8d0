//! Which frames a closing closes.

ghost use Rattle.std.specs.Prelude.{◌≡◌, ◌≤◌, ◌<◌, ◌-◌, ℕ, length, get_or, IsTrue, ◌↔◌};
ghost use Rattle.afdx_conform.specs.Limits.{AreFrames};

use crate::limits::LeftFrame;

/// Whether the frame left after this time.
fn is_later(frame: &LeftFrame, time: u64) -> bool
    ensures { IsTrue result ↔ (time < frame.now.time) }
{
    time < frame.time
}

/// How many of the frames are of this time or before; those from `from` on are looked at.
fn count_closed(frames: &[LeftFrame], from: usize, time: u64) -> usize
    requires { from ≤ length frames.now }
    ensures low { from ≤ result }
    ensures high { result ≤ length frames.now }
    ensures closed { (k : ℕ) (f : LeftFrame) → from ≤ k → k < result → f ≡ get_or frames.now k f →
        f.time ≤ time }
    ensures behind { (f : LeftFrame) → result < length frames.now → f ≡ get_or frames.now result f →
        time < f.time }
{
    for place in from..frames.len() {
        if is_later(&frames[place], time) {
            return place;
        }
    }
    frames.len()
}

/// Whether a place behind `from` is where, of frames that go by time, those of this time end.
fn is_end(frames: &[LeftFrame], from: usize, place: usize, time: u64) -> bool
    ensures low { IsTrue result → from < place }
    ensures high { IsTrue result → place ≤ length frames.now }
    ensures closed { (f : LeftFrame) → IsTrue result → f ≡ get_or frames.now (place - 1) f →
        f.time ≤ time }
    ensures behind { (f : LeftFrame) → IsTrue result → place < length frames.now →
        f ≡ get_or frames.now place f → time < f.time }
{
    if place <= from || place > frames.len() {
        return false;
    }
    if is_later(&frames[place - 1], time) {
        return false;
    }
    place == frames.len() || is_later(&frames[place], time)
}

/// How many of the frames, which go by time, are of this time or before. If `guess` isn't right,
/// those from `from` on are looked at.
pub(crate) fn closed_by(frames: &[LeftFrame], from: usize, guess: usize, time: u64) -> usize
    requires { from ≤ length frames.now }
    ensures low { from ≤ result }
    ensures high { result ≤ length frames.now }
    ensures closed { AreFrames frames.now → (k : ℕ) (f : LeftFrame) → from ≤ k → k < result →
        f ≡ get_or frames.now k f → f.time ≤ time }
    ensures behind { (f : LeftFrame) → result < length frames.now → f ≡ get_or frames.now result f →
        time < f.time }
{
    if is_end(frames, from, guess, time) {
        return guess;
    }
    count_closed(frames, from, time)
}
