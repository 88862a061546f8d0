//! A replay over whatever gives it its arrivals.

ghost use Rattle.std.specs.Prelude.{◌≡◌, IfSome, OnOk, false};
ghost use Rattle.afdx_input_lines.specs.Calls.{is_failed_read, is_failed_write};
ghost use Rattle.afdx_input_runs.specs.Arrivals.{TakesFrames};
ghost use Rattle.afdx_input_sources.specs.Claims.{ports_of_one};
ghost use Rattle.afdx_replay.specs.replaying.Input.{Hears, Replays};

use crate::input_ending::InputSummary;
use crate::replaying::run::Replay;
use afdx_config::Tables;
use afdx_input_lines::{Heading, RunFault, Watched};
use afdx_input_runs::{Reading, RunInput};
use afdx_input_sources::{FrameLines, Placing, UnsaidPort};
use afdx_text::Sink;
use std::alloc::Global;
use std::io::Write;

/// Replays the arrivals of an input through the switches of both sides and the systems behind them,
/// and tells `early`, if there is such a device, by how much each frame came too early that was
/// dropped for its link's rate. `early` is handed back.
pub(crate) fn replay_over<P: Placing + Drop, A: RunInput<P, Heading>, O: Sink, D: Write + Drop>(
    alloc: Global,
    options: P,
    tables: &Tables,
    input: &mut A,
    output: &mut O,
    early: Option<Watched<D>>,
) -> (Result<InputSummary, RunFault>, Option<Watched<D>>)
    requires new { A.IsNew input.old }
    requires sound_output { O.failed output.old ≡ false }
    ensures ended { OnOk result.0 (A.ended input.new) }
    ensures read { A.failed input.new ≡ is_failed_read result.0 }
    ensures write { O.failed output.new ≡ is_failed_write result.0 }
    ensures calls { A.IsAskedFew (P.is_settled options) input.old input.new }

    // Where its bytes are known: what is answered, written and told for the arrivals that it takes.
    ensures replays { IfSome (A.known input.old) (λ bytes. Replays tables.now
        (A.Takes TakesFrames options (ports_of_one tables.now) bytes input.new)
        (λ past count. Hears tables.now past count D.contents early result.1)
        (O.written output.old) (O.written output.new) result.0) }
{
    // (laws of the input: where memory is refused at once nothing is taken; times don't go back)
    A::starts();
    A::takes_none::<FrameLines>();
    A::orders();
    let mut replay = match Replay::new(alloc, tables) {
        Ok(replay) => replay,
        Err(error) => return (Err(RunFault::from(error)), early),
    };
    replay.early = early;
    let reading = Reading {
        unsaid: UnsaidPort::OfSender(tables),
        form: FrameLines,
    };
    let count = input.tell_all(alloc, options, reading, &mut replay, output);
    let (counts, early) = (replay.counts, replay.early.take());
    match count {
        Ok(count) => (Ok(InputSummary::of(counts, count)), early),
        Err(fault) => (Err(fault), early),
    }
}
