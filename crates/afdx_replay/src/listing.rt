//! The command `list`.

ghost use Rattle.std.specs.Prelude.{◌≡◌, ◌||◌, ◌↔◌, None, IsSome, OnOk, IfErr, false, true};
ghost use Rattle.std.specs.Result.{result_ok};
ghost use Rattle.afdx_text.specs.Telling.{TellsFault};
ghost use Rattle.afdx_input_runs.specs.Arrivals.{TakesFrames};
ghost use Rattle.afdx_replay.specs.Listing.{EndsListing, ListsBy, status_of_listing};
ghost use Rattle.afdx_replay.specs.Placed.{IsPlacedStatus};

use crate::placed::read_placed;
use afdx_command_tables::status::DONE;
use afdx_input_lines::{RunFault, Watched};
use afdx_input_runs::{RunInput, list_numbers};
use afdx_input_sources::{NumberLine, Placing, Tally};
use afdx_text::{Sink, tell_fault};
use std::alloc::Global;
use std::io::Write;

/// How `list` ended: its exit status and, where that is 0, what it counted.
#[derive(Clone, Copy, Debug, PartialEq, Eq)]
pub struct ListEnded {
    pub status: u8,
    pub tally: Option<Tally>,
}

impl ListEnded {
    /// A listing that has nothing to count: it ended with a fault.
    fn without_counts(status: u8) -> ListEnded
        ensures status { result.status ≡ status }
        ensures tally { result.tally ≡ None }
    {
        ListEnded {
            status,
            tally: None,
        }
    }
}

/// Tells `errors` the fault of a listing in one line, if it has one.
fn end_listing<E: Write>(answer: Result<Tally, RunFault>, errors: &mut Watched<E>) -> ListEnded
    ensures status { result.status ≡ status_of_listing answer }
    ensures tally { result.tally ≡ result_ok answer }
    ensures counts { IsSome result.tally ↔ (result.status ≡ 0) }
    ensures told { IfErr answer (TellsFault E.contents errors.old errors.new) }
    ensures silent { OnOk answer (errors.new ≡ errors.old) }
{
    match answer {
        Ok(tally) => ListEnded {
            status: DONE,
            tally: Some(tally),
        },
        Err(fault) => {
            tell_fault(errors, &fault);
            ListEnded::without_counts(fault.status())
        }
    }
}

/// Writes an input as the frame list that says the same: a recording (`Watched`, with
/// `RecordingOptions`), or two recordings that are read at once, of network A and of network B
/// (`BySide` of `Watched`, with `PairOptions`). There is a line for each number: that of its
/// arrival, or a remark with the word of the reason, and the number, where it is skipped. A frame
/// of which over 2,000 bytes were recorded stands as its first 2,000. The arrivals of two stand in
/// the order of their moments, that of A first where two have the same; a number that is skipped
/// stands where it is read. The lines go to `output`, a fault's one line to `errors`. It also gives
/// what it counted.
///
/// No first bytes are looked at: each has to be a recording. Each frame of two came in on the side
/// of the network whose recording it is of. Where no option says at which port, it is that of the
/// system of the configuration that the frame's source address names. Of several switches on a side
/// each arrival's line names one. What the configuration describes need not be admitted. The exit
/// status is 0 done, 1 a fault of the configuration, 2 a place of the options that it hasn't, 3 a
/// fault of a recording, 4 a device or memory.
pub fn list_and_count<P: Placing + Drop, A: RunInput<P, NumberLine>, O: Sink, E: Write>(
    alloc: Global,
    mut options: P,
    config: &[u8],
    input: &mut A,
    output: &mut O,
    errors: &mut Watched<E>,
) -> ListEnded
    requires new { A.IsNew input.old }
    requires sound_output { O.failed output.old ≡ false }

    // 0 comes only where the input came to its end, 4 wherever a device failed; counts come with 0.
    ensures statuses { IsPlacedStatus result.status }
    ensures counts { IsSome result.tally ↔ (result.status ≡ 0) }
    ensures done { result.status ≡ 0 →
        A.ended input.new × (A.failed input.new ≡ false) × (O.failed output.new ≡ false) }
    ensures device { (A.failed input.new || O.failed output.new) ≡ true → result.status ≡ 4 }
    ensures calls { A.IsAskedFew true input.old input.new }

    // The command ends as the listing answered, by the options with their places in the
    // configuration, or nothing is read and nothing is written.
    ensures lists { EndsListing P.ArePlaced P.AreNotPlaced E.contents config.now options
        errors.old errors.new (A.ended input.new) (A.failed input.new) (O.failed output.new) result
        (ListsBy A.known (A.Takes TakesFrames) input.old input.new
        (O.written output.old) (O.written output.new))
        ((input.new ≡ input.old) × (output.new ≡ output.old)) }
{
    // (a law of the input: before it is asked for anything it hasn't failed)
    A::starts();
    let described = match read_placed(alloc, config, &mut options, errors) {
        Ok(described) => described,
        Err(status) => return ListEnded::without_counts(status),
    };
    let answer = list_numbers(alloc, options, &described, input, output);
    end_listing(answer, errors)
}
