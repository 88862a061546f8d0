//! The command `replay`, whatever gives it its arrivals.

ghost use Rattle.std.specs.Prelude.{◌≡◌, ◌||◌, ◌↔◌, IsSome, OnOk, false, true};
ghost use Rattle.afdx_replay.specs.Placed.{IsPlacedStatus};
ghost use Rattle.afdx_command_tables.specs.Taking.{described_of};
ghost use Rattle.afdx_input_lines.specs.Calls.{is_failed_read, is_failed_write};
ghost use Rattle.afdx_replay.specs.cascading.Input.{AreThere};
ghost use Rattle.afdx_replay.specs.replaying.Input.{EndsInput, IsThere, ReplaysBy};

use crate::cascading::over::replay_sited;
use crate::input_ending::{InputEnded, InputSummary, end_input};
use crate::placed::read_placed;
use crate::replaying::over::replay_over;
use afdx_command_tables::{Taken, take_described};
use afdx_input_lines::{Heading, RunFault, Watched};
use afdx_input_runs::RunInput;
use afdx_input_sources::Placing;
use afdx_text::Sink;
use std::alloc::Global;
use std::io::Write;

/// What a replay of an input is given beside it.
pub struct ReplaySettings<'a, P, D> {
    /// The text of the configuration.
    pub config: &'a [u8],
    /// Whether what it describes has to be admitted.
    pub admission: bool,
    /// The options of recordings.
    pub options: P,
    /// The device that is told by how much frames came too early, if there is one.
    pub early: Option<Watched<D>>,
}

/// Replays an input by what was taken of a configuration, and tells `early`.
fn replay_taken<P: Placing + Drop, A: RunInput<P, Heading>, O: Sink, D: Write + Drop>(
    alloc: Global,
    options: P,
    taken: &Taken,
    input: &mut A,
    output: &mut O,
    early: Option<Watched<D>>,
) -> (Result<InputSummary, RunFault>, Option<Watched<D>>)
    requires new { A.IsNew input.old }
    requires there { IsThere (λ switches. AreThere switches P.Enters) options
        (described_of taken.now) }
    requires sound_output { O.failed output.old ≡ false }
    ensures ended { OnOk result.0 (A.ended input.new) }
    ensures read { A.failed input.new ≡ is_failed_read result.0 }
    ensures write { O.failed output.new ≡ is_failed_write result.0 }
    ensures calls { A.IsAskedFew (P.is_settled options) input.old input.new }
    ensures replays { ReplaysBy A.known A.Takes D.contents options input.old input.new
        early result.1 (O.written output.old) (O.written output.new) result.0
        (described_of taken.now) }
{
    match taken {
        Taken::OneAdmitted(admitted) => {
            replay_over(alloc, options, admitted.tables(), input, output, early)
        }
        Taken::OneUnasked(tables) => replay_over(alloc, options, tables, input, output, early),
        Taken::SeveralAdmitted(admitted) => {
            replay_sited(alloc, options, admitted.switches(), input, output, early)
        }
        Taken::SeveralUnasked(switches) => {
            replay_sited(alloc, options, switches, input, output, early)
        }
    }
}

/// Replays an input by a configuration, which describes one switch on a side or several: a list
/// of frames or a recording (`Watched` of `Peeked`, with `RecordingOptions`), or two recordings
/// that are read at once, of network A and of network B (`BySide` of `Watched`, with
/// `PairOptions`). The lines of all events go to `output`, a fault's one line to `errors`. It
/// also gives what the run counted.
///
/// Nothing of the input is read before the tables are taken. Of one input the first four bytes are
/// looked at then, in at most four reads: it is a recording if it begins as one; if an option of
/// recordings is given, it has to be. Two have to be recordings; their arrivals come in the order
/// of their moments, that of A first where two have the same, and each on the side of its network.
///
/// Where `early` is a device it is told, in a line each, by how much frames came too early that
/// were dropped for their link's rate. It is handed back.
///
/// The exit status is 0 done, 1 a fault of the configuration or tables that are not admitted, 2 a
/// place of the options that the configuration hasn't, 3 a fault of the list or a recording, 4 a
/// device or memory. Of several causes the first is answered: a fault of the configuration, a
/// place, admission.
pub fn replay_input<P: Placing + Drop, A: RunInput<P, Heading>, O: Sink, E: Write, D: Write + Drop>(
    alloc: Global,
    settings: ReplaySettings<'_, P, D>,
    input: &mut A,
    output: &mut O,
    errors: &mut Watched<E>,
) -> (InputEnded, Option<Watched<D>>)
    requires new { A.IsNew input.old }
    requires sound_output { O.failed output.old ≡ false }

    // 0 comes only where the input came to its end, 4 wherever a device failed; counts come with 0.
    ensures statuses { IsPlacedStatus result.0.ended.status }
    ensures counts { IsSome result.0.ended.summary ↔ (result.0.ended.status ≡ 0) }
    ensures done { result.0.ended.status ≡ 0 →
        A.ended input.new × (A.failed input.new ≡ false) × (O.failed output.new ≡ false) }
    ensures device { (A.failed input.new || O.failed output.new) ≡ true →
        result.0.ended.status ≡ 4 }
    ensures calls { A.IsAskedFew (P.is_settled settings.entry.options) input.old input.new }

    // The command ends as a run over the input answered, by the options with their places in the
    // configuration, or nothing is read, nothing is written and nothing is told `early`.
    ensures replays { let asked = settings.entry in
        EndsInput P.ArePlaced P.AreNotPlaced E.contents asked errors.old errors.new
        (A.ended input.new) (A.failed input.new) (O.failed output.new) result
        (λ placed. ReplaysBy A.known A.Takes D.contents placed input.old input.new
        asked.early result.1 (O.written output.old) (O.written output.new))
        ((input.new ≡ input.old) × (output.new ≡ output.old)) }
{
    // (laws: before the input is asked for anything it hasn't failed; what options place)
    A::starts();
    P::places();
    let ReplaySettings {
        config,
        admission,
        mut options,
        early,
    } = settings;
    let described = match read_placed(alloc, config, &mut options, errors) {
        Ok(described) => described,
        Err(status) => return (InputEnded::without_counts(status), early),
    };
    let taken = match take_described(admission, described, errors) {
        Ok(taken) => taken,
        Err(status) => return (InputEnded::without_counts(status), early),
    };
    let (answer, early) = replay_taken(alloc, options, &taken, input, output, early);
    (end_input(answer, errors), early)
}
