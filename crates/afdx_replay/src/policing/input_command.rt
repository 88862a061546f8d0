//! The command `police`, whatever gives it its arrivals.

ghost use Rattle.std.specs.Prelude.{◌≡◌, ◌||◌, ◌⊎◌, ◌↔◌, Result, IsSome, IfSome, codes, None, false, true};
ghost use Rattle.afdx_text.specs.Telling.{Tells};
ghost use Rattle.afdx_input_lines.specs.declared.fault.RunFault.{RunFault};
ghost use Rattle.afdx_input_runs.specs.Arrivals.{TakesFrames};
ghost use Rattle.afdx_input_sources.specs.Claims.{one_port};
ghost use Rattle.afdx_replay.specs.Inputs.{EndsInputAs};
ghost use Rattle.afdx_replay.specs.policing.Command.{commanded_rule, IsCommanded};
ghost use Rattle.afdx_replay.specs.policing.Input.{Polices};
ghost use Rattle.afdx_replay.specs.declared.input_ending.InputSummary.{InputSummary};

use crate::input_ending::{InputEnded, end_input};
use crate::policing::command::CommandedRule;
use crate::policing::over::police_over;
use afdx_command_tables::status::WRONG_WORDS;
use afdx_input_lines::{Heading, Watched};
use afdx_input_runs::RunInput;
use afdx_input_sources::Placing;
use afdx_text::{Sink, tell};
use std::alloc::Global;
use std::io::Write;

/// Polices the frames of an input for one virtual link: a list of frames or a recording, or two
/// recordings that are read at once, as `replay_input` takes them. Verdicts go to `output`, a
/// fault's one line to `errors`. It also gives what the run counted.
///
/// Frames of a recording come in at the rule's port, where no option says another.
///
/// The exit status is 0 done, 2 a value out of range, 3 a fault of the list or a recording, 4 a
/// device or memory.
pub fn police_input<P: Placing + Drop, A: RunInput<P, Heading>, O: Sink, E: Write>(
    alloc: Global,
    options: P,
    given: &CommandedRule,
    input: &mut A,
    output: &mut O,
    errors: &mut Watched<E>,
) -> InputEnded
    requires new { A.IsNew input.old }
    requires sound_output { O.failed output.old ≡ false }

    // 0 comes only where the input came to its end, 4 wherever a device failed; counts come with 0.
    ensures statuses { let status = result.ended.status in
        (status ≡ 0) ⊎ (status ≡ 2) ⊎ (status ≡ 3) ⊎ (status ≡ 4) }
    ensures counts { IsSome result.ended.summary ↔ (result.ended.status ≡ 0) }
    ensures done { result.ended.status ≡ 0 →
        A.ended input.new × (A.failed input.new ≡ false) × (O.failed output.new ≡ false) }
    ensures device { (A.failed input.new || O.failed output.new) ≡ true →
        result.ended.status ≡ 4 }
    ensures calls { A.IsAskedFew (P.is_settled options) input.old input.new }

    // A value out of range: nothing is read and nothing is written.
    ensures out_of_range { (IsCommanded given.now → ⊥) →
        (result.ended.status ≡ 2) × (result.tally ≡ None)
        × Tells E.contents errors.old errors.new (codes "words BadRule\n")
        × (input.new ≡ input.old) × (output.new ≡ output.old) }

    // Else the command ends as a run over the input answered.
    ensures polices { let rule = commanded_rule given.now in IsCommanded given.now →
        (answer : Result InputSummary RunFault)
        × EndsInputAs E.contents (A.ended input.new) (A.failed input.new) (O.failed output.new)
        errors.old errors.new result answer
        × IfSome (A.known input.old) (λ bytes. Polices rule
        (A.Takes TakesFrames options (one_port rule.port) bytes input.new)
        (O.written output.old) (O.written output.new) answer) }
{
    // (a law of the input: before it is asked for anything it hasn't failed)
    A::starts();
    let Some(rule) = given.rule() else {
        tell(errors, b"words BadRule\n");
        return InputEnded::without_counts(WRONG_WORDS);
    };
    let answer = police_over(alloc, options, &rule, input, output);
    end_input(answer, errors)
}
