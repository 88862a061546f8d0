//! What `conform` judges by what came and what left.

ghost use Rattle.std.specs.Prelude.{◌≡◌, false};

use crate::senders::senders_question;
use afdx_command_conform::{Choices, Judged, Question, Watched, conform};
use afdx_command_senders::{Beside, SenderQuestion, judge_senders};
use afdx_command_words::wants_senders;
use afdx_input_runs::{RunInput, Seen, Tapping};
use afdx_text::Sink;
use clap::ArgMatches;
use std::alloc::Global;
use std::io::Write;

/// A switch; or, beside it, the systems that send to it.
#[derive(Clone, Copy, Debug)]
pub(crate) enum WhatIsJudged<'a> {
    Switch(Question<'a>),
    Both(SenderQuestion<'a>),
}

/// What the words ask for, with these choices. Err: the status where they are refused.
pub(crate) fn what_is_judged<'a>(
    rt: &HostRuntime,
    matches: &ArgMatches<'_>,
    config: &'a [u8],
    switch: Option<&'a str>,
    choices: &'a Choices,
) -> Result<WhatIsJudged<'a>, u8> {
    if wants_senders(matches) {
        let question = senders_question(rt, matches, config, switch, choices, Beside::Switch)?;
        return Ok(WhatIsJudged::Both(question));
    }
    Ok(WhatIsJudged::Switch(Question {
        config,
        switch,
        choices,
    }))
}

/// Judges it.
pub(crate) fn judge<P: Tapping + Drop, A: RunInput<P, Seen>, O: Sink, E: Write>(
    alloc: Global,
    what: WhatIsJudged<'_>,
    options: P,
    inputs: &mut A,
    output: &mut O,
    errors: &mut Watched<E>,
) -> Judged
    requires new { A.IsNew inputs.old }
    requires sound_output { O.failed output.old ≡ false }
{
    match what {
        WhatIsJudged::Switch(question) => conform(alloc, question, options, inputs, output, errors),
        WhatIsJudged::Both(question) => {
            judge_senders(alloc, question, options, inputs, output, errors)
        }
    }
}
