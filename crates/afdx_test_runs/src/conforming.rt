//! Whether a recorded switch did what its tables say: the command over two lists. Each answer is
//! tried at the program (tests/run/conformance.py).

use crate::texts::short_text;
use afdx_command_conform::{AsLists, ByRole, Choices, Leeway, Question, conform};
use afdx_input_lines::Watched;
use afdx_test_samples::{ShortText, base, equal, spelled};
use afdx_text::Output;
use std::alloc::Global;
use std::test::Fail;

/// What is asked of the base tables.
fn of_base<'a>(switch: Option<&'a str>, choices: &'a Choices) -> Question<'a> {
    Question {
        config: base().as_bytes(),
        switch,
        choices,
    }
}

/// The status, and what is written, of the base tables and these lists.
fn conformed(alloc: Global, came: &str, left: &str) -> Result<(u8, ShortText), Fail> {
    let leeway = Leeway::new(0, 0, 0, 0, None).ok_or("a leeway")?;
    let choices = Choices::new(leeway, None, Vec::new(alloc), false, false).ok_or("choices")?;
    let (came, left) = (spelled(alloc, came)?, spelled(alloc, left)?);
    let mut inputs = ByRole {
        came: Watched::new(came.as_bytes()),
        left: Watched::new(left.as_bytes()),
    };
    let mut output = Output::new(alloc, 0, Vec::new(alloc))?;
    let mut errors = Watched::new(Vec::new(alloc));
    let question = of_base(None, &choices);
    let (ins, outs, faults) = (&mut inputs, &mut output, &mut errors);
    let judged = conform(alloc, question, AsLists, ins, outs, faults);
    let text = short_text(output.into_device().as_slice())?;
    Ok((judged.status, text))
}

#[test]
fn a_recorded_switch_is_judged(rt: HostRuntime) -> Result<(), Fail> {
    let came = "F 0 A 1 H1\nF 20000 A 1 H1\n";
    let (status, text) = conformed(rt.alloc(), came, "F 6720 A 3 H1\n")?;
    let wanted = "conforms explained 1 open 0 uncertain 0 left-out 0 unseen 0 idle 3\n";
    equal((status, text.as_str()), (0, wanted))
}
