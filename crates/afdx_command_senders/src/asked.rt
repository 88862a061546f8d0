//! What a run over what systems sent is asked for.

ghost use Rattle.std.specs.Prelude.{◌≡◌, ◌↔◌, IsSome, IfSome};
ghost use Rattle.afdx_command_senders.specs.Given.{IsApartGiven};

use afdx_command_conform::Choices;

/// The greatest distance of copies that can be given, in ns.
const MOST_APART: u64 = 100_000_000;

/// What is judged beside the systems that send to a switch.
#[derive(Clone, Copy, Debug)]
pub enum Beside {
    Nothing,
    /// The switch itself.
    Switch,
}

/// What a run over what systems sent is asked for: what one over a switch is; and by how many ns
/// the copies of a frame may be sent apart on the two networks, at most 100,000,000; None: by what
/// the tables leave.
#[derive(Clone, Copy, Debug)]
pub struct SenderChoices<'a> {
    pub choices: &'a Choices,
    pub apart: Option<u64>,
    pub ghost in_range: { IsApartGiven apart },
}

impl<'a> SenderChoices<'a> {
    /// These; None exactly if the distance is over 100,000,000 ns.
    pub fn new(choices: &'a Choices, apart: Option<u64>) -> Option<SenderChoices<'a>>
        ensures in_range { IsSome result ↔ IsApartGiven apart }
        ensures given { IfSome result (λ asked.
            (asked.choices ≡ choices.entry) × (asked.apart ≡ apart)) }
    {
        let is_given = match apart {
            Some(ns) => ns <= MOST_APART,
            None => true,
        };
        if is_given {
            Some(SenderChoices { choices, apart })
        } else {
            None
        }
    }
}
