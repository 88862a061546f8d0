//! Laws over the definitions.

ghost use Rattle.afdx_admit.specs.FaultText.{TheLineWords, TheHopWords};
ghost use Rattle.afdx_admit.specs.Laws.{FirstIsOfAll, LinesAreAdmission, LowBoundIsANumber};
ghost use Rattle.afdx_admit.specs.CascadeLaws.{CascadeLinesAreAdmission, WaysAreWhole};

/// In lawful tables no line is false exactly where they are admitted.
pub fn lines_are_admission()
    ensures { LinesAreAdmission }
{}

/// Of the switches of a file no line of the cascade is false exactly where they are admitted.
pub fn cascade_lines_are_admission()
    ensures { CascadeLinesAreAdmission }
{}

/// The way of a link to a row of a switch has no more rows than there are switches: where any
/// number of them is enough, so many are.
pub fn ways_are_whole()
    ensures { WaysAreWhole }
{}

/// Where a low link goes through a port that isn't overloaded, the low bound is a number.
pub fn low_bound_is_a_number()
    ensures { LowBoundIsANumber }
{}

/// The first false line of some is the first of all that are false.
pub fn first_is_of_all()
    ensures { FirstIsOfAll }
{}

/// The words of the lines of admission are those of the formats: of a switch by its own tables, and
/// of those that join a link's rows.
#[tactic(auto, unfolding(crate::specs::FaultText::line_words, crate::specs::FaultText::hop_words))]
pub fn words_are()
    ensures lines { TheLineWords }
    ensures hops { TheHopWords }
{}
