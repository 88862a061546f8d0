//! Laws of what recorded frames become.

ghost use Rattle.afdx_input_sources.specs.Laws as laws;
ghost use Rattle.afdx_input_sources.specs.Words.{TheWords};

use std::io::Read;

/// Where two ways to know a port agree, what is taken of a recording is the same.
pub fn sequences_agree()
    ensures { laws.SequencesAgree }
{}

/// The bytes of an arrival are those that its frame becomes: what was recorded, or that with a
/// check sequence behind it.
pub fn arrivals_have_their_bytes()
    ensures { laws.ArrivalsHaveTheirBytes }
{}

/// The arrivals of a recording are taken by their moments, and those of one moment as they stand:
/// all that are read before its first fault.
pub fn arrivals_are_taken_in_order()
    ensures { laws.ArrivalsAreTakenInOrder }
{}

/// The times of the arrivals of a recording don't decrease, and none is over 10^15 ns.
pub fn arrivals_are_in_order()
    ensures { laws.ArrivalsAreInOrder }
{}

/// And so it is with those of two recordings that are read at once.
pub fn arrivals_of_both_are_in_order()
    ensures { laws.ArrivalsOfBothAreInOrder }
{}

/// Where two ways to know a port agree, arrivals came in at the same ports.
pub fn entries_agree()
    ensures { laws.EntriesAgree }
{}

/// The arrivals that one recording gives came in at ports of switches that its options say, or the
/// bytes of frames do.
pub fn given_are_entered<R: Read>()
    ensures { laws.GivenAreEntered R.remaining }
{}

/// And so did those of two recordings that are read at once.
pub fn given_of_pair_are_entered<R: Read>()
    ensures { laws.GivenOfPairAreEntered R.remaining }
{}

/// The words of the reasons to skip a number are those of the formats.
#[tactic(auto, unfolding(crate::specs::Words::words))]
pub fn words_are()
    ensures { TheWords }
{}
