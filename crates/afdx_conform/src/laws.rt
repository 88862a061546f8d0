//! Laws over the definitions.

ghost use Rattle.afdx_conform.specs.Ahead.{EndChangesNothing, LaterFramesChangeNothing};
ghost use Rattle.afdx_conform.specs.EventLaws.{AllEventsAreExplained, EventsAreWhole, EventsJoin};
ghost use Rattle.afdx_conform.specs.EventLaws.{ExplainedFindsNothing, FoundStays};
ghost use Rattle.afdx_conform.specs.EventLaws.{NothingFoundCountsNone, UnsureIsBehindOne};
ghost use Rattle.afdx_conform.specs.EventLaws.{WhatIsOverStays};
ghost use Rattle.afdx_conform.specs.FindingLaws.{FoundWhereNoneIsLeft, NothingFoundIsExplained};
ghost use Rattle.afdx_conform.specs.Forgetting.{ForgettingChangesNothing};
ghost use Rattle.afdx_conform.specs.FromLevel.{AllowedIsSomeAccount};
ghost use Rattle.afdx_conform.specs.Hiding.{WhatPassedKeepsWindows};
ghost use Rattle.afdx_conform.specs.Laws.{StatesAreExplanations, ExactIsTheHeadline, ExactShowsAll};
ghost use Rattle.afdx_conform.specs.Later.{EndFindsNothing, LaterArrivalsFindNothing};
ghost use Rattle.afdx_conform.specs.Later.{LaterFramesFindNothing};
ghost use Rattle.afdx_conform.specs.Open.{OpenIsLeast};
ghost use Rattle.afdx_conform.specs.Right.{RightIsExplained, SomeIsRight};
ghost use Rattle.afdx_conform.specs.RightCut.{RightIsCut};
ghost use Rattle.afdx_conform.specs.SomeKnown.{SomeIsKnown};
ghost use Rattle.afdx_conform.specs.Standing.{HoldsOneWindow};
ghost use Rattle.afdx_conform.specs.Sure.{ExactIsSure};
ghost use Rattle.afdx_conform.specs.Thinned.{KeptAreEnough};
ghost use Rattle.afdx_conform.specs.Ways.{WayIsNearer};
ghost use Rattle.afdx_conform.specs.Words.{TheStrangeWords};
ghost use Rattle.afdx_conform.specs.Worked.{WorkedRows};

/// Once all frames are closed, a state is left exactly where something explains the stream.
pub fn states_are_explanations()
    ensures { StatesAreExplanations }
{}

/// With exact stamps and clocks, from a reset on, something explains a stream exactly where it is
/// as the headline says. Where no accepted arrival waits, its frames are those of all arrivals that
/// the window rule accepts.
pub fn exact_is_the_headline()
    ensures headline { ExactIsTheHeadline }
    ensures all { ExactShowsAll }
{}

/// Where after each event states are dropped that others outdo, what is kept outdoes all states.
pub fn kept_are_enough()
    ensures { KeptAreEnough }
{}

/// A right switch is never accused, if stamps and clocks keep their accuracy. There is one.
pub fn right_is_explained()
    ensures all { RightIsExplained }
    ensures some { SomeIsRight }
{}

/// What comes later changes nothing of the states so far: frames that left too late for the
/// arrivals, and the end, while no arrival is open.
pub fn later_changes_nothing()
    ensures frames { LaterFramesChangeNothing }
    ensures end { EndChangesNothing }
{}

/// What passed keeps every window, as far as clocks and stamps can tell.
pub fn what_passed_keeps_windows()
    ensures { WhatPassedKeepsWindows }
{}

/// With exact stamps and clocks, answers are allowed exactly where some account at the start gives
/// them.
pub fn allowed_is_some_account()
    ensures { AllowedIsSomeAccount }
{}

/// Nothing is found exactly where a state is left; once all frames are closed, exactly where
/// something explains the stream: unless there were too many states.
pub fn found_where_none_is_left()
    ensures states { FoundWhereNoneIsLeft }
    ensures explained { NothingFoundIsExplained }
{}

/// What is found in worked streams: a frame that stopped, came late, early, twice or over its rate,
/// and none where all is right.
pub fn rows_are_worked()
    ensures { WorkedRows }
{}

/// The events of a stream are its arrivals and a closing for each frame, by time. Those of its
/// first arrivals and frames come first.
pub fn events_are_whole()
    ensures whole { EventsAreWhole }
    ensures join { EventsJoin }
{}

/// What comes later changes nothing of what was found, of marks and counts: frames that left far
/// behind the arrivals, arrivals behind their moments, and the end, while no arrival is open. Later
/// events take back nothing of it.
pub fn later_changes_no_finding()
    ensures frames { LaterFramesFindNothing }
    ensures arrivals { LaterArrivalsFindNothing }
    ensures end { EndFindsNothing }
    ensures stays { FoundStays }
{}

/// What is found of moments before one is the same whatever comes at it or later, and whenever the
/// recordings end. There is such a stream.
pub fn what_is_over_stays()
    ensures all { WhatIsOverStays }
    ensures some { SomeIsKnown }
{}

/// Arrivals that fit no frame that is left may be forgotten: no later event reads them.
pub fn forgetting_changes_nothing()
    ensures { ForgettingChangesNothing }
{}

/// Once all events are over, nothing is found exactly where something explains the stream, unless
/// there were too many states.
pub fn all_events_are_explained()
    ensures { AllEventsAreExplained }
{}

/// With exact clocks and stamps of what came, from a reset on, there is always one state, and no
/// answer is uncertain, however far apart the recorders are: a stream is never unsure.
pub fn exact_is_sure()
    ensures { ExactIsSure }
{}

/// Where something explains a stream nothing is found, also where there were too many states, which
/// are behind one of its arrivals. Where nothing is found no frame is counted as found.
pub fn explained_finds_nothing()
    ensures nothing { ExplainedFindsNothing }
    ensures unsure { UnsureIsBehindOne }
    ensures counted { NothingFoundCountsNone }
{}

/// A right switch is right too by what was recorded of it up to an end.
pub fn right_is_cut()
    ensures { RightIsCut }
{}

/// Where nothing is found, and the stream isn't unsure, what is counted as open are the least
/// accepted arrivals that wait in what explains it.
pub fn open_is_least()
    ensures { OpenIsLeast }
{}

/// While no event of an earlier moment is due a stream holds at most twice as many arrivals and
/// frames as came and left in the last window before it.
pub fn one_window_is_held()
    ensures { HoldsOneWindow }
{}

/// The level of a way, which each arrival raises, is at least as near its cap as that of each of
/// its switches, whichever arrivals that charged.
pub fn way_is_nearer()
    ensures { WayIsNearer }
{}

/// The words of the reasons for a strange frame that aren't of the tables are those of the formats.
#[tactic(auto, unfolding(crate::specs::Words::own_words))]
pub fn strange_words_are()
    ensures { TheStrangeWords }
{}
