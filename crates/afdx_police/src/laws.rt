//! Laws over the definitions, for the crates that stand on them.

ghost use Rattle.afdx_police.specs.Laws.{FitsIsEachWindow, FitsIsAccountTest, EachAccountMoves};
ghost use Rattle.afdx_police.specs.Laws.{ArrivalsAreOffers, EachOwnSteps, StrangersAreRefused};
ghost use Rattle.afdx_police.specs.Laws.{FaultsChangeNothing, SoundHasNoFault, SoundIsChargedFor};
ghost use Rattle.afdx_police.specs.Laws.{VerdictsDecide, NoFrameIsRefused, FaultsKeepTheirWords};
ghost use Rattle.afdx_police.specs.Delayed.{DelayedAreAccepted, RoomIsNeeded};
ghost use Rattle.afdx_police.specs.Early.{LeastWaitIsFill};
ghost use Rattle.afdx_police.specs.Spacing.{RightHasRoom, RoomIsGaps};
ghost use Rattle.afdx_police.specs.Spaced.{RegularIsSpaced, SpacedIsAccepted, SpacedIsRegular};
ghost use Rattle.afdx_police.specs.Stream.{RegularIsAccepted};
ghost use Rattle.afdx_police.specs.Words.{TheWords};

/// The window rule's test is that of each window.
pub fn fits_is_each_window()
    ensures { FitsIsEachWindow }
{}

/// The window rule's fit is the test of an account.
pub fn fits_is_account_test()
    ensures { FitsIsAccountTest }
{}

/// A frame that doesn't fit does so once the account is filled with what it lacks, and no sooner.
pub fn least_wait_is_fill()
    ensures { LeastWaitIsFill }
{}

/// How an account moves.
pub fn accounts_move()
    ensures { EachAccountMoves }
{}

/// A link's accepted arrivals are those of the offers to its policer.
pub fn arrivals_are_offers()
    ensures { ArrivalsAreOffers }
{}

/// A stream that keeps its gap and its jitter is accepted whole.
pub fn regular_is_accepted()
    ensures { RegularIsAccepted }
{}

/// Frames that one switch accepted are all accepted by the next, where its jitter has room for
/// their delay. With less room there are frames of which one is refused.
pub fn delayed_are_accepted()
    ensures all { DelayedAreAccepted }
    ensures needed { RoomIsNeeded }
{}

/// One more arrival is a link's own, or changes nothing there.
pub fn own_steps()
    ensures { EachOwnSteps }
{}

/// Bytes that don't name a rule's link are refused for themselves alone.
pub fn strangers_are_refused()
    ensures { StrangersAreRefused }
{}

/// Bytes that are no frame are refused for what `MacView::parse` answers of them.
pub fn no_frame_is_refused()
    ensures { NoFrameIsRefused }
{}

/// And in the same word.
pub fn faults_keep_their_words()
    ensures { FaultsKeepTheirWords }
{}

/// An arrival with a fault is dropped for it and leaves the account as it was.
pub fn faults_change_nothing()
    ensures { FaultsChangeNothing }
{}

/// An arrival has no fault exactly if nothing is wrong in it.
pub fn sound_has_no_fault()
    ensures { SoundHasNoFault }
{}

/// An arrival without a fault is charged its wire size at least, and its link's greatest at most.
pub fn sound_is_charged_for()
    ensures { SoundIsChargedFor }
{}

/// An arrival is accepted exactly if it has no fault and fits.
pub fn verdicts_decide()
    ensures { VerdictsDecide }
{}

/// The words of the reasons are those of the formats.
#[tactic(auto, unfolding(crate::specs::Words::words))]
pub fn words_are()
    ensures { TheWords }
{}

/// A stream whose frames come so many gaps behind each other, but for the jitter, is accepted
/// whole. One that was released a gap or more apart is such a stream; and each such stream was
/// released so, if time began as long before it as the jitter is.
pub fn spaced_is_accepted()
    ensures accepted { SpacedIsAccepted }
    ensures regular { RegularIsSpaced }
    ensures moments { SpacedIsRegular }
{}

/// A sender's level has room for each frame exactly where each comes as many gaps behind each one
/// before it as stand between, but for the jitter and by how much stamps and clocks may be off. A
/// right sender's frames always have room.
pub fn room_is_gaps()
    ensures exact { RoomIsGaps }
    ensures right { RightHasRoom }
{}
