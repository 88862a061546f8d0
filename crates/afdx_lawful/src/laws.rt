//! Laws over the definitions.

ghost use Rattle.afdx_lawful.specs.Accepted.{LawfulIsAccepted};
ghost use Rattle.afdx_lawful.specs.Nearness.{NearnessIsNeeded};
ghost use Rattle.afdx_lawful.specs.Order.{ToldInOrder};
ghost use Rattle.afdx_lawful.specs.Recorded.{BuiltIsNeverAccused, LawfulIsNeverAccused};
ghost use Rattle.afdx_lawful.specs.RecordedExample.{LawfulIsMet};
ghost use Rattle.afdx_lawful.specs.Right.{BuiltIsLawful, RightIsNotAccused, RightIsSilent};
ghost use Rattle.afdx_lawful.specs.RightExample.{RightIsMet};
ghost use Rattle.afdx_lawful.specs.RightTwice.{NothingFoundIsSent, RightIsNeverAccused};
ghost use Rattle.afdx_lawful.specs.TwoNetworks.{BuiltIsLawfulTwice};
ghost use Rattle.afdx_lawful.specs.Worked.{WorkedRows};

/// What is found of some short recordings.
pub fn rows_are_worked()
    ensures { WorkedRows }
{}

/// Where nothing is found of a source when its frames come, and stamps and clocks are exact, the
/// link's rule accepts each of its frames, on each side, whatever else comes.
pub fn lawful_is_accepted()
    ensures { LawfulIsAccepted }
{}

/// Nothing is found of a right sender's frames by their own side alone, if stamps and clocks keep
/// their accuracy: nothing at all, where one network is seen. What the builder gives is such a
/// sender's frame.
pub fn right_is_silent()
    ensures by_side { RightIsSilent }
    ensures alone { RightIsNotAccused }
    ensures built { BuiltIsLawful }
{}

/// Nothing at all is found of a right sender on both networks, if stamps and its clock keep their
/// accuracy: neither when a frame comes, nor of one that waits for its copy. Copies may be sent as
/// far apart as they are asked to, and the recordings may begin later, end sooner, and cut copies
/// off. Each of its frames counts as sent. An example meets all that is asked.
pub fn right_is_never_accused()
    ensures never { RightIsNeverAccused }
    ensures sent { NothingFoundIsSent }
    ensures met { RightIsMet }
{}

/// A stream of frames that are built, released a gap apart, and given to both networks at one time
/// is lawful on two networks, where each sends at times of its own and frames are read.
pub fn built_is_lawful_twice()
    ensures { BuiltIsLawfulTwice }
{}

/// Where the frames of a source are what was recorded of a lawful stream on two networks, from the
/// start up to the end, nothing is found of it, by whatever slack and drift. So it is of frames
/// that are built, and given to both networks at one time. An example meets what is asked.
pub fn lawful_is_never_accused()
    ensures lawful { LawfulIsNeverAccused }
    ensures built { BuiltIsNeverAccused }
    ensures met { LawfulIsMet }
{}

/// Where the copies of a frame are sent as far apart as its way leaves them, each message is read
/// once, and all is met that this asks. A nanosecond further, and all else being met, one is read
/// twice.
pub fn nearness_is_needed()
    ensures { NearnessIsNeeded }
{}

/// Frames that waited for their copies in vain are told by time.
pub fn told_in_order()
    ensures { ToldInOrder }
{}
