//! Laws of the frames of two lists that are read at once.

ghost use Rattle.afdx_input_runs.specs.JoiningLaws as laws;

/// What is told of a list are its first frames, in their order, and all of them where no list has
/// a fault.
pub fn each_list_is_told()
    ensures { laws.EachListIsTold }
{}

/// The times of the frames of both don't decrease. At one time those that came in stand first.
pub fn frames_are_in_order()
    ensures { laws.FramesAreInOrder }
{}
