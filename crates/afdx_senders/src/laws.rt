//! Laws over the definitions.

ghost use Rattle.afdx_senders.specs.RightExample.{RightAreMet};
ghost use Rattle.afdx_senders.specs.RightSenders.{RightAreSent, RightHaveNoLine, RightTellNothing};
ghost use Rattle.afdx_senders.specs.SenderLaws.{EachLineIsFound, EarlyLinesStay, LongerArePassedOver};
ghost use Rattle.afdx_senders.specs.SenderLaws.{NoLineIsQuiet, NoneAloneIsPaired, NothingToldIsNoLine};
ghost use Rattle.afdx_senders.specs.SenderLaws.{WhatIsToldIsEarly, WhatIsToldIsFirst};
ghost use Rattle.afdx_senders.specs.SenderLaws.{WhatIsToldIsOne};
ghost use Rattle.afdx_senders.specs.SenderRows.{WorkedSenderRows};

/// Which lines are of moments before a time isn't changed by what comes at it or later. So what
/// `Senders::next` told before a time stays just these lines, whatever else comes, and whenever the
/// recordings end from then on.
pub fn early_lines_stay()
    ensures stay { EarlyLinesStay }
    ensures told { WhatIsToldIsEarly }
{}

/// At any call what was told is the first of all lines: whatever else comes, no other one comes
/// sooner.
pub fn what_is_told_is_first()
    ensures { WhatIsToldIsFirst }
{}

/// What is told before a time is a function of tables, recorded ports, options and frames, where
/// no two frames of one port and side have one line.
pub fn what_is_told_is_one()
    ensures { WhatIsToldIsOne }
{}

/// All lines, and what is counted, of some short recordings.
pub fn sender_rows_are_worked()
    ensures { WorkedSenderRows }
{}

/// There is no line exactly where nothing is judged of any sender that is judged, and no frame is
/// of no source at a port that was recorded.
pub fn no_line_is_quiet()
    ensures { NoLineIsQuiet }
{}

/// Something is found by each line that is told. Where all frames came and nothing was told, there
/// is no line.
///
/// Then no sender that is judged sent a frame that is longer than any may be: without longer ones
/// there is no line, either, and each sender's frames are the same.
pub fn nothing_told_is_no_line()
    ensures each { EachLineIsFound }
    ensures none { NothingToldIsNoLine }
    ensures shorter { LongerArePassedOver }
{}

/// Where of no link one side alone was recorded, each sender that is judged was recorded on both.
pub fn none_alone_is_paired()
    ensures { NoneAloneIsPaired }
{}

/// Where what came of each sender that is judged is a right one's, and no frame is of no source at
/// a port that was recorded, there is no line, and each frame of such a sender is counted as
/// sent. Nor was any line told at any call before. An example meets what is asked.
pub fn right_have_no_line()
    ensures none { RightHaveNoLine }
    ensures told { RightTellNothing }
    ensures sent { RightAreSent }
    ensures met { RightAreMet }
{}
