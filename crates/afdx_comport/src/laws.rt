//! Laws over the definitions.

ghost use Rattle.afdx_comport.specs.Calls.{FirstInFirstOut, NewestIsHeld};
ghost use Rattle.afdx_comport.specs.Laws.{PutIsReadBack, AllIsReadAtFirst, FoundIsConfigured};
ghost use Rattle.afdx_comport.specs.Laws.{FoundStays};

/// A message that is put to a port of which all was read is what is read next.
pub fn put_is_read_back()
    ensures { PutIsReadBack }
{}

/// A new system's ports have nothing to read.
pub fn all_is_read_at_first()
    ensures { AllIsReadAtFirst }
{}

/// A port is found exactly where the tables have it.
pub fn found_is_configured()
    ensures { FoundIsConfigured }
{}

/// A port is found at the same place, whatever another or itself holds.
pub fn found_stays()
    ensures { FoundStays }
{}

/// Over any list of calls, a queue's messages are taken in the order in which they were put, each
/// once, and no more wait than its depth.
pub fn first_in_first_out()
    ensures { FirstInFirstOut }
{}

/// Over any list of calls, a sampling port holds the message that was put last.
pub fn newest_is_held()
    ensures { NewestIsHeld }
{}
