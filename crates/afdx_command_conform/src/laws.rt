//! Laws over the lines of a run.

ghost use Rattle.afdx_command_conform.specs.EarlyLaw.{LinesBeginEarly};
ghost use Rattle.afdx_command_conform.specs.Sight.{TablesHaveBags};
ghost use Rattle.afdx_command_conform.specs.QuietRuns.{LastLineIsQuiet, NoneLeftOutCounts};
ghost use Rattle.afdx_command_conform.specs.QuietRuns.{NoneUnseenIsJudged, NothingFoundIsQuiet};
ghost use Rattle.afdx_command_conform.specs.RunExample.{PremisesAreMet};
ghost use Rattle.afdx_command_conform.specs.RunLaws.{ConformsIsTheHeadline, NoLineIsExplained};
ghost use Rattle.afdx_command_conform.specs.RunLaws.{NothingFoundIsExplained, RightConforms};
ghost use Rattle.afdx_command_conform.specs.RunLaws.{ThereIsOneAnswer};
ghost use Rattle.afdx_command_conform.specs.VerdictLaws.{AllIsWrittenOnce, ConformsIsExplained};
ghost use Rattle.afdx_command_conform.specs.VerdictLaws.{ConformsShowsAll, ExactConforms};
ghost use Rattle.afdx_command_conform.specs.VerdictLaws.{ExactShowsTheRule, RightNeverDeviates};

/// Of the same tables, choices, end and frames there is one list of lines; of the same tables,
/// choices and frames one text and one count: what a run writes and answers is a function of these.
pub fn there_is_one_answer()
    ensures lines { ThereIsOneAnswer }
    ensures written { AllIsWrittenOnce }
{}

/// Of all lines the first are those of moments before a time. They depend on the frames before that
/// time alone, whatever comes from then on and whenever the recordings end.
pub fn lines_begin_early()
    ensures { LinesBeginEarly }
{}

/// Nothing is found exactly where what was recorded has an explanation: no frame left that is of no
/// stream, and in each stream that is judged each frame is of an arrival that may have been
/// accepted, in order and in time, and what wasn't accepted didn't have to be. What passed keeps
/// every window, as far as clocks and stamps can tell.
///
/// There is no line exactly where that is so and no stream is unsure. A run answers `conforms`
/// exactly where, besides, some frame left. Where it does and nothing is open, all frames of each
/// stream are those of such arrivals, and no other arrival had to be accepted.
pub fn conforms_is_explained()
    ensures found { NothingFoundIsExplained }
    ensures none { NoLineIsExplained }
    ensures answer { ConformsIsExplained }
    ensures shows { ConformsShowsAll }
{}

/// With exact stamps and clocks, from a reset on, no stream is unsure, and nothing is found exactly
/// where at each port left, of each link that goes there, the first frames that the window rule
/// accepts of the link's own arrivals, in order, within the latency, and nothing else; those that
/// didn't leave may have left behind the end. A run answers `conforms` exactly where that is so and
/// some frame left; where nothing is open, all that the window rule accepts left.
pub fn conforms_is_the_headline()
    ensures found { ConformsIsTheHeadline }
    ensures answer { ExactConforms }
    ensures shows { ExactShowsTheRule }
{}

/// A right switch is never accused, if stamps and clocks keep their accuracy and nothing else left.
pub fn right_conforms()
    ensures found { RightConforms }
    ensures answer { RightNeverDeviates }
{}

/// Where no line is a finding and nothing is open, nothing is found of any stream that is judged,
/// and nothing of it is open. So it is where the last line doesn't say `deviates` and counts none
/// open.
pub fn nothing_found_is_quiet()
    ensures found { NothingFoundIsQuiet }
    ensures last { LastLineIsQuiet }
{}

/// Where the last line counts no stream unseen, each is judged; where it counts no line left out,
/// all frames from start to end count.
pub fn nothing_is_passed_over()
    ensures streams { NoneUnseenIsJudged }
    ensures frames { NoneLeftOutCounts }
{}

/// By tables each link's rule has one of the BAGs that there are, which laws of what passed ask of
/// what a run sees of a switch.
pub fn tables_have_bags()
    ensures { TablesHaveBags }
{}

/// There is a run that meets all premises: a frame came and left in time, and there is no line; and
/// one where it left a nanosecond too late, with the line that says so.
pub fn premises_are_met()
    ensures { PremisesAreMet }
{}
