//! Laws over the definitions.

ghost use Rattle.afdx_input_lines.specs.FaultForms.{TheRunForms, TheRecordingForms};
ghost use Rattle.afdx_input_lines.specs.FaultTexts.{TheLinesOfOne, TheLinesOfTwo};
ghost use Rattle.afdx_input_lines.specs.FaultTexts.{TheLinesOfRecordings, TheTextsOfLists};
ghost use Rattle.afdx_input_lines.specs.Lines.{WholeLinesAreFirst};

/// The whole lines of a beginning of some bytes are the first of all their lines.
pub fn whole_lines_are_first()
    ensures { WholeLinesAreFirst }
{}

/// The forms of the lines of a run's faults are those of the formats.
#[tactic(auto, unfolding(crate::specs::FaultForms::run_forms))]
pub fn run_forms_are()
    ensures { TheRunForms }
{}

/// And those of a recording's.
#[tactic(auto, unfolding(crate::specs::FaultForms::recording_forms))]
pub fn recording_forms_are()
    ensures { TheRecordingForms }
{}

/// The lines of faults, word for word.
pub fn fault_texts_are()
    ensures of_one { TheLinesOfOne }
    ensures of_two { TheLinesOfTwo }
    ensures of_recordings { TheLinesOfRecordings }
    ensures of_lists { TheTextsOfLists }
{}
