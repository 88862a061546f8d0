//! What a run judges, by the lines that it tells.

ghost use Rattle.afdx_text.specs.declared.conform_line.Conclusion.{Conclusion as Counted};

use afdx_input_runs::Seen;
use afdx_input_sources::Machine;
use afdx_text::Conclusion;

/// What a run judges, as frames come that were recorded: it tells a line of each thing that is
/// found, and counts.
pub trait Judge: Machine<Seen> {
    /// That is its answer, with what it counted.
    ghost HasCounted: { Self → Counted → Type 0 };

    /// Its answer, with what it counted, once all is told.
    fn conclusion(&self) -> Conclusion
        ensures { HasCounted self.now result };
}
