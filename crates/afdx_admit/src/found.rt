//! What a walk over the lines of admission finds: the first that is false, or all that are.

ghost use Rattle.std.specs.Prelude.{◌≡◌, ◌++◌, ◌∷◌, [], List, OnOk, IfErr};
ghost use Rattle.afdx_frame.specs.Lines.{line};
ghost use Rattle.afdx_admit.specs.Walk.{Walks};

use std::alloc::AllocError;

/// What takes the faults of false lines, one after another, and may end the walk.
pub(crate) trait Found<F, E> {
    /// The faults that it took.
    ghost items: { Self → List F };

    /// With this answer it may end a walk over lines that have these faults.
    ghost Stops: { List F → E → Type 0 };

    /// Takes a fault, or ends the walk with an answer that is right whatever faults are behind it.
    fn add(&mut self, fault: F) -> Result<(), E>
        ensures added { OnOk result (items self.new ≡ items self.old ++ fault ∷ []) }
        ensures stopped { IfErr result (λ stop.
            (behind : List F) → Stops (items self.old ++ (fault ∷ behind)) stop) };
}

/// Takes none: the first ends the walk, as its answer.
#[derive(Drop)]
pub(crate) struct First;

impl<F> Found<F, F> for First {
    ghost use Rattle.std.specs.Prelude.{◌≡◌, [], Some, slice_get};

    ghost items = { λ _. [] };

    ghost Stops = { λ faults fault. slice_get faults 0 ≡ Some fault };

    fn add(&mut self, fault: F) -> Result<(), F> {
        Err(fault)
    }
}

/// Takes all, while there is memory.
impl<F: Copy> Found<F, AllocError> for Vec<F> {
    ghost items = { λ found. found.items };

    ghost Stops = { λ _ _. Unit {0} };

    fn add(&mut self, fault: F) -> Result<(), AllocError> {
        self.push(fault)?;
        Ok(())
    }
}

/// Adds the fault of a line, if it is false.
pub(crate) fn add_if_false<F: Copy, E, C: Found<F, E>>(
    found: &mut C,
    holds: bool,
    fault: F,
) -> Result<(), E>
    ensures { Walks C.Stops (C.items found.old) (C.items found.new) (line holds fault ∷ []) result }
{
    if holds {
        return Ok(());
    }
    found.add(fault)
}
