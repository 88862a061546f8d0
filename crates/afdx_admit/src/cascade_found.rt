//! What a walk over the lines of admission of a cascade finds.

ghost use Rattle.std.specs.Prelude.{map};
ghost use Rattle.afdx_admit.specs.Cascade.{own_line};
ghost use Rattle.afdx_admit.specs.Lines.{lines};
ghost use Rattle.afdx_admit.specs.Walk.{Walks};

use crate::all::all_faults;
use crate::cascade_fault::{CascadeFault, SwitchFault};
use crate::found::{First, Found};
use crate::lines::first_fault;
use afdx_config::{SwitchId, Tables};
use std::alloc::AllocError;

/// What takes the faults of false lines of a cascade, also those of a switch by its own tables.
pub(crate) trait CascadeFound<E>: Found<CascadeFault, E> {
    /// Takes the faults of a switch by its own tables, or ends the walk among them.
    fn add_own(&mut self, switch: SwitchId, tables: &Tables) -> Result<(), E>
        ensures { Walks Self.Stops (Self.items self.old) (Self.items self.new)
            (map (own_line switch.0) (lines tables.now)) result };
}

impl CascadeFound<CascadeFault> for First {
    fn add_own(&mut self, switch: SwitchId, tables: &Tables) -> Result<(), CascadeFault> {
        match first_fault(tables) {
            None => Ok(()),
            Some(fault) => Err(CascadeFault {
                switch,
                fault: SwitchFault::Own(fault),
            }),
        }
    }
}

impl CascadeFound<AllocError> for Vec<CascadeFault> {
    fn add_own(&mut self, switch: SwitchId, tables: &Tables) -> Result<(), AllocError> {
        let faults = all_faults(*self.allocator(), tables)?;
        for fault in &faults {
            self.push(CascadeFault {
                switch,
                fault: SwitchFault::Own(*fault),
            })?;
        }
        Ok(())
    }
}
