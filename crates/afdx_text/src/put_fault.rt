//! Why a line isn't put, in a byte.

ghost use Rattle.std.specs.Prelude.{◌≡◌};

use afdx_input_lines::RunFault;
use std::alloc::AllocError;

/// Why an output doesn't put a line. It is one byte, where a run's fault is many.
#[derive(Clone, Copy, Debug)]
pub(crate) enum SinkFault {
    /// The device failed.
    Write,
    /// Memory was refused.
    Memory,
}

impl From<AllocError> for SinkFault {
    ghost use Rattle.afdx_text.specs.declared.put_fault.SinkFault.TheVariants.{Memory};

    ghost from_gives = { λ _ fault. fault ≡ Memory };

    fn from(_error: AllocError) -> SinkFault {
        SinkFault::Memory
    }
}

impl From<SinkFault> for RunFault {
    ghost use Rattle.afdx_text.specs.PutFaults.{fault_of};

    ghost from_gives = { λ why fault. fault ≡ fault_of why };

    fn from(why: SinkFault) -> RunFault {
        match why {
            SinkFault::Write => RunFault::Write,
            SinkFault::Memory => RunFault::Memory,
        }
    }
}
