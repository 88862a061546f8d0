//! Why a file is refused that may describe several switches.

ghost use Rattle.std.specs.Prelude.{◌≡◌};
ghost use Rattle.afdx_config.specs.Switches as spec;

use crate::fault::{ConfigFault, Part, Place};
use std::alloc::AllocFailed;
use std::fmt;

/// The first check that fails, or want of memory: the switch that it stands in, counted from 1, and
/// the fault. The number is 0 where the file describes one switch, and of the top of one that
/// describes several.
///
/// It prints as `Missing switch 2 top 0 key 2`, and of no switch as the fault alone.
#[derive(Clone, Copy, Debug, PartialEq, Eq)]
pub struct FileFault {
    pub switch: u8,
    pub fault: ConfigFault,
}

impl FileFault {
    ghost use Rattle.std.specs.Prelude.{◌≡◌};
    ghost use Rattle.afdx_config.specs.FaultText.{place_in};

    /// The place of the check, if the fault has one: in a switch a bad profile has one, too.
    pub fn place(self) -> Option<Place>
        ensures { result ≡ place_in self.switch self.fault }
    {
        match self.fault {
            ConfigFault::BadProfile if self.switch != 0 => Some(Place {
                part: Part::Top,
                index: 0,
                key: 1,
            }),
            fault => fault.place(),
        }
    }
}

impl fmt::Display for FileFault {
    ghost use Rattle.std.specs.Prelude.{Some};
    ghost use Rattle.afdx_config.specs.FaultText.{file_fault_text};

    ghost output = { λ fault. Some (file_fault_text fault) };

    fn fmt<W: fmt::Write>(&self, f: &mut fmt::Formatter<W>) -> fmt::Result {
        f.write_str(self.fault.word())?;
        if self.switch != 0 {
            write!(f, " switch {}", self.switch)?;
        }
        match self.place() {
            None => Ok(()),
            Some(place) => write!(f, " {place}"),
        }
    }
}

impl std::error::Error for FileFault {}

impl<T: Drop> From<AllocFailed<T>> for FileFault {
    ghost use Rattle.std.specs.Prelude.{◌≡◌};
    ghost use Rattle.afdx_config.specs.declared.fault.ConfigFault.TheVariants.{Memory};

    ghost from_gives = { λ _ e. e.fault ≡ Memory };

    fn from(e: AllocFailed<T>) -> FileFault {
        FileFault {
            switch: 0,
            fault: ConfigFault::from(e),
        }
    }
}

/// What a reading gives, where a fault stands in the switch of this number; 0 is the file's top.
pub(crate) fn in_switch<T: Drop>(
    switch: u8,
    reading: Result<T, ConfigFault>,
) -> Result<T, FileFault>
    ensures { result ≡ spec.in_switch switch reading }
{
    match reading {
        Ok(value) => Ok(value),
        Err(fault) => Err(FileFault { switch, fault }),
    }
}
