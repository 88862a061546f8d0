//! Why a port doesn't take a message.

use std::alloc::AllocError;
use std::fmt;

/// Why a port didn't take a message.
#[derive(Clone, Copy, Debug, PartialEq, Eq)]
pub enum PutFault {
    /// The queue holds as many messages as its depth.
    Full,
    /// There was no memory for the message.
    Memory,
}

impl PutFault {
    ghost use Rattle.std.specs.Prelude.{◌≡◌};
    ghost use Rattle.afdx_comport.specs.Words.{put_word};

    /// It in a word.
    pub fn word(self) -> &'static str
        ensures { result.now ≡ put_word self }
    {
        match self {
            PutFault::Full => "full",
            PutFault::Memory => "memory",
        }
    }
}

impl fmt::Display for PutFault {
    ghost use Rattle.std.specs.Prelude.{Some};
    ghost use Rattle.afdx_comport.specs.Words.{put_word};

    ghost output = { λ fault. Some (put_word fault) };

    fn fmt<W: fmt::Write>(&self, f: &mut fmt::Formatter<W>) -> fmt::Result {
        f.write_str(self.word())
    }
}

impl std::error::Error for PutFault {}

impl From<AllocError> for PutFault {
    ghost use Rattle.std.specs.Prelude.{◌≡◌};
    ghost use Rattle.afdx_comport.specs.declared.fault.PutFault.TheVariants.{Memory};

    ghost from_gives = { λ error fault. fault ≡ Memory };

    fn from(_error: AllocError) -> PutFault {
        PutFault::Memory
    }
}
