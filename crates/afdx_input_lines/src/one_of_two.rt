//! Faults of one of two inputs that are read at once.

use crate::list_fault::ListFault;
use crate::recording_fault::RecordingFault;
use crate::role::Role;
use afdx_frame::Side;
use std::fmt;
use thiserror::Error;

/// Which of two inputs that are read at once.
#[derive(Clone, Copy, Debug, PartialEq, Eq)]
pub enum Which {
    /// The recording of network A.
    A,
    /// The recording of network B.
    B,
    /// The list or recording of what came in.
    Came,
    /// The list or recording of what left.
    Left,
}

impl Which {
    ghost use Rattle.std.specs.Prelude.{◌≡◌};
    ghost use Rattle.afdx_input_lines.specs.FaultTexts.{which_text};

    /// It in a word: `A`, `B`, `came` or `left`.
    pub fn word(self) -> &'static str
        ensures { result.now ≡ which_text self }
    {
        match self {
            Which::A => "A",
            Which::B => "B",
            Which::Came => "came",
            Which::Left => "left",
        }
    }
}

impl fmt::Display for Which {
    ghost use Rattle.std.specs.Prelude.{Some};
    ghost use Rattle.afdx_input_lines.specs.FaultTexts.{which_text};

    ghost output = { λ which. Some (which_text which) };

    fn fmt<W: fmt::Write>(&self, f: &mut fmt::Formatter<W>) -> fmt::Result {
        f.write_str(self.word())
    }
}

impl From<Side> for Which {
    ghost use Rattle.std.specs.Prelude.{◌≡◌};
    ghost use Rattle.afdx_input_lines.specs.Faults.{of_side};

    ghost from_gives = { λ side which. which ≡ of_side side };

    fn from(side: Side) -> Which {
        match side {
            Side::A => Which::A,
            Side::B => Which::B,
        }
    }
}

impl From<Role> for Which {
    ghost use Rattle.std.specs.Prelude.{◌≡◌};
    ghost use Rattle.afdx_input_lines.specs.Faults.{by_role};

    ghost from_gives = { λ role which. which ≡ by_role role };

    fn from(role: Role) -> Which {
        match role {
            Role::Came => Which::Came,
            Role::Left => Which::Left,
        }
    }
}

/// What is wrong with one of two inputs that are read at once, and with which.
///
/// Its text is the line of the fault on standard error, without its line feed.
#[derive(Clone, Copy, Debug, PartialEq, Eq, Error)]
pub enum OneOfTwo {
    /// This recording has this fault, or a frame of it.
    #[error("{1} {0}")]
    Recording(Which, RecordingFault),
    /// This list has this fault.
    #[error("list {0} {1}")]
    List(Which, ListFault),
}
