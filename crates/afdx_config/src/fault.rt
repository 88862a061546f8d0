//! Why a configuration is refused.

use crate::key_tables::BAD_PROFILE;
use std::alloc::{AllocError, AllocFailed};
use std::fmt;

/// The part of a configuration that a check looks at.
#[derive(Clone, Copy, Debug, PartialEq, Eq)]
pub enum Part {
    Top,
    System,
    Link,
    Port,
    Neighbour,
}

impl Part {
    ghost use Rattle.std.specs.Prelude.{◌≡◌};
    ghost use Rattle.afdx_config.specs.FaultText.{part_text};

    /// It in a word: `top`, `system`, `link`, `port` or `neighbour`.
    pub fn word(self) -> &'static str
        ensures { result.now ≡ part_text self }
    {
        match self {
            Part::Top => "top",
            Part::System => "system",
            Part::Link => "link",
            Part::Port => "port",
            Part::Neighbour => "neighbour",
        }
    }
}

impl fmt::Display for Part {
    ghost use Rattle.std.specs.Prelude.{Some};
    ghost use Rattle.afdx_config.specs.FaultText.{part_text};

    ghost output = { λ part. Some (part_text part) };

    fn fmt<W: fmt::Write>(&self, f: &mut fmt::Formatter<W>) -> fmt::Result {
        f.write_str(self.word())
    }
}

/// Where a check looks: the part, the table's place in it from 1 (0 for the top), and the key's
/// number (0 for a key that isn't known).
#[derive(Clone, Copy, Debug, PartialEq, Eq)]
pub struct Place {
    pub part: Part,
    pub index: usize,
    pub key: u8,
}

impl fmt::Display for Place {
    ghost use Rattle.std.specs.Prelude.{Some};
    ghost use Rattle.afdx_config.specs.FaultText.{place_text};

    ghost output = { λ place. Some (place_text place) };

    fn fmt<W: fmt::Write>(&self, f: &mut fmt::Formatter<W>) -> fmt::Result {
        write!(f, "{} {} key {}", self.part, self.index, self.key)
    }
}

/// Why a configuration is refused: the first check that fails, or want of memory.
///
/// It prints as `NotToml`, `Missing top 0 key 2` and the like.
#[derive(Clone, Copy, Debug, PartialEq, Eq)]
pub enum ConfigFault {
    /// The bytes are no UTF-8, or no TOML.
    NotToml,
    /// The profile is absent, or none that is known.
    BadProfile,
    /// A key that is required is absent.
    Missing(Place),
    /// The value isn't of the key's kind.
    WrongKind(Place),
    /// The table has a key that isn't known.
    UnknownKey(Place),
    /// The value is outside the key's range.
    OutOfRange(Place),
    /// What has to be different stood earlier.
    Twice(Place),
    /// The text names no system.
    NoSuchSystem(Place),
    /// A growth of memory was refused.
    Memory,
}

/// Each fault at its own place, the order of `ConfigFault`: in a word, the form of its line (`?` is
/// the word, `n` a number, `*` a part), and what it means, with what may be done. What a fault with
/// a place means is said of all places alike; want of memory has a line that isn't of a
/// configuration.
pub const CONFIG_FAULTS: [(&str, &str, &str); 9] = [
    (
        "NotToml",
        "config ?",
        "\
The text isn't TOML, or not UTF-8; a key that stands twice in one table is no TOML either.
With --explain the line and the column follow, where the text stops being TOML.",
    ),
    ("BadProfile", "config ?", BAD_PROFILE),
    (
        "Missing",
        "config ? * n key n",
        "\
The configuration has a fault: the key is absent.
Add it to the table that the line names: system, link or port, counted from 1 in the
order of the file.",
    ),
    (
        "WrongKind",
        "config ? * n key n",
        "\
The configuration has a fault: the value isn't a whole number, a text, an array of texts or
an array of tables, as its key wants it.
Texts stand in quotes, numbers don't. Tables are counted from 1 in the order of the file.",
    ),
    (
        "UnknownKey",
        "config ? * n key 0",
        "\
The configuration has a fault: the table has a key that isn't one of its keys.
Tables are counted from 1 in the order of the file; 0 is the top.",
    ),
    (
        "OutOfRange",
        "config ? * n key n",
        "\
The configuration has a fault: the value is outside its range; to is empty; a port entry's
link is no link's vl, or that link doesn't go to the system.
Tables are counted from 1 in the order of the file.",
    ),
    (
        "Twice",
        "config ? * n key n",
        "\
The configuration has a fault: a system's name, port or id, or a link's vl, stood earlier;
a name stands twice in to, or is the sender's; a port entry's system, link and udp stood
together earlier (key 3).
The table that the line names is the second one, counted from 1 in the order of the file.",
    ),
    (
        "NoSuchSystem",
        "config ? * n key n",
        "\
The configuration has a fault: from, a name in to, or a port entry's system names no system.
Correct the name, or add the system. Tables are counted from 1 in the order of the file.",
    ),
    ("Memory", "memory", "There was no memory."),
];

impl ConfigFault {
    ghost use Rattle.std.specs.Prelude.{◌≡◌};
    ghost use Rattle.afdx_config.specs.FaultText.{fault_word, place_of};

    /// Its row, which stands at its place.
    #[tactic(auto, unfolding(crate::specs::FaultText::fault_words))]
    fn row(self) -> &'static (&'static str, &'static str, &'static str)
        ensures word { result.now.0.now ≡ fault_word self }
    {
        match self {
            ConfigFault::NotToml => &CONFIG_FAULTS[0],
            ConfigFault::BadProfile => &CONFIG_FAULTS[1],
            ConfigFault::Missing(_) => &CONFIG_FAULTS[2],
            ConfigFault::WrongKind(_) => &CONFIG_FAULTS[3],
            ConfigFault::UnknownKey(_) => &CONFIG_FAULTS[4],
            ConfigFault::OutOfRange(_) => &CONFIG_FAULTS[5],
            ConfigFault::Twice(_) => &CONFIG_FAULTS[6],
            ConfigFault::NoSuchSystem(_) => &CONFIG_FAULTS[7],
            ConfigFault::Memory => &CONFIG_FAULTS[8],
        }
    }

    /// It in a word, without the place of its key.
    pub fn word(self) -> &'static str
        ensures { result.now ≡ fault_word self }
    {
        self.row().0
    }

    /// The place of the check, if the fault has one.
    pub fn place(self) -> Option<Place>
        ensures { result ≡ place_of self }
    {
        match self {
            ConfigFault::NotToml | ConfigFault::BadProfile | ConfigFault::Memory => None,
            ConfigFault::Missing(place)
            | ConfigFault::WrongKind(place)
            | ConfigFault::UnknownKey(place)
            | ConfigFault::OutOfRange(place)
            | ConfigFault::Twice(place)
            | ConfigFault::NoSuchSystem(place) => Some(place),
        }
    }
}

impl fmt::Display for ConfigFault {
    ghost use Rattle.std.specs.Prelude.{Some};
    ghost use Rattle.afdx_config.specs.FaultText.{fault_text};

    ghost output = { λ fault. Some (fault_text fault) };

    fn fmt<W: fmt::Write>(&self, f: &mut fmt::Formatter<W>) -> fmt::Result {
        let word = self.word();
        match self.place() {
            None => f.write_str(word),
            Some(place) => write!(f, "{word} {place}"),
        }
    }
}

impl std::error::Error for ConfigFault {}

impl From<AllocError> for ConfigFault {
    ghost use Rattle.std.specs.Prelude.{◌≡◌};
    ghost use Rattle.afdx_config.specs.declared.fault.ConfigFault.TheVariants.{Memory};

    ghost from_gives = { λ _ e. e ≡ Memory };

    fn from(_e: AllocError) -> ConfigFault {
        ConfigFault::Memory
    }
}

impl<T: Drop> From<AllocFailed<T>> for ConfigFault {
    ghost use Rattle.std.specs.Prelude.{◌≡◌};
    ghost use Rattle.afdx_config.specs.declared.fault.ConfigFault.TheVariants.{Memory};

    ghost from_gives = { λ _ e. e ≡ Memory };

    fn from(_e: AllocFailed<T>) -> ConfigFault {
        ConfigFault::Memory
    }
}
