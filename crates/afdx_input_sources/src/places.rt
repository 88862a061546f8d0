//! Where the frames of each interface came in, or left.

ghost use Rattle.std.specs.Prelude.{◌≡◌, ◌<◌, ◌≤◌, ℕ, IfOk, IfNone, IfSome, OnOk, OnErr, Ok, Some, None, true, false};
ghost use Rattle.std.specs.Prelude.{length, vec_len};
ghost use Rattle.afdx_input_files.specs.Limits.{most_interfaces};

use crate::placing::place_in;
use afdx_config::Described;
use afdx_frame::Side;
use afdx_input_files::MOST_INTERFACES;
use std::alloc::{AllocError, Global};

/// A port of a switch, at which frames come in, or leave.
#[derive(Clone, Copy, Debug, PartialEq, Eq)]
pub struct TapPort {
    /// The place of the switch among those of its side, from 0; 0 where there is one.
    pub switch: u8,
    /// 1 to 24.
    pub port: u8,
}

/// Where the frames of an interface came in, or where they left.
#[derive(Clone, Copy, Debug, PartialEq, Eq)]
pub enum TapPoint {
    /// Nowhere: they are left out.
    LeftOut,
    /// On this side.
    OnSide(Side),
    /// At this port, 1 to 24, of this side's switch, where there is one.
    AtPort(Side, u8),
    /// At that of several switches of this side whose name `Interfaces::name` gave this number and,
    /// if it is said, at this of its ports, 1 to 24. No frame came in there until a configuration
    /// says which switch it is.
    AtNamed(Side, u16, Option<u8>),
    /// At the switch of this side at this place of the configuration, from 0, and, if it is said,
    /// at this of its ports.
    AtSwitch(Side, u8, Option<u8>),
    /// Nowhere: they left at this port, 1 to 24, of this side's switch, where there is one.
    Left(Side, u8),
}

/// Where the frames of each interface came in, or left, where that is said.
#[derive(Debug, Drop)]
pub struct Interfaces {
    places: Vec<Option<TapPoint>>,
    /// The names of switches that places mean by their numbers.
    names: Vec<String>,
    ghost room: { vec_len places ≡ most_interfaces },
}

impl Interfaces {
    ghost use Rattle.std.specs.Prelude.{◌++◌, ◌∷◌, [], string_bytes, List};
    ghost use Rattle.afdx_input_sources.specs.Places.{first_unused_behind, names_of, place_of};
    ghost use Rattle.afdx_input_sources.specs.Places.{places_but, unused_behind};
    ghost use Rattle.afdx_input_sources.specs.Placing.{AreMisplaced, ArePlaced};

    /// Nothing is said of any interface.
    #[tactic(auto, unfolding(crate::specs::Places::place_of))]
    pub fn new(alloc: Global) -> Result<Interfaces, AllocError>
        ensures { IfOk result (λ interfaces. (k : ℕ) → place_of interfaces k ≡ None) }
    {
        Ok(Interfaces {
            places: vec![in alloc; None; MOST_INTERFACES]?,
            names: Vec::new(alloc),
        })
    }

    /// Where the frames of this interface came in, or left, if that is said.
    #[tactic(auto, unfolding(crate::specs::Places::place_of))]
    pub fn place(&self, interface: u16) -> Option<TapPoint>
        ensures { result ≡ place_of self.now interface }
    {
        match self.places.get(usize::from(interface)) {
            Some(place) => *place,
            None => None,
        }
    }

    /// How many of those that were put aren't among the first `count` interfaces: a recording of so
    /// many has none of them.
    pub fn unused(&self, count: usize) -> u64
        ensures { result ≡ unused_behind count (place_of self.now) }
    {
        let mut unused = 0;
        for interface in count..MOST_INTERFACES {
            if self.place(interface as u16).is_some() {
                unused += 1;
            }
        }
        unused
    }

    /// The least of them.
    pub fn first_unused(&self, count: usize) -> Option<u64>
        ensures { result ≡ first_unused_behind count (place_of self.now) }
    {
        for number in count..MOST_INTERFACES {
            if self.place(number as u16).is_some() {
                return Some(number as u64);
            }
        }
        None
    }

    /// Says where the frames of this interface came in, or left, in the place of what was said
    /// before.
    #[tactic(auto, unfolding(crate::specs::Places::place_of))]
    pub fn put(&mut self, interface: u16, place: TapPoint)
        requires { interface < most_interfaces }
        ensures place { (k : ℕ) →
            place_of self.new k ≡ places_but (place_of self.old) interface place k }
        ensures names { self.new.names ≡ self.old.names }
    {
        self.places[usize::from(interface)] = Some(place);
    }

    /// Takes the name of a switch, of which a place may speak then. Gives its number, from 0; None
    /// if 65,536 were taken. The error says that memory was refused.
    pub fn name(&mut self, name: String) -> Result<Option<u16>, AllocError>
        ensures number { IfOk result (λ given. IfSome given (λ n. n ≡ length (names_of self.old))) }
        ensures none { IfOk result (λ given. IfNone given (65536 ≤ length (names_of self.old))) }
        ensures names { IfOk result (λ given. IfSome given (λ n.
            names_of self.new ≡ names_of self.old ++ string_bytes name ∷ [])) }
        ensures places { self.new.places ≡ self.old.places }
    {
        let Ok(number) = u16::try_from(self.names.len()) else {
            return Ok(None);
        };
        self.names.push(name)?;
        Ok(Some(number))
    }

    /// Puts each place where it is in a configuration: a name is that of a switch. False: one is
    /// none there. Where there is one switch on a side, that is one with a name; where there are
    /// several, a port without a name, a name that no switch has, a port with a cable, or one where
    /// frames left.
    pub fn place_in(&mut self, described: &Described) -> bool
        ensures placed { result ≡ true → ArePlaced described.now self.old self.new }
        ensures misplaced { result ≡ false → AreMisplaced described.now self.old }
    {
        for k in 0..MOST_INTERFACES {
            let interface = k as u16;
            if let Some(place) = self.place(interface) {
                let Some(there) = place_in(described, self.names.as_slice(), place) else {
                    return false;
                };
                self.put(interface, there);
            }
        }
        true
    }
}
