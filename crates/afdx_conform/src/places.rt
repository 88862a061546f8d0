//! Places in a list, which are found by keys.

ghost use Rattle.std.specs.Prelude.{◌≡◌, ◌≤◌, ◌++◌, ◌∷◌, [], ℕ, Bool, List, OnOk};
ghost use Rattle.std.specs.Prelude.{if◌then◌else◌, drop, take};
ghost use Rattle.std.specs.Str.{bytes_eq};
ghost use Rattle.afdx_conform.specs.KnownBytes.{StandAt, kept_at};
ghost use Rattle.afdx_conform.specs.declared.arrived.Arrived.{Arrived};

use std::alloc::{AllocError, Global};
use std::collections::BTreeMap;

/// Places in a list, by the keys of what stands there.
#[derive(Drop)]
pub(crate) struct KeyPlaces {
    alloc: Global,
    by_key: BTreeMap<Vec<u8>, Vec<usize>>,
}

impl KeyPlaces {
    /// None yet.
    pub(crate) fn new(alloc: Global) -> KeyPlaces
        ensures { (key : List ℕ) → kept_at result key ≡ [] }
    {
        KeyPlaces {
            alloc,
            by_key: BTreeMap::new(alloc),
        }
    }

    /// One more place, behind those of its key. Fails only out of memory.
    pub(crate) fn add(&mut self, key: &[u8], place: usize) -> Result<(), AllocError>
        ensures { OnOk result ((other : List ℕ) → kept_at self.new other
            ≡ (if bytes_eq key.now other then kept_at self.old other ++ place ∷ []
            else kept_at self.old other)) }
    {
        if let Some(places) = self.by_key.get_mut(key) {
            places.push(place)?;
            return Ok(());
        }
        let places = Vec::from_slice(self.alloc, &[place])?;
        let copy = Vec::from_slice(self.alloc, key)?;
        self.by_key.insert(copy, places)?;
        Ok(())
    }

    /// The places of this key, in the order in which they were added.
    pub(crate) fn at(&self, key: &[u8]) -> &[usize]
        ensures { result.now ≡ kept_at self.now key.now }
    {
        match self.by_key.get(key) {
            Some(places) => places.as_slice(),
            None => &[],
        }
    }
}

/// Of places that ascend those that are no less than `least`.
pub(crate) fn no_less(places: &[usize], least: usize) -> &[usize]
    ensures { (test : Arrived → Bool) (arrivals : List Arrived) →
        StandAt test 0 arrivals places.now →
        StandAt test least (drop least arrivals) result.now }
{
    let count = places.partition_point(|place| *place < least);
    &places[count..]
}

/// Of places that ascend those that are less than `most`.
pub(crate) fn less(places: &[usize], most: usize) -> &[usize]
    ensures { (test : Arrived → Bool) (arrivals : List Arrived) →
        StandAt test 0 arrivals places.now →
        StandAt test 0 (take most arrivals) result.now }
{
    let count = places.partition_point(|place| *place < most);
    &places[..count]
}
