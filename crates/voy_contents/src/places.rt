ghost use Rattle.std.specs.Prelude.{◌≡◌, [], Some, length, map, IfOk, OnErr, OnOk};
ghost use Rattle.std.specs.BTreeMap.{insert_entry, is_at};
ghost use Rattle.std.specs.List.Sorted.{IsStrictlySortedBy};
ghost use Rattle.std.specs.Map.{keys_of, lookup, remove_entry, set_value};
ghost use Rattle.std.specs.Map.Iter.{ShowsInOrder, deref};
ghost use Rattle.std.specs.Option.{option_copied};
ghost use Rattle.voy_contents.specs.Places.{place_back};

use std::alloc::{AllocError, Global};
use std::collections::BTreeMap;
use std::collections::btree_map::Values;
use std::marker::Model;
use std::mem::replace;
use voy_schema::Copies;

/// Values by key, each at a place of its own. What a place held before it was set is known, so that it can be
/// set back without memory.
///
/// Contracts see it as the list of its keys and values, by ascending key.
#[derive(Drop)]
pub(crate) struct Places<K: Ord, V> {
    map: BTreeMap<K, V>,
}

impl<K: Ord, V> Model for Places<K, V> {
    ghost use Rattle.std.specs.Prelude.{List};
    ghost use Rattle.std.specs.Coded.{coded_list, coded×};

    ghost Value = { List (K × V) };

    ghost coded = { coded_list (coded× K.code V.code) };

    ghost view = { λ s. s.map.entries };
}

impl<K: Ord + Drop, V: Drop> Places<K, V> {
    /// No places.
    pub(crate) fn new(alloc: Global) -> Places<K, V>
        ensures { result ≡ [] }
    {
        Places {
            map: BTreeMap::new(alloc),
        }
    }

    /// How many places there are.
    pub(crate) fn count(&self) -> usize
        ensures { result ≡ length self.now }
    {
        self.map.len()
    }

    /// The value at `key`, where there is a place for it.
    pub(crate) fn get(&self, key: &K) -> Option<&V>
        ensures value { option_copied result ≡ lookup (is_at (K.cmp key.now)) self.now }
        ensures ordered { IsStrictlySortedBy K.cmp (keys_of self.now) }
    {
        let _count = self.map.len();
        self.map.get(key)
    }

    /// The values of all places, by ascending key.
    pub(crate) fn values(&self) -> Values<'_, K, V>
        ensures rest { result ≡ map (λ s. s.1) self.now }
        ensures runs { ShowsInOrder (deref {X = V}) }
    {
        self.map.values()
    }

    /// Sets the value at `key` where there is a place for it, and gives what the place held. It takes no memory.
    #[tactic(auto, using(crate::proofs::PlaceLemmas::set_none))]
    pub(crate) fn set(&mut self, key: &K, value: V) -> Option<V>
        ensures held { result ≡ lookup (is_at (K.cmp key.now)) self.old }
        ensures new { self.new ≡ set_value (is_at (K.cmp key.now)) self.old value }
        ensures ordered { IsStrictlySortedBy K.cmp (keys_of self.old) }
    {
        match self.map.get_mut(key) {
            Some(place) => Some(replace(place, value)),
            None => None,
        }
    }

    /// Lets the place for `key` hold again what it held, or takes it away where there was none. It takes no memory.
    pub(crate) fn set_back(&mut self, key: &K, held: Option<V>)
        ensures { self.new ≡ place_back K.cmp self.old key.now held }
    {
        match held {
            Some(value) => {
                let _now = self.set(key, value);
            }
            None => self.take_away(key),
        }
    }

    /// Takes away the place for `key`, if there is one.
    pub(crate) fn take_away(&mut self, key: &K)
        ensures new { self.new ≡ remove_entry (is_at (K.cmp key.now)) self.old }
        ensures was_ordered { IsStrictlySortedBy K.cmp (keys_of self.old) }
        ensures ordered { IsStrictlySortedBy K.cmp (keys_of self.new) }
    {
        let _count = self.map.len();
        let _taken = self.map.remove(key);
    }
}

impl<K: Ord + Copies + Drop, V: Drop> Places<K, V> {
    /// Puts the value at a copy of `key`, and gives what was there; `None` where there was no place. After an
    /// error nothing changed.
    pub(crate) fn put(&mut self, key: &K, value: V) -> Result<Option<V>, AllocError>
        ensures held { IfOk result (λ held. held ≡ lookup (is_at (K.cmp key.now)) self.old) }
        ensures new { OnOk result (self.new ≡ insert_entry K.cmp self.old key.now value) }
        ensures err { OnErr result (self.new ≡ self.old) }
        ensures was_ordered { IsStrictlySortedBy K.cmp (keys_of self.old) }
        ensures ordered { IsStrictlySortedBy K.cmp (keys_of self.new) }
    {
        let _count = self.map.len();
        match self.map.insert(key.copy()?, value) {
            Ok(held) => Ok(held),
            Err(_refused) => Err(AllocError),
        }
    }
}
