//! Lists by key, all threaded through one set of places.
ghost use Rattle.std.specs.Prelude.{◌≡◌, ℕ, ◌≤◌, ◌<◌, List, [], ◌∷◌, ◌++◌, IfOk, OnOk};

use crate::indices::{NOWHERE, place_at_index, put, put_end, widen};
use std::alloc::{AllocError, Global};

/// Doubly linked lists, one for each key. A member is known by its place; the places before and behind
/// it, and those of the first and the last member of each key, stand in lists of places.
#[derive(Debug, Drop)]
pub(crate) struct Chains {
    firsts: Vec<u32>,
    lasts: Vec<u32>,
    nexts: Vec<u32>,
    prevs: Vec<u32>,
}

impl Chains {
    ghost use Rattle.voy_link.specs.Indices.{nowhere};
    ghost use Rattle.voy_link.specs.Links.{first_or, last_or, times};
    ghost use Rattle.voy_link.specs.Chains.{HasMembers, HasPlaces};

    /// Lists for so many keys, with no member and no place.
    pub(crate) fn new(alloc: Global, keys: u32) -> Result<Chains, AllocError>
        ensures { IfOk result (λ made. HasMembers 0 keys made []) }
    {
        let mut firsts = Vec::new(alloc);
        widen(&mut firsts, keys)?;
        let mut lasts = Vec::new(alloc);
        widen(&mut lasts, keys)?;
        Ok(Chains {
            firsts,
            lasts,
            nexts: Vec::new(alloc),
            prevs: Vec::new(alloc),
        })
    }

    /// Makes room for members at the first `places` places. The members stay, also after an error.
    pub(crate) fn widen(&mut self, places: u32) -> Result<(), AllocError>
        ensures members { (n k : ℕ) (ms : List (ℕ × ℕ)) → HasMembers n k self.old ms → HasMembers n k self.new ms }
        ensures ok { OnOk result (HasPlaces self.new places) }
    {
        widen(&mut self.nexts, places)?;
        widen(&mut self.prevs, places)
    }

    /// Puts a member at the end of the list of its key.
    pub(crate) fn append(&mut self, place: u32, key: u32)
        ensures { (n k : ℕ) (ms : List (ℕ × ℕ)) → HasMembers n k self.old ms → place < n → key < k → times place ms ≡ 0
            → HasMembers n k self.new (ms ++ (place, key) ∷ []) }
    {
        let last = place_at_index(&self.lasts, key);
        put(&mut self.prevs, place, last);
        put(&mut self.lasts, key, place);
        put(&mut self.nexts, place, NOWHERE);
        put(&mut self.nexts, last, place);
        put_end(&mut self.firsts, last, key, place);
    }

    /// Takes a member out of the list of its key.
    pub(crate) fn take_out(&mut self, place: u32, key: u32)
        ensures { (n k : ℕ) (before behind : List (ℕ × ℕ)) → HasMembers n k self.old (before ++ (place, key) ∷ behind)
            → HasMembers n k self.new (before ++ behind) }
    {
        let prev = place_at_index(&self.prevs, place);
        let next = place_at_index(&self.nexts, place);
        put(&mut self.nexts, prev, next);
        put(&mut self.prevs, next, prev);
        put_end(&mut self.firsts, prev, key, next);
        put_end(&mut self.lasts, next, key, prev);
    }

    /// The place of the first member with this key, or `NOWHERE`.
    pub(crate) fn first(&self, key: u32) -> u32
        ensures { (n k : ℕ) (ms : List (ℕ × ℕ)) → HasMembers n k self.now ms → result ≡ first_or nowhere key ms }
    {
        place_at_index(&self.firsts, key)
    }

    /// The place of the last member with this key, or `NOWHERE`.
    pub(crate) fn last(&self, key: u32) -> u32
        ensures { (n k : ℕ) (ms : List (ℕ × ℕ)) → HasMembers n k self.now ms → result ≡ last_or nowhere key ms }
    {
        place_at_index(&self.lasts, key)
    }

    /// The place of the member before this one in the list of its key, or `NOWHERE`.
    pub(crate) fn prev(&self, place: u32) -> u32
        ensures { (n k key : ℕ) (before behind : List (ℕ × ℕ)) → HasMembers n k self.now (before ++ (place, key) ∷ behind)
            → result ≡ last_or nowhere key before }
    {
        place_at_index(&self.prevs, place)
    }
}
