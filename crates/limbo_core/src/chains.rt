ghost use Rattle.std.specs.Prelude.{◌≡◌, ◌≢◌, ℕ, ◌-◌, ◌<◌, ◌≤◌, List, [], ◌∷◌, true, false, IfOk, length, replicate, slice_index, slice_get, slice_set, Some};
ghost use Rattle.limbo_core.specs.Chains.{IsChain, IsInNoOther, IsOutside, Leads};

use std::alloc::{AllocError, Global};
use std::marker::Model;

/// Heads, and a link per place. Places are numbered from 1, and 0 is none. Contracts see the heads, for
/// each place the link that it has or will have, and which links are pending.
#[derive(Debug, Drop)]
pub struct Chains {
    heads: Vec<u32>,
    next: Vec<u32>,
    pending: Vec<bool>,
}

impl Model for Chains {
    ghost use Rattle.limbo_core.specs.Chains.{AreChained, Linked};

    ghost Value = { Linked };

    ghost view = { λ c. record { heads = c.heads.items; next = c.next.items; pending = c.pending.items } };

    ghost invariant = { λ c. AreChained (record { heads = c.heads.items; next = c.next.items; pending = c.pending.items }) };
}

impl Chains {
    /// Empty chains at all heads, and no link pending. An `Err` is want of memory, and no other call
    /// takes any.
    pub fn open(alloc: Global, heads: u32, places: u32) -> Result<Chains, AllocError>
        ensures heads { IfOk result (λ c. length c.heads ≡ heads) }
        ensures places { IfOk result (λ c. length c.next ≡ places) }
        ensures empty { IfOk result (λ c. (head : ℕ) → IsChain c head []) }
        ensures outside { IfOk result (λ c. (place : ℕ) → IsOutside c place) }
        ensures pending { IfOk result (λ c. c.pending ≡ replicate places false) }
    {
        Ok(Chains {
            heads: vec![in alloc; 0; heads as usize]?,
            next: vec![in alloc; 0; places as usize]?,
            pending: vec![in alloc; false; places as usize]?,
        })
    }

    /// Puts the place at the head, and answers what stood there. The link of the place is pending until
    /// `link` stores that answer.
    pub fn swap_in(&mut self, head: u32, place: u32) -> u32
        requires head { head < length self.old.heads }
        requires some_place { 1 ≤ place }
        requires place { place ≤ length self.old.next }
        requires outside { IsOutside self.old place }
        ensures old_head { result ≡ slice_index self.old.heads head }
        ensures heads { self.new.heads ≡ slice_set self.old.heads head place }
        ensures next { self.new.next ≡ slice_set self.old.next (place - 1) result }
        ensures pending { self.new.pending ≡ slice_set self.old.pending (place - 1) true }
        ensures pushed { (chain : List ℕ) → IsChain self.old head chain →
            IsChain self.new head (place ∷ chain) }
        ensures others { (other : ℕ) (chain : List ℕ) → other ≢ head → IsChain self.old other chain →
            IsChain self.new other chain }
        ensures outside { (other : ℕ) → other ≢ place → IsOutside self.old other → IsOutside self.new other }
        ensures only_here { IsInNoOther self.new head place }
    {
        let at = place as usize - 1;
        let old = self.heads[head as usize];
        self.heads[head as usize] = place;
        self.next[at] = old;
        self.pending[at] = true;
        old
    }

    /// Stores the link of a place, which is then no longer pending.
    pub fn link(&mut self, place: u32, next: u32)
        requires some_place { 1 ≤ place }
        requires pending { slice_get self.old.pending (place - 1) ≡ Some true }
        requires answered { next ≡ slice_index self.old.next (place - 1) }
        ensures heads { self.new.heads ≡ self.old.heads }
        ensures next { self.new.next ≡ self.old.next }
        ensures pending { self.new.pending ≡ slice_set self.old.pending (place - 1) false }
    {
        let at = place as usize - 1;
        self.next[at] = next;
        self.pending[at] = false;
    }

    /// Empties the head, and answers what stood there: the first place of its chain, or 0.
    pub fn swap_out(&mut self, head: u32) -> u32
        requires { head < length self.old.heads }
        ensures old_head { result ≡ slice_index self.old.heads head }
        ensures heads { self.new.heads ≡ slice_set self.old.heads head 0 }
        ensures next { self.new.next ≡ self.old.next }
        ensures pending { self.new.pending ≡ self.old.pending }
        ensures taken { (chain : List ℕ) → IsChain self.old head chain → Leads self.new.next result chain }
        ensures empty { IsChain self.new head [] }
        ensures outside { (place : ℕ) → IsInNoOther self.old head place → IsOutside self.new place }
    {
        let old = self.heads[head as usize];
        self.heads[head as usize] = 0;
        old
    }

    /// The place behind this one, or 0.
    pub fn next(&self, place: u32) -> u32
        requires some_place { 1 ≤ place }
        requires stored { slice_get self.now.pending (place - 1) ≡ Some false }
        ensures { result ≡ slice_index self.now.next (place - 1) }
    {
        self.next[place as usize - 1]
    }
}
