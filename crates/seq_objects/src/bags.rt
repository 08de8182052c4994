ghost use Rattle.std.specs.Prelude.{◌≡◌, ℕ, List, [], ◌∷◌, ◌++◌, IfOk, OnErr, IsOk};

use pass_book::Object;
use std::alloc::{AllocError, Global};
use std::marker::Model;

/// What a bag can be asked.
#[derive(Clone, Copy, Debug, PartialEq, Eq)]
pub enum BagCall {
    /// Puts an item in.
    Add { item: u64 },
    /// Takes any one item.
    Remove,
}

/// What a bag answers.
#[derive(Clone, Copy, Debug, PartialEq, Eq)]
pub enum BagReply {
    Added,
    Took { item: u64 },
    /// There was nothing to take.
    Empty,
}

/// A bag for one caller. Contracts see its items, the newest last.
#[derive(Debug, Drop)]
pub struct PlainBag {
    items: Vec<u64>,
}

impl Model for PlainBag {
    ghost Value = { List ℕ };

    ghost view = { λ b. b.items.items };
}

impl PlainBag {
    /// An empty bag.
    pub fn open(alloc: Global) -> PlainBag
        ensures { result ≡ [] }
    {
        PlainBag {
            items: Vec::new(alloc),
        }
    }

    /// Makes the call; a removal takes the newest item. Only an Add can want memory, and then the bag
    /// is as before.
    #[tactic(auto, using(crate::proofs::NewestLast::one_more, crate::proofs::NewestLast::one_fewer))]
    pub fn act(&mut self, call: BagCall) -> Result<BagReply, AllocError>
        ensures step { IfOk result (λ reply. ⟦<PlainBag as Object>⟧.step self.old call reply self.new) }
        ensures newest { (item : ℕ) → result ≡ Ok (BagReply.Took item) → self.old ≡ self.new ++ item ∷ [] }
        ensures sure { call ≡ BagCall.Remove → IsOk result }
        ensures err { OnErr result (self.new ≡ self.old) }
    {
        match call {
            BagCall::Add { item } => {
                self.items.push(item)?;
                Ok(BagReply::Added)
            }
            BagCall::Remove => {
                let Some(item) = self.items.pop() else {
                    return Ok(BagReply::Empty);
                };
                Ok(BagReply::Took { item })
            }
        }
    }

    /// The items, the newest last.
    pub fn items(&self) -> &[u64]
        ensures { result.now ≡ self.now }
    {
        self.items.as_slice()
    }
}
