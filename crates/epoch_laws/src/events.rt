use crate::tokens::Token;
use pgas_base::Ptr;

/// What happens to tokens and objects. An event speaks of no epoch, list or election.
#[derive(Clone, Copy, Debug, PartialEq, Eq)]
pub enum EpochEvent {
    /// The caller has the token from now on.
    Registered { token: Token },
    Unregistered { token: Token },
    Pinned { token: Token },
    Unpinned { token: Token },
    /// A free object is the caller's own.
    Given { ptr: Ptr },
    /// The caller's own object may be held by all.
    Shown { ptr: Ptr },
    /// The caller holds a shown object until it unpins the token.
    Held { token: Token, ptr: Ptr },
    /// A shown object is to be released once every token that is pinned now was unpinned.
    Deferred { token: Token, ptr: Ptr },
    /// A deferred object is free again, with a count that is one higher, or worn with the last count.
    Freed { ptr: Ptr },
    /// The caller's own object, never shown, is free again.
    Returned { ptr: Ptr },
}

/// What a run of the machine lists, in the order of its steps.
#[derive(Clone, Copy, Debug, PartialEq, Eq)]
pub enum Item {
    /// The tag of a `Deferred` is the epoch that its deferral read, that of a `Pinned` the epoch that the
    /// pin announced, and that of every other event 0.
    Event {
        seat: u32,
        event: EpochEvent,
        tag: u64,
    },
    /// The global epoch rose to this.
    Advance {
        seat: u32,
        epoch: u64,
    },
    /// The seat won the global election, or that of its token's locale.
    Claim {
        seat: u32,
        global: bool,
    },
    /// The seat left an election that it had won.
    Leave {
        seat: u32,
        global: bool,
    },
}
