ghost use Rattle.std.specs.Prelude.{◌≡◌, ◌≢◌, ◌<◌, ◌↔◌, ℕ, false, IsTrue, IfNone, IfSome, None, Some};
ghost use Rattle.epoch_laws.specs.Places.{place_in, place_of, pointer_at, same_place};
ghost use Rattle.epoch_laws.specs.HomeSteps.{Waits};
ghost use Rattle.epoch_laws.specs.ReclaimSteps.{has_global};
ghost use Rattle.epoch_laws.specs.Seats.{is_reclaiming};
ghost use Rattle.epoch_laws.specs.StackSteps.{last_stack_count};
ghost use Rattle.epoch_laws.specs.TakeSteps.{LookedAt, is_free, is_free_with, look_count};
ghost use Rattle.epoch_core.specs.Leaves.{IsBetween, Leaves};
ghost use Rattle.std.specs.List.{list_any};
ghost use Rattle.std.specs.Option.{option_map};
ghost use Rattle.epoch_core.specs.Looks.{looked_pointer};
ghost use Rattle.epoch_core.specs.Objects.{object_place};
ghost use Rattle.epoch_core.specs.Opened.{IsNewSeat};
ghost use Rattle.epoch_core.specs.Phases.{phase_of, stack_phase_of};

use crate::objects::{Object, names};
use arrayvec::ArrayVec;
use epoch_laws::Token;
use pgas_base::Ptr;
use pool_core::{FreeWord, Header, State as HeaderState};

/// How many objects a seat may hold.
pub(crate) const MOST_HELD: usize = 4;

/// Where a seat stands.
#[derive(Clone, Copy, Debug, PartialEq, Eq)]
pub(crate) enum Phase {
    Idle,
    Registered,
    PinLooked,
    Pinned,
    DeferLooked,
    DeferSwapped,
    WonLocal,
    LostGlobal,
    WonGlobal,
    Scanning,
    Stopped,
    Advanced,
    LeftGlobal,
}

/// An object that a look at its header read as free, with this count.
#[derive(Clone, Copy, Debug)]
pub(crate) struct Looked {
    pub(crate) at: Object,
    pub(crate) count: u32,
}

/// The present or last deferral of a seat.
#[derive(Clone, Copy, Debug)]
pub(crate) struct Deferral {
    pub(crate) pointer: Option<Ptr>,
    pub(crate) tag: u64,
    /// The old head of the list.
    pub(crate) old: u64,
}

/// The present or last reclaim of a seat.
#[derive(Clone, Copy, Debug)]
pub(crate) struct Reclaim {
    pub(crate) epoch: u64,
    /// The next token to scan.
    pub(crate) scan: Token,
    /// The next locale to spread to.
    pub(crate) spread: u8,
    /// The next locale to collect from.
    pub(crate) collected: u8,
    /// The word of the current object of the collected chain, 0 at its end.
    pub(crate) chain: u64,
    /// How many objects it has walked over and not released.
    pub(crate) walked: u32,
}

#[derive(Clone, Copy, Debug, PartialEq, Eq)]
pub(crate) enum StackPhase {
    NoLook,
    Looked,
    NextRead,
}

/// The last look of a seat at a stack of free objects.
#[derive(Clone, Copy, Debug)]
pub(crate) struct StackLook {
    pub(crate) phase: StackPhase,
    pub(crate) locale: u8,
    pub(crate) head: FreeWord,
    /// The next word of the object on top.
    pub(crate) next: u64,
}

/// The chains of a seat that go home, or come from there.
#[derive(Clone, Copy, Debug)]
pub(crate) struct Homing {
    /// The tail of a chain whose link to the old head was not stored yet.
    pub(crate) tail: Option<Ptr>,
    pub(crate) old: u64,
    /// The word of the current object of the taken chain, 0 at its end.
    pub(crate) chain: u64,
}

/// What the caller of a seat knows, with numbers in place of lists: which objects it owns, has in its hand
/// or walked over is marked at the objects.
#[derive(Debug, Drop)]
pub(crate) struct Seat {
    pub(crate) phase: Phase,
    pub(crate) token: Token,
    /// The epoch that its last PinLook read.
    pub(crate) announced: u64,
    /// What its last TakeLook read as free.
    pub(crate) free_look: Option<Looked>,
    /// The words of pointers to the objects that it holds, the last hold at the end.
    pub(crate) held: ArrayVec<u64, MOST_HELD>,
    /// How many objects are in its hand.
    pub(crate) hand: u32,
    pub(crate) deferral: Deferral,
    pub(crate) reclaim: Reclaim,
    pub(crate) stack: StackLook,
    pub(crate) homing: Homing,
}

/// A count from which no exchange of a free head is tried.
const LAST_STACK_COUNT: u64 = (1 << 40) - 1;

const FIRST_TOKEN: Token = Token {
    locale: 0,
    number: 0,
};

impl Phase {
    /// Whether a seat is in a reclaim, from its won local election to the leave of it.
    #[tactic(auto, unfolding(epoch_laws::specs::Seats::is_reclaiming))]
    pub(crate) fn is_reclaiming(self) -> bool
        ensures { result ≡ is_reclaiming (phase_of self) }
    {
        match self {
            Phase::Idle
            | Phase::Registered
            | Phase::PinLooked
            | Phase::Pinned
            | Phase::DeferLooked
            | Phase::DeferSwapped => false,
            Phase::WonLocal
            | Phase::LostGlobal
            | Phase::WonGlobal
            | Phase::Scanning
            | Phase::Stopped
            | Phase::Advanced
            | Phase::LeftGlobal => true,
        }
    }

    /// Whether a seat has won the global election and not left it.
    #[tactic(auto, unfolding(epoch_laws::specs::ReclaimSteps::has_global))]
    pub(crate) fn has_global(self) -> bool
        ensures { result ≡ has_global (phase_of self) }
    {
        match self {
            Phase::WonGlobal | Phase::Scanning | Phase::Stopped | Phase::Advanced => true,
            Phase::Idle
            | Phase::Registered
            | Phase::PinLooked
            | Phase::Pinned
            | Phase::DeferLooked
            | Phase::DeferSwapped
            | Phase::WonLocal
            | Phase::LostGlobal
            | Phase::LeftGlobal => false,
        }
    }

    pub(crate) fn is(self, phase: Phase) -> bool
        ensures { IsTrue result ↔ (phase_of self ≡ phase_of phase) }
    {
        self == phase
    }
}

impl StackPhase {
    pub(crate) fn is(self, phase: StackPhase) -> bool
        ensures { IsTrue result ↔ (stack_phase_of self ≡ stack_phase_of phase) }
    {
        self == phase
    }
}

impl Reclaim {
    pub(crate) fn new(epoch: u64) -> Reclaim
        ensures epoch { result.epoch ≡ epoch }
        ensures scan { result.scan ≡ record { locale = 0; number = 0 } }
        ensures spread { result.spread ≡ 0 }
        ensures collected { result.collected ≡ 0 }
        ensures chain { result.chain ≡ 0 }
        ensures walked { result.walked ≡ 0 }
    {
        Reclaim {
            epoch,
            scan: FIRST_TOKEN,
            spread: 0,
            collected: 0,
            chain: 0,
            walked: 0,
        }
    }
}

impl Reclaim {
    /// All epochs are spread, and what was collected so far is walked over and released.
    pub(crate) fn is_between_lists(&self, locales: u8) -> bool
        ensures { IsTrue result ↔ IsBetween locales self.now }
    {
        self.spread == locales && self.chain == 0 && self.walked == 0
    }
}

impl Seat {
    /// A seat that has done nothing.
    pub(crate) fn new() -> Seat
        ensures { IsNewSeat result }
    {
        Seat {
            phase: Phase::Idle,
            token: FIRST_TOKEN,
            announced: 0,
            free_look: None,
            held: ArrayVec::new(),
            hand: 0,
            deferral: Deferral {
                pointer: None,
                tag: 0,
                old: 0,
            },
            reclaim: Reclaim::new(0),
            stack: StackLook {
                phase: StackPhase::NoLook,
                locale: 0,
                head: FreeWord { count: 0, index: 0 },
                next: 0,
            },
            homing: Homing {
                tail: None,
                old: 0,
                chain: 0,
            },
        }
    }

    pub(crate) fn may_scan(&self, locales: u8) -> bool
        ensures { IsTrue result ↔
            ((phase_of self.now.phase ≡ phase_of Phase.Scanning) × (self.now.reclaim.scan.locale < locales)) }
    {
        self.phase.is(Phase::Scanning) && self.reclaim.scan.locale < locales
    }

    pub(crate) fn has_scanned(&self, locales: u8) -> bool
        ensures { IsTrue result ↔
            ((phase_of self.now.phase ≡ phase_of Phase.Scanning) × (self.now.reclaim.scan.locale ≡ locales)) }
    {
        self.phase.is(Phase::Scanning) && self.reclaim.scan.locale == locales
    }

    pub(crate) fn may_spread(&self, locales: u8) -> bool
        ensures { IsTrue result ↔
            ((phase_of self.now.phase ≡ phase_of Phase.Advanced) × (self.now.reclaim.spread < locales)) }
    {
        self.phase.is(Phase::Advanced) && self.reclaim.spread < locales
    }

    pub(crate) fn may_collect(&self, locales: u8) -> bool
        ensures { IsTrue result ↔
            ((phase_of self.now.phase ≡ phase_of Phase.Advanced) × IsBetween locales self.now.reclaim
            × (self.now.reclaim.collected < locales)) }
    {
        self.phase.is(Phase::Advanced)
            && self.reclaim.is_between_lists(locales)
            && self.reclaim.collected < locales
    }

    pub(crate) fn may_walk(&self) -> bool
        ensures { IsTrue result ↔
            ((phase_of self.now.phase ≡ phase_of Phase.Advanced) × (self.now.reclaim.chain ≢ 0)) }
    {
        self.phase.is(Phase::Advanced) && self.reclaim.chain != 0
    }

    /// Whether the seat may leave the election that it won last.
    pub(crate) fn may_leave(&self, locales: u8) -> bool
        ensures { IsTrue result ↔ (Leaves locales self.now.phase self.now.reclaim × (self.now.hand ≡ 0)) }
    {
        let left = match self.phase {
            Phase::LostGlobal | Phase::Stopped | Phase::LeftGlobal => true,
            Phase::Advanced => {
                self.reclaim.is_between_lists(locales) && self.reclaim.collected == locales
            }
            Phase::Idle
            | Phase::Registered
            | Phase::PinLooked
            | Phase::Pinned
            | Phase::DeferLooked
            | Phase::DeferSwapped
            | Phase::WonLocal
            | Phase::WonGlobal
            | Phase::Scanning => false,
        };
        left && self.hand == 0
    }

    #[tactic(auto, unfolding(epoch_laws::specs::Seats::is_reclaiming))]
    pub(crate) fn is_reclaiming(&self) -> bool
        ensures { result ≡ is_reclaiming (phase_of self.now.phase) }
    {
        self.phase.is_reclaiming()
    }

    /// The count that the last look at this object read, where it read free.
    pub(crate) fn looked_count(&self, at: Object) -> Option<u32>
        ensures some { IfSome result (λ count. option_map looked_pointer self.now.free_look ≡ Some (pointer_at (object_place at) count)) }
        ensures none { IfNone result ((count : ℕ) → option_map looked_pointer self.now.free_look ≡ Some (pointer_at (object_place at) count) → ⊥) }
    {
        let looked = self.free_look?;
        if looked.at == at {
            Some(looked.count)
        } else {
            None
        }
    }

    pub(crate) fn holds(&self, at: Object) -> bool
        ensures { result ≡ list_any (λ word. same_place (object_place at) (place_in word)) self.now.held.items }
    {
        self.held.iter().any(|word| names(*word, at))
    }

    /// Whether a take of this object may be tried.
    pub(crate) fn may_try(&self, at: Object) -> bool
        ensures { IsTrue result ↔ ((is_reclaiming (phase_of self.now.phase) ≡ false)
            × LookedAt (option_map looked_pointer self.now.free_look) (object_place at)) }
    {
        !self.is_reclaiming() && self.looked_count(at).is_some()
    }

    /// Whether the header is still what the last look read.
    #[tactic(auto, unfolding(epoch_laws::specs::TakeSteps::is_free, epoch_laws::specs::TakeSteps::look_count))]
    pub(crate) fn has_read(&self, found: Header) -> bool
        ensures { result ≡ is_free_with found (look_count (option_map looked_pointer self.now.free_look)) }
    {
        let count = match self.free_look {
            Some(looked) => looked.count,
            None => 0,
        };
        is_free(found.state) && found.count == count
    }

    pub(crate) fn may_read_next(&self) -> bool
        ensures { IsTrue result ↔
            ((is_reclaiming (phase_of self.now.phase) ≡ false) × (stack_phase_of self.now.stack.phase ≢ stack_phase_of StackPhase.NoLook)
            × (self.now.stack.head.index ≢ 0)) }
    {
        !self.is_reclaiming()
            && !self.stack.phase.is(StackPhase::NoLook)
            && self.stack.head.index != 0
    }

    pub(crate) fn may_pop(&self) -> bool
        ensures { IsTrue result ↔
            ((is_reclaiming (phase_of self.now.phase) ≡ false) × (stack_phase_of self.now.stack.phase ≡ stack_phase_of StackPhase.NextRead)
            × (self.now.stack.head.count < last_stack_count)) }
    {
        !self.is_reclaiming()
            && self.stack.phase.is(StackPhase::NextRead)
            && self.stack.head.count < LAST_STACK_COUNT
    }

    pub(crate) fn may_put(&self) -> bool
        ensures { IsTrue result ↔
            ((is_reclaiming (phase_of self.now.phase) ≡ false) × (stack_phase_of self.now.stack.phase ≢ stack_phase_of StackPhase.NoLook)
            × (self.now.stack.head.count < last_stack_count)) }
    {
        !self.is_reclaiming()
            && !self.stack.phase.is(StackPhase::NoLook)
            && self.stack.head.count < LAST_STACK_COUNT
    }

    /// Whether a chain that went home waits for its link.
    pub(crate) fn waits(&self) -> bool
        ensures { IsTrue result ↔ Waits (option_map place_of self.now.homing.tail) }
    {
        match self.homing.tail {
            Some(_) => true,
            None => false,
        }
    }

    /// Whether none does.
    pub(crate) fn has_no_tail(&self) -> bool
        ensures { IsTrue result ↔ (option_map place_of self.now.homing.tail ≡ None) }
    {
        match self.homing.tail {
            Some(_) => false,
            None => true,
        }
    }

    /// Whether no chain in walk comes from home.
    pub(crate) fn may_take_home(&self) -> bool
        ensures { IsTrue result ↔
            ((is_reclaiming (phase_of self.now.phase) ≡ false) × (self.now.homing.chain ≡ 0)) }
    {
        !self.is_reclaiming() && self.homing.chain == 0
    }

    pub(crate) fn may_walk_home(&self) -> bool
        ensures { IsTrue result ↔
            ((is_reclaiming (phase_of self.now.phase) ≡ false) × (self.now.homing.chain ≢ 0)) }
    {
        !self.is_reclaiming() && self.homing.chain != 0
    }
}

#[tactic(auto, unfolding(epoch_laws::specs::TakeSteps::is_free))]
fn is_free(state: HeaderState) -> bool
    ensures { result ≡ is_free state }
{
    match state {
        HeaderState::Free => true,
        HeaderState::Own => false,
        HeaderState::Shown => false,
        HeaderState::Worn => false,
    }
}
