ghost use Rattle.std.specs.Prelude.{◌≡◌, ◌<◌, ◌≤◌, ◌^◌, ◌+◌, ℕ, List, Some};
ghost use Rattle.epoch_laws.specs.ReclaimSteps.{has_global};
ghost use Rattle.epoch_laws.specs.States.{State};
ghost use Rattle.epoch_laws.specs.TakeSteps.{look_count};
ghost use Rattle.epoch_laws.specs.declared.steps.Step.{Step};
ghost use Rattle.pgas_base.specs.declared.shapes.Shape.{Shape};
ghost use Rattle.pgas_base.specs.declared.starts.Start.{Start};
ghost use Rattle.std.specs.Option.{option_map};
ghost use Rattle.epoch_core.specs.Listed.{GoesListed, IsKnown, NamesPointer, if_won, item_of, with_word};
ghost use Rattle.epoch_core.specs.Looks.{looked_pointer};
ghost use Rattle.epoch_core.specs.Phases.{phase_of};
ghost use Rattle.epoch_core.specs.Runs.{IsAfter};
ghost use Rattle.epoch_core.specs.Shown.{IsShowing};

use crate::machine::Machine;
use crate::reclaims::raised;
use crate::seats::Seat;
use epoch_laws::{EpochEvent, Illegal, Item, Kind, Seen, Step, Token};
use pgas_base::Ptr;

/// What a step tells its caller, and what it adds to the items of the run.
#[derive(Clone, Copy, Debug, PartialEq, Eq)]
pub struct Listed {
    pub seen: Seen,
    pub item: Option<Item>,
}

/// What a seat knows before a step that the step's item speaks of.
#[derive(Clone, Copy, Debug)]
pub(crate) struct Known {
    pub(crate) token: Token,
    pub(crate) announced: u64,
    /// One more than the epoch of its reclaim.
    pub(crate) next_epoch: u64,
    /// The count that its last look at a header read, if it read free.
    pub(crate) count: u32,
    /// It has won the global election and not left it.
    pub(crate) has_global: bool,
}

const NOTHING_KNOWN: Known = Known {
    token: Token {
        locale: 0,
        number: 0,
    },
    announced: 0,
    next_epoch: 0,
    count: 0,
    has_global: false,
};

impl Seat {
    #[tactic(auto, unfolding(epoch_laws::specs::TakeSteps::look_count))]
    fn known(&self) -> Known
        ensures token { result.token ≡ self.now.token }
        ensures announced { result.announced ≡ self.now.announced }
        ensures count { result.count ≡ look_count (option_map looked_pointer self.now.free_look) }
        ensures global { result.has_global ≡ has_global (phase_of self.now.phase) }
        ensures epoch { self.now.reclaim.epoch ≤ 2 ^ 62 → result.next_epoch ≡ self.now.reclaim.epoch + 1 }
    {
        let count = match self.free_look {
            Some(looked) => looked.count,
            None => 0,
        };
        Known {
            token: self.token,
            announced: self.announced,
            next_epoch: raised(self.reclaim.epoch, 1),
            count,
            has_global: self.phase.has_global(),
        }
    }
}

impl Machine {
    /// Makes a step as `step` does, and answers what it adds to the items of the run.
    pub fn step_listed(&mut self, step: &Step) -> Result<Listed, Illegal>
        ensures { (shape : Shape) (start : Start) (seats : ℕ) (steps : List Step) → IsAfter self.old shape start seats steps →
            GoesListed shape start seats steps step.now self.new result }
    {
        let known = self.known(step.seat);
        let seen = self.step(*step)?;
        Ok(Listed {
            seen,
            item: item_of(known, step.seat, step.kind, seen),
        })
    }

    fn known(&self, seat: u32) -> Known
        ensures { (s : State) → IsShowing self.now s → seat < s.seats → IsKnown result (s.seat seat) }
    {
        match self.seats.get(seat as usize) {
            Some(own) => own.known(),
            None => NOTHING_KNOWN,
        }
    }
}

/// The item of an allowed step that told `seen`, by what its seat knew before.
fn item_of(known: Known, seat: u32, kind: Kind, seen: Seen) -> Option<Item>
    ensures { NamesPointer kind → result ≡ item_of known seat kind seen }
{
    let token = known.token;
    match kind {
        Kind::Register { locale, token } => {
            let number = token;
            won(seen, registered(seat, locale, number))
        }
        Kind::Unregister => event(seat, EpochEvent::Unregistered { token }),
        Kind::PinSet => Some(Item::Event {
            seat,
            event: EpochEvent::Pinned { token },
            tag: known.announced,
        }),
        Kind::Unpin => event(seat, EpochEvent::Unpinned { token }),
        Kind::TakeTry { locale, index } => {
            let ptr = pointer_to(locale, index, known.count)?;
            won(seen, given(seat, ptr))
        }
        Kind::Show { ptr } => event(seat, EpochEvent::Shown { ptr }),
        Kind::Hold { ptr } => event(seat, EpochEvent::Held { token, ptr }),
        Kind::Return { ptr } => event(seat, EpochEvent::Returned { ptr }),
        Kind::DeferLook { ptr } => deferred(seat, EpochEvent::Deferred { token, ptr }, seen),
        Kind::ElectLocal => won(
            seen,
            Item::Claim {
                seat,
                global: false,
            },
        ),
        Kind::ElectGlobal => won(seen, Item::Claim { seat, global: true }),
        Kind::Advance => Some(Item::Advance {
            seat,
            epoch: known.next_epoch,
        }),
        Kind::Release { ptr } => event(seat, EpochEvent::Freed { ptr }),
        Kind::Leave => Some(Item::Leave {
            seat,
            global: known.has_global,
        }),
        Kind::PinLook
        | Kind::TakeLook { .. }
        | Kind::Touch { .. }
        | Kind::DeferSwap
        | Kind::DeferLink
        | Kind::EpochLook
        | Kind::ScanToken
        | Kind::Spread
        | Kind::Collect
        | Kind::Walk
        | Kind::StackLook { .. }
        | Kind::StackNext
        | Kind::StackPop
        | Kind::StackPut { .. }
        | Kind::HandLink { .. }
        | Kind::HomeSwap { .. }
        | Kind::HomeLink
        | Kind::HomeTake { .. }
        | Kind::HomeWalk => None,
    }
}

/// The item, if the exchange won.
fn won(seen: Seen, item: Item) -> Option<Item>
    ensures { result ≡ if_won seen item }
{
    match seen {
        Seen::Won => Some(item),
        Seen::Lost { .. } | Seen::Nothing | Seen::Word { .. } => None,
    }
}

fn event(seat: u32, event: EpochEvent) -> Option<Item>
    ensures { result ≡ Some (Item.Event seat event 0) }
{
    Some(Item::Event {
        seat,
        event,
        tag: 0,
    })
}

fn registered(seat: u32, locale: u8, number: u32) -> Item
    ensures { result ≡ Item.Event seat (EpochEvent.Registered (record { locale = locale; number = number })) 0 }
{
    Item::Event {
        seat,
        event: EpochEvent::Registered {
            token: Token { locale, number },
        },
        tag: 0,
    }
}

fn given(seat: u32, ptr: Ptr) -> Item
    ensures { result ≡ Item.Event seat (EpochEvent.Given ptr) 0 }
{
    Item::Event {
        seat,
        event: EpochEvent::Given { ptr },
        tag: 0,
    }
}

/// A deferral, whose tag is the word that its look read.
fn deferred(seat: u32, event: EpochEvent, seen: Seen) -> Option<Item>
    ensures { result ≡ with_word seen (λ word. Item.Event seat event word) }
{
    match seen {
        Seen::Word { word } => Some(Item::Event {
            seat,
            event,
            tag: word,
        }),
        Seen::Won | Seen::Lost { .. } | Seen::Nothing => None,
    }
}

fn pointer_to(locale: u8, index: u32, count: u32) -> Option<Ptr>
    ensures { locale < 16 → 1 ≤ index → index < 2 ^ 24 → result ≡ Some (record { locale = locale; index = index; count = count }) }
{
    if locale < 16 && index >= 1 && index < 1 << 24 {
        Some(Ptr::new(locale, index, count))
    } else {
        None
    }
}
