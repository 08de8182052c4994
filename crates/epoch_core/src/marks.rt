ghost use Rattle.std.specs.Prelude.{◌≡◌, ◌<◌, ◌+◌, ◌∷◌, true, count_by, length, slice_index_or, slice_set};
ghost use Rattle.epoch_laws.specs.Places.{is_among, without};
ghost use Rattle.epoch_laws.specs.States.{IsPlace, State, with_seat};
ghost use Rattle.epoch_laws.specs.Seats.{Advanced};
ghost use Rattle.epoch_core.specs.Fresh.{IsFresh};
ghost use Rattle.epoch_core.specs.Marks.{is_kept, list_of, same_role};
ghost use Rattle.epoch_core.specs.Objects.{object_place};
ghost use Rattle.epoch_core.specs.Shown.{IsShowing};
ghost use Rattle.epoch_core.specs.Tables.{place_number};

use crate::machine::Machine;
use crate::objects::Object;

/// What a seat has an object for.
#[derive(Clone, Copy, Debug, PartialEq, Eq)]
pub(crate) enum Role {
    /// It took the object, and has neither shown it nor given it back.
    Owner,
    /// The object is free and in its hand.
    Hand,
    /// It walked over the object in a reclaim, and has not released it.
    Walker,
}

/// The seat that has an object to itself, if one does.
#[derive(Clone, Copy, Debug, PartialEq, Eq)]
pub(crate) enum Keeper {
    Nobody,
    Kept { role: Role, seat: u32 },
}

impl Role {
    fn is(self, role: Role) -> bool
        ensures { result ≡ same_role self role }
    {
        match self {
            Role::Owner => match role {
                Role::Owner => true,
                Role::Hand => false,
                Role::Walker => false,
            },
            Role::Hand => match role {
                Role::Owner => false,
                Role::Hand => true,
                Role::Walker => false,
            },
            Role::Walker => match role {
                Role::Owner => false,
                Role::Hand => false,
                Role::Walker => true,
            },
        }
    }
}

impl Keeper {
    /// Whether this seat has the object for this.
    fn keeps(self, role: Role, seat: u32) -> bool
        ensures { result ≡ is_kept role seat self }
    {
        match self {
            Keeper::Nobody => false,
            Keeper::Kept {
                role: kept_for,
                seat: kept_by,
            } => role.is(kept_for) && seat == kept_by,
        }
    }
}

impl Machine {
    pub(crate) fn is_kept(&self, role: Role, seat: u32, at: Object) -> bool
        ensures { (s : State) → IsShowing self.now s → seat < s.seats → IsPlace self.now.shape (object_place at) →
            result ≡ is_among (object_place at) (list_of role (s.seat seat)) }
    {
        self.keeper_of(at).keeps(role, seat)
    }

    fn keeper_of(&self, at: Object) -> Keeper
        ensures { result ≡ slice_index_or self.now.keepers.items (place_number self.now.shape (object_place at)) Keeper.Nobody }
    {
        match self.keepers.get(self.object_at(at)) {
            Some(keeper) => *keeper,
            None => Keeper::Nobody,
        }
    }

    /// Makes an object of the seat's hand its own.
    pub(crate) fn hand_to_own(&mut self, seat: u32, at: Object)
        requires { seat < length self.old.seats.items }
        ensures shown { (s : State) → IsShowing self.old s → is_among (object_place at) (s.seat seat).hand ≡ true →
            IsShowing self.new (with_seat s seat (record (s.seat seat) { hand = without (object_place at) (s.seat seat).hand; owned = (object_place at) ∷ (s.seat seat).owned })) }
        ensures seats { length self.new.seats.items ≡ length self.old.seats.items }
    {
        self.keep(
            at,
            Keeper::Kept {
                role: Role::Owner,
                seat,
            },
        );
        let own = &mut self.seats[seat as usize];
        own.hand = own.hand.saturating_sub(1);
    }

    /// Lets go of an object of the seat's hand.
    pub(crate) fn hand_to_none(&mut self, seat: u32, at: Object)
        requires { seat < length self.old.seats.items }
        ensures shown { (s : State) → IsShowing self.old s → is_among (object_place at) (s.seat seat).hand ≡ true →
            IsShowing self.new (with_seat s seat (record (s.seat seat) { hand = without (object_place at) (s.seat seat).hand })) }
        ensures fewer { (s : State) → IsShowing self.old s → is_among (object_place at) (s.seat seat).hand ≡ true →
            count_by (is_kept Role.Hand seat) self.new.keepers.items + 1 ≡ count_by (is_kept Role.Hand seat) self.old.keepers.items }
        ensures seats { length self.new.seats.items ≡ length self.old.seats.items }
    {
        self.keep(at, Keeper::Nobody);
        let own = &mut self.seats[seat as usize];
        own.hand = own.hand.saturating_sub(1);
    }

    /// Lets go of an object of the seat's own.
    pub(crate) fn own_to_none(&mut self, seat: u32, at: Object)
        requires { seat < length self.old.seats.items }
        ensures shown { (s : State) → IsShowing self.old s → is_among (object_place at) (s.seat seat).owned ≡ true →
            IsShowing self.new (with_seat s seat (record (s.seat seat) { owned = without (object_place at) (s.seat seat).owned })) }
        ensures seats { length self.new.seats.items ≡ length self.old.seats.items }
    {
        self.keep(at, Keeper::Nobody);
    }

    /// Puts an object of the seat's own into its hand.
    pub(crate) fn own_to_hand(&mut self, seat: u32, at: Object)
        requires { seat < length self.old.seats.items }
        ensures shown { (s : State) → IsShowing self.old s → is_among (object_place at) (s.seat seat).owned ≡ true →
            IsShowing self.new (with_seat s seat (record (s.seat seat) { owned = without (object_place at) (s.seat seat).owned; hand = (object_place at) ∷ (s.seat seat).hand })) }
        ensures seats { length self.new.seats.items ≡ length self.old.seats.items }
    {
        self.keep(
            at,
            Keeper::Kept {
                role: Role::Hand,
                seat,
            },
        );
        let own = &mut self.seats[seat as usize];
        own.hand = own.hand.saturating_add(1);
    }

    /// Puts an object that no seat has to itself into the seat's hand.
    pub(crate) fn none_to_hand(&mut self, seat: u32, at: Object)
        requires { seat < length self.old.seats.items }
        ensures shown { (s : State) → IsShowing self.old s → IsFresh s (object_place at) →
            IsShowing self.new (with_seat s seat (record (s.seat seat) { hand = (object_place at) ∷ (s.seat seat).hand })) }
        ensures seats { length self.new.seats.items ≡ length self.old.seats.items }
    {
        self.keep(
            at,
            Keeper::Kept {
                role: Role::Hand,
                seat,
            },
        );
        let own = &mut self.seats[seat as usize];
        own.hand = own.hand.saturating_add(1);
    }

    /// Counts an object that no seat has to itself as walked over.
    pub(crate) fn none_to_walked(&mut self, seat: u32, at: Object)
        requires { seat < length self.old.seats.items }
        ensures shown { (s : State) → IsShowing self.old s → IsFresh s (object_place at) → (s.seat seat).phase ≡ Advanced →
            IsShowing self.new (with_seat s seat (record (s.seat seat) { reclaim = record (s.seat seat).reclaim { walked = (object_place at) ∷ (s.seat seat).reclaim.walked } })) }
        ensures seats { length self.new.seats.items ≡ length self.old.seats.items }
    {
        self.keep(
            at,
            Keeper::Kept {
                role: Role::Walker,
                seat,
            },
        );
        let own = &mut self.seats[seat as usize];
        own.reclaim.walked = own.reclaim.walked.saturating_add(1);
    }

    /// Lets go of an object that was walked over.
    pub(crate) fn walked_to_none(&mut self, seat: u32, at: Object)
        requires { seat < length self.old.seats.items }
        ensures shown { (s : State) → IsShowing self.old s → is_among (object_place at) (s.seat seat).reclaim.walked ≡ true →
            IsShowing self.new (with_seat s seat (record (s.seat seat) { reclaim = record (s.seat seat).reclaim { walked = without (object_place at) (s.seat seat).reclaim.walked } })) }
        ensures seats { length self.new.seats.items ≡ length self.old.seats.items }
    {
        self.keep(at, Keeper::Nobody);
        let own = &mut self.seats[seat as usize];
        own.reclaim.walked = own.reclaim.walked.saturating_sub(1);
    }

    /// Puts an object that was walked over into the seat's hand.
    pub(crate) fn walked_to_hand(&mut self, seat: u32, at: Object)
        requires { seat < length self.old.seats.items }
        ensures shown { (s : State) → IsShowing self.old s → is_among (object_place at) (s.seat seat).reclaim.walked ≡ true →
            IsShowing self.new (with_seat s seat (record (s.seat seat) { reclaim = record (s.seat seat).reclaim { walked = without (object_place at) (s.seat seat).reclaim.walked }; hand = (object_place at) ∷ (s.seat seat).hand })) }
        ensures seats { length self.new.seats.items ≡ length self.old.seats.items }
    {
        self.keep(
            at,
            Keeper::Kept {
                role: Role::Hand,
                seat,
            },
        );
        let own = &mut self.seats[seat as usize];
        own.reclaim.walked = own.reclaim.walked.saturating_sub(1);
        own.hand = own.hand.saturating_add(1);
    }

    fn keep(&mut self, at: Object, keeper: Keeper)
        ensures keepers { self.new.keepers.items ≡ slice_set self.old.keepers.items (place_number self.old.shape (object_place at)) keeper }
        ensures rest { self.new ≡ record self.old { keepers = self.new.keepers } }
    {
        let place = self.object_at(at);
        if place < self.keepers.len() {
            self.keepers[place] = keeper;
        }
    }
}
