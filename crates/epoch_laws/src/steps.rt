use pgas_base::Ptr;

/// The kinds of step. Each is one atomic step on one shared word, but `Touch`, which is a step on some
/// word of an object's row.
#[derive(Clone, Copy, Debug, PartialEq, Eq)]
pub enum Kind {
    /// Compares and exchanges the token's word, 0 to 1.
    Register { locale: u8, token: u32 },
    /// Stores 0 in the word of the seat's token.
    Unregister,
    /// Loads the epoch of the seat's locale.
    PinLook,
    /// Stores two more than the epoch that was read in the word of the seat's token.
    PinSet,
    /// Stores 1 in the word of the seat's token. All holds end.
    Unpin,
    /// Loads the header of an object.
    TakeLook { locale: u8, index: u32 },
    /// Compares and exchanges the header of an object of the hand, from what was read to owned.
    TakeTry { locale: u8, index: u32 },
    /// Stores the header of an owned object, shown.
    Show { ptr: Ptr },
    /// Loads a link that holds the pointer.
    Hold { ptr: Ptr },
    /// Makes any one step on a word of the row of an object that is owned or held.
    Touch { ptr: Ptr },
    /// Stores the header of an owned object, free. The object goes into the hand.
    Return { ptr: Ptr },
    /// Loads the epoch of the seat's locale, which is the deferral's tag.
    DeferLook { ptr: Ptr },
    /// Exchanges the pointer into the list of the seat's locale that the tag names.
    DeferSwap,
    /// Stores the old head of the list as the object's next word.
    DeferLink,
    /// Compares and exchanges the election of the seat's locale, 0 to 1.
    ElectLocal,
    /// Compares and exchanges the global election, 0 to 1.
    ElectGlobal,
    /// Loads the global epoch.
    EpochLook,
    /// Loads the word of the next token, by rising locale and then rising number.
    ScanToken,
    /// Stores one more than the epoch that was read as the global epoch.
    Advance,
    /// Stores the new epoch as that of the next locale.
    Spread,
    /// Exchanges the list of the next locale whose objects may be released to empty.
    Collect,
    /// Loads the next word of the current object of the collected chain.
    Walk,
    /// Stores the header of a walked object, free with a count that is one higher, or worn with the last
    /// count. A free object goes into the hand.
    Release { ptr: Ptr },
    /// Stores 0 in the global election where the seat has won it, else in the one of its locale.
    Leave,
    /// Loads the head of a locale's stack of free objects.
    StackLook { locale: u8 },
    /// Loads the next word of the object that was read on top.
    StackNext,
    /// Compares and exchanges the head, from what was read to the object below. The object that was on
    /// top goes into the hand.
    StackPop,
    /// Compares and exchanges the head, from what was read to a chain of the hand.
    StackPut { top: Ptr, tail: Ptr },
    /// Stores the next word of an object of the hand.
    HandLink { ptr: Ptr, next: u64 },
    /// Exchanges a chain of the hand into the home head of its locale.
    HomeSwap { top: Ptr, tail: Ptr },
    /// Stores the old home head as the next word of the chain's tail.
    HomeLink,
    /// Exchanges a locale's home head to none.
    HomeTake { locale: u8 },
    /// Loads the next word of the current object of the taken chain. Where that isn't pending the object
    /// goes into the hand.
    HomeWalk,
}

/// A step of one seat.
#[derive(Clone, Copy, Debug, PartialEq, Eq)]
pub struct Step {
    pub seat: u32,
    pub kind: Kind,
}

/// What a step tells its caller.
#[derive(Clone, Copy, Debug, PartialEq, Eq)]
pub enum Seen {
    /// Of a store, and of `Touch`.
    Nothing,
    /// The word that a load or an exchange read.
    Word { word: u64 },
    /// The compare and exchange found what it compared with.
    Won,
    /// The compare and exchange found another word.
    Lost { word: u64 },
}

/// Why a step isn't allowed: the first need that isn't met, and the word that shows it.
#[derive(Clone, Copy, Debug, PartialEq, Eq)]
pub struct Illegal {
    /// 1 to 7.
    pub need: u8,
    pub word: u64,
}
