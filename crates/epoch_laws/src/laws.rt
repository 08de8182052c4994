//! What holds of every run, of any length, by any seats.
ghost use Rattle.epoch_laws.specs.Laws.{EventsAreLegal, ReleaseIsExact, StatesAreSound, ObjectsAreApart, StepsLeaveOthers};

/// The events that a run lists are a legal history. So an object that was deferred is freed only once
/// each token that was pinned at its deferral has been unpinned, and is given again only after that.
pub fn events_are_legal()
    ensures { EventsAreLegal }
{}

/// The k-th advance is to k more than the first epoch. Each object that is freed was deferred with a tag
/// three below the epoch, and is freed by the seat of the last advance before it leaves the global
/// election. Once it has left that, every object with such a tag has been freed. The tag of a deferral is
/// the epoch at that moment, or one less.
pub fn release_is_exact()
    ensures { ReleaseIsExact }
{}

/// What holds of every state that a run leaves: where each object is and what follows it in its chain, how
/// old the tags of deferred objects are, which tokens are pinned since when, who has won which election,
/// and what a look at a stack still says; that words which lead to objects have their present counts, and
/// words which say that a token or an election is had a seat that has it; and what the items so far tell
/// of it: among others, the words of tokens and elections and the headers are what the items say.
pub fn states_are_sound()
    ensures { StatesAreSound }
{}

/// In every state that a run leaves, an object that a step takes from a stack, from a home chain or from
/// a collected chain is one that no seat owns, has in hand or has walked over.
pub fn objects_are_apart()
    ensures { ObjectsAreApart }
{}

/// After a run, a step of one seat leaves another one's alone: no object that the other owns, has in hand or
/// has walked over gets another header or next word, and none that it holds another header.
pub fn steps_leave_others()
    ensures { StepsLeaveOthers }
{}
