//! What an object brings that lives on a manager.

use pass_book::Object;

/// An object whose parts are objects of a manager: it has some words of its own, and says which spots are
/// links and what always holds of them. Its laws are those that the manager needs of it.
pub trait Client: Drop {
    ghost use Rattle.std.specs.Prelude.{◌≡◌, ◌≤◌, ◌^◌};
    ghost use Rattle.epoch_table.specs.Clients.{ClientTerms, ObjectOpens, Opens, Links, KeptByTakes, KeptByShows, KeptByReturns, KeptByDeferrals, KeptByFrees, KeptByFills, KeptByHolds, KeptBySteps, KeptByUnpins};

    /// The object of one thread whose steps its entries are.
    type Object: Object;

    /// What a pass knows of the client, beside what the manager knows of the pass.
    type View;

    /// Its rule, and what it is about.
    ghost terms: { ClientTerms Self Self.View Self.Object.Call Self.Object.Reply Self.Object.State };

    /// How many words of its own it has. They open as 0.
    fn words(&self) -> u32
        ensures count { result ≡ (terms).own self.now }
        ensures most { result ≤ 2 ^ 16 };

    /// Its object opens in the state that the client names.
    ghost object_opens: { ObjectOpens terms Self.Object.opens };

    /// The rule holds at the opening.
    ghost opens: { Opens terms };

    /// Each link is 0 or names an object that is shown and not deferred.
    ghost links: { Links terms };

    /// The rule is kept where an object becomes a pass's own that the client allows it to take.
    ghost kept_by_takes: { KeptByTakes terms };

    /// It is kept where a pass shows an object of its own.
    ghost kept_by_shows: { KeptByShows terms };

    /// It is kept where a pass gives an object back that was never shown, if the client allows give-backs.
    ghost kept_by_returns: { KeptByReturns terms };

    /// What a pass has cut out of its last link is shown and not deferred, and the rule is kept where it defers that.
    ghost kept_by_deferrals: { KeptByDeferrals terms };

    /// The rule is kept where an object is released after its deferral.
    ghost kept_by_frees: { KeptByFrees terms };

    /// It is kept where a word of an object of the pass's own is filled.
    ghost kept_by_fills: { KeptByFills terms };

    /// It is kept where a pass holds what a link names.
    ghost kept_by_holds: { KeptByHolds terms Self.Object.opens Self.Object.step };

    /// It is kept by each step on a word that the client allows.
    ghost kept_by_steps: { KeptBySteps terms Self.Object.opens Self.Object.step };

    /// It is kept where a pass unpins.
    ghost kept_by_unpins: { KeptByUnpins terms };
}
