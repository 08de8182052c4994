//! Where a caller stands, as its pass keeps it.
ghost use Rattle.std.specs.Prelude.{◌≡◌};
ghost use Rattle.epoch_laws.specs.declared.tokens.Token.{Token};
ghost use Rattle.epoch_manager.specs.declared.phases.Phase.TheVariants.{Idle as IdlePhase, Registered as RegisteredPhase, Pinned as PinnedPhase};

use crate::phases::Phase;
use epoch_laws::Token;
use std::marker::Model;

/// How a caller stands, whatever its token is.
#[derive(Clone, Copy, Debug)]
pub(crate) enum Standing {
    Idle,
    Registered,
    Pinned,
}

/// A phase whose token stays where it is: a pin and an unpin each write one byte. Contracts see the phase.
#[derive(Drop)]
pub(crate) struct Stance {
    standing: Standing,
    // The token that the caller has, or had last.
    token: Token,
}

impl Model for Stance {
    ghost use Rattle.epoch_manager.specs.declared.phases.Phase.{Phase};
    ghost use Rattle.epoch_manager.specs.PhaseParts.{phase_at};

    ghost Value = { Phase };

    ghost view = { λ s. phase_at s.standing s.token };
}

impl Stance {
    /// That of a caller with no token.
    pub(crate) fn idle() -> Stance
        ensures { result ≡ IdlePhase }
    {
        Stance {
            standing: Standing::Idle,
            token: Token {
                locale: 0,
                number: 0,
            },
        }
    }

    /// The phase.
    #[inline]
    pub(crate) fn phase(&self) -> Phase
        ensures { result ≡ self.now }
    {
        let token = self.token;
        match self.standing {
            Standing::Idle => Phase::Idle,
            Standing::Registered => Phase::Registered { token },
            Standing::Pinned => Phase::Pinned { token },
        }
    }

    /// The caller's token, which isn't pinned.
    #[inline]
    pub(crate) fn registered(&self) -> Token
        requires { (token : Token) × (self.now ≡ RegisteredPhase token) }
        ensures { self.now ≡ RegisteredPhase result }
    {
        self.token
    }

    /// The caller's token, which is pinned.
    #[inline]
    pub(crate) fn pinned(&self) -> Token
        requires { (token : Token) × (self.now ≡ PinnedPhase token) }
        ensures { self.now ≡ PinnedPhase result }
    {
        self.token
    }

    /// The caller has got a token.
    #[inline]
    pub(crate) fn now_registered(&mut self, token: Token)
        ensures { self.new ≡ RegisteredPhase token }
    {
        self.standing = Standing::Registered;
        self.token = token;
    }

    /// The caller has given its token up.
    #[inline]
    pub(crate) fn now_idle(&mut self)
        ensures { self.new ≡ IdlePhase }
    {
        self.standing = Standing::Idle;
    }

    /// The caller has pinned its token.
    #[inline]
    pub(crate) fn now_pinned(&mut self)
        requires { (token : Token) × (self.old ≡ RegisteredPhase token) }
        ensures { (token : Token) → self.old ≡ RegisteredPhase token → self.new ≡ PinnedPhase token }
    {
        self.standing = Standing::Pinned;
    }

    /// The caller has unpinned its token.
    #[inline]
    pub(crate) fn now_unpinned(&mut self)
        requires { (token : Token) × (self.old ≡ PinnedPhase token) }
        ensures { (token : Token) → self.old ≡ PinnedPhase token → self.new ≡ RegisteredPhase token }
    {
        self.standing = Standing::Registered;
    }
}
