//! The kinds of step by what stands behind their word.
use pgas_base::Ptr;

/// Kinds whose first argument is a locale.
#[derive(Clone, Copy, Debug, PartialEq, Eq)]
pub enum LocaleVerb {
    Number(NumberVerb),
    StackLook,
    HomeTake,
}

/// Kinds with a number behind a locale.
#[derive(Clone, Copy, Debug, PartialEq, Eq)]
pub enum NumberVerb {
    Register,
    TakeLook,
    TakeTry,
}

/// Kinds whose next argument is a pointer.
#[derive(Clone, Copy, Debug, PartialEq, Eq)]
pub enum PointerVerb {
    Show,
    Hold,
    Touch,
    Return,
    DeferLook,
    Release,
    HandLink,
    StackPut,
    /// Behind the first pointer.
    StackTail { top: Ptr },
    HomeSwap,
    HomeTail { top: Ptr },
}
