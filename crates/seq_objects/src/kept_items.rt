//! Which items a shared bag or deque may hold.
ghost use Rattle.std.specs.Prelude.{ℕ, ⊤};

/// A test of items that the opener of a bag or a deque chooses. Whoever adds an item shows that it
/// is kept, and each item that comes out is.
pub trait Keeps: Drop {
    ghost keeps: { Self → ℕ → Type 0 };
}

/// Keeps every item.
#[derive(Clone, Copy)]
pub struct AnyItem;

impl Keeps for AnyItem {
    ghost keeps = { λ _ item. ⊤ };
}
