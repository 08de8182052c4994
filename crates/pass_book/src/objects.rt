//! The object of a single thread.
ghost use Rattle.std.specs.Prelude.{◌≡◌};

/// An object as one thread knows it. Its state may carry what it was opened with, as a capacity.
pub trait Object {
    type Call;

    type Reply;

    type State;

    /// The states in which an object may open.
    ghost opens: { Self.State → Type 0 };

    /// From the old state this call may get this reply and leave the new state.
    ghost step: { Self.State → Self.Call → Self.Reply → Self.State → Type 0 };
}
