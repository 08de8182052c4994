ghost use Rattle.std.specs.Prelude.{◌≡◌};
ghost use Rattle.pgas_base.specs.Starts.{IsStart};

/// The numbers that an opening begins with. Any numbers may stand here; an opening says which it takes.
#[derive(Clone, Copy, Debug, PartialEq, Eq)]
pub struct Start {
    /// The first epoch, 1 to 2^62.
    pub epoch: u64,
    /// The reuse count that every object begins with.
    pub count: u32,
    /// The count that every free head begins with, below 2^40.
    pub stack: u64,
}

impl Start {
    /// Epoch 1, and both counts 0.
    pub fn usual() -> Start
        ensures value { result ≡ record { epoch = 1; count = 0; stack = 0 } }
        ensures in_range { IsStart result }
    {
        Start {
            epoch: 1,
            count: 0,
            stack: 0,
        }
    }
}
