//! Gates, which tell workers before each call on the board whether to go on.

ghost use Rattle.std.specs.Prelude.{◌≡◌, ℕ};
ghost use Rattle.pool.specs.declared.gate.Go.TheVariants.{Stop};

/// Whether a worker goes on.
#[derive(Clone, Copy, Debug, PartialEq, Eq)]
pub enum Go {
    /// It goes on.
    On,
    /// It stops.
    Stop,
}

/// What a worker asks before each of its calls on the board.
pub trait Gate {
    // Whether a worker may be stopped at a step.
    ghost stops: { Self → ℕ → ℕ → Type 0 };

    /// Whether the worker with this number goes on at this step. Its steps count from 0.
    fn at(&self, worker: u32, step: u64) -> Go
        ensures { result ≡ Stop → stops self.now worker step };
}

/// The gate that lets every worker go on.
#[derive(Clone, Copy, Debug, PartialEq, Eq)]
pub struct OpenGate;

impl Gate for OpenGate {
    ghost stops = { λ gate worker step. ⊥ };

    fn at(&self, _worker: u32, _step: u64) -> Go {
        Go::On
    }
}
