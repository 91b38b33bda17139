//! A gate that stops one worker.

ghost use Rattle.std.specs.Prelude.{◌≡◌, ◌≤◌, ◌↔◌};
ghost use Rattle.pool.specs.declared.gate.Go.TheVariants.{Stop};

use crate::gate::{Gate, Go};

/// The gate that stops the worker with one number at a step and at all later ones, and lets every other worker go on.
#[derive(Clone, Copy, Debug, PartialEq, Eq)]
pub struct StopAt {
    worker: u32,
    step: u64,
}

impl StopAt {
    /// The gate that stops `worker` from `step` on; both count from 0. It takes no memory.
    pub fn new(worker: u32, step: u64) -> Self
        ensures { result ≡ record { worker = worker; step = step } }
    {
        StopAt { worker, step }
    }
}

impl Gate for StopAt {
    ghost stops = { λ gate worker step. (worker ≡ gate.worker) × (gate.step ≤ step) };

    fn at(&self, worker: u32, step: u64) -> Go
        ensures exact { result ≡ Stop ↔ (worker ≡ self.now.worker) × (self.now.step ≤ step) }
    {
        if worker == self.worker && step >= self.step {
            Go::Stop
        } else {
            Go::On
        }
    }
}
