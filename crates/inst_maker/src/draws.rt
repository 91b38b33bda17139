//! The generator of numbers. It is part of what a seed stands for, so it isn't one of a library.

ghost use Rattle.std.specs.Prelude.{◌≡◌, ◌<◌};
ghost use Rattle.inst_maker.specs.Draws.{next_state, draw};

use std::marker::Model;

// Numbers drawn one after another from a seed. Contracts see the state.
#[derive(Drop)]
pub struct Draws {
    state: u32,
}

impl Model for Draws {
    ghost use Rattle.std.specs.Prelude.{ℕ};

    ghost Value = { ℕ };

    ghost view = { λ draws. draws.state };
}

impl Draws {
    // Nothing is drawn yet.
    pub fn new(seed: u32) -> Draws
        ensures { result ≡ seed }
    {
        Draws { state: seed }
    }

    // One draw of a number below `n`.
    #[tactic(auto, unfolding(crate::specs::Draws::draw))]
    pub fn below(&mut self, n: u32) -> u32
        requires { 0 < n }
        ensures value { result ≡ (draw n self.old).value }
        ensures state { self.new ≡ (draw n self.old).state }
        ensures bound { result < n }
    {
        self.state = next_state(self.state);
        (self.state >> 16) % n
    }
}

// The state after a draw at this one.
#[tactic(auto, unfolding(crate::specs::Draws::next_state))]
fn next_state(state: u32) -> u32
    ensures { result ≡ next_state state }
{
    state.wrapping_mul(1_664_525).wrapping_add(1_013_904_223)
}
