//! What a plan is worth.
ghost use Rattle.std.specs.Prelude.{◌≡◌, ℕ};

/// A plan of which a greater number means a better plan.
pub trait Worth {
    /// The worth, as contracts see it.
    ghost worth: { Self → ℕ };

    /// The worth, in a unit that is the same for all plans of the type.
    fn worth(&self) -> u64
        ensures { result ≡ worth self.now };
}
