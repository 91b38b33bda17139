//! Laws that no single call carries.

ghost use Rattle.std.specs.Prelude.{ℕ, List, ◌↔◌};
ghost use Rattle.strip_model.specs.IsInstance.{IsInstance};
ghost use Rattle.strip_model.specs.Orbit.{Orbit};
ghost use Rattle.strip_model.specs.Plan.{StripsDistinct, KeepsTwinsTogether};
ghost use Rattle.strip_model.specs.Twins.{KeepsTwinRule};

/// The two wordings of the twin rule say the same of every list of distinct strips: each directed strip comes with its twin in
/// its direction; and of two twins both stand there or neither, and they have one direction. It does nothing: its contract is
/// what it is for.
pub fn twin_laws()
    ensures { (J : Orbit) (xs : List ℕ) → IsInstance J → StripsDistinct xs → (KeepsTwinsTogether J xs ↔ KeepsTwinRule J xs) }
{}
