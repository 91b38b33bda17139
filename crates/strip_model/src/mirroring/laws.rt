//! What holds of every instance and its mirror.

ghost use Rattle.std.specs.Prelude.{◌≡◌, List, ◌↔◌};
ghost use Rattle.std.specs.List.{AllByRecursion};
ghost use Rattle.strip_model.specs.Horizon.{horizon_of};
ghost use Rattle.strip_model.specs.IsInstance.{IsInstance};
ghost use Rattle.strip_model.specs.Mirror.{mirror_of, flip_plan, IsOverBy};
ghost use Rattle.strip_model.specs.Orbit.{Orbit};
ghost use Rattle.strip_model.specs.Plan.{Feasible, gain_of};
ghost use Rattle.strip_model.specs.declared.acquisition.Acquisition.{Acquisition};

/// The laws of the mirror: it is an instance; acquisitions that exist and are over by the horizon, as those of each
/// feasible plan are, make a feasible plan exactly where they do so on the mirror, turned round; and both gain the same.
/// It does nothing: its contract is what it is for.
pub fn mirror_laws()
    ensures instance { (J : Orbit) → IsInstance J → IsInstance (mirror_of J) }
    ensures over { (J : Orbit) (plan : List Acquisition) → Feasible J plan → AllByRecursion (IsOverBy (horizon_of J) J) plan }
    ensures feasible { (J : Orbit) (plan : List Acquisition) → IsInstance J → AllByRecursion (IsOverBy (horizon_of J) J) plan
        → (Feasible J plan ↔ Feasible (mirror_of J) (flip_plan (horizon_of J) J plan)) }
    ensures gain { (J : Orbit) (plan : List Acquisition) → IsInstance J
        → gain_of (mirror_of J) (flip_plan (horizon_of J) J plan) ≡ gain_of J plan }
{}
