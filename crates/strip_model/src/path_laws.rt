//! The laws of the number of label paths.

ghost use Rattle.std.specs.Prelude.{◌≡◌, ℕ, ◌+◌, ◌≤◌, ◌↔◌, IsTrue, List, length};
ghost use Rattle.strip_model.specs.LabelPath.{LabelPath};
ghost use Rattle.strip_model.specs.Orbit.{Orbit};
ghost use Rattle.strip_model.specs.PathCount.{is_label_path, path_count, path_count_of, AreLabelPaths, HasAllPaths};
ghost use Rattle.strip_model.specs.Side.{Face, face_of};
ghost use Rattle.strip_model.specs.declared.end.End.{End};
ghost use Rattle.strip_model.specs.declared.end.End.TheVariants.{Forward, Backward};

/// The laws of the number of label paths. It does nothing: its contract is what it is for.
///
/// The test for label paths is true exactly of label paths. There are as many different ones of a side as are counted,
/// and nobody has more. So whoever has as many of both sides together as are counted has all of both sides.
pub fn label_path_laws()
    ensures test { (S : Face) (path : List ℕ) → IsTrue (is_label_path S path) ↔ LabelPath S path }
    ensures count { (S : Face) → (paths : List (List ℕ)) × AreLabelPaths S paths × HasAllPaths S paths × (length paths ≡ path_count S) }
    ensures at_most { (S : Face) (paths : List (List ℕ)) → AreLabelPaths S paths → length paths ≤ path_count S }
    ensures all_found { (J : Orbit) (cut : ℕ) (paths : End → List (List ℕ)) → ((e : End) → AreLabelPaths (face_of J cut e) (paths e)) → path_count_of J cut ≤ length (paths Forward) + length (paths Backward) → (e : End) → HasAllPaths (face_of J cut e) (paths e) }
{}
