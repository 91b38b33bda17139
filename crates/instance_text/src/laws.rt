ghost use Rattle.std.specs.Prelude.{◌≡◌, ℕ, List};
ghost use Rattle.instance_text.specs.Refusal.{IsRefusal, IsFrontRefusal};
ghost use Rattle.instance_text.specs.Text.{IsText, IsFront};
ghost use Rattle.instance_text.specs.declared.refusal.Refusal.{Refusal};
ghost use Rattle.strip_model.specs.Orbit.{Orbit};

/// The laws that a text stands for one instance, and that bytes begin with one text at most. It does nothing: its contract is
/// what it is for.
pub fn one_value()
    ensures text { (bytes : List ℕ) (J K : Orbit) → IsText bytes J → IsText bytes K → J ≡ K }
    ensures front { (bytes : List ℕ) (m n : ℕ) (J K : Orbit) → IsFront bytes m J → IsFront bytes n K → (m ≡ n) × (J ≡ K) }
{}

/// The laws that bytes have one refusal, as a whole text and as bytes that should begin with one. It does nothing: its
/// contract is what it is for.
pub fn refusal_laws()
    ensures text { (bytes : List ℕ) (r s : Refusal) → IsRefusal bytes r → IsRefusal bytes s → r ≡ s }
    ensures front { (bytes : List ℕ) (r s : Refusal) → IsFrontRefusal bytes r → IsFrontRefusal bytes s → r ≡ s }
{}
