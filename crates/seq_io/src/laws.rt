// Laws of strict texts.
ghost use Rattle.std.specs.Prelude.{◌≡◌, ◌<◌, ◌≤◌, ◌^◌, ◌∷◌, ◌++◌, ℕ, List, [], None, Some, decimal, IsTrue};
ghost use Rattle.seq_io.specs.Line.{LF, spelled_line};
ghost use Rattle.seq_io.specs.StrictText.{TheWord, ANumber, ARatio, AreTokens, at_line, end_fault, is_token, token_fault, unread};
ghost use Rattle.seq_io.specs.Token.{ratio};

use crate::line_fault::LineFault;

/// What is spelled is read: a line at the front of a text gives its tokens, whatever follows it. And what is read was
/// spelled: nothing of a text is lost, and it ends where no bytes are left. It does nothing: its contract is what it is for.
pub fn line_laws()
    ensures read { (number : ℕ) (tokens : List (List ℕ)) (bytes : List ℕ) → AreTokens tokens
        → at_line number (spelled_line tokens ++ bytes) ≡ record { line = number; tokens = tokens; after = LF ∷ bytes } }
    ensures spelled { (number : ℕ) (bytes : List ℕ) → unread (at_line number bytes) ≡ bytes }
    ensures end { (number : ℕ) → end_fault (at_line number []) ≡ None }
    ensures more { (number b : ℕ) (bytes : List ℕ) → end_fault (at_line number (b ∷ bytes)) ≡ Some LineFault.Extra }
{}

/// A token that was written can stand where the same is wanted, and a number is one that can be read again. It does
/// nothing: its contract is what it is for.
pub fn token_laws()
    ensures word { (word : List ℕ) → token_fault (TheWord word) word ≡ None }
    ensures number { (n limit : ℕ) → n ≤ limit → n < 2 ^ 64 → token_fault (ANumber limit) (decimal n) ≡ None }
    ensures ratio { (n limit unit : ℕ) → n ≤ limit → n < 2 ^ 64 → unit < 2 ^ 64
        → token_fault (ARatio limit unit) (ratio n unit) ≡ None }
    ensures number_token { (n : ℕ) → n < 2 ^ 64 → IsTrue (is_token (decimal n)) }
    ensures ratio_token { (n unit : ℕ) → n < 2 ^ 64 → unit < 2 ^ 64 → IsTrue (is_token (ratio n unit)) }
{}
