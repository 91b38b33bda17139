// Texts that have one spelling, read from the front: each call gives what it read and the bytes after it.
ghost use Rattle.std.specs.Prelude.{◌≡◌, ◌<◌, ◌≤◌, ◌++◌, ◌∷◌, ◌==◌, ℕ, List, decimal, position, IfSome, IfNone};

use crate::number::parse_number;

/// What follows these bytes at the front of a text, if they stand there.
pub fn read_word<'a>(text: &'a [u8], word: &[u8]) -> Option<&'a [u8]>
    ensures read { IfSome result (λ rest. text.entry.now ≡ word.now ++ rest.now) }
    ensures none { IfNone result ((rest : List ℕ) → text.entry.now ≡ word.now ++ rest → ⊥) }
{
    text.strip_prefix(word)
}

/// The number at the front of a text in its one decimal spelling, up to a separator, and what follows the separator. None
/// where no number that is at most `limit` stands there, or another byte follows it. A separator comes before the digits
/// in ASCII, as blank and LF do. The number may be of any length, and no memory is taken.
pub fn read_number(text: &[u8], limit: u64, separator: u8) -> Option<(u64, &[u8])>
    requires { separator < 48 }
    ensures read { IfSome result (λ found. text.now ≡ decimal found.0 ++ separator ∷ found.1.now) }
    ensures limit { IfSome result (λ found. found.0 ≤ limit) }
    ensures none { IfNone result ((n : ℕ) (rest : List ℕ) → n ≤ limit → text.now ≡ decimal n ++ separator ∷ rest → ⊥) }
{
    let Some(end) = first_separator(text, separator) else {
        return None;
    };
    match parse_number(&text[..end], limit) {
        Ok(number) => Some((number, &text[end + 1..])),
        Err(_) => None,
    }
}

// The place of the first separator.
fn first_separator(text: &[u8], separator: u8) -> Option<usize>
    ensures { result ≡ position (λ b. b == separator) text.now }
{
    text.iter().position(|byte| *byte == separator)
}
