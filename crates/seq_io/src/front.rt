// The token at the front of some bytes, up to a blank, LF or their end.
ghost use Rattle.std.specs.Prelude.{◌≡◌, ◌≢◌, ◌<◌, ◌≤◌, ◌⊎◌, ◌∷◌, [], ℕ, List, true, length, take, decimal, slice_index, IfOk, IfSome};
ghost use Rattle.std.specs.Bool.{OnTrue, OnFalse};
ghost use Rattle.std.specs.Char.{is_ascii_digit};
ghost use Rattle.std.specs.List.{list_all, position};
ghost use Rattle.std.specs.Result.{result_err};
ghost use Rattle.std.specs.Str.{bytes_eq};
ghost use Rattle.seq_io.specs.Front.{is_token_end, front_token, front_length, line_length, tokens_left};
ghost use Rattle.seq_io.specs.Number.{number_value, reading};
ghost use Rattle.seq_io.specs.StrictText.{ANumber, ARatio, fault_of, token_fault, tokens_fault, is_slash, behind_line, line_tokens, first_line};
ghost use Rattle.seq_io.specs.Token.{ratio};

use crate::line_fault::LineFault;
use crate::number::{NumberFault, parse_number};
use itoa::Buffer;

// From here on one more digit might be too many for a `u64`, so the number is left to `parse_number`.
const LONG: u64 = 1_000_000_000_000_000_000;

// Whether a token begins here, and not the end of a line or of the text.
pub(crate) fn is_line_begun(bytes: &[u8]) -> bool
    ensures tokens { tokens_left result bytes.now ≡ line_tokens (first_line bytes.now) }
    ensures none { OnFalse result (line_length bytes.now ≡ 0) }
{
    !matches!(bytes, [] | [b'\n', ..])
}

// Whether a token ends at this byte.
fn is_token_end(byte: u8) -> bool
    ensures { result ≡ is_token_end byte }
{
    byte == b' ' || byte == b'\n'
}

// The place of the first blank or LF.
fn first_token_end(bytes: &[u8]) -> Option<usize>
    ensures { result ≡ position is_token_end bytes.now }
{
    bytes.iter().position(|byte| is_token_end(*byte))
}

// How long the token at the front is.
#[tactic(auto, using(crate::proofs::FrontTokens::front_length_is))]
pub(crate) fn token_end(bytes: &[u8]) -> usize
    ensures length { result ≡ front_length bytes.now }
    ensures bound { result ≤ length bytes.now }
{
    first_token_end(bytes).unwrap_or(bytes.len())
}

// What follows the token at the front, which is so long, and whether another token follows in the same line.
#[tactic(auto, using(crate::proofs::FrontTokens::front_within))]
pub(crate) fn behind_token(bytes: &[u8], end: usize) -> (&[u8], bool)
    requires { end ≡ front_length bytes.now }
    ensures tokens { tokens_left true bytes.now ≡ front_token bytes.now ∷ tokens_left result.1 result.0.now }
    ensures after { behind_line result.0.now ≡ behind_line bytes.now }
    ensures none { OnFalse result.1 (line_length result.0.now ≡ 0) }
    ensures shorter { length result.0.now ≤ length bytes.now }
{
    if end < bytes.len() && bytes[end] == b' ' {
        (&bytes[end + 1..], true)
    } else {
        (&bytes[end..], false)
    }
}

// The fault of a line that should have ended before the token at the front.
pub(crate) fn extra_token(bytes: &[u8]) -> LineFault
    ensures { (after : List ℕ) → tokens_fault [] (tokens_left true bytes.now) after ≡ Some result }
{
    if token_end(bytes) == 0 {
        LineFault::Word
    } else {
        LineFault::Extra
    }
}

// The number that is the token at the front, and how long the token is.
pub(crate) fn front_number(bytes: &[u8], limit: u64) -> Result<(u64, usize), LineFault>
    ensures fault { result_err result ≡ token_fault (ANumber limit) (front_token bytes.now) }
    ensures number { IfOk result (λ found. (found.0 ≤ limit) × (front_token bytes.now ≡ decimal found.0)) }
    ensures end { IfOk result (λ found. found.1 ≡ front_length bytes.now) }
{
    if let Some((number, end)) = short_number(bytes)
        && number <= limit
    {
        return Ok((number, end));
    }
    let end = token_end(bytes);
    if end == 0 {
        return Err(LineFault::Word);
    }
    let number = number_in(&bytes[..end], limit)?;
    Ok((number, end))
}

// The same without a limit, where the token is a number and not a long one. Almost all are, so they are read in one pass.
fn short_number(bytes: &[u8]) -> Option<(u64, usize)>
    ensures number { IfSome result (λ found. front_token bytes.now ≡ decimal found.0) }
    ensures end { IfSome result (λ found. found.1 ≡ front_length bytes.now) }
{
    let (number, end) = front_digits(bytes)?;
    if ends_at(bytes, end) && is_in_form(bytes, end) {
        Some((number, end))
    } else {
        None
    }
}

// Whether a blank, LF or the end of the bytes is at that place.
fn ends_at(bytes: &[u8], end: usize) -> bool
    ensures { OnTrue result (end < length bytes.now → is_token_end (slice_index bytes.now end) ≡ true) }
{
    match bytes.get(end) {
        Some(byte) => is_token_end(*byte),
        None => true,
    }
}

// Whether so many digits at the front are one, or don't begin with 0.
fn is_in_form(bytes: &[u8], digits: usize) -> bool
    requires { digits ≤ length bytes.now }
    ensures { OnTrue result ((digits ≡ 1) ⊎ ((1 < digits) × (slice_index bytes.now 0 ≢ 48))) }
{
    digits == 1 || digits > 1 && bytes[0] != b'0'
}

// What digits at the front are worth, and how many they are.
fn front_digits(bytes: &[u8]) -> Option<(u64, usize)>
    ensures bound { IfSome result (λ found. found.1 ≤ length bytes.now) }
    ensures digits { IfSome result (λ found. list_all is_ascii_digit (take found.1 bytes.now) ≡ true) }
    ensures value { IfSome result (λ found. found.0 ≡ number_value (take found.1 bytes.now)) }
{
    let mut value = 0;
    for (i, byte) in bytes.iter().enumerate() {
        if !byte.is_ascii_digit() {
            return Some((value, i));
        }
        if value >= LONG {
            return None;
        }
        value = 10 * value + u64::from(byte - b'0');
    }
    Some((value, bytes.len()))
}

// The number that a token spells.
fn number_in(token: &[u8], limit: u64) -> Result<u64, LineFault>
    ensures fault { result_err result ≡ fault_of (reading limit token.now) }
    ensures number { IfOk result (λ n. (n ≤ limit) × (token.now ≡ decimal n)) }
{
    match parse_number(token, limit) {
        Ok(number) => Ok(number),
        Err(NumberFault::Form) => Err(LineFault::Number),
        Err(NumberFault::TooLarge) => Err(LineFault::Range),
    }
}

// The number of parts of that unit that is the token at the front, and how long the token is.
pub(crate) fn front_ratio(bytes: &[u8], limit: u64, unit: u64) -> Result<(u64, usize), LineFault>
    ensures fault { result_err result ≡ token_fault (ARatio limit unit) (front_token bytes.now) }
    ensures number { IfOk result (λ found. (found.0 ≤ limit) × (front_token bytes.now ≡ ratio found.0 unit)) }
    ensures end { IfOk result (λ found. found.1 ≡ front_length bytes.now) }
{
    let end = token_end(bytes);
    let number = ratio_in(&bytes[..end], limit, unit)?;
    Ok((number, end))
}

// The number of parts of that unit that a token spells.
fn ratio_in(token: &[u8], limit: u64, unit: u64) -> Result<u64, LineFault>
    ensures fault { result_err result ≡ token_fault (ARatio limit unit) token.now }
    ensures number { IfOk result (λ n. (n ≤ limit) × (token.now ≡ ratio n unit)) }
{
    let Some(slash) = first_slash(token) else {
        return Err(LineFault::Word);
    };
    if !is_spelled(&token[slash + 1..], unit) {
        return Err(LineFault::Word);
    }
    number_in(&token[..slash], limit)
}

// The place of the first slash.
fn first_slash(token: &[u8]) -> Option<usize>
    ensures { result ≡ position is_slash token.now }
{
    token.iter().position(|byte| *byte == b'/')
}

// Whether the bytes are the decimal spelling of that number.
fn is_spelled(bytes: &[u8], number: u64) -> bool
    ensures { result ≡ bytes_eq bytes.now (decimal number) }
{
    let mut buffer = Buffer::new();
    bytes == buffer.format(number).as_bytes()
}
