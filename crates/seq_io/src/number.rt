// Numbers in their one decimal spelling.
ghost use Rattle.std.specs.Prelude.{◌≡◌, ◌<◌, ◌≤◌, ◌↔◌, ◌++◌, ◌^◌, ℕ, false, decimal, IfOk, OnOk, OnErr, IsErrOf};
ghost use Rattle.std.specs.Char.{is_ascii_digit};
ghost use Rattle.std.specs.List.{list_all};
ghost use Rattle.std.specs.Option.{SomeIff};
ghost use Rattle.seq_io.specs.Number.{is_number, IsNumber, number_value, reading};

use itoa::Buffer;
use std::alloc::AllocError;
use thiserror::Error;

/// Why a token isn't read as a number.
#[derive(Clone, Copy, Debug, PartialEq, Eq, Error)]
pub enum NumberFault {
    /// It is neither `0` nor a digit from 1 to 9 followed by digits.
    #[error("not a number")]
    Form,
    /// It is a number above the limit.
    #[error("the number is too large")]
    TooLarge,
}

/// The number that a token spells, if it is at most `limit`. The token may be of any length, and
/// no memory is taken.
#[tactic(auto, using(crate::proofs::Decimal::spellings))]
pub fn parse_number(token: &[u8], limit: u64) -> Result<u64, NumberFault>
    ensures value { IfOk result (λ n.
        IsNumber token.now × (n ≡ number_value token.now) × (n ≤ limit)) }
    ensures form { IsErrOf result NumberFault.Form ↔ (is_number token.now ≡ false) }
    ensures too_large { IsErrOf result NumberFault.TooLarge
        ↔ (IsNumber token.now × (limit < number_value token.now)) }
    ensures reading { result ≡ reading limit token.now }

    // A number has one spelling, its decimal one.
    ensures spelling { IfOk result (λ n. token.now ≡ decimal n) }
    ensures spelled { (n : ℕ) → n ≤ limit → token.now ≡ decimal n → result ≡ Ok n }
{
    if !is_number(token) {
        return Err(NumberFault::Form);
    }
    match value_of(token) {
        Some(n) if n <= limit => Ok(n),
        _ => Err(NumberFault::TooLarge),
    }
}

// The value of a number, if it is below 2^64.
fn value_of(token: &[u8]) -> Option<u64>
    requires { IsNumber token.now }
    ensures { SomeIff result (number_value token.now < 2 ^ 64) (number_value token.now) }
{
    let text = str::from_utf8(token).unwrap();
    text.parse::<u64>().ok()
}

// Whether a token is `0`, or a digit from 1 to 9 followed by digits.
#[tactic(auto, using(crate::proofs::Decimal::no_zero_first))]
fn is_number(token: &[u8]) -> bool
    ensures { result ≡ is_number token.now }
{
    match token {
        [] => false,
        [b'0'] => true,
        [first, ..] => *first != b'0' && are_digits(token),
    }
}

fn are_digits(bytes: &[u8]) -> bool
    ensures { result ≡ list_all is_ascii_digit bytes.now }
{
    bytes.iter().all(|byte| byte.is_ascii_digit())
}

/// Appends the decimal spelling of `n`. Where no memory is found, `out` is as it was.
pub fn put_number(out: &mut Vec<u8>, n: u64) -> Result<(), AllocError>
    ensures ok { OnOk result (out.new.items ≡ out.old.items ++ decimal n) }
    ensures err { OnErr result (out.new.items ≡ out.old.items) }
{
    let mut buffer = Buffer::new();
    out.extend_from_slice(buffer.format(n).as_bytes())
}
