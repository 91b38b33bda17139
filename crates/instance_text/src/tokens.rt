//! The tokens of one line, read from the left.

ghost use Rattle.std.specs.Prelude.{◌≡◌, ◌≢◌, ◌<◌, ◌≤◌, [], ◌∷◌, length, position, decimal, not, IfOk, IfErr, OnOk, IfSome, IfNone};
ghost use Rattle.std.specs.Bool.{OnTrue, OnFalse};
ghost use Rattle.std.specs.Result.{result_err};
ghost use Rattle.strip_model.specs.declared.limits.TheConstants.{MAX_STRIPS};
ghost use Rattle.instance_text.specs.Lines.{is_separator, is_passed_over, tokens_of};
ghost use Rattle.instance_text.specs.Reading.{Passes, IsRefusedAt};
ghost use Rattle.instance_text.specs.Shape.{TheWord, ANumber, ATwin, number_fault, line_refusal};
ghost use Rattle.instance_text.specs.Spelling.{twin_token};

use crate::refusal::{Cause, Refusal};
use seq_io::{NumberFault, parse_number};
use std::marker::Model;

// What is left of a line that counts, and its number.
#[derive(Drop)]
pub(crate) struct Tokens<'a> {
    line: u32,
    rest: &'a [u8],
}

impl<'a> Model for Tokens<'a> {
    ghost use Rattle.strip_model.specs.declared.limits.TheConstants.{MAX_STRIPS};
    ghost use Rattle.instance_text.specs.Lines.{Line, tokens_of};

    ghost Value = { Line };

    ghost view = { λ t. record { number = t.line; tokens = tokens_of t.rest.now } };
}

impl<'a> Tokens<'a> {
    pub(crate) fn new(line: u32, rest: &'a [u8]) -> Self
        ensures { result ≡ record { number = line; tokens = tokens_of rest.entry.now } }
    {
        Tokens { line, rest }
    }

    // The number of the line.
    pub(crate) fn line(&self) -> u32
        ensures { result ≡ self.now.number }
    {
        self.line
    }

    // Whether the whole line has no tokens, or begins with #.
    pub(crate) fn is_passed_over(&self) -> bool
        ensures { result ≡ is_passed_over self.now.tokens }
    {
        match first_token(self.rest) {
            None => true,
            Some((token, _)) => token[0] == b'#',
        }
    }

    // The refusal of this line for a cause.
    pub(crate) fn refusal(&self, cause: Cause) -> Refusal
        ensures { result ≡ record { line = self.now.number; cause = cause } }
    {
        Refusal {
            line: self.line,
            cause,
        }
    }

    // The next token.
    fn next(&mut self) -> Option<&'a [u8]>
        ensures line { self.new.number ≡ self.old.number }
        ensures none { IfNone result (self.old.tokens ≡ []) }
        ensures token { IfSome result (λ token. self.old.tokens ≡ token.now ∷ self.new.tokens) }
    {
        let (token, rest) = first_token(self.rest)?;
        self.rest = rest;
        Some(token)
    }

    // A fixed word.
    pub(crate) fn word(&mut self, word: &[u8]) -> Result<(), Refusal>
        ensures passes { OnOk result (Passes (TheWord word.now ∷ []) self.old self.new) }
        ensures token { OnOk result (self.old.tokens ≡ word.now ∷ self.new.tokens) }
        ensures refused { IfErr result (IsRefusedAt (TheWord word.now ∷ []) self.old) }
    {
        match self.next() {
            None => Err(self.refusal(Cause::Ended)),
            Some(token) if token == word => Ok(()),
            Some(_) => Err(self.refusal(Cause::Word)),
        }
    }

    // A number from `low` on and below `past`, refused for `cause` where it is out of that range.
    pub(crate) fn number(&mut self, low: u32, past: u32, cause: Cause) -> Result<u32, Refusal>
        ensures passes { OnOk result (Passes (ANumber low past cause ∷ []) self.old self.new) }
        ensures token { IfOk result (λ n. self.old.tokens ≡ decimal n ∷ self.new.tokens) }
        ensures range { IfOk result (λ n. (low ≤ n) × (n < past)) }
        ensures refused { IfErr result (IsRefusedAt (ANumber low past cause ∷ []) self.old) }
    {
        let Some(token) = self.next() else {
            return Err(self.refusal(Cause::Ended));
        };
        match number_in(token, low, past, cause) {
            Ok(number) => Ok(number),
            Err(cause) => Err(self.refusal(cause)),
        }
    }

    // A twin: `-`, or a number below `past`.
    pub(crate) fn twin(&mut self, past: u32) -> Result<Option<u16>, Refusal>
        requires { past ≤ MAX_STRIPS }
        ensures passes { OnOk result (Passes (ATwin past ∷ []) self.old self.new) }
        ensures token { IfOk result (λ twin. self.old.tokens ≡ twin_token twin ∷ self.new.tokens) }
        ensures range { IfOk result (λ twin. IfSome twin (λ i. i < past)) }
        ensures refused { IfErr result (IsRefusedAt (ATwin past ∷ []) self.old) }
    {
        let Some(token) = self.next() else {
            return Err(self.refusal(Cause::Ended));
        };
        if token == b"-".as_slice() {
            return Ok(None);
        }
        match number_in(token, 0, past, Cause::Range) {
            Ok(number) => Ok(Some(number as u16)),
            Err(cause) => Err(self.refusal(cause)),
        }
    }

    // The end of the line.
    pub(crate) fn end(&mut self) -> Result<(), Refusal>
        ensures passes { OnOk result (line_refusal [] self.old ≡ None) }
        ensures end { OnOk result (self.old.tokens ≡ []) }
        ensures refused { IfErr result (λ r. line_refusal [] self.old ≡ Some r) }
    {
        match self.next() {
            None => Ok(()),
            Some(_) => Err(self.refusal(Cause::Extra)),
        }
    }
}

// Blank, tab and CR stand between tokens.
fn is_separator(byte: u8) -> bool
    ensures { result ≡ is_separator byte }
{
    byte == b' ' || byte == b'\t' || byte == b'\r'
}

// The place of the first byte of a token.
fn start_of_token(line: &[u8]) -> Option<usize>
    ensures { result ≡ position (λ b. not (is_separator b)) line.now }
{
    line.iter().position(|byte| !is_separator(*byte))
}

// The place of the first separator.
fn end_of_token(line: &[u8]) -> Option<usize>
    ensures { result ≡ position is_separator line.now }
{
    line.iter().position(|byte| is_separator(*byte))
}

// The first token of a line, and what follows it.
fn first_token(line: &[u8]) -> Option<(&[u8], &[u8])>
    ensures none { IfNone result (tokens_of line.now ≡ []) }
    ensures token { IfSome result (λ parts. tokens_of line.now ≡ parts.0.now ∷ tokens_of parts.1.now) }
    ensures some { IfSome result (λ parts. 0 < length parts.0.now) }
{
    let line = &line[start_of_token(line).unwrap_or(line.len())..];
    let end = end_of_token(line).unwrap_or(line.len());
    if end == 0 {
        None
    } else {
        Some(line.split_at(end))
    }
}

// Whether the line is that word alone.
pub(crate) fn is_word(line: &[u8], word: &[u8]) -> bool
    ensures yes { OnTrue result (tokens_of line.now ≡ word.now ∷ []) }
    ensures no { OnFalse result (tokens_of line.now ≢ word.now ∷ []) }
{
    match first_token(line) {
        Some((token, rest)) => token == word && first_token(rest).is_none(),
        None => false,
    }
}

// The number that a token spells, from `low` on and below `past`.
fn number_in(token: &[u8], low: u32, past: u32, cause: Cause) -> Result<u32, Cause>
    ensures fault { result_err result ≡ number_fault low past cause token.now }
    ensures number { IfOk result (λ n. (token.now ≡ decimal n) × (low ≤ n) × (n < past)) }
{
    match parse_number(token, u64::from(past)) {
        Ok(number) if u64::from(low) <= number && number < u64::from(past) => Ok(number as u32),
        Err(NumberFault::Form) => Err(Cause::Number),
        _ => Err(cause),
    }
}
