//! The lines of a text, read from the first.

ghost use Rattle.std.specs.Prelude.{◌≡◌, ◌<◌, ◌≤◌, ◌==◌, List, [], ◌∷◌, length, drop, position, IfOk, IfErr, OnOk, IfSome, IfNone, Some, None};
ghost use Rattle.instance_text.specs.Lines.{LF, IsCut, text_lines, lines_that_count};
ghost use Rattle.instance_text.specs.Reading.{IsRefusedAtLines};
ghost use Rattle.instance_text.specs.Shape.{Field, lines_fault};
ghost use Rattle.instance_text.specs.declared.limits.TheConstants.{MAX_TEXT_BYTES};

use crate::refusal::{Cause, Refusal};
use crate::tokens::Tokens;
use std::marker::Model;

// What is left of a text, and how many lines came before it.
#[derive(Drop)]
pub(crate) struct Reader<'a> {
    rest: &'a [u8],
    passed: u32,
}

impl<'a> Model for Reader<'a> {
    ghost use Rattle.std.specs.Prelude.{suc, ◌+◌, ◌≤◌, length};
    ghost use Rattle.instance_text.specs.declared.limits.TheConstants.{MAX_TEXT_BYTES};
    ghost use Rattle.instance_text.specs.Lines.{text_lines, lines_from};
    ghost use Rattle.instance_text.specs.Reading.{Rest};

    ghost Value = { Rest };

    ghost view = { λ r. record {
      passed = r.passed;
      count = r.passed + length (text_lines r.rest.now);
      lines = lines_from (suc r.passed) (text_lines r.rest.now);
    } };

    ghost invariant = { λ r. r.passed + length r.rest.now ≤ MAX_TEXT_BYTES };
}

impl<'a> Reader<'a> {
    pub(crate) fn new(bytes: &'a [u8]) -> Self
        requires { length bytes.now ≤ MAX_TEXT_BYTES }
        ensures { result ≡ record {
          passed = 0;
          count = length (text_lines bytes.entry.now);
          lines = lines_that_count bytes.entry.now;
        } }
    {
        Reader {
            rest: bytes,
            passed: 0,
        }
    }

    // The next line that counts.
    pub(crate) fn next_line(&mut self) -> Option<Tokens<'a>>
        ensures count { self.new.count ≡ self.old.count }
        ensures none { IfNone result (self.old.lines ≡ []) }
        ensures rest { self.new.lines ≡ drop 1 self.old.lines }
        ensures whole { IfNone result (self.new.passed ≡ self.new.count) }
        ensures line { IfSome result (λ line. self.old.lines ≡ line ∷ self.new.lines) }
    {
        while !self.rest.is_empty() {
            let (text, rest) = split_line(self.rest);
            self.rest = rest;
            self.passed += 1;
            let line = Tokens::new(self.passed, text);
            if !line.is_passed_over() {
                return Some(line);
            }
        }
        None
    }

    // The next line that counts, where one must be.
    pub(crate) fn line(&mut self) -> Result<Tokens<'a>, Refusal>
        ensures count { self.new.count ≡ self.old.count }
        ensures line { IfOk result (λ line. self.old.lines ≡ line ∷ self.new.lines) }
        ensures refused { IfErr result (λ r. (form : List Field) → IsRefusedAtLines (form ∷ []) self.old r) }
    {
        match self.next_line() {
            Some(line) => Ok(line),
            None => Err(Refusal {
                line: self.passed + 1,
                cause: Cause::Ended,
            }),
        }
    }

    // The end of the text: no further line counts.
    pub(crate) fn end(&mut self) -> Result<(), Refusal>
        ensures passes { OnOk result (lines_fault [] self.old.count self.old.lines ≡ None) }
        ensures end { OnOk result (self.old.lines ≡ []) }
        ensures refused { IfErr result (λ r. lines_fault [] self.old.count self.old.lines ≡ Some r) }
    {
        match self.next_line() {
            Some(line) => Err(line.refusal(Cause::Extra)),
            None => Ok(()),
        }
    }
}

// The first line of a text, and what follows it.
pub(crate) fn split_line(bytes: &[u8]) -> (&[u8], &[u8])
    requires { 0 < length bytes.now }
    ensures lines { text_lines bytes.now ≡ result.0.now ∷ text_lines result.1.now }
    ensures cut { IsCut bytes.now result.0.now result.1.now }
    ensures shorter { length result.1.now < length bytes.now }
{
    match end_of_line(bytes) {
        Some(at) => (&bytes[..at], &bytes[at + 1..]),
        None => (bytes, &[]),
    }
}

// The place of the first LF.
fn end_of_line(bytes: &[u8]) -> Option<usize>
    ensures { result ≡ position (λ b. b == LF) bytes.now }
{
    bytes.iter().position(|byte| *byte == b'\n')
}
