// The reader of strict texts.
ghost use Rattle.std.specs.Prelude.{◌≡◌, ◌<◌, ◌≤◌, ◌+◌, ◌∷◌, [], length, decimal, IfOk, OnOk, OnErr};
ghost use Rattle.std.specs.Bool.{OnTrue, OnFalse};
ghost use Rattle.std.specs.Result.{result_err};
ghost use Rattle.seq_io.specs.StrictText.{TheWord, ANumber, ARatio, first_fault, line_fault, end_fault, at_line, with_token, is_next, IsLine};
ghost use Rattle.seq_io.specs.Token.{ratio};

use crate::front::{
    behind_token, extra_token, front_number, front_ratio, is_line_begun, token_end,
};
use crate::line_fault::LineFault;
use std::marker::Model;

/// What is left of a strict text: lines of tokens, one blank between two tokens, LF after each line and only there. It is
/// read token by token, and takes no memory. After a refusal it stands where it stood, so its line is that of the fault.
#[derive(Drop)]
pub struct StrictReader<'a> {
    // The number of the line, from 1.
    line: u64,
    // Whether a token of the line is left. It begins where `rest` does, which else begins with LF or is empty.
    more: bool,
    rest: &'a [u8],
}

impl<'a> Model for StrictReader<'a> {
    ghost use Rattle.std.specs.Prelude.{ℕ, ◌≡◌, ◌<◌, ◌+◌, ◌^◌, false, length};
    ghost use Rattle.seq_io.specs.StrictText.{Rest, behind_line};
    ghost use Rattle.seq_io.specs.Front.{tokens_left, line_length};

    ghost Value = { Rest };

    ghost view = { λ s. record {
      line = s.line;
      tokens = tokens_left s.more s.rest.now;
      after = behind_line s.rest.now;
    } };

    ghost invariant = { λ s. (s.line + length s.rest.now < 2 ^ 64) × (s.more ≡ false → line_length s.rest.now ≡ 0) };
}

impl<'a> StrictReader<'a> {
    /// The whole text, from its first line on.
    pub fn new(text: &'a [u8]) -> Self
        ensures { result ≡ at_line 1 text.entry.now }
    {
        StrictReader {
            line: 1,
            more: is_line_begun(text),
            rest: text,
        }
    }

    /// The number of the line that is being read, from 1.
    pub fn line(&self) -> u64
        ensures { result ≡ self.now.line }
    {
        self.line
    }

    /// Whether a token of the line is left.
    pub fn has_token(&self) -> bool
        ensures some { OnTrue result (0 < length self.now.tokens) }
        ensures none { OnFalse result (self.now.tokens ≡ []) }
    {
        self.more
    }

    /// Whether the next token of the line is that word.
    pub fn is_next(&self, word: &str) -> bool
        ensures { result ≡ is_next word.now self.now.tokens }
    {
        self.more && &self.rest[..token_end(self.rest)] == word.as_bytes()
    }

    /// Reads that word.
    pub fn word(&mut self, word: &str) -> Result<(), LineFault>
        ensures fault { result_err result ≡ first_fault (TheWord word.now) self.old.tokens }
        ensures read { OnOk result (self.old ≡ with_token word.now self.new) }
        ensures unchanged { OnErr result (self.new ≡ self.old) }
    {
        if !self.more {
            return Err(LineFault::Ended);
        }
        let end = token_end(self.rest);
        if &self.rest[..end] != word.as_bytes() {
            return Err(LineFault::Word);
        }
        (self.rest, self.more) = behind_token(self.rest, end);
        Ok(())
    }

    /// Reads a number that is at most `limit`. It may be of any length.
    pub fn number(&mut self, limit: u64) -> Result<u64, LineFault>
        ensures fault { result_err result ≡ first_fault (ANumber limit) self.old.tokens }
        ensures limit { IfOk result (λ n. n ≤ limit) }
        ensures read { IfOk result (λ n. self.old ≡ with_token (decimal n) self.new) }
        ensures unchanged { OnErr result (self.new ≡ self.old) }
    {
        if !self.more {
            return Err(LineFault::Ended);
        }
        let (number, end) = front_number(self.rest, limit)?;
        (self.rest, self.more) = behind_token(self.rest, end);
        Ok(number)
    }

    /// Reads a number of parts of that unit, as `7/20`, that is at most `limit`, and gives the number.
    pub fn ratio(&mut self, limit: u64, unit: u64) -> Result<u64, LineFault>
        ensures fault { result_err result ≡ first_fault (ARatio limit unit) self.old.tokens }
        ensures limit { IfOk result (λ n. n ≤ limit) }
        ensures read { IfOk result (λ n. self.old ≡ with_token (ratio n unit) self.new) }
        ensures unchanged { OnErr result (self.new ≡ self.old) }
    {
        if !self.more {
            return Err(LineFault::Ended);
        }
        let (number, end) = front_ratio(self.rest, limit, unit)?;
        (self.rest, self.more) = behind_token(self.rest, end);
        Ok(number)
    }

    /// Reads the end of the line, and goes on to the next one.
    pub fn line_end(&mut self) -> Result<(), LineFault>
        ensures fault { result_err result ≡ line_fault [] self.old }
        ensures read { OnOk result (IsLine [] self.old self.new) }
        ensures unchanged { OnErr result (self.new ≡ self.old) }
    {
        if self.more {
            return Err(extra_token(self.rest));
        }
        let [_, rest @ ..] = self.rest else {
            return Err(LineFault::Ended);
        };
        self.line += 1;
        self.more = is_line_begun(rest);
        self.rest = rest;
        Ok(())
    }

    /// Whether the text ends here.
    pub fn text_end(&self) -> Result<(), LineFault>
        ensures { result_err result ≡ end_fault self.now }
    {
        if self.more || !self.rest.is_empty() {
            return Err(LineFault::Extra);
        }
        Ok(())
    }
}
