// The tokens of lines that are written.
ghost use Rattle.std.specs.Prelude.{◌≡◌, ◌++◌, decimal, OnOk};
ghost use Rattle.seq_io.specs.Grew.{Grew};
ghost use Rattle.seq_io.specs.Token.{bytes_of, ended, ratio};

use crate::number::put_number;
use std::alloc::AllocError;

/// A token of a line.
#[derive(Clone, Copy, Debug)]
pub enum Token {
    /// A fixed word.
    Word(&'static str),
    /// A number.
    Number(u64),
    /// A number of parts of a unit, as `7/20`.
    Ratio { number: u64, unit: u64 },
}

// Appends a token and a blank.
pub(crate) fn put_ended(out: &mut Vec<u8>, token: &Token) -> Result<(), AllocError>
    ensures ok { OnOk result (out.new.items ≡ out.old.items ++ ended (bytes_of token.now)) }
    ensures grew { Grew out.old.items out.new.items }
{
    put_token(out, token)?;
    out.push(b' ')?;
    Ok(())
}

// Appends a number and a blank.
pub(crate) fn put_ended_number(out: &mut Vec<u8>, number: u64) -> Result<(), AllocError>
    ensures ok { OnOk result (out.new.items ≡ out.old.items ++ ended (decimal number)) }
    ensures grew { Grew out.old.items out.new.items }
{
    put_number(out, number)?;
    out.push(b' ')?;
    Ok(())
}

fn put_token(out: &mut Vec<u8>, token: &Token) -> Result<(), AllocError>
    ensures ok { OnOk result (out.new.items ≡ out.old.items ++ bytes_of token.now) }
    ensures grew { Grew out.old.items out.new.items }
{
    match token {
        Token::Word(word) => out.extend_from_slice(word.as_bytes()),
        Token::Number(number) => put_number(out, *number),
        Token::Ratio { number, unit } => put_ratio(out, *number, *unit),
    }
}

fn put_ratio(out: &mut Vec<u8>, number: u64, unit: u64) -> Result<(), AllocError>
    ensures ok { OnOk result (out.new.items ≡ out.old.items ++ ratio number unit) }
    ensures grew { Grew out.old.items out.new.items }
{
    put_number(out, number)?;
    out.push(b'/')?;
    put_number(out, unit)
}
