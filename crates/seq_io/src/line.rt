// Lines of text, written token by token.
ghost use Rattle.std.specs.Prelude.{◌≡◌, ◌++◌, List, ℕ, length, map, decimal, OnOk, OnErr};
ghost use Rattle.std.specs.Iterator.{IsFinite};
ghost use Rattle.std.specs.Iterator.Runs.{WholeRun};
ghost use Rattle.std.specs.List.{flat_map, join_with_byte};
ghost use Rattle.seq_io.specs.Grew.{Grew};
ghost use Rattle.seq_io.specs.Line.{BLANK, spelled_line};
ghost use Rattle.seq_io.specs.Token.{bytes_of, ended};

use crate::token::{Token, put_ended, put_ended_number};
use std::alloc::AllocError;
use std::iter;

/// Appends a line: the tokens with one blank between two, and LF. Where no memory is found, `out` is as it was.
pub fn put_line(out: &mut Vec<u8>, tokens: &[Token]) -> Result<(), AllocError>
    ensures ok { OnOk result (out.new.items ≡ out.old.items ++ spelled_line (map bytes_of tokens.now)) }
    ensures err { OnErr result (out.new.items ≡ out.old.items) }
{
    put_number_line(out, tokens, iter::empty())
}

/// Appends a line of these tokens and then of these numbers, as many as come, with one blank between two, and LF. It takes
/// no memory but the output's. Where no memory is found, `out` is as it was.
pub fn put_number_line<I: Iterator<Item = u64> + Drop>(
    out: &mut Vec<u8>,
    first: &[Token],
    numbers: I,
) -> Result<(), AllocError>
    requires can { I.can_next numbers }
    requires finite { IsFinite (I.remaining numbers) }
    ensures ok { OnOk result (WholeRun I.next_gives numbers (λ p.
        out.new.items ≡ out.old.items ++ spelled_line (map bytes_of first.now ++ map decimal p.items))) }
    ensures err { OnErr result (out.new.items ≡ out.old.items) }
{
    let start = out.len();
    let result = append_line(out, first, numbers);
    if result.is_err() {
        out.truncate(start);
    }
    result
}

// The same, but a part of the line may be left where no memory is found.
fn append_line<I: Iterator<Item = u64> + Drop>(
    out: &mut Vec<u8>,
    first: &[Token],
    numbers: I,
) -> Result<(), AllocError>
    requires can { I.can_next numbers }
    requires finite { IsFinite (I.remaining numbers) }
    ensures ok { OnOk result (WholeRun I.next_gives numbers (λ p.
        out.new.items ≡ out.old.items ++ spelled_line (map bytes_of first.now ++ map decimal p.items))) }
    ensures grew { Grew out.old.items out.new.items }
{
    let start = out.len();
    append_tokens(out, first)?;
    append_numbers(out, numbers)?;
    drop_last_blank(out, start);
    out.push(b'\n')?;
    Ok(())
}

// Appends each token with a blank.
fn append_tokens(out: &mut Vec<u8>, tokens: &[Token]) -> Result<(), AllocError>
    ensures ok { OnOk result (out.new.items ≡ out.old.items ++ flat_map ended (map bytes_of tokens.now)) }
    ensures grew { Grew out.old.items out.new.items }
{
    for token in tokens {
        put_ended(out, token)?;
    }
    Ok(())
}

// Appends each number with a blank.
fn append_numbers<I: Iterator<Item = u64> + Drop>(
    out: &mut Vec<u8>,
    numbers: I,
) -> Result<(), AllocError>
    requires can { I.can_next numbers }
    requires finite { IsFinite (I.remaining numbers) }
    ensures ok { OnOk result (WholeRun I.next_gives numbers (λ p.
        out.new.items ≡ out.old.items ++ flat_map ended (map decimal p.items))) }
    ensures grew { Grew out.old.items out.new.items }
{
    for number in numbers {
        put_ended_number(out, number)?;
    }
    Ok(())
}

// Takes away the blank behind the last token, if there is one.
fn drop_last_blank(out: &mut Vec<u8>, start: usize)
    ensures joined { (text : List ℕ) (tokens : List (List ℕ)) → length text ≡ start
        → out.old.items ≡ text ++ flat_map ended tokens → out.new.items ≡ text ++ join_with_byte BLANK tokens }
    ensures grew { (text : List ℕ) → length text ≡ start → Grew text out.old.items → Grew text out.new.items }
{
    if out.len() > start {
        out.pop();
    }
}
