ghost use Rattle.std.specs.Prelude.{◌≡◌, ◌<◌, ◌≤◌, ◌+◌, ◌^◌, [], ◌∷◌, ◌++◌, length, map, decimal, codes, All, IfOk, IfErr, OnOk, IfSome};
ghost use Rattle.manoeuvre.specs.declared.limits.TheConstants.{MAX_MANOEUVRE};
ghost use Rattle.strip_model.specs.IsInstance.{IsStrip, IsWindow};
ghost use Rattle.strip_model.specs.declared.limits.TheConstants.{MAX_GAIN, MAX_REQUESTS, MAX_STRIPS};
ghost use Rattle.instance_text.specs.Reading.{Passes, IsRefusedAt, PassesLines, IsRefusedAtLines, words_of};
ghost use Rattle.instance_text.specs.Refusal.{IfRefused};
ghost use Rattle.instance_text.specs.Shape.{up_to, orbit_fields, count_fields, heading_fields, request_fields, window_fields, strip_fields, row_fields};
ghost use Rattle.instance_text.specs.Spelling.{request_line, window_tokens, strip_line};
ghost use Rattle.instance_text.specs.Text.{IsWindowInText, IsStripInText};

use crate::reader::Reader;
use crate::refusal::{Cause, Refusal, TextRefusal};
use crate::tokens::Tokens;
use manoeuvre::{MAX_DURATION, MAX_MANOEUVRE};
use std::alloc::Global;
use strip_model::{MAX_GAIN, MAX_STRIP_AREA, MAX_WINDOW_END, Request, Strip, Window};

// The line `orbit 1`.
pub(crate) fn orbit(reader: &mut Reader) -> Result<(), Refusal>
    ensures passes { OnOk result (PassesLines (orbit_fields ∷ []) reader.old reader.new) }
    ensures words { OnOk result (words_of reader.old ≡ (codes "orbit" ∷ decimal 1 ∷ []) ∷ words_of reader.new) }
    ensures refused { IfErr result (IsRefusedAtLines (orbit_fields ∷ []) reader.old) }
{
    let mut line = reader.line()?;
    line.word(b"orbit")?;
    line.number(1, 2, Cause::Version)?;
    line.end()?;
    Ok(())
}

// A line of one word.
pub(crate) fn heading(reader: &mut Reader, word: &[u8]) -> Result<(), Refusal>
    ensures passes { OnOk result (PassesLines (heading_fields word.now ∷ []) reader.old reader.new) }
    ensures words { OnOk result (words_of reader.old ≡ (word.now ∷ []) ∷ words_of reader.new) }
    ensures refused { IfErr result (IsRefusedAtLines (heading_fields word.now ∷ []) reader.old) }
{
    let mut line = reader.line()?;
    line.word(word)?;
    line.end()?;
    Ok(())
}

// A line that says how many lines of a kind follow, at most `limit`.
pub(crate) fn count(reader: &mut Reader, word: &[u8], limit: u32) -> Result<u32, Refusal>
    requires { limit + 1 < 2 ^ 32 }
    ensures passes { OnOk result (PassesLines (count_fields word.now limit ∷ []) reader.old reader.new) }
    ensures words { IfOk result (λ n. words_of reader.old ≡ (word.now ∷ decimal n ∷ []) ∷ words_of reader.new) }
    ensures limit { IfOk result (λ n. n ≤ limit) }
    ensures refused { IfErr result (IsRefusedAtLines (count_fields word.now limit ∷ []) reader.old) }
{
    let mut line = reader.line()?;
    line.word(word)?;
    let count = line.number(0, limit + 1, Cause::TooMany)?;
    line.end()?;
    Ok(count)
}

// The line of a request.
pub(crate) fn request(reader: &mut Reader) -> Result<Request, Refusal>
    ensures passes { OnOk result (PassesLines (request_fields ∷ []) reader.old reader.new) }
    ensures words { IfOk result (λ r. words_of reader.old ≡ request_line r ∷ words_of reader.new) }
    ensures limit { IfOk result (λ r. r.gain ≤ MAX_GAIN) }
    ensures refused { IfErr result (IsRefusedAtLines (request_fields ∷ []) reader.old) }
{
    let mut line = reader.line()?;
    line.word(b"r")?;
    let gain = up_to(&mut line, MAX_GAIN)?;
    line.end()?;
    Ok(Request { gain })
}

// The line of a strip, where there are that many requests and strips.
pub(crate) fn strip(reader: &mut Reader, requests: u32, strips: u32) -> Result<Strip, Refusal>
    requires requests { requests ≤ MAX_REQUESTS }
    requires strips { strips ≤ MAX_STRIPS }
    ensures passes { OnOk result (PassesLines (strip_fields requests strips ∷ []) reader.old reader.new) }
    ensures words { IfOk result (λ s. words_of reader.old ≡ strip_line s ∷ words_of reader.new) }
    ensures limits { IfOk result (IsStrip requests) }
    ensures twin { IfOk result (λ s. IfSome s.twin (λ i. i < strips)) }
    ensures windows { IfOk result IsStripInText }
    ensures refused { IfErr result (IsRefusedAtLines (strip_fields requests strips ∷ []) reader.old) }
{
    let mut line = reader.line()?;
    line.word(b"s")?;
    let request = line.number(0, requests, Cause::Range)?;
    let twin = line.twin(strips)?;
    let area = line.number(1, MAX_STRIP_AREA + 1, Cause::Range)?;
    let forth = window(&mut line)?;
    let back = window(&mut line)?;
    line.end()?;
    Ok(Strip {
        request: request as u16,
        twin,
        area,
        windows: [forth, back],
    })
}

// A row of the table, with `size` entries.
pub(crate) fn row(alloc: Global, reader: &mut Reader, size: u32) -> Result<Vec<u32>, TextRefusal>
    ensures passes { OnOk result (PassesLines (row_fields size ∷ []) reader.old reader.new) }
    ensures words { IfOk result (λ row. words_of reader.old ≡ map (λ entry. decimal entry) row.items ∷ words_of reader.new) }
    ensures length { IfOk result (λ row. length row.items ≡ size) }
    ensures limits { IfOk result (λ row. All (λ entry. entry ≤ MAX_MANOEUVRE) row.items) }
    ensures refused { IfErr result (λ e. IfRefused e (IsRefusedAtLines (row_fields size ∷ []) reader.old)) }
{
    let mut line = reader.line()?;
    let entries = entries(alloc, &mut line, size)?;
    line.end()?;
    Ok(entries)
}

// That many entries of a row.
fn entries(alloc: Global, line: &mut Tokens, size: u32) -> Result<Vec<u32>, TextRefusal>
    ensures passes { OnOk result (Passes (row_fields size) line.old line.new) }
    ensures tokens { IfOk result (λ row. line.old.tokens ≡ map (λ entry. decimal entry) row.items ++ line.new.tokens) }
    ensures length { IfOk result (λ row. length row.items ≡ size) }
    ensures limits { IfOk result (λ row. All (λ entry. entry ≤ MAX_MANOEUVRE) row.items) }
    ensures refused { IfErr result (λ e. IfRefused e (IsRefusedAt (row_fields size) line.old)) }
{
    let mut entries = Vec::new(alloc);
    for _ in 0..size {
        entries.push(up_to(line, MAX_MANOEUVRE)?)?;
    }
    Ok(entries)
}

// The ends of a window, and its duration.
fn window(line: &mut Tokens) -> Result<Window, Refusal>
    ensures passes { OnOk result (Passes window_fields line.old line.new) }
    ensures tokens { IfOk result (λ w. line.old.tokens ≡ window_tokens w ++ line.new.tokens) }
    ensures limits { IfOk result IsWindow }
    ensures ends { IfOk result IsWindowInText }
    ensures refused { IfErr result (IsRefusedAt window_fields line.old) }
{
    let early = up_to(line, MAX_WINDOW_END)?;
    let late = up_to(line, MAX_WINDOW_END)?;
    let duration = line.number(1, MAX_DURATION + 1, Cause::Range)?;
    Ok(Window {
        early,
        late,
        duration,
    })
}

// A number up to a limit.
fn up_to(line: &mut Tokens, limit: u32) -> Result<u32, Refusal>
    requires { limit + 1 < 2 ^ 32 }
    ensures passes { OnOk result (Passes (up_to limit ∷ []) line.old line.new) }
    ensures token { IfOk result (λ n. line.old.tokens ≡ decimal n ∷ line.new.tokens) }
    ensures limit { IfOk result (λ n. n ≤ limit) }
    ensures refused { IfErr result (IsRefusedAt (up_to limit ∷ []) line.old) }
{
    line.number(0, limit + 1, Cause::Range)
}
