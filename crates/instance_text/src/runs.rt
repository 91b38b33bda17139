//! Lines of one kind, one after the other. What they say is kept as they are read, so that a count in the text takes
//! no memory of itself.

ghost use Rattle.std.specs.Prelude.{◌≡◌, ◌<◌, ◌≤◌, ◌*◌, ◌++◌, length, map, replicate, decimal, All, IfOk, IfErr, OnOk, IfSome};
ghost use Rattle.manoeuvre.specs.declared.limits.TheConstants.{MAX_MANOEUVRE};
ghost use Rattle.strip_model.specs.IsInstance.{IsStrip};
ghost use Rattle.strip_model.specs.declared.limits.TheConstants.{MAX_GAIN, MAX_REQUESTS, MAX_STRIPS};
ghost use Rattle.instance_text.specs.Reading.{PassesLines, IsRefusedAtLines, words_of};
ghost use Rattle.instance_text.specs.Refusal.{IfRefused};
ghost use Rattle.instance_text.specs.Shape.{request_fields, strip_fields, row_fields};
ghost use Rattle.instance_text.specs.Spelling.{request_line, strip_line, rows_of};
ghost use Rattle.instance_text.specs.Text.{IsStripInText};

use crate::line_kinds::{request, row, strip};
use crate::reader::Reader;
use crate::refusal::TextRefusal;
use std::alloc::Global;
use strip_model::{Request, Strip};

// The lines of the requests.
pub(crate) fn requests(
    alloc: Global,
    reader: &mut Reader,
    requests: u32,
) -> Result<Vec<Request>, TextRefusal>
    ensures passes { OnOk result (PassesLines (replicate requests request_fields) reader.old reader.new) }
    ensures words { IfOk result (λ all. words_of reader.old ≡ map request_line all.items ++ words_of reader.new) }
    ensures length { IfOk result (λ all. length all.items ≡ requests) }
    ensures limits { IfOk result (λ all. All (λ r. r.gain ≤ MAX_GAIN) all.items) }
    ensures refused { IfErr result (λ e. IfRefused e (IsRefusedAtLines (replicate requests request_fields) reader.old)) }
{
    let mut all = Vec::new(alloc);
    for _ in 0..requests {
        all.push(request(reader)?)?;
    }
    Ok(all)
}

// The lines of the strips.
pub(crate) fn strips(
    alloc: Global,
    reader: &mut Reader,
    requests: u32,
    strips: u32,
) -> Result<Vec<Strip>, TextRefusal>
    requires requests { requests ≤ MAX_REQUESTS }
    requires strips { strips ≤ MAX_STRIPS }
    ensures passes { OnOk result (PassesLines (replicate strips (strip_fields requests strips)) reader.old reader.new) }
    ensures words { IfOk result (λ all. words_of reader.old ≡ map strip_line all.items ++ words_of reader.new) }
    ensures length { IfOk result (λ all. length all.items ≡ strips) }
    ensures limits { IfOk result (λ all. All (IsStrip requests) all.items) }
    ensures twins { IfOk result (λ all. All (λ s. IfSome s.twin (λ i. i < strips)) all.items) }
    ensures windows { IfOk result (λ all. All IsStripInText all.items) }
    ensures refused { IfErr result (λ e. IfRefused e (IsRefusedAtLines (replicate strips (strip_fields requests strips)) reader.old)) }
{
    let mut all = Vec::new(alloc);
    for _ in 0..strips {
        all.push(strip(reader, requests, strips)?)?;
    }
    Ok(all)
}

// The rows of a table of that size, one after the other.
pub(crate) fn rows(alloc: Global, reader: &mut Reader, size: u32) -> Result<Vec<u32>, TextRefusal>
    ensures passes { OnOk result (PassesLines (replicate size (row_fields size)) reader.old reader.new) }
    ensures words { IfOk result (λ all. words_of reader.old
        ≡ map (λ row. map (λ entry. decimal entry) row) (rows_of size size all.items) ++ words_of reader.new) }
    ensures length { IfOk result (λ all. length all.items ≡ size * size) }
    ensures limits { IfOk result (λ all. All (λ entry. entry ≤ MAX_MANOEUVRE) all.items) }
    ensures refused { IfErr result (λ e. IfRefused e (IsRefusedAtLines (replicate size (row_fields size)) reader.old)) }
{
    let mut entries = Vec::new(alloc);
    for _ in 0..size {
        let row = row(alloc, reader, size)?;
        entries.extend_from_slice(&row)?;
    }
    Ok(entries)
}
