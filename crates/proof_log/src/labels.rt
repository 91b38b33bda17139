//! The lines of an answer's text that tell the labels of a log.

ghost use Rattle.std.specs.Prelude.{◌≡◌, ◌≤◌, ◌<◌, ◌-◌, ◌*◌, ◌∷◌, length, map, decimal, None, IfOk, IfErr, OnOk, OnErr};
ghost use Rattle.std.specs.Result.{result_err};
ghost use Rattle.plan_check.specs.Reading.{IsLineBegun};
ghost use Rattle.proof_log.specs.AnswerReading.{IsUnread, IsUnreadLine, ArePathsRead};
ghost use Rattle.proof_log.specs.AnswerRefusal.{AtMarks, paths_stage, path_fields, label_fields};
ghost use Rattle.proof_log.specs.AnswerText.{side_word, IsPathInText};
ghost use Rattle.seq_io.specs.StrictText.{TheWord, ANumber, IsLine, line_fault, first_fault, with_token};
ghost use Rattle.strip_model.specs.declared.end.End.TheVariants.{Forward, Backward};
ghost use Rattle.strip_model.specs.declared.limits.TheConstants.{MAX_STRIPS};

use crate::unread::Unread;
use seq_io::{LineFault, StrictReader};
use std::alloc::Global;
use strip_model::{Directed, End, MAX_STRIPS};

// Reads the lines of forward labels, up to the first that is none, and at most so many.
pub(crate) fn read_forward(
    alloc: Global,
    reader: &mut StrictReader<'_>,
    wanted: usize,
) -> Result<Vec<Vec<Directed>>, Unread>
    requires { IsLineBegun reader.old }
    ensures few { IfOk result (λ paths. length paths.items ≤ wanted) }
    ensures read { IfOk result (λ paths. ArePathsRead Forward (paths_stage Forward wanted)
        (paths_stage Backward (wanted - length paths.items)) reader.old reader.new paths.items) }
    ensures unread { IfErr result (IsUnread (paths_stage Forward wanted) reader.old reader.new) }
{
    let mut paths = Vec::new(alloc);
    while paths.len() < wanted && reader.is_next("F") {
        paths.push(read_label(alloc, reader, End::Forward)?)?;
    }
    Ok(paths)
}

// Reads so many lines of backward labels. Their paths are turned round into the order of the mirror.
pub(crate) fn read_backward(
    alloc: Global,
    reader: &mut StrictReader<'_>,
    wanted: usize,
) -> Result<Vec<Vec<Directed>>, Unread>
    requires { IsLineBegun reader.old }
    ensures all { IfOk result (λ paths. length paths.items ≡ wanted) }
    ensures read { IfOk result (λ paths. ArePathsRead Backward (paths_stage Backward wanted) AtMarks reader.old reader.new paths.items) }
    ensures unread { IfErr result (IsUnread (paths_stage Backward wanted) reader.old reader.new) }
{
    let mut paths = Vec::new(alloc);
    while paths.len() < wanted {
        let mut path = read_label(alloc, reader, End::Backward)?;
        path.reverse();
        paths.push(path)?;
    }
    Ok(paths)
}

// Reads the line of a label of that side, with its path in time order.
fn read_label(
    alloc: Global,
    reader: &mut StrictReader<'_>,
    side: End,
) -> Result<Vec<Directed>, Unread>
    ensures in_range { IfOk result (λ path. IsPathInText path.items) }
    ensures read { IfOk result (λ path. IsLine (side_word side ∷ map decimal path.items) reader.old reader.new) }
    ensures stands { OnOk result (line_fault (label_fields side reader.old.tokens) reader.old ≡ None) }
    ensures unread { IfErr result (IsUnreadLine (label_fields side reader.old.tokens) reader.old reader.new) }
{
    match side {
        End::Forward => reader.word("F")?,
        End::Backward => reader.word("B")?,
    }
    read_path(alloc, reader)
}

// Reads the directed strips of a path up to the end of their line: at least one, and at most as many as there can be
// strips.
fn read_path(alloc: Global, reader: &mut StrictReader<'_>) -> Result<Vec<Directed>, Unread>
    ensures in_range { IfOk result (λ path. IsPathInText path.items) }
    ensures read { IfOk result (λ path. IsLine (map decimal path.items) reader.old reader.new) }
    ensures stands { OnOk result (line_fault (path_fields reader.old.tokens) reader.old ≡ None) }
    ensures unread { IfErr result (IsUnreadLine (path_fields reader.old.tokens) reader.old reader.new) }
{
    let mut path = Vec::new(alloc);
    path.push(read_directed(reader)?)?;
    while reader.has_token() && path.len() < MAX_STRIPS {
        path.push(read_directed(reader)?)?;
    }
    reader.line_end()?;
    Ok(path)
}

// Reads the number of a directed strip.
fn read_directed(reader: &mut StrictReader<'_>) -> Result<Directed, LineFault>
    ensures fault { result_err result ≡ first_fault (ANumber (2 * MAX_STRIPS - 1)) reader.old.tokens }
    ensures limit { IfOk result (λ x. x < 2 * MAX_STRIPS) }
    ensures read { IfOk result (λ x. reader.old ≡ with_token (decimal x) reader.new) }
    ensures unchanged { OnErr result (reader.new ≡ reader.old) }
{
    let number = reader.number(2 * MAX_STRIPS as u64 - 1)?;
    Ok(Directed(number as u16))
}
