//! The lines of an answer's text that tell the marks of a log, up to `end`.

ghost use Rattle.std.specs.Prelude.{◌≡◌, ◌||◌, codes, IfOk, IfErr, OnErr, IsTrue};
ghost use Rattle.std.specs.Result.{result_err};
ghost use Rattle.plan_check.specs.Reading.{IsLineBegun};
ghost use Rattle.proof_log.specs.AnswerReading.{IsUnread, AreMarksRead};
ghost use Rattle.proof_log.specs.AnswerRefusal.{AtMarks, side_field, retire_fields, cut_fields, mark_fields};
ghost use Rattle.proof_log.specs.AnswerText.{side_word, mark_line, IsMarkInText};
ghost use Rattle.seq_io.specs.StrictText.{IsLine, is_next, line_fault, first_fault, with_token};

use crate::lines::read_heading;
use crate::unread::Unread;
use crate::{MAX_LABELS, Mark};
use seq_io::{LineFault, StrictReader};
use std::alloc::Global;
use strip_model::End;

// The greatest number of a label.
const LAST_LABEL: u64 = MAX_LABELS as u64 - 1;

// Reads the lines of marks and the last line.
pub(crate) fn read_marks(alloc: Global, reader: &mut StrictReader<'_>) -> Result<Vec<Mark>, Unread>
    requires { IsLineBegun reader.old }
    ensures read { IfOk result (λ marks. AreMarksRead reader.old reader.new marks.items) }
    ensures unread { IfErr result (IsUnread AtMarks reader.old reader.new) }
{
    let mut marks = Vec::new(alloc);
    while reader.is_next("R") || reader.is_next("C") {
        marks.push(read_mark(reader)?)?;
    }
    read_heading(reader, "end")?;
    Ok(marks)
}

// Reads the line of a mark.
fn read_mark(reader: &mut StrictReader<'_>) -> Result<Mark, LineFault>
    requires { IsTrue (is_next (codes "R") reader.old.tokens || is_next (codes "C") reader.old.tokens) }
    ensures fault { result_err result ≡ line_fault (mark_fields reader.old.tokens) reader.old }
    ensures in_range { IfOk result IsMarkInText }
    ensures read { IfOk result (λ mark. IsLine (mark_line mark) reader.old reader.new) }
    ensures line { OnErr result (reader.new.line ≡ reader.old.line) }
{
    if reader.is_next("R") {
        read_retired(reader)
    } else {
        read_cut_off(reader)
    }
}

// Reads the line of a label that is retired.
fn read_retired(reader: &mut StrictReader<'_>) -> Result<Mark, LineFault>
    ensures fault { result_err result ≡ line_fault (retire_fields reader.old.tokens) reader.old }
    ensures in_range { IfOk result IsMarkInText }
    ensures read { IfOk result (λ mark. IsLine (mark_line mark) reader.old reader.new) }
    ensures line { OnErr result (reader.new.line ≡ reader.old.line) }
{
    reader.word("R")?;
    let end = read_side(reader)?;
    let label = reader.number(LAST_LABEL)?;
    let by = reader.number(LAST_LABEL)?;
    reader.line_end()?;
    Ok(Mark::Retire {
        end,
        label: label as u32,
        by: by as u32,
    })
}

// Reads the line of a label that is cut.
fn read_cut_off(reader: &mut StrictReader<'_>) -> Result<Mark, LineFault>
    ensures fault { result_err result ≡ line_fault (cut_fields reader.old.tokens) reader.old }
    ensures in_range { IfOk result IsMarkInText }
    ensures read { IfOk result (λ mark. IsLine (mark_line mark) reader.old reader.new) }
    ensures line { OnErr result (reader.new.line ≡ reader.old.line) }
{
    reader.word("C")?;
    let end = read_side(reader)?;
    let label = reader.number(LAST_LABEL)?;
    reader.line_end()?;
    Ok(Mark::Cut {
        end,
        label: label as u32,
    })
}

// Reads the letter of a side.
fn read_side(reader: &mut StrictReader<'_>) -> Result<End, LineFault>
    ensures fault { result_err result ≡ first_fault (side_field reader.old.tokens) reader.old.tokens }
    ensures read { IfOk result (λ end. reader.old ≡ with_token (side_word end) reader.new) }
    ensures unchanged { OnErr result (reader.new ≡ reader.old) }
{
    if reader.is_next("F") {
        reader.word("F")?;
        Ok(End::Forward)
    } else {
        reader.word("B")?;
        Ok(End::Backward)
    }
}
