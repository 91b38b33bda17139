ghost use Rattle.std.specs.Prelude.{◌≡◌, ◌≤◌, List, IfOk, IfErr, OnOk, MatchResult};
ghost use Rattle.std.specs.Result.{result_err};
ghost use Rattle.plan_check.specs.PlanText.{count_line, acquisition_line, end_line, IsAcquisitionInText, IsPlanText};
ghost use Rattle.plan_check.specs.Reading.{count_fields, acquisition_fields, end_fields, IsLineBegun, HasRead};
ghost use Rattle.plan_check.specs.Refusal.{IsRefusedAs};
ghost use Rattle.seq_io.specs.StrictText.{IsLine, line_fault};
ghost use Rattle.strip_model.specs.declared.acquisition.Acquisition.{Acquisition};
ghost use Rattle.strip_model.specs.declared.limits.TheConstants.{MAX_STRIPS};

use crate::PlanRefusal;
use seq_io::{LineFault, StrictReader};
use std::alloc::{AllocError, Global};
use strip_model::{Acquisition, Directed, MAX_HORIZON, MAX_STRIPS};

/// The plan of which these bytes are the text. Refused is the first line that can't stand, counted from 1. Where the text
/// ends early, that is the number of its lines plus 1, and a last line without LF can't stand. Memory is taken for the
/// acquisitions that were read, and not for the number that the first line says.
pub fn read_plan(alloc: Global, bytes: &[u8]) -> Result<Vec<Acquisition>, PlanRefusal>
    ensures text { IfOk result (λ plan. IsPlanText bytes.now plan.items) }
    ensures every_text { (plan : List Acquisition) → IsPlanText bytes.now plan
        → MatchResult result (λ read. read.items ≡ plan) (λ refusal. refusal ≡ PlanRefusal.Memory) }
    ensures refused { IfErr result (IsRefusedAs bytes.now) }
{
    let mut reader = StrictReader::new(bytes);
    let Ok(count) = read_count(&mut reader) else {
        return Err(PlanRefusal::Refused { line: 1 });
    };
    let plan = read_acquisitions(alloc, &mut reader, count)?;
    let line = plan.len() as u32 + 2;
    if plan.len() < count {
        return Err(PlanRefusal::Refused { line });
    }
    let Ok(()) = read_end(&mut reader) else {
        return Err(PlanRefusal::Refused { line });
    };
    let Ok(()) = reader.text_end() else {
        return Err(PlanRefusal::Refused { line: line + 1 });
    };
    Ok(plan)
}

// Reads the first line: how many acquisitions come.
fn read_count(reader: &mut StrictReader<'_>) -> Result<usize, LineFault>
    ensures fault { result_err result ≡ line_fault count_fields reader.old }
    ensures limit { IfOk result (λ count. count ≤ MAX_STRIPS) }
    ensures read { IfOk result (λ count. IsLine (count_line count) reader.old reader.new) }
{
    reader.word("strips")?;
    let count = reader.number(MAX_STRIPS as u64)?;
    reader.line_end()?;
    Ok(count as usize)
}

// Reads lines of acquisitions, at most so many as are wanted, up to the first that is none.
fn read_acquisitions(
    alloc: Global,
    reader: &mut StrictReader<'_>,
    wanted: usize,
) -> Result<Vec<Acquisition>, AllocError>
    requires { IsLineBegun reader.old }
    ensures { IfOk result (λ plan. HasRead wanted reader.old plan.items reader.new) }
{
    let mut plan = Vec::new(alloc);
    while plan.len() < wanted {
        match read_acquisition(reader) {
            Err(_) => return Ok(plan),
            Ok(acquisition) => plan.push(acquisition)?,
        }
    }
    Ok(plan)
}

// Reads the line of an acquisition within the ranges.
fn read_acquisition(reader: &mut StrictReader<'_>) -> Result<Acquisition, LineFault>
    ensures fault { result_err result ≡ line_fault acquisition_fields reader.old }
    ensures in_range { IfOk result IsAcquisitionInText }
    ensures read { IfOk result (λ a. IsLine (acquisition_line a) reader.old reader.new) }
{
    let start = reader.number(u64::from(MAX_HORIZON))?;
    let strip = reader.number(MAX_STRIPS as u64 - 1)?;
    let direction = reader.number(1)?;
    reader.line_end()?;
    Ok(Acquisition {
        start: start as u32,
        at: Directed::of(strip as u16, direction as u16),
    })
}

// Reads the last line.
fn read_end(reader: &mut StrictReader<'_>) -> Result<(), LineFault>
    ensures fault { result_err result ≡ line_fault end_fields reader.old }
    ensures read { OnOk result (IsLine end_line reader.old reader.new) }
{
    reader.word("end")?;
    reader.line_end()
}
