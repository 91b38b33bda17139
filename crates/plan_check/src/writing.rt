ghost use Rattle.std.specs.Prelude.{◌≡◌, ◌++◌, map, IfOk, OnOk, OnErr};
ghost use Rattle.std.specs.List.{flat_map};
ghost use Rattle.plan_check.specs.PlanText.{acquisition_line, acquisition_lines, IsPlanInText, IsPlanText};
ghost use Rattle.seq_io.specs.Grew.{Grew};
ghost use Rattle.seq_io.specs.Line.{spelled_line};

use seq_io::{Token, put_line};
use std::alloc::{AllocError, Global};
use strip_model::Acquisition;

/// The text of a plan: `strips` and how many acquisitions there are, a line for each with its start in ticks, its strip and
/// its direction, and `end`. One blank stands between tokens, and LF after each line.
pub fn write_plan(alloc: Global, plan: &[Acquisition]) -> Result<Vec<u8>, AllocError>
    requires { IsPlanInText plan.now }
    ensures { IfOk result (λ text. IsPlanText text.items plan.now) }
{
    let mut text = Vec::new(alloc);
    put_plan_lines(&mut text, plan)?;
    put_line(&mut text, &[Token::Word("end")])?;
    Ok(text)
}

/// Appends the lines that tell the acquisitions of a plan, as its text has them before `end`. Where no memory is found,
/// `out` is as it was.
pub fn put_plan_lines(out: &mut Vec<u8>, plan: &[Acquisition]) -> Result<(), AllocError>
    ensures ok { OnOk result (out.new.items ≡ out.old.items ++ flat_map spelled_line (acquisition_lines plan.now)) }
    ensures err { OnErr result (out.new.items ≡ out.old.items) }
{
    let start = out.len();
    let result = append_plan_lines(out, plan);
    if result.is_err() {
        out.truncate(start);
    }
    result
}

// The same, but some of the lines may be left where no memory is found.
fn append_plan_lines(out: &mut Vec<u8>, plan: &[Acquisition]) -> Result<(), AllocError>
    ensures ok { OnOk result (out.new.items ≡ out.old.items ++ flat_map spelled_line (acquisition_lines plan.now)) }
    ensures grew { Grew out.old.items out.new.items }
{
    put_line(
        out,
        &[Token::Word("strips"), Token::Number(plan.len() as u64)],
    )?;
    append_acquisitions(out, plan)
}

// Appends the line of each acquisition.
fn append_acquisitions(out: &mut Vec<u8>, plan: &[Acquisition]) -> Result<(), AllocError>
    ensures ok { OnOk result (out.new.items ≡ out.old.items ++ flat_map spelled_line (map acquisition_line plan.now)) }
    ensures grew { Grew out.old.items out.new.items }
{
    for acquisition in plan {
        put_acquisition(out, acquisition)?;
    }
    Ok(())
}

fn put_acquisition(out: &mut Vec<u8>, acquisition: &Acquisition) -> Result<(), AllocError>
    ensures ok { OnOk result (out.new.items ≡ out.old.items ++ spelled_line (acquisition_line acquisition.now)) }
    ensures err { OnErr result (out.new.items ≡ out.old.items) }
{
    let at = acquisition.at;
    put_line(
        out,
        &[
            Token::Number(u64::from(acquisition.start)),
            Token::Number(u64::from(at.strip())),
            Token::Number(u64::from(at.direction())),
        ],
    )
}
