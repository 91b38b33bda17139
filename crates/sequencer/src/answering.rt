//! How a job begins, over any source.

ghost use Rattle.std.specs.Prelude.{◌≡◌, ◌≤◌, List, Option, ℕ, IfOk, IsErrOf, Err};
ghost use Rattle.command_line.specs.Ranges.{AreInRange, Fits};
ghost use Rattle.command_line.specs.declared.job.Job.TheVariants.{Solve};
ghost use Rattle.inst_maker.specs.Made.{made};
ghost use Rattle.inst_maker.specs.declared.limits.TheConstants.{MAX_SIZE};
ghost use Rattle.instance_text.specs.Spelling.{spelling};
ghost use Rattle.joiner.specs.declared.limits.TheConstants.{MAX_WORKERS};
ghost use Rattle.seq_io.specs.Count.{HasCause};
ghost use Rattle.seq_io.specs.Source.{Consumes};
ghost use Rattle.sequencer.specs.Checking.{Checks};
ghost use Rattle.sequencer.specs.Opening.{Opens};
ghost use Rattle.sequencer.specs.Run.{EndsReading, IsTooLong};
ghost use Rattle.sequencer.specs.Scoring.{Scores};
ghost use Rattle.sequencer.specs.declared.limits.TheConstants.{MAX_CHECK_INPUT, MAX_SCORE_INPUT};

use crate::answer::Answer;
use crate::checking::check;
use crate::opening::Opening;
use crate::scoring::score;
use crate::solving::open;
use crate::stop::Stop;
use crate::texts::too_long_text;
use crate::trying::try_out;
use crate::{MAX_CHECK_INPUT, MAX_SCORE_INPUT, MAX_SOLVE_INPUT, Status};
use command_line::Job;
use inst_maker::{MAX_SIZE, make};
use instance_text::write;
use seq_io::{ReadRefusal, Source, read_whole};
use std::alloc::{AllocError, Global};

/// Begins with a job, and reads what it needs.
pub(crate) fn begin<S: Source>(alloc: Global, job: Job, source: &mut S) -> Result<Opening, Stop>
    requires { Fits job }
    ensures opens { (taken : List ℕ) × Consumes (S.left source.old) (S.left source.new) taken
        × Opens job (S.left source.new) taken result }
    ensures cause { HasCause (S.faults source.old) (S.faults source.new) (IsErrOf result Stop.ReadFault) }
{
    match job {
        Job::Solve {
            workers,
            budget,
            cut,
        } => solve_from(alloc, source, workers, budget, cut),
        Job::Check => Ok(Opening::Answered(check_from(alloc, source)?)),
        Job::Score => Ok(Opening::Answered(score_from(alloc, source)?)),
        Job::Make { seed, size } => Ok(Opening::Answered(made(alloc, seed, size)?)),
        Job::Trial {
            seed,
            size,
            budget,
            cut,
        } => Ok(Opening::Answered(try_out(alloc, seed, size, budget, cut)?)),
    }
}

// How `solve` begins with a source.
fn solve_from<S: Source>(
    alloc: Global,
    source: &mut S,
    workers: u32,
    budget: u64,
    cut: Option<u32>,
) -> Result<Opening, Stop>
    requires workers { workers ≤ MAX_WORKERS }
    requires range { AreInRange budget cut }
    ensures opens { (taken : List ℕ) × Consumes (S.left source.old) (S.left source.new) taken
        × Opens (Solve workers budget cut) (S.left source.new) taken result }
    ensures cause { HasCause (S.faults source.old) (S.faults source.new) (IsErrOf result Stop.ReadFault) }
{
    match read_whole(alloc, source, MAX_SOLVE_INPUT) {
        Ok(input) => {
            let opening = open(alloc, &input, workers, budget, cut)?;
            Ok(opening)
        }
        Err(refusal) => {
            let answer = unread(alloc, refusal)?;
            Ok(Opening::Answered(answer))
        }
    }
}

// What `check` answers to a source.
fn check_from<S: Source>(alloc: Global, source: &mut S) -> Result<Answer, Stop>
    ensures answer { (taken : List ℕ) × Consumes (S.left source.old) (S.left source.new) taken
        × EndsReading MAX_CHECK_INPUT Checks (S.left source.new) taken result }
    ensures cause { HasCause (S.faults source.old) (S.faults source.new) (IsErrOf result Stop.ReadFault) }
{
    match read_whole(alloc, source, MAX_CHECK_INPUT) {
        Ok(input) => Ok(check(alloc, &input)?),
        Err(refusal) => unread(alloc, refusal),
    }
}

// What `score` answers to a source.
fn score_from<S: Source>(alloc: Global, source: &mut S) -> Result<Answer, Stop>
    ensures answer { (taken : List ℕ) × Consumes (S.left source.old) (S.left source.new) taken
        × EndsReading MAX_SCORE_INPUT Scores (S.left source.new) taken result }
    ensures cause { HasCause (S.faults source.old) (S.faults source.new) (IsErrOf result Stop.ReadFault) }
{
    match read_whole(alloc, source, MAX_SCORE_INPUT) {
        Ok(input) => Ok(score(alloc, &input)?),
        Err(refusal) => unread(alloc, refusal),
    }
}

// The answer where the input wasn't read to its end.
fn unread(alloc: Global, refusal: ReadRefusal) -> Result<Answer, Stop>
    ensures too_long { refusal ≡ ReadRefusal.TooLong → IsTooLong result }
    ensures read_fault { refusal ≡ ReadRefusal.ReadFault → result ≡ Err Stop.ReadFault }
    ensures memory { refusal ≡ ReadRefusal.Memory → result ≡ Err Stop.Memory }
{
    match refusal {
        ReadRefusal::ReadFault => Err(Stop::ReadFault),
        ReadRefusal::Memory => Err(Stop::Memory),
        ReadRefusal::TooLong => {
            let text = too_long_text(alloc)?;
            Ok(Answer {
                status: Status::Refused,
                text,
            })
        }
    }
}

// The text of the instance of a seed and a size.
fn made(alloc: Global, seed: u32, size: u16) -> Result<Answer, AllocError>
    requires { size ≤ MAX_SIZE }
    ensures { IfOk result (λ answer. (answer.text.items ≡ spelling (made seed size)) × (answer.status ≡ Status.Done)) }
{
    let instance = make(alloc, seed, size)?;
    let text = write(alloc, &instance)?;
    Ok(Answer {
        status: Status::Done,
        text,
    })
}
