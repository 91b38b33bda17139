//! What the words of the program ask for.

ghost use Rattle.std.specs.Prelude.{◌≡◌, ◌⊎◌, Err, IfOk, IsErrOf};
ghost use Rattle.command_line.specs.Job.{texts, IsJob};
ghost use Rattle.command_line.specs.Plain.{IsPlainJob};
ghost use Rattle.command_line.specs.Ranges.{Fits};

use crate::command::Command;
use crate::line::read_job;
use crate::settings::settings_of;
use std::alloc::Global;
use thiserror::Error;

/// The number of workers that solve, where none is given. With 0 the caller's thread solves alone.
pub const DEFAULT_WORKERS: u32 = 0;

/// The greatest number of partial sequences that are kept while an instance is solved, where none is given.
pub const DEFAULT_BUDGET: u64 = 200_000;

/// The seed of an instance that is made, where no seed is given.
pub const DEFAULT_SEED: u32 = 1;

/// The number of strips of an instance that is made, where no size is given.
pub const DEFAULT_SIZE: u16 = 10;

/// What the program is asked to do.
#[derive(Clone, Copy, Debug, PartialEq, Eq)]
pub enum Job {
    /// To solve the instance that is read.
    Solve {
        /// How many workers solve.
        workers: u32,
        /// How many partial sequences may be kept.
        budget: u64,
        /// The tick at which the orbit is cut in two, if it is given.
        cut: Option<u32>,
    },
    /// To check the answer that is read after its instance: whether its log shows that its plan is optimal.
    Check,
    /// To score the plan that is read after its instance.
    Score,
    /// To make an instance of `size` strips from a seed.
    Make {
        seed: u32,
        size: u16,
    },
    /// To make such an instance, to solve it, and to check the log if there is one.
    Trial {
        seed: u32,
        size: u16,
        /// How many partial sequences may be kept.
        budget: u64,
        /// The tick at which the orbit is cut in two, if it is given.
        cut: Option<u32>,
    },
}

/// The words ask for no job in the form in which they were read.
#[derive(Clone, Copy)]
pub(crate) struct NoJob;

/// Why words have no job.
#[derive(Clone, Copy, Debug, PartialEq, Eq, Error)]
pub enum JobRefusal {
    /// They ask for none.
    #[error("the words ask for no job")]
    Usage,
    /// No memory was left.
    #[error("out of memory")]
    Memory,
}

/// The job that the words ask for; they leave out the program's name.
///
/// In the plain form the first word is a command: `solve`, `check`, `score`, `make` or `trial`. Then come options, each as two
/// words, the option and a decimal number, in any order and each at most once: `--workers` up to
/// [`MAX_WORKERS`](crate::MAX_WORKERS), `--budget` from 1 to `proof_log::MAX_LABELS`, `--cut` up to `strip_model::MAX_HORIZON`,
/// `--seed` up to [`MAX_SEED`](crate::MAX_SEED) and `--size` up to `inst_maker::MAX_SIZE`. Without its option a number is
/// [`DEFAULT_WORKERS`], [`DEFAULT_BUDGET`], [`DEFAULT_SEED`] or [`DEFAULT_SIZE`], and no cut is given. An option that the command
/// doesn't use has no effect.
///
/// Other words are read as a command line: the command may stand anywhere, an option and its number may be one word with `=`
/// between them, and a number may have leading zeros, or a plus before it.
///
/// Words that have no job are refused as `Usage`. Words in the plain form take no memory, and others are refused as `Memory` where
/// none is left.
pub fn job_of(alloc: Global, words: &[String]) -> Result<Job, JobRefusal>
    ensures ok { IfOk result (IsJob (texts words.now)) }
    ensures plain { (job : Job) → IsPlainJob (texts words.now) job → result ≡ Ok job }
    ensures asked { (job : Job) → IsJob (texts words.now) job → (result ≡ Ok job) ⊎ (result ≡ Err JobRefusal.Memory) }
    ensures one_job { (a b : Job) → IsJob (texts words.now) a → IsJob (texts words.now) b → a ≡ b }
    ensures usage { IsErrOf result JobRefusal.Usage → (job : Job) → IsJob (texts words.now) job → ⊥ }
    ensures range { (job : Job) → IsJob (texts words.now) job → Fits job }
{
    match plain_job(words) {
        Ok(job) => Ok(job),
        Err(NoJob) => read_job(alloc, words),
    }
}

// The job that the words ask for in the plain form.
fn plain_job(words: &[String]) -> Result<Job, NoJob>
    ensures ok { IfOk result (IsPlainJob (texts words.now)) }
    ensures asked { (job : Job) → IsPlainJob (texts words.now) job → result ≡ Ok job }
{
    let [word, options @ ..] = words else {
        return Err(NoJob);
    };
    let command = Command::of_word(word.as_str())?;
    let given = settings_of(options)?;
    Ok(command.job(given))
}
