//! The table of commands: the word of each, and its job.

ghost use Rattle.std.specs.Prelude.{◌≡◌, IfOk};
ghost use Rattle.command_line.specs.Commands.{word_of, job_with};
ghost use Rattle.command_line.specs.Settings.{given_in, AreInRange};

use crate::job::{DEFAULT_BUDGET, DEFAULT_SEED, DEFAULT_SIZE, DEFAULT_WORKERS, Job, NoJob};
use crate::option::Opt;
use crate::settings::Settings;

/// What a job does.
#[derive(Clone, Copy)]
pub(crate) enum Command {
    Solve,
    Check,
    Score,
    Make,
    Trial,
}

impl Command {
    /// The command of a word.
    pub(crate) fn of_word(word: &str) -> Result<Command, NoJob>
        ensures ok { IfOk result (λ command. word.now ≡ word_of command) }
        ensures asked { (command : Command) → word.now ≡ word_of command → result ≡ Ok command }
    {
        match word {
            "solve" => Ok(Command::Solve),
            "check" => Ok(Command::Check),
            "score" => Ok(Command::Score),
            "make" => Ok(Command::Make),
            "trial" => Ok(Command::Trial),
            _ => Err(NoJob),
        }
    }

    /// The job of this command with the numbers that are given.
    pub(crate) fn job(self, given: Settings) -> Job
        requires { AreInRange given }
        ensures { result ≡ job_with self (given_in given) }
    {
        let workers = given.of_or(Opt::Workers, u64::from(DEFAULT_WORKERS)) as u32;
        let budget = given.of_or(Opt::Budget, DEFAULT_BUDGET);
        let cut = cut_of(given);
        let seed = given.of_or(Opt::Seed, u64::from(DEFAULT_SEED)) as u32;
        let size = given.of_or(Opt::Size, u64::from(DEFAULT_SIZE)) as u16;
        match self {
            Command::Solve => Job::Solve {
                workers,
                budget,
                cut,
            },
            Command::Check => Job::Check,
            Command::Score => Job::Score,
            Command::Make => Job::Make { seed, size },
            Command::Trial => Job::Trial {
                seed,
                size,
                budget,
                cut,
            },
        }
    }
}

// The cut that is given.
fn cut_of(given: Settings) -> Option<u32>
    requires { AreInRange given }
    ensures { result ≡ given_in given Opt.Cut }
{
    match given.of(Opt::Cut) {
        None => None,
        Some(tick) => Some(tick as u32),
    }
}
