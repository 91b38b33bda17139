//! The table of options: what each is.

ghost use Rattle.std.specs.Prelude.{◌≡◌, IfOk};
ghost use Rattle.command_line.specs.Options.{name_of, least_of, greatest_of, place_of, word_of_option};

use crate::job::NoJob;
use crate::limits::MAX_SEED;
use inst_maker::MAX_SIZE;
use joiner::MAX_WORKERS;
use proof_log::MAX_LABELS;
use strip_model::MAX_HORIZON;

/// An option, behind which a number is given.
#[derive(Clone, Copy)]
pub(crate) enum Opt {
    /// How many workers solve.
    Workers,
    /// How many labels may be kept.
    Budget,
    /// The tick at which the orbit is cut in two.
    Cut,
    /// The seed of an instance that is made.
    Seed,
    /// The number of strips of an instance that is made.
    Size,
}

/// How many options there are.
pub(crate) const OPTIONS: usize = 5;

/// What an option is.
#[derive(Clone, Copy)]
pub(crate) struct Entry<'a> {
    /// Its place among the options.
    pub(crate) place: usize,
    /// Its name, which stands behind two strokes.
    pub(crate) name: &'a str,
    /// The least number that may be given.
    pub(crate) least: u64,
    /// The greatest number that may be given.
    pub(crate) greatest: u64,
}

impl Opt {
    /// The option's entry in the table.
    pub(crate) fn entry<'a>(self) -> Entry<'a>
        ensures place { result.place ≡ place_of self }
        ensures name { result.name.now ≡ name_of self }
        ensures least { result.least ≡ least_of self }
        ensures greatest { result.greatest ≡ greatest_of self }
    {
        let (place, name, least, greatest) = match self {
            Opt::Workers => (0, "workers", 0, u64::from(MAX_WORKERS)),
            Opt::Budget => (1, "budget", 1, MAX_LABELS as u64),
            Opt::Cut => (2, "cut", 0, u64::from(MAX_HORIZON)),
            Opt::Seed => (3, "seed", 0, u64::from(MAX_SEED)),
            Opt::Size => (4, "size", 0, u64::from(MAX_SIZE)),
        };
        Entry {
            place,
            name,
            least,
            greatest,
        }
    }

    /// The option of a word.
    pub(crate) fn of_word(word: &str) -> Result<Opt, NoJob>
        ensures ok { IfOk result (λ option. word.now ≡ word_of_option option) }
        ensures asked { (option : Opt) → word.now ≡ word_of_option option → result ≡ Ok option }
    {
        match word {
            "--workers" => Ok(Opt::Workers),
            "--budget" => Ok(Opt::Budget),
            "--cut" => Ok(Opt::Cut),
            "--seed" => Ok(Opt::Seed),
            "--size" => Ok(Opt::Size),
            _ => Err(NoJob),
        }
    }
}
