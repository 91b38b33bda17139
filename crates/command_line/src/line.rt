//! Words that aren't in the plain form, read as a command line.

ghost use Rattle.std.specs.Prelude.{◌≡◌, ◌≢◌, ◌⊎◌, [], Err, IfOk, IfSome, IsErrOf, false};
ghost use Rattle.clap.specs.Faults.{fault_of};
ghost use Rattle.clap.specs.Matches.{found_of};
ghost use Rattle.clap.specs.Simple.{app_of, matches_of};
ghost use Rattle.clap.specs.Walk.{rows_of, rule_of};
ghost use Rattle.command_line.specs.Line.{option_rule, words_app, number_in, IsMatched, IsRead};
ghost use Rattle.command_line.specs.Options.{IsInRange};
ghost use Rattle.command_line.specs.Plain.{texts};
ghost use Rattle.command_line.specs.Settings.{given_in, AreInRange};
ghost use Rattle.command_line.specs.Values.{IsInside, AreInside};

use crate::command::Command;
use crate::job::{Job, JobRefusal, NoJob};
use crate::option::Opt;
use crate::settings::Settings;
use clap::builder::ValueParser;
use clap::error::ErrorKind;
use clap::{Arg, ArgAction, ArgMatches};
use std::alloc::{AllocError, Global};

/// The job that the words ask for as a command line. They leave out the program's name.
pub(crate) fn read_job(alloc: Global, words: &[String]) -> Result<Job, JobRefusal>
    ensures ok { IfOk result (IsRead (texts words.now)) }
    ensures asked { (job : Job) → IsRead (texts words.now) job → (result ≡ Ok job) ⊎ (result ≡ Err JobRefusal.Memory) }
{
    let Ok(line) = command_line(alloc) else {
        return Err(JobRefusal::Memory);
    };
    let matches = matches_in(line, words)?;
    match job_among(&matches) {
        Ok(job) => Ok(job),
        Err(NoJob) => Err(JobRefusal::Usage),
    }
}

/// What is wrong with words that have no job, for people: a line that names the wrong word where one is wrong. No clause speaks
/// of its text.
pub fn fault_line(alloc: Global, words: &[String]) -> Result<String, AllocError> {
    match command_line(alloc)?.try_get_matches_from(words) {
        Ok(matches) => match matches.get_str("command") {
            Some(word) => format!(in alloc; "there is no command '{word}'"),
            None => String::from_str(alloc, "there is no command"),
        },
        Err(error) => match error.kind() {
            ErrorKind::MissingRequiredArgument => String::from_str(alloc, "a command is missing"),
            _ => first_line(alloc, &format!(in alloc; "{error}")?),
        },
    }
}

// The first line of an error, without the word before its colon.
fn first_line(alloc: Global, text: &str) -> Result<String, AllocError> {
    let line = text.lines().next().unwrap_or(text);
    String::from_str(alloc, line.strip_prefix("error: ").unwrap_or(line))
}

// The matches of the words as a command line.
fn matches_in<'a>(
    line: clap::Command<'a>,
    words: &'a [String],
) -> Result<ArgMatches<'a>, JobRefusal>
    requires { app_of line ≡ words_app }
    ensures faultless { IfOk result (λ matches. fault_of words_app (texts words.now) ≡ []) }
    ensures rows { IfOk result (λ matches. rows_of (found_of matches) ≡ matches_of words_app (texts words.now)) }
    ensures inside { IfOk result (λ matches. AreInside (rows_of (found_of matches))) }
    ensures usage { IsErrOf result JobRefusal.Usage → fault_of words_app (texts words.now) ≢ [] }
{
    match line.try_get_matches_from(words) {
        Ok(matches) => Ok(matches),
        Err(error) => Err(refusal_of(error.kind())),
    }
}

// Why a line was refused, by the kind of its error.
fn refusal_of(kind: ErrorKind) -> JobRefusal
    ensures memory { kind ≡ ErrorKind.OutOfMemory → result ≡ JobRefusal.Memory }
    ensures usage { result ≡ JobRefusal.Usage → kind ≢ ErrorKind.OutOfMemory }
{
    match kind {
        ErrorKind::OutOfMemory => JobRefusal::Memory,
        _ => JobRefusal::Usage,
    }
}

// The command line of the program: the word of a command, and each of the options.
fn command_line<'a>(alloc: Global) -> Result<clap::Command<'a>, AllocError>
    ensures { IfOk result (λ line. app_of line ≡ words_app) }
{
    let command = Arg::new(alloc, "command")
        .required(true)
        .action(ArgAction::Set);
    clap::Command::new(alloc, "strips")
        .no_binary_name(true)
        .disable_help_flag(true)
        .disable_version_flag(true)
        .arg(command)?
        .arg(argument(alloc, Opt::Workers))?
        .arg(argument(alloc, Opt::Budget))?
        .arg(argument(alloc, Opt::Cut))?
        .arg(argument(alloc, Opt::Seed))?
        .arg(argument(alloc, Opt::Size))
}

// The argument of an option: one number in its range.
fn argument<'a>(alloc: Global, option: Opt) -> Arg<'a>
    ensures rule { rule_of result ≡ option_rule option }
    ensures local { result.global ≡ false }
{
    let entry = option.entry();
    Arg::new(alloc, entry.name)
        .long(entry.name)
        .action(ArgAction::Set)
        .value_parser(ValueParser::unsigned(entry.least, entry.greatest))
}

// The job that the matches tell.
fn job_among(matches: &ArgMatches<'_>) -> Result<Job, NoJob>
    requires { AreInside (rows_of (found_of matches.now)) }
    ensures ok { IfOk result (IsMatched (rows_of (found_of matches.now))) }
    ensures asked { (job : Job) → IsMatched (rows_of (found_of matches.now)) job → result ≡ Ok job }
{
    let Some(word) = matches.get_str("command") else {
        return Err(NoJob);
    };
    let command = Command::of_word(word)?;
    let given = given_among(matches);
    Ok(command.job(given))
}

// The numbers among the matches.
fn given_among(matches: &ArgMatches<'_>) -> Settings
    requires { AreInside (rows_of (found_of matches.now)) }
    ensures given { (option : Opt) → given_in result option ≡ number_in (rows_of (found_of matches.now)) option }
    ensures range { AreInRange result }
{
    let workers = number(matches, Opt::Workers);
    let budget = number(matches, Opt::Budget);
    let cut = number(matches, Opt::Cut);
    let seed = number(matches, Opt::Seed);
    let size = number(matches, Opt::Size);
    Settings {
        numbers: [workers, budget, cut, seed, size],
    }
}

// The number of an option among the matches.
fn number(matches: &ArgMatches<'_>, option: Opt) -> Option<u64>
    requires { IsInside (rows_of (found_of matches.now)) option }
    ensures value { result ≡ number_in (rows_of (found_of matches.now)) option }
    ensures inside { IfSome result (IsInRange option) }
{
    let Some(text) = matches.get_str(option.entry().name) else {
        return None;
    };
    match text.parse::<u64>() {
        Ok(n) => Some(n),
        Err(_) => None,
    }
}
