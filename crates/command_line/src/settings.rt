//! The numbers that are given: by the words behind a command.

ghost use Rattle.std.specs.Prelude.{◌≡◌, ◌≢◌, ◌≤◌, ◌∷◌, [], ℕ, Option, None, Some, Ok, unwrap_or, decimal, IfOk, IsSome, OnErr};
ghost use Rattle.command_line.specs.Options.{greatest_of, IsInRange};
ghost use Rattle.command_line.specs.Plain.{texts};
ghost use Rattle.command_line.specs.Settings.{given_in, words_of, AreInRange, AreRead, IsSettingInRange, Spells};

use crate::job::NoJob;
use crate::option::{OPTIONS, Opt};
use seq_io::parse_number;

/// An option with its number.
#[derive(Clone, Copy)]
pub(crate) struct Setting {
    pub(crate) option: Opt,
    pub(crate) number: u64,
}

/// The numbers that are given: each option has one at most, at its place.
#[derive(Clone, Copy)]
pub(crate) struct Settings {
    pub(crate) numbers: [Option<u64>; OPTIONS],
}

/// Reads the settings that the words spell.
pub(crate) fn settings_of(words: &[String]) -> Result<Settings, NoJob>
    ensures ok { IfOk result (λ settings. Spells (texts words.now) (given_in settings)) }
    ensures range { IfOk result AreInRange }
    ensures asked { (given : Opt → Option ℕ) → Spells (texts words.now) given → AreRead given result }
{
    let mut settings = Settings {
        numbers: [None; OPTIONS],
    };
    let mut rest = words;
    while let [option, number, after @ ..] = rest {
        let setting = setting_of(option.as_str(), number.as_bytes())?;
        settings = settings.with(setting)?;
        rest = after;
    }
    if !rest.is_empty() {
        return Err(NoJob);
    }
    Ok(settings)
}

// Reads the two words of a setting.
fn setting_of(option: &str, number: &[u8]) -> Result<Setting, NoJob>
    ensures ok { IfOk result (λ setting. (option.now ∷ number.now ∷ [] ≡ words_of setting) × IsSettingInRange setting) }
    ensures asked { (setting : Setting) → IsSettingInRange setting
        → option.now ∷ number.now ∷ [] ≡ words_of setting → result ≡ Ok setting }
{
    let option = Opt::of_word(option)?;
    let number = number_for(option, number)?;
    Ok(Setting { option, number })
}

// Reads a number in an option's range.
fn number_for(option: Opt, word: &[u8]) -> Result<u64, NoJob>
    ensures ok { IfOk result (λ n. (word.now ≡ decimal n) × IsInRange option n) }
    ensures asked { (n : ℕ) → IsInRange option n → word.now ≡ decimal n → result ≡ Ok n }
{
    let entry = option.entry();
    let number = parse_number(word, entry.greatest).map_err(|_| NoJob)?;
    if number < entry.least {
        return Err(NoJob);
    }
    Ok(number)
}

impl Settings {
    /// The number that is given for an option.
    pub(crate) fn of(self, option: Opt) -> Option<u64>
        ensures { result ≡ given_in self option }
    {
        self.numbers[option.entry().place]
    }

    /// The number that is given for an option, or else this one.
    pub(crate) fn of_or(self, option: Opt, default: u64) -> u64
        requires given { AreInRange self }
        requires default { default ≤ greatest_of option }
        ensures value { result ≡ unwrap_or (given_in self option) default }
        ensures range { result ≤ greatest_of option }
    {
        match self.of(option) {
            None => default,
            Some(number) => number,
        }
    }

    // Adds a setting of an option that has none.
    fn with(self, setting: Setting) -> Result<Settings, NoJob>
        ensures same { IfOk result (λ after. given_in after setting.option ≡ Some setting.number) }
        ensures others { IfOk result (λ after. (option : Opt) → option ≢ setting.option → given_in after option ≡ given_in self option) }
        ensures untaken { IfOk result (λ after. given_in self setting.option ≡ None) }
        ensures taken { OnErr result (IsSome (given_in self setting.option)) }
    {
        if self.of(setting.option).is_some() {
            return Err(NoJob);
        }
        let mut numbers = self.numbers;
        numbers[setting.option.entry().place] = Some(setting.number);
        Ok(Settings { numbers })
    }
}
