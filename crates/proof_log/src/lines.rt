//! The kinds of line of an answer's text that tell no label and no mark.

ghost use Rattle.std.specs.Prelude.{◌≡◌, ◌≤◌, [], ◌∷◌, codes, IfOk, OnOk, OnErr};
ghost use Rattle.std.specs.Result.{result_err};
ghost use Rattle.plan_check.specs.PlanText.{acquisition_line, IsAcquisitionInText};
ghost use Rattle.plan_check.specs.Reading.{acquisition_fields};
ghost use Rattle.proof_log.specs.AnswerText.{word_line, number_line, gain_line};
ghost use Rattle.proof_log.specs.declared.limits.TheConstants.{GAIN_UNIT};
ghost use Rattle.seq_io.specs.StrictText.{TheWord, ANumber, ARatio, IsLine, line_fault};
ghost use Rattle.strip_model.specs.declared.limits.TheConstants.{MAX_TOTAL_GAIN};

use crate::GAIN_UNIT;
use seq_io::{LineFault, StrictReader};
use strip_model::{Acquisition, Directed, MAX_HORIZON, MAX_STRIPS, MAX_TOTAL_GAIN};

// Reads a line of that word alone.
pub(crate) fn read_heading(reader: &mut StrictReader<'_>, word: &str) -> Result<(), LineFault>
    ensures fault { result_err result ≡ line_fault (TheWord word.now ∷ []) reader.old }
    ensures read { OnOk result (IsLine (word_line word.now) reader.old reader.new) }
    ensures line { OnErr result (reader.new.line ≡ reader.old.line) }
{
    reader.word(word)?;
    reader.line_end()
}

// Reads a line of that word and a number that is at most `limit`.
pub(crate) fn read_number(
    reader: &mut StrictReader<'_>,
    word: &str,
    limit: u64,
) -> Result<u64, LineFault>
    ensures fault { result_err result ≡ line_fault (TheWord word.now ∷ ANumber limit ∷ []) reader.old }
    ensures limit { IfOk result (λ number. number ≤ limit) }
    ensures read { IfOk result (λ number. IsLine (number_line word.now number) reader.old reader.new) }
    ensures line { OnErr result (reader.new.line ≡ reader.old.line) }
{
    reader.word(word)?;
    let number = reader.number(limit)?;
    reader.line_end()?;
    Ok(number)
}

// Reads the line of the gain, in twentieths.
pub(crate) fn read_gain(reader: &mut StrictReader<'_>) -> Result<u64, LineFault>
    ensures fault { result_err result ≡ line_fault (TheWord (codes "gain") ∷ ARatio MAX_TOTAL_GAIN GAIN_UNIT ∷ []) reader.old }
    ensures limit { IfOk result (λ gain. gain ≤ MAX_TOTAL_GAIN) }
    ensures read { IfOk result (λ gain. IsLine (gain_line gain) reader.old reader.new) }
    ensures line { OnErr result (reader.new.line ≡ reader.old.line) }
{
    reader.word("gain")?;
    let gain = reader.ratio(MAX_TOTAL_GAIN, GAIN_UNIT)?;
    reader.line_end()?;
    Ok(gain)
}

// Reads the line of an acquisition within the ranges.
pub(crate) fn read_acquisition(reader: &mut StrictReader<'_>) -> Result<Acquisition, LineFault>
    ensures fault { result_err result ≡ line_fault acquisition_fields reader.old }
    ensures in_range { IfOk result IsAcquisitionInText }
    ensures read { IfOk result (λ a. IsLine (acquisition_line a) reader.old reader.new) }
    ensures line { OnErr result (reader.new.line ≡ reader.old.line) }
{
    let start = reader.number(u64::from(MAX_HORIZON))?;
    let strip = reader.number(MAX_STRIPS as u64 - 1)?;
    let direction = reader.number(1)?;
    reader.line_end()?;
    Ok(Acquisition {
        start: start as u32,
        at: Directed::of(strip as u16, direction as u16),
    })
}
