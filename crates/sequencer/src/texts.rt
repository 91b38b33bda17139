//! The texts that the program writes, as `specs/Texts.antt` spells them.

ghost use Rattle.std.specs.Prelude.{◌≡◌, ◌++◌, IfOk, OnOk};
ghost use Rattle.std.specs.List.{flat_map};
ghost use Rattle.proof_log.specs.AnswerText.{gain_line, best_lines};
ghost use Rattle.seq_io.specs.Line.{spelled_line};
ghost use Rattle.sequencer.specs.Texts.{accepted_text, open_text, proved_text, trial_line, rule_text, refusal_line, refusal_text, too_long_text, number_of_cause, gain_text, fault_text, rejection_text};

use instance_text::{Cause, Refusal};
use plan_check::{Gain, PlanFault};
use proof_log::{GAIN_UNIT, put_best_lines};
use seq_io::{Token, put_line};
use std::alloc::{AllocError, Global};
use strip_model::Acquisition;

/// The answer of a plan that isn't known to be optimal, with its gain in twentieths and the number of labels.
pub(crate) fn best_text(
    alloc: Global,
    plan: &[Acquisition],
    gain: u64,
    labels: u64,
) -> Result<Vec<u8>, AllocError>
    ensures { IfOk result (λ text. text.items ≡ flat_map spelled_line (best_lines gain plan.now labels)) }
{
    let mut text = Vec::new(alloc);
    put_best_lines(&mut text, gain, plan, labels as usize)?;
    Ok(text)
}

fn put_gain(text: &mut Vec<u8>, gain: u64) -> Result<(), AllocError>
    ensures { OnOk result (text.new.items ≡ text.old.items ++ spelled_line (gain_line gain)) }
{
    let number = Token::Ratio {
        number: gain,
        unit: GAIN_UNIT,
    };
    put_line(text, &[Token::Word("gain"), number])
}

/// Why an instance text is refused.
pub(crate) fn refusal_text(alloc: Global, refusal: Refusal) -> Result<Vec<u8>, AllocError>
    ensures { IfOk result (λ text. text.items ≡ refusal_text refusal) }
{
    let mut text = Vec::new(alloc);
    match refusal.cause {
        Cause::SameStrip { x, y, value } => put_line(
            &mut text,
            &[
                Token::Word("refused"),
                Token::Number(10),
                Token::Word("line"),
                Token::Number(u64::from(refusal.line)),
                Token::Word("entry"),
                Token::Number(u64::from(x)),
                Token::Number(u64::from(y)),
                Token::Number(u64::from(value)),
            ],
        )?,
        Cause::Shortcut { x, y, z } => put_line(
            &mut text,
            &[
                Token::Word("refused"),
                Token::Number(11),
                Token::Word("line"),
                Token::Number(u64::from(refusal.line)),
                Token::Word("triple"),
                Token::Number(u64::from(x)),
                Token::Number(u64::from(y)),
                Token::Number(u64::from(z)),
            ],
        )?,
        cause => put_refusal(&mut text, number_of_cause(cause), u64::from(refusal.line))?,
    }
    Ok(text)
}

/// The input has more bytes than its limit.
pub(crate) fn too_long_text(alloc: Global) -> Result<Vec<u8>, AllocError>
    ensures { IfOk result (λ text. text.items ≡ too_long_text) }
{
    let mut text = Vec::new(alloc);
    put_refusal(&mut text, 13, 0)?;
    Ok(text)
}

fn put_refusal(text: &mut Vec<u8>, number: u64, line: u64) -> Result<(), AllocError>
    ensures { OnOk result (text.new.items ≡ text.old.items ++ spelled_line (refusal_line number line)) }
{
    put_line(
        text,
        &[
            Token::Word("refused"),
            Token::Number(number),
            Token::Word("line"),
            Token::Number(line),
        ],
    )
}

fn number_of_cause(cause: Cause) -> u64
    ensures { result ≡ number_of_cause cause }
{
    match cause {
        Cause::Ended => 1,
        Cause::Word => 2,
        Cause::Number => 3,
        Cause::Range => 4,
        Cause::TooMany => 5,
        Cause::Extra => 6,
        Cause::TwinNotMutual { .. } => 7,
        Cause::TwinSelf { .. } => 8,
        Cause::TwinOtherRequest { .. } => 9,
        Cause::SameStrip { .. } => 10,
        Cause::Shortcut { .. } => 11,
        Cause::Version => 12,
    }
}

/// What `score` answers to a feasible plan.
pub(crate) fn gain_text(alloc: Global, gain: Gain) -> Result<Vec<u8>, AllocError>
    ensures { IfOk result (λ text. text.items ≡ gain_text gain.0) }
{
    let mut text = Vec::new(alloc);
    put_gain(&mut text, gain.0)?;
    Ok(text)
}

/// What `check` answers to a log that is a proof.
pub(crate) fn accepted_text(alloc: Global, gain: u64) -> Result<Vec<u8>, AllocError>
    ensures { IfOk result (λ text. text.items ≡ accepted_text gain) }
{
    let mut text = Vec::new(alloc);
    put_line(&mut text, &[Token::Word("accepted")])?;
    put_gain(&mut text, gain)?;
    Ok(text)
}

fn put_trial(text: &mut Vec<u8>, seed: u32, size: u16) -> Result<(), AllocError>
    ensures { OnOk result (text.new.items ≡ text.old.items ++ spelled_line (trial_line seed size)) }
{
    put_line(
        text,
        &[
            Token::Word("trial"),
            Token::Number(u64::from(seed)),
            Token::Number(u64::from(size)),
        ],
    )
}

/// What `trial` answers to this seed and size where the search is still open: the gain, in twentieths, of the plan that was found.
pub(crate) fn open_text(
    alloc: Global,
    seed: u32,
    size: u16,
    gain: u64,
) -> Result<Vec<u8>, AllocError>
    ensures { IfOk result (λ text. text.items ≡ open_text seed size gain) }
{
    let mut text = Vec::new(alloc);
    put_trial(&mut text, seed, size)?;
    put_line(&mut text, &[Token::Word("Best")])?;
    put_gain(&mut text, gain)?;
    Ok(text)
}

/// What `trial` answers to this seed and size where the plan that was found is optimal: its gain, in twentieths, and that its log
/// is accepted.
pub(crate) fn proved_text(
    alloc: Global,
    seed: u32,
    size: u16,
    gain: u64,
) -> Result<Vec<u8>, AllocError>
    ensures { IfOk result (λ text. text.items ≡ proved_text seed size gain) }
{
    let mut text = Vec::new(alloc);
    put_trial(&mut text, seed, size)?;
    put_line(&mut text, &[Token::Word("Optimal")])?;
    put_gain(&mut text, gain)?;
    put_line(&mut text, &[Token::Word("accepted")])?;
    Ok(text)
}

/// What `check` answers to another log: the first rule that is broken, and its first place.
pub(crate) fn rule_text(alloc: Global, rule: u8, place: u64) -> Result<Vec<u8>, AllocError>
    ensures { IfOk result (λ text. text.items ≡ rule_text rule place) }
{
    let mut text = Vec::new(alloc);
    put_line(
        &mut text,
        &[
            Token::Word("rejected"),
            Token::Word("rule"),
            Token::Number(u64::from(rule)),
            Token::Word("at"),
            Token::Number(place),
        ],
    )?;
    Ok(text)
}

/// Why a plan is rejected.
pub(crate) fn fault_text(alloc: Global, fault: PlanFault) -> Result<Vec<u8>, AllocError>
    ensures { IfOk result (λ text. text.items ≡ fault_text fault) }
{
    match fault {
        PlanFault::NoSuchStrip { k } => rejection_text(alloc, "strip", k),
        PlanFault::Twice { k } => rejection_text(alloc, "twice", k),
        PlanFault::Early { k } => rejection_text(alloc, "early", k),
        PlanFault::Late { k } => rejection_text(alloc, "late", k),
        PlanFault::Manoeuvre { k } => rejection_text(alloc, "manoeuvre", k),
        PlanFault::Twin { k } => rejection_text(alloc, "twin", k),
    }
}

/// What was rejected, and where.
pub(crate) fn rejection_text(
    alloc: Global,
    word: &'static str,
    place: u32,
) -> Result<Vec<u8>, AllocError>
    ensures { IfOk result (λ text. text.items ≡ rejection_text word.now place) }
{
    let mut text = Vec::new(alloc);
    put_line(
        &mut text,
        &[
            Token::Word("rejected"),
            Token::Word(word),
            Token::Word("at"),
            Token::Number(u64::from(place)),
        ],
    )?;
    Ok(text)
}
