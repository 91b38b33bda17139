ghost use Rattle.std.specs.Prelude.{◌≡◌, ◌++◌, ◌∷◌, [], map, length, reverse, IfOk, OnOk, OnErr};
ghost use Rattle.std.specs.List.{flat_map};
ghost use Rattle.proof_log.specs.AnswerText.{side_word, path_line, mark_line, front_lines, best_lines, log_lines, answer_lines, IsLogInText, IsLogText};
ghost use Rattle.seq_io.specs.Grew.{Grew};
ghost use Rattle.seq_io.specs.Line.{spelled_line};
ghost use Rattle.seq_io.specs.Token.{bytes_of};

use crate::{GAIN_UNIT, Log, Mark};
use plan_check::put_plan_lines;
use seq_io::{Token, put_line, put_number_line};
use std::alloc::{AllocError, Global};
use strip_model::{Acquisition, Directed, End};

/// The text of the answer that has this log: the word `Optimal`, the gain, the plan, how many labels there are, then the
/// log. One blank stands between tokens, and LF after each line. The numbers must be within the ranges of a text, since
/// otherwise there is none.
pub fn write(alloc: Global, log: &Log) -> Result<Vec<u8>, AllocError>
    requires { IsLogInText log.now }
    ensures { IfOk result (λ text. IsLogText text.items log.now) }
{
    let mut text = Vec::new(alloc);
    put_answer_lines(&mut text, log)?;
    Ok(text)
}

/// Appends all lines of the answer that has this log. Where no memory is found, `out` is as it was.
pub fn put_answer_lines(out: &mut Vec<u8>, log: &Log) -> Result<(), AllocError>
    ensures ok { OnOk result (out.new.items ≡ out.old.items ++ flat_map spelled_line (answer_lines log.now)) }
    ensures err { OnErr result (out.new.items ≡ out.old.items) }
{
    let start = out.len();
    let result = append_answer(out, log);
    if result.is_err() {
        out.truncate(start);
    }
    result
}

/// Appends the lines of an answer that has no log: the word `Best`, the gain in twentieths, the plan, and how many labels
/// there were. Where no memory is found, `out` is as it was.
pub fn put_best_lines(
    out: &mut Vec<u8>,
    gain: u64,
    plan: &[Acquisition],
    labels: usize,
) -> Result<(), AllocError>
    ensures ok { OnOk result (out.new.items ≡ out.old.items ++ flat_map spelled_line (best_lines gain plan.now labels)) }
    ensures err { OnErr result (out.new.items ≡ out.old.items) }
{
    let start = out.len();
    let result = append_front(out, "Best", gain, plan, labels);
    if result.is_err() {
        out.truncate(start);
    }
    result
}

// Appends all lines of the answer, but some may be left where no memory is found.
fn append_answer(out: &mut Vec<u8>, log: &Log) -> Result<(), AllocError>
    ensures ok { OnOk result (out.new.items ≡ out.old.items ++ flat_map spelled_line (answer_lines log.now)) }
    ensures grew { Grew out.old.items out.new.items }
{
    let labels = log.forward.len() + log.backward.len();
    append_front(out, "Optimal", log.gain, &log.plan, labels)?;
    append_log(out, log)
}

// Appends the lines of the log.
fn append_log(out: &mut Vec<u8>, log: &Log) -> Result<(), AllocError>
    ensures ok { OnOk result (out.new.items ≡ out.old.items ++ flat_map spelled_line (log_lines log.now)) }
    ensures grew { Grew out.old.items out.new.items }
{
    let cut = Token::Number(u64::from(log.cut));
    put_line(out, &[Token::Word("log")])?;
    put_line(out, &[Token::Word("cut"), cut])?;
    append_paths(out, End::Forward, &log.forward)?;
    append_paths(out, End::Backward, &log.backward)?;
    append_marks(out, &log.marks)?;
    put_line(out, &[Token::Word("end")])
}

// Appends the lines with which each answer begins.
fn append_front(
    out: &mut Vec<u8>,
    status: &'static str,
    gain: u64,
    plan: &[Acquisition],
    labels: usize,
) -> Result<(), AllocError>
    ensures ok { OnOk result (out.new.items ≡ out.old.items ++ flat_map spelled_line (front_lines status.now gain plan.now labels)) }
    ensures grew { Grew out.old.items out.new.items }
{
    let gain = Token::Ratio {
        number: gain,
        unit: GAIN_UNIT,
    };
    put_line(out, &[Token::Word(status)])?;
    put_line(out, &[Token::Word("gain"), gain])?;
    put_plan_lines(out, plan)?;
    put_line(out, &[Token::Word("labels"), Token::Number(labels as u64)])
}

// Appends the lines of the labels of a side.
fn append_paths(out: &mut Vec<u8>, end: End, paths: &[Vec<Directed>]) -> Result<(), AllocError>
    ensures ok { OnOk result (out.new.items
        ≡ out.old.items ++ flat_map spelled_line (map (path_line end) (map (λ path. path.items) paths.now))) }
    ensures grew { Grew out.old.items out.new.items }
{
    for path in paths {
        put_path(out, end, path)?;
    }
    Ok(())
}

// Appends the line of a label, with its path in time order.
fn put_path(out: &mut Vec<u8>, end: End, path: &[Directed]) -> Result<(), AllocError>
    ensures ok { OnOk result (out.new.items ≡ out.old.items ++ spelled_line (path_line end path.now)) }
    ensures err { OnErr result (out.new.items ≡ out.old.items) }
{
    match end {
        End::Forward => put_number_line(
            out,
            &[Token::Word("F")],
            path.iter().map(|x| u64::from(x.0)),
        ),
        End::Backward => put_number_line(
            out,
            &[Token::Word("B")],
            path.iter().rev().map(|x| u64::from(x.0)),
        ),
    }
}

// Appends the lines of the marks.
fn append_marks(out: &mut Vec<u8>, marks: &[Mark]) -> Result<(), AllocError>
    ensures ok { OnOk result (out.new.items ≡ out.old.items ++ flat_map spelled_line (map mark_line marks.now)) }
    ensures grew { Grew out.old.items out.new.items }
{
    for mark in marks {
        put_mark(out, *mark)?;
    }
    Ok(())
}

// Appends the line of a mark.
fn put_mark(out: &mut Vec<u8>, mark: Mark) -> Result<(), AllocError>
    ensures ok { OnOk result (out.new.items ≡ out.old.items ++ spelled_line (mark_line mark)) }
    ensures err { OnErr result (out.new.items ≡ out.old.items) }
{
    match mark {
        Mark::Retire { end, label, by } => put_line(
            out,
            &[
                Token::Word("R"),
                side_word(end),
                Token::Number(u64::from(label)),
                Token::Number(u64::from(by)),
            ],
        ),
        Mark::Cut { end, label } => put_line(
            out,
            &[
                Token::Word("C"),
                side_word(end),
                Token::Number(u64::from(label)),
            ],
        ),
    }
}

// The letter of a side.
fn side_word(end: End) -> Token
    ensures { bytes_of result ≡ side_word end }
{
    match end {
        End::Forward => Token::Word("F"),
        End::Backward => Token::Word("B"),
    }
}
