ghost use Rattle.std.specs.Prelude.{◌≡◌};
ghost use Rattle.proof_log.specs.AnswerRefusal.{cause_of};

use seq_io::LineFault;
use thiserror::Error;

/// Why a line can't stand in the text of an answer. The first token from the left that can't stand decides.
#[derive(Clone, Copy, Debug, PartialEq, Eq, Error)]
pub enum LogCause {
    /// A token or the whole line is missing, or the line has no LF.
    #[error("the line ends early")]
    Ended,
    /// Another word or separator stands there than must, or an empty token, as between two blanks. Lines that can't come
    /// there are such, and so is the word `Best`, since such an answer has no log.
    #[error("another word must stand there")]
    Word,
    /// A token that must be a number isn't of the form.
    #[error("no number")]
    Number,
    /// A number is out of its range.
    #[error("the number is too large")]
    Range,
    /// A token follows the last of its line, as in a path of more numbers than there can be strips, or anything the line
    /// `end`.
    #[error("more than must stand there")]
    Extra,
}

/// Why a text was not read.
#[derive(Debug, Drop, Error)]
pub enum LogRefusal {
    /// The bytes are no text of an answer with a log. The line, counted from 1, is the first that can't stand there.
    #[error("line {line}: {cause}")]
    Refused { line: u32, cause: LogCause },
    /// No memory was left.
    #[error("out of memory")]
    Memory,
}

// The cause that is named for the fault of a line.
pub(crate) fn cause_of(fault: LineFault) -> LogCause
    ensures { result ≡ cause_of fault }
{
    match fault {
        LineFault::Ended => LogCause::Ended,
        LineFault::Word => LogCause::Word,
        LineFault::Number => LogCause::Number,
        LineFault::Range => LogCause::Range,
        LineFault::Extra => LogCause::Extra,
    }
}
