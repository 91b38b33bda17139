// The causes for which a line of a strict text is refused.
use thiserror::Error;

/// Why a line can't stand in a strict text. The first token from the left that can't stand decides.
#[derive(Clone, Copy, Debug, PartialEq, Eq, Error)]
pub enum LineFault {
    /// A token or the whole line is missing, or the line has no LF.
    #[error("the line ends early")]
    Ended,
    /// Another word or separator stands there than must, or an empty token, as between two blanks.
    #[error("another word must stand there")]
    Word,
    /// A token that must be a number isn't of the form.
    #[error("no number")]
    Number,
    /// A number is above its limit.
    #[error("the number is too large")]
    Range,
    /// A token follows the last of its line, or anything the last line.
    #[error("more than must stand there")]
    Extra,
}
