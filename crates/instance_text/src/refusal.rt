ghost use Rattle.std.specs.Prelude.{◌≡◌};
ghost use Rattle.instance_text.specs.declared.refusal.TextRefusal.TheVariants.{Refused, Memory};

use std::alloc::{AllocError, AllocFailed};
use thiserror::Error;

/// Why a text is no instance text. Each cause has a number, which the program prints.
#[derive(Clone, Copy, Debug, PartialEq, Eq, Error)]
pub enum Cause {
    /// 1: a line lacks a token, or there is no further line.
    #[error("the text ends early")]
    Ended,
    /// 2: a fixed word isn't there.
    #[error("another word is wanted")]
    Word,
    /// 3: a token that must be a number is none.
    #[error("not a number")]
    Number,
    /// 4: a number is out of its range.
    #[error("the number is out of range")]
    Range,
    /// 5: more requests or strips than the limit.
    #[error("too many")]
    TooMany,
    /// 6: a token follows the last of its line, or a line with tokens follows `end`.
    #[error("a token too many")]
    Extra,
    /// 7: the twin of strip i's twin isn't i.
    #[error("strip {i} is not the twin of its twin")]
    TwinNotMutual { i: u16 },
    /// 8: strip i is its own twin.
    #[error("strip {i} is its own twin")]
    TwinSelf { i: u16 },
    /// 9: strip i's twin is of another request.
    #[error("the twin of strip {i} is of another request")]
    TwinOtherRequest { i: u16 },
    /// 10: a manoeuvre between directions of one strip isn't 0.
    #[error("the manoeuvre from {x} to {y} of one strip takes {value}")]
    SameStrip { x: u16, y: u16, value: u32 },
    /// 11: the detour from x to z by y saves time.
    #[error("the detour from {x} to {z} by {y} saves time")]
    Shortcut { x: u16, y: u16, z: u16 },
    /// 12: the version isn't 1.
    #[error("another version")]
    Version,
}

/// A cause with its line, counted from 1, lines that are passed over included.
#[derive(Clone, Copy, Debug, PartialEq, Eq)]
pub struct Refusal {
    pub line: u32,
    pub cause: Cause,
}

/// Why a text was not read.
#[derive(Debug, Drop, Error)]
pub enum TextRefusal {
    /// The bytes are no instance text.
    #[error("line {}: {}", .0.line, .0.cause)]
    Refused(Refusal),
    /// No memory was left.
    #[error("out of memory")]
    Memory,
}

impl From<Refusal> for TextRefusal {
    ghost from_gives = { λ refusal e. e ≡ Refused refusal };

    fn from(refusal: Refusal) -> Self {
        TextRefusal::Refused(refusal)
    }
}

impl From<AllocError> for TextRefusal {
    ghost from_gives = { λ _ e. e ≡ Memory };

    fn from(_: AllocError) -> Self {
        TextRefusal::Memory
    }
}

impl<T: Drop> From<AllocFailed<T>> for TextRefusal {
    ghost from_gives = { λ _ e. e ≡ Memory };

    fn from(_: AllocFailed<T>) -> Self {
        TextRefusal::Memory
    }
}
