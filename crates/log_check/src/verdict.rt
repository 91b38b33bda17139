//! What a check answers.

/// Whether a log proves that its plan is optimal.
#[derive(Clone, Copy, Debug, PartialEq, Eq)]
pub enum Verdict {
    /// The log keeps the eight rules.
    Accepted,
    /// The first rule, by its number from 1 to 8, that the log breaks, and the first place at which it does: for rule 1
    /// the place in the plan, for rule 2 always 0, for rules 4 to 6 the number of the mark, each from 0; for rules 3 and 7
    /// the forward root is 0, forward label k is k + 1, and the backward root and labels follow; for rule 8 it is the
    /// place of the forward one.
    Rejected { rule: u8, at: u64 },
}
