//! The marks of a core: why each label that lives no more was given up.

use bucket::Id;

/// Why a label lives no more.
#[derive(Clone, Copy, Debug, PartialEq, Eq)]
pub enum Note {
    /// The label `by`, of the same side, dominates it.
    Retires { label: Id, by: Id },
    /// Its bound was at most the incumbent's gain.
    Cuts { label: Id },
}
