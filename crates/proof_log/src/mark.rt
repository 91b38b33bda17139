//! Why a label needs no extensions.

use strip_model::End;

/// A label is marked: no plan over it has to be looked at. Labels are numbered from 0 on each side, in the order of the
/// log.
#[derive(Clone, Copy, Debug, PartialEq, Eq)]
pub enum Mark {
    /// The label is retired by another of its side, which dominates it.
    Retire { end: End, label: u32, by: u32 },
    /// The label is cut: no plan over it gains more than the plan of the log.
    Cut { end: End, label: u32 },
}
