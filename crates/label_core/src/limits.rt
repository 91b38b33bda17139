//! The limits of a core.

use label::MAX_LISTED;

/// The greatest number of labels in a core, whatever their states: as many as one list may have, so that each list has room for
/// all.
pub const MAX_CORE_LABELS: u64 = MAX_LISTED as u64;
