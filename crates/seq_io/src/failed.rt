// The one fault of a source and of a sink.
use thiserror::Error;

/// A call of a source or a sink failed, and took or appended nothing. It is answered only where
/// the count of faults of that object rose in the call, or stands at `LAST_COUNT`.
#[derive(Clone, Copy, Debug, PartialEq, Eq, Error)]
#[error("a read or a write failed")]
pub struct Failed;
