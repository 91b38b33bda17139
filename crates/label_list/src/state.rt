//! What can become of a label.

/// What has become of a label. It is live while it waits or is taken.
#[derive(Clone, Copy, Debug, PartialEq, Eq)]
pub enum State {
    /// Nobody has taken it yet.
    Waiting,
    /// Somebody has taken it, to extend it.
    Taken,
    /// The label with the id `by` dominates it.
    Retired { by: u32 },
    /// Its bound was no greater than a gain that was had already.
    Cut,
}
