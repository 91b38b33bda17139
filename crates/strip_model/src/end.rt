//! The two ends of the orbit.

/// The end of the orbit from which a partial sequence is built.
#[derive(Clone, Copy, Debug, PartialEq, Eq, Hash)]
pub enum End {
    /// From the first acquisition on, in time order.
    Forward,
    /// From the last acquisition back, on the mirrored instance.
    Backward,
}
