//! What a lock knows of its value: a history that only grows, and a frame that stays.
ghost use Rattle.std.specs.Prelude.{List};

/// A value that keeps a history, and a frame beside it. Both stand in proofs alone.
pub trait Chronicle {
    /// One entry of the history. No value of it need be made.
    type Entry;
    /// The frame: plain data that never changes, such as which value it is of several. No value of it need be made.
    type Frame;

    // The entries that were made so far, in their order.
    ghost history: { Self → List Self.Entry };

    // The frame.
    ghost frame: { Self → Self.Frame };
}
