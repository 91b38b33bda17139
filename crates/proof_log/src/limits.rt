/// The greatest number of labels of both sides together.
pub const MAX_LABELS: usize = 2_000_000;

/// The unit of the gain that is written: a gain is a number of twentieths.
pub const GAIN_UNIT: u64 = 20;
