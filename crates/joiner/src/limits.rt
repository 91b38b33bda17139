/// The greatest number of workers that search for a pair.
pub const MAX_WORKERS: u32 = 32;
