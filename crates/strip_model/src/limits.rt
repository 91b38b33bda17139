//! The limits that an instance keeps, and what follows from them. How many directed strips there can be, and how long
//! acquisitions and manoeuvres take, is limited in the crate `manoeuvre`.

use gain_curve::MAX_AREA;
use manoeuvre::{MAX_DIRECTED, MAX_DURATION};

/// The greatest number of strips: as many as a table has room for, with two directed strips each.
pub const MAX_STRIPS: usize = MAX_DIRECTED as usize / 2;

/// The greatest number of requests: as many as strips, since a request without strips gains nothing.
pub const MAX_REQUESTS: usize = MAX_STRIPS;

/// The greatest gain of a request.
pub const MAX_GAIN: u32 = 1_000_000;

/// The greatest area of a strip. An area is at least 1.
pub const MAX_STRIP_AREA: u32 = 1_000_000;

// The curve takes the area of all strips together.
const _: () = prove!(MAX_STRIPS as u64 * MAX_STRIP_AREA as u64 <= MAX_AREA);

/// The greatest end of a window, in ticks.
pub const MAX_WINDOW_END: u32 = 1_000_000_000;

/// The greatest end of an acquisition, in ticks: an end of a window and the longest duration.
pub const MAX_HORIZON: u32 = MAX_WINDOW_END + MAX_DURATION;

/// The greatest gain of a plan, in twentieths: all strips, each of the greatest area and of a request of the greatest gain.
pub const MAX_TOTAL_GAIN: u64 = 20 * MAX_STRIPS as u64 * MAX_STRIP_AREA as u64 * MAX_GAIN as u64;
