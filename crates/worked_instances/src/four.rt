//! Four strips of three requests.

ghost use Rattle.std.specs.Prelude.{◌≡◌, length, IfOk};

use crate::windows::{AT_0, AT_10, AT_20, CLOSED};
use std::alloc::Global;
use strip_model::{Instance, ModelRefusal, Request, Strip};

const GREAT: Strip = Strip {
    request: 0,
    twin: None,
    area: 10,
    windows: [AT_0, CLOSED],
};

const PART: Strip = Strip {
    request: 1,
    twin: None,
    area: 4,
    windows: [AT_0, CLOSED],
};

const LAST: Strip = Strip {
    request: 2,
    twin: None,
    area: 1,
    windows: [AT_10, CLOSED],
};

const OTHER_PART: Strip = Strip {
    request: 1,
    twin: None,
    area: 6,
    windows: [AT_20, CLOSED],
};

const REQUESTS: [Request; 3] = [
    Request { gain: 2 },
    Request { gain: 10 },
    Request { gain: 1 },
];

const STRIPS: [Strip; 4] = [GREAT, PART, LAST, OTHER_PART];

const TIMES: [u32; 64] = [
    0, 0, 2, 2, 2, 2, 2, 2, 0, 0, 2, 2, 2, 2, 2, 2, 2, 2, 0, 0, 2, 2, 2, 2, 2, 2, 0, 0, 2, 2, 2, 2,
    2, 2, 2, 2, 0, 0, 2, 2, 2, 2, 2, 2, 0, 0, 2, 2, 2, 2, 2, 2, 2, 2, 0, 0, 2, 2, 2, 2, 2, 2, 0, 0,
];

/// Four strips, of which the first two exclude each other. The first gains 400 twentieths at once; the second gains 200, and
/// with the fourth, which is of its request, 2000. With the third, which gains 20, the greatest gain is 2020. The horizon is 25.
/// The forward label paths with the cut 12 are 0, 2, 4, 0 4 and 2 4, and the backward one is 6.
pub fn four_strips(alloc: Global) -> Result<Instance, ModelRefusal>
    ensures requests { IfOk result (λ instance. length instance.requests ≡ 3) }
    ensures strips { IfOk result (λ instance. length instance.strips ≡ 4) }
{
    let requests = Vec::from_slice(alloc, &REQUESTS)?;
    let strips = Vec::from_slice(alloc, &STRIPS)?;
    Instance::new(alloc, requests, strips, &TIMES)
}
