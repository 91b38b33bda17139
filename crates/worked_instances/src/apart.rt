//! Twins of which none can follow the other.

ghost use Rattle.std.specs.Prelude.{◌≡◌, length, IfOk};

use crate::windows::{AT_0, AT_3, AT_10, AT_20, CLOSED};
use std::alloc::Global;
use strip_model::{Instance, ModelRefusal, Request, Strip};

const FIRST: Strip = Strip {
    request: 0,
    twin: Some(1),
    area: 5,
    windows: [AT_0, CLOSED],
};

const SECOND: Strip = Strip {
    request: 0,
    twin: Some(0),
    area: 5,
    windows: [AT_3, AT_20],
};

const ALONE: Strip = Strip {
    request: 1,
    twin: None,
    area: 2,
    windows: [AT_10, CLOSED],
};

const REQUESTS: [Request; 2] = [Request { gain: 10 }, Request { gain: 1 }];

const STRIPS: [Strip; 3] = [FIRST, SECOND, ALONE];

const TIMES: [u32; 36] = [
    0, 0, 2, 2, 2, 2, 0, 0, 2, 2, 2, 2, 2, 2, 0, 0, 2, 2, 2, 2, 0, 0, 2, 2, 2, 2, 2, 2, 0, 0, 2, 2,
    2, 2, 0, 0,
];

/// Two twins and a third strip. Directly after the first twin the second can't start in that one's direction, and can in the
/// other, so the greatest gain is that of the third strip, 40 twentieths. The horizon is 25.
pub fn twins_apart(alloc: Global) -> Result<Instance, ModelRefusal>
    ensures requests { IfOk result (λ instance. length instance.requests ≡ 2) }
    ensures strips { IfOk result (λ instance. length instance.strips ≡ 3) }
{
    let requests = Vec::from_slice(alloc, &REQUESTS)?;
    let strips = Vec::from_slice(alloc, &STRIPS)?;
    Instance::new(alloc, requests, strips, &TIMES)
}
