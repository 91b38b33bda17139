//! Two strips of one request whose windows touch exactly.

ghost use Rattle.std.specs.Prelude.{◌≡◌, length, IfOk};

use crate::windows::{AT_0, AT_7, CLOSED};
use std::alloc::Global;
use strip_model::{Instance, ModelRefusal, Request, Strip};

const FIRST: Strip = Strip {
    request: 0,
    twin: None,
    area: 4,
    windows: [AT_0, CLOSED],
};

const SECOND: Strip = Strip {
    request: 0,
    twin: None,
    area: 6,
    windows: [AT_7, CLOSED],
};

const REQUESTS: [Request; 1] = [Request { gain: 10 }];

const STRIPS: [Strip; 2] = [FIRST, SECOND];

const TIMES: [u32; 16] = [0, 0, 2, 2, 0, 0, 2, 2, 2, 2, 0, 0, 2, 2, 0, 0];

/// Two strips of one request, of which the second opens and closes just when the satellite is ready for it after the first:
/// 0 + 5 + 2 = 7. Together they gain 2000 twentieths. The horizon is 12.
pub fn touching_strips(alloc: Global) -> Result<Instance, ModelRefusal>
    ensures requests { IfOk result (λ instance. length instance.requests ≡ 1) }
    ensures strips { IfOk result (λ instance. length instance.strips ≡ 2) }
{
    let requests = Vec::from_slice(alloc, &REQUESTS)?;
    let strips = Vec::from_slice(alloc, &STRIPS)?;
    Instance::new(alloc, requests, strips, &TIMES)
}
