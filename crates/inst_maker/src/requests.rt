//! The requests of a made instance.

ghost use Rattle.std.specs.Prelude.{◌≡◌, ◌≤◌, IfOk, OnOk};
ghost use Rattle.inst_maker.specs.Draws.{in_order};
ghost use Rattle.inst_maker.specs.Made.{a_request};

use crate::draws::Draws;
use std::alloc::{AllocError, Global};
use strip_model::Request;

// So many requests, one after another.
#[tactic(auto, using(crate::proofs::InOrder::steps))]
pub fn draw_requests(
    alloc: Global,
    draws: &mut Draws,
    count: u16,
) -> Result<Vec<Request>, AllocError>
    ensures requests { IfOk result (λ requests.
        requests.items ≡ (in_order (λ _. a_request) count draws.old).value) }
    ensures state { OnOk result (draws.new ≡ (in_order (λ _. a_request) count draws.old).state) }
{
    let mut requests = Vec::with_capacity(alloc, usize::from(count))?;
    for _i in 0..count {
        requests.push(draw_request(draws))?;
    }
    Ok(requests)
}

// One request.
#[tactic(auto, unfolding(crate::specs::Made::a_request))]
fn draw_request(draws: &mut Draws) -> Request
    ensures request { result ≡ (a_request draws.old).value }
    ensures state { draws.new ≡ (a_request draws.old).state }
{
    Request {
        gain: 1 + draws.below(100),
    }
}
